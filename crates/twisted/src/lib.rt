//! Subgroups of a finite group with a normalised 2-cocycle, their twisted group algebras, and the centres of these.
#![tactic(auto)]

ghost use Rattle.twisted.specs.Laws.{KappaComposes, RegularOnClasses, KappaOfConjugate, RankCounts};
ghost use Rattle.twisted.specs.Laws.{ProductAssociates, CentralExactly, ClassSumAtConjugates, CombinationsAreCentral, CentralIsCombination, CoefficientsAreUnique};
ghost use Rattle.twisted.specs.Instances.{FourIsTwist, FourRegular, PermutationsAreTwist, PermutationsRegular};

mod elem;
mod product;
mod regular;
mod sums;
mod twist;

pub use classes::conjugate;
pub use elem::Elem;
pub use product::{MulRefusal, mul};
use qd_ring::Ring;
pub use regular::{centre_rank, is_regular, kappa, regular_reps};
pub use sums::class_sum;
pub use twist::Twist;

/// Conjugation phases compose; regularity is constant on classes; on a regular place the phase depends on the conjugate alone; and
/// the representatives of the regular classes are as many as the rank.
#[tactic(auto, using(crate::proofs::PhaseLaws::kappa_of_product, crate::proofs::PhaseLaws::regular_on_classes, crate::proofs::PhaseLaws::kappa_of_conjugate, crate::proofs::Representatives::counted))]
pub fn phase_laws()
    ensures composes { KappaComposes }
    ensures on_classes { RegularOnClasses }
    ensures of_conjugate { KappaOfConjugate }
    ensures rank { RankCounts }
{}

/// The twisted group algebra is associative.
#[tactic(auto, using(crate::proofs::AlgebraLaws::product_associates))]
pub fn product_laws<R: Ring>(ring: &R)
    ensures associates { ProductAssociates (R.ops ring.now) (R.unit ring.now) }
{}

/// The class sums of the representatives of the regular classes are a basis of the centre of the twisted group algebra: their
/// combinations commute with every `u_y`, and whatever does is such a combination, in one way. Its coefficients are its values at
/// the representatives.
#[tactic(auto, using(crate::proofs::AlgebraLaws::central_exactly, crate::proofs::AlgebraLaws::class_sum_at_conjugates, crate::proofs::AlgebraLaws::combination_central))]
pub fn centre_laws<R: Ring>(ring: &R)
    ensures central { CentralExactly (R.ops ring.now) (R.unit ring.now) }
    ensures class_sums { ClassSumAtConjugates (R.ops ring.now) (R.unit ring.now) }
    ensures combinations { CombinationsAreCentral (R.ops ring.now) (R.unit ring.now) }
    ensures spans { CentralIsCombination (R.ops ring.now) (R.unit ring.now) }
    ensures unique { CoefficientsAreUnique (R.ops ring.now) (R.unit ring.now) }
{}

/// Worked values: the four group whose algebra is that of the matrices of two rows, and a coboundary on the permutations of three
/// points, whose classes are all regular.
#[tactic(auto, using(crate::proofs::InstanceChecks::four_is_twist, crate::proofs::InstanceChecks::permutations_are_twist, crate::proofs::InstanceChecks::four_regular, crate::proofs::InstanceChecks::permutations_regular))]
pub fn instances()
    ensures four { FourIsTwist }
    ensures four_regular { FourRegular }
    ensures permutations { PermutationsAreTwist }
    ensures permutations_regular { PermutationsRegular }
{}
