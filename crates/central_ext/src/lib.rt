//! The central extension of the group of a twist by its roots of unity: products, powers, conjugacy and classes.
#![tactic(auto)]

ghost use Rattle.central_ext.specs.Laws.{ProductIsPair, IdentityIsPair, InverseIsPair, PairsAssociate, PairsIdentity, PairsInverse, ConjugateOfPair};
ghost use Rattle.central_ext.specs.Laws.{ConjugateExactly, ConjugateToItself, ConjugateBothWays, ConjugateOnwards, ClassNumbersTell, RegularExactly};
ghost use Rattle.central_ext.specs.Laws.{PowerOfLift, PowerPhaseOfSum, PowerOfUnit};
ghost use Rattle.central_ext.specs.Instances.{TwoIsTwist, PlainIsTwist, BitsIsTwist, TwoExtended, BitsExtended};

mod conjugacy;
mod extension;
mod pair;
mod powers;

pub use conjugacy::{ext_classes, lifts_conjugate};
pub use extension::{ext_inverse, ext_product};
pub use pair::Pair;
pub use powers::power_phase;
use qd_ring::Ring;

/// The pairs are a group: products, the identity and inverses are pairs, products associate, and the identity and inverses are such
/// on both sides. The conjugate of `(p,i)` by `(c,k)` is `(c p c^-1, i + kappa(c,p))`.
#[tactic(auto, using(crate::proofs::PairLaws::product_pair, crate::proofs::PairLaws::identity_pair, crate::proofs::PairLaws::inverse_pair, crate::proofs::PairLaws::product_associates, crate::proofs::PairLaws::identity_product, crate::proofs::PairLaws::product_identity, crate::proofs::PairLaws::inverse_product, crate::proofs::PairLaws::product_inverse, crate::proofs::PairLaws::conjugate_is))]
pub fn extension_laws()
    ensures product { ProductIsPair }
    ensures identity { IdentityIsPair }
    ensures inverse { InverseIsPair }
    ensures associates { PairsAssociate }
    ensures by_identity { PairsIdentity }
    ensures by_inverse { PairsInverse }
    ensures conjugate { ConjugateOfPair }
{}

/// Conjugacy of pairs is an equivalence, and class numbers tell its classes apart. A place is regular exactly where its lifts are
/// pairwise not conjugate.
#[tactic(auto, using(crate::proofs::PairLaws::conjugate_itself, crate::proofs::PairLaws::conjugate_back, crate::proofs::PairLaws::conjugate_on, crate::proofs::ClassNumbers::numbers_tell, crate::proofs::RegularLifts::regular_exactly))]
pub fn conjugacy_laws()
    ensures exactly { ConjugateExactly }
    ensures itself { ConjugateToItself }
    ensures both_ways { ConjugateBothWays }
    ensures onwards { ConjugateOnwards }
    ensures numbers { ClassNumbersTell }
    ensures regular { RegularExactly }
{}

/// The power of a lift `(p,0)` has the power of the place and its phase, and the phase of a power is that of its parts and of their
/// product.
#[tactic(auto, using(crate::proofs::PairPowers::power_of_lift, crate::proofs::PairPowers::phase_of_sum))]
pub fn power_phase_laws()
    ensures lift { PowerOfLift }
    ensures sum { PowerPhaseOfSum }
{}

/// The phase of a power is that of the power of `u_p` in the twisted group algebra: `u_p^j` is its root times `u_q`, where `q` is `p^j`.
#[tactic(auto, using(crate::proofs::AlgebraPowers::power_of_unit))]
pub fn power_laws<R: Ring>(ring: &R)
    ensures unit { PowerOfUnit (R.ops ring.now) (R.unit ring.now) }
{}

/// Worked values: the cyclic group of order 4 as an extension, the product of the permutations of three points with a group of order 2,
/// and an extension in which lifts are conjugate.
#[tactic(auto, using(crate::proofs::InstanceChecks::two_is_twist, crate::proofs::InstanceChecks::plain_is_twist, crate::proofs::InstanceChecks::bits_is_twist, crate::proofs::InstanceChecks::two_extended, crate::proofs::InstanceChecks::bits_extended))]
pub fn instances()
    ensures two { TwoIsTwist }
    ensures plain { PlainIsTwist }
    ensures bits { BitsIsTwist }
    ensures two_extended { TwoExtended }
    ensures bits_extended { BitsExtended }
{}
