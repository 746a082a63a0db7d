//! The conjugacy classes of a finite group, with centralisers and transporters.
#![tactic(auto)]

ghost use Rattle.classes.specs.Laws.{ConjugateByIdentity, ConjugateByProduct, ConjugateOfProduct, MembersExactly, CentraliserExactly, ClassEquation};
ghost use Rattle.classes.specs.Laws.{RepresentativeConjugate, RepresentativeLeast, RepresentativeOfConjugate, TransporterCarries, ClassRepresents, ClassOfRepresentative};

mod class_table;
mod parts;
mod sweep;

pub use class_table::Classes;
pub use parts::centraliser;
pub use sweep::conjugate;

/// Conjugation acts on the group by automorphisms, classes are its orbits, centralisers the elements that commute, and the
/// size of a class times that of a centraliser is the order of the group.
#[tactic(auto, using(crate::proofs::Conjugacy::conjugate_by_identity, crate::proofs::Conjugacy::conjugate_by_product, crate::proofs::Conjugacy::conjugate_of_product, crate::proofs::Counting::class_equation))]
pub fn conjugation_laws()
    ensures by_identity { ConjugateByIdentity }
    ensures by_product { ConjugateByProduct }
    ensures of_product { ConjugateOfProduct }
    ensures members { MembersExactly }
    ensures centraliser { CentraliserExactly }
    ensures equation { ClassEquation }
{}

/// Each element is conjugate to the representative of its class, which is the least such element and the same for the whole class;
/// the transporter carries it to the element; and classes and representatives name one another.
#[tactic(auto, using(crate::proofs::Conjugacy::representative_least, crate::proofs::Conjugacy::representative_of_conjugate, crate::proofs::Conjugacy::transporter_is, crate::proofs::Conjugacy::class_represents, crate::proofs::Conjugacy::class_of_representative))]
pub fn class_laws()
    ensures conjugate { RepresentativeConjugate }
    ensures least { RepresentativeLeast }
    ensures of_conjugate { RepresentativeOfConjugate }
    ensures carries { TransporterCarries }
    ensures represents { ClassRepresents }
    ensures of_representative { ClassOfRepresentative }
{}
