//! The simples of a twisted quantum double: the rows of good tables of its classes, in order, with their full characters.
#![tactic(auto)]

ghost use Rattle.transport.specs.Laws.{SimplesAreRows, SimplesAscend, TransporterIndependent, Covariant, TermsInvariant};
ghost use Rattle.transport.specs.Headline.{OfAllSimples, CharactersOrthogonal, SSymmetric, VacuumRow, VacuumEntry, SUnitary, AdjointUnitary, SquaresOfDimensions};
ghost use Rattle.transport.specs.Headline.{TwistsAct, TwistsUnitary, StepsAreInverse, STSRelation, STCubeRelation, SFourthRelation, HasModularData};
ghost use Rattle.transport.specs.Headline.{TensorProductsDecompose, FusionDimensions, NumbersOfDimensions, NumbersAreRule};

mod entry;
mod listing;
mod simples;
mod tables;

pub use simples::Simples;
pub use tables::Tables;

/// The simples are all rows of all tables, in ascending order.
pub fn order_laws()
    ensures rows { SimplesAreRows }
    ensures ascend { SimplesAscend }
{}

/// A full character is the same by every element that carries the representative of its class, and it is covariant; the terms of S are
/// the same at all conjugates of a pair.
pub fn full_character_laws()
    ensures transporter { TransporterIndependent }
    ensures covariant { Covariant }
    ensures terms { TermsInvariant }
{}

/// Of the simples by any good tables: full characters are orthogonal over the pairs of elements that commute; S is symmetric and unitary,
/// its row at the vacuum holds the dimensions, and their squares add up to the square of the order of the group.
pub fn s_laws()
    ensures orthogonal { OfAllSimples CharactersOrthogonal }
    ensures symmetric { OfAllSimples SSymmetric }
    ensures vacuum_row { OfAllSimples VacuumRow }
    ensures vacuum_entry { OfAllSimples VacuumEntry }
    ensures unitary { OfAllSimples SUnitary }
    ensures adjoint { OfAllSimples AdjointUnitary }
    ensures squares { OfAllSimples SquaresOfDimensions }
{}

/// Of the simples by any good tables: the twists are the values of the central elements u_g of the twisted algebras, and S and T satisfy
/// the relations of the modular group.
pub fn relation_laws()
    ensures acts { OfAllSimples TwistsAct }
    ensures inverse { OfAllSimples TwistsUnitary }
    ensures steps { OfAllSimples StepsAreInverse }
    ensures product { OfAllSimples STSRelation }
    ensures cube { OfAllSimples STCubeRelation }
    ensures fourth { OfAllSimples SFourthRelation }
    ensures modular_data { OfAllSimples HasModularData }
{}

/// Of the simples by any good tables: tensor products decompose into simples by the fusion sums. Where these are the order of the group
/// times whole numbers, the numbers are the multiplicities, and both forms of Verlinde's formula hold of them.
pub fn fusion_laws()
    ensures decompose { OfAllSimples TensorProductsDecompose }
    ensures sums_of_dimensions { OfAllSimples FusionDimensions }
    ensures dimensions { OfAllSimples NumbersOfDimensions }
    ensures rule { OfAllSimples NumbersAreRule }
{}
