//! Full characters of a twisted quantum double, its matrix S and its tensor products, over a group whose elements are a type
//! and any commutative ring with roots of unity and a conjugation.
//!
//! The definitions stand in `specs/`, and their laws, for every such group and ring, in the files of `proofs/`, which the
//! crates above import: `transport` has them as contracts, for the simples by any good tables. The functions below carry those that no
//! contract above says; they do nothing when called.
#![tactic(auto)]

ghost use Rattle.characters.specs.Theorems.{RowsOrthogonal, PairsOrthogonal, CharactersSpan};
ghost use Rattle.characters.specs.PlaceTheorems.{TotalsOverPlaces, CentralAtPlaces, GoodAtElements};

/// Rows of good tables are orthogonal, so are full characters at pairs, summed over the simples, and full characters span the covariant
/// functions.
pub fn orthogonality_laws()
    ensures rows { RowsOrthogonal }
    ensures pairs { PairsOrthogonal }
    ensures span { CharactersSpan }
{}

/// What holds over the places of a centraliser holds over its elements.
pub fn place_laws()
    ensures totals { TotalsOverPlaces }
    ensures central { CentralAtPlaces }
    ensures good { GoodAtElements }
{}
