//! Commutative algebras over a prime field in which each element is its own q-th power split into copies of the field.
//!
//! The definitions stand in `specs/`, and their laws, for all rings, in the files of `proofs/`, which the crates above import. The
//! functions below carry the main ones as contracts of their own; they do nothing when called.
#![tactic(auto)]

ghost use Rattle.splitting_theory.specs.Theorems.{PartsAct, PartsIdempotent, PartsTotal, PiecesSplit, ValuesAreCharacters, CharactersListed, SplittingCounts, RowsDependent};

/// Where each element is its own q-th power, an element multiplies each part of an idempotent by the part's number; the parts are
/// idempotent and add up to it. So one falls into nonzero orthogonal idempotents that any given elements multiply by numbers,
/// in the order of these numbers.
pub fn splitting_laws()
    ensures act { PartsAct }
    ensures idempotent { PartsIdempotent }
    ensures total { PartsTotal }
    ensures pieces { PiecesSplit }
{}

/// The characters of such an algebra are the values of its basis at the pieces: these are characters, each character is one of
/// them, and there are as many as elements in the basis.
pub fn character_laws()
    ensures values { ValuesAreCharacters }
    ensures listed { CharactersListed }
    ensures count { SplittingCounts }
    ensures dependent { RowsDependent }
{}
