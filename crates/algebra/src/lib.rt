//! Commutative groups and rings, finite sums, and congruences: the algebra that the layers above are stated in.
//!
//! The definitions stand in `specs/`, and their laws, for every commutative ring and every finite group, in the files of
//! `proofs/`, which the crates above import. A law there is proved wherever a contract's proof cites it. The functions
//! below carry the main ones as contracts of their own; they do nothing when called.
#![tactic(auto)]

ghost use Rattle.algebra.specs.Theorems.{SumsExchange, FactorsGoIn, SumsWithOneTerm, TotalsReindex, CongruencesShift, ConvolutionAssociates};

/// Two nested finite sums may be exchanged.
pub fn sums_exchange()
    ensures { SumsExchange }
{}

/// A constant factor goes into a finite sum.
#[tactic(auto, using(crate::proofs::SumLaws::mul_sum))]
pub fn factors_go_in()
    ensures { FactorsGoIn }
{}

/// A finite sum in which a test leaves one term is that term.
pub fn sums_with_one_term()
    ensures { SumsWithOneTerm }
{}

/// A sum over a finite type may be taken along any map that has an inverse.
pub fn totals_reindex()
    ensures { TotalsReindex }
{}

/// A congruence carries over to two numbers with the same difference.
#[tactic(auto, using(crate::proofs::CongruenceLaws::same_lin))]
pub fn congruences_shift()
    ensures { CongruencesShift }
{}

/// The group algebra of a finite group, twisted by a normalised 2-cocycle, is associative.
#[tactic(auto, using(crate::proofs::ConvolutionLaws::convolution_assoc))]
pub fn convolution_associates()
    ensures { ConvolutionAssociates }
{}
