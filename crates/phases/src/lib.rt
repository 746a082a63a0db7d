//! Phases of a normalised 3-cocycle over a group whose elements are a type: the slant product, the coproduct phase, the
//! transport phase and the conjugation phase, as exponents, with the identities that they meet.
//!
//! The definitions stand in `specs/` and the identities in `proofs/PhaseLaws.antt`, which the crates above import. An
//! identity there is proved wherever a contract's proof cites it.
#![tactic(auto)]
