//! Whole-number polynomials modulo a cyclotomic polynomial: definitions, laws, and the table of
//! conductors.
//!
//! The definitions stand in `specs/`: polynomials as lists of coefficients, long division,
//! cyclotomic polynomials, the ring of values modulo one of them, roots of unity, conjugates,
//! Galois images, and the rules of fit. The functions of `laws` do nothing when they run; their
//! clauses are the laws of these definitions.
#![tactic(auto)]

pub mod laws;
mod table;

pub use table::{NoConductor, conductor, phi};
