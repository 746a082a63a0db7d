//! Frobenius-Schur indicators from fusion numbers, dimensions and twists.
#![tactic(auto)]

mod numerator;

pub use numerator::indicator;
