//! All central characters of a twisted group algebra modulo a prime.
#![tactic(auto)]

mod arithmetic;
mod central;
mod class_sums;
mod images;
mod multipliers;
mod parts;
mod pieces;
mod splitting;
mod structure;

pub use central::Central;
pub use splitting::split;
