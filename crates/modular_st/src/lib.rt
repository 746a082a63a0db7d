//! The matrices S and T of a twisted quantum double.
#![tactic(auto)]

mod conjugates;
mod kept_sum;
mod matrix;
mod numerator;
mod orbits;
mod refusal;
mod twist;

pub use matrix::{SMatrix, s_matrix};
pub use numerator::s_numerator;
pub use orbits::commuting_pairs;
pub use pair_orbits::{Pair, Pairs};
pub use refusal::StRefusal;
pub use twist::twist_exponent;
