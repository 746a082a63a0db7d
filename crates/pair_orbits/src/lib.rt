//! The pairs of elements of a finite group that commute, up to conjugation of both at once.
#![tactic(auto)]

mod laws;
mod listing;
mod pair;
mod pairs;

pub use laws::{listing_laws, sum_laws};
pub use listing::commuting_pairs;
pub use pair::Pair;
pub use pairs::Pairs;
