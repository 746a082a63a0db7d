//! The fusion numbers of the simples of a twisted quantum double.
#![tactic(auto)]

mod conjugates;
mod elements;
mod full;
mod inner;
mod kept;
pub mod laws;
mod listed;
mod making;
mod pair;
mod plain;
mod quotient;
mod reads;
mod refusal;
mod sparse;
mod web;
mod weighted;

pub use reads::{dual, plane};
pub use refusal::FusionRefusal;
pub use web::numbers;
