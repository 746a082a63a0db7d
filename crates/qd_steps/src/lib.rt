//! The steps from rows of values, stated or lifted, to the simples of a twisted quantum double.
#![tactic(auto)]

mod block_rows;
mod class_rows;
mod class_tables;
mod class_twists;
pub mod laws;
mod lifted;
mod refusal;
mod simples;
mod stated;

pub use class_twists::ClassTwists;
pub use refusal::StepRefusal;
pub use simples::{
    simples_by_modulus, simples_by_modulus_over, simples_by_rows, simples_by_rows_over,
};
