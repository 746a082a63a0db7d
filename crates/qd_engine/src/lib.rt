//! The whole program as one call: from its words and its input to its report, its status and what that means.
#![tactic(auto)]

mod answer;
mod bare;
mod certificate;
mod class_list;
mod command;
mod conductors;
mod finish;
mod indicator_lines;
mod input;
pub mod laws;
mod maker_words;
mod number_words;
mod numbers;
mod row_parts;
mod row_report;
mod row_tests;
mod rows;
mod running;
mod shape;
mod steps;
mod stop;
mod summary;
mod words;

pub use answer::{Answer, Why};
pub use running::run;

#[cfg(test)]
mod tests;
