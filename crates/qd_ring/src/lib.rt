//! The coefficients of the calculator: roots of unity, cyclotomic values and the rings that they
//! form, with exact rules of fit.
#![tactic(auto)]

mod cyc;
mod cyc_buffer;
mod cyc_ops;
mod cyc_ring;
mod cyc_ring_laws;
mod folded;
pub mod laws;
mod monomial;
mod plain;
pub mod reduction;
mod ring;
mod root;
mod rows;
mod site;
mod sparse_buffer;
mod sum;
mod terms;
mod total;
mod unit_group;
mod value_reader;
mod value_text;

pub use cyc::Cyc;
pub use cyc_ring::CycRing;
pub use cyclotomic::{NoConductor, conductor, phi};
pub use folded::Folded;
pub use monomial::Monomial;
pub use plain::{Plain, ValueFault};
pub use ring::Ring;
pub use root::Root;
pub use rows::Rows;
pub use site::{Part, Site};
pub use sum::{root_of, try_sum, try_sum_below, try_term};
pub use terms::Terms;
pub use total::Total;
pub use unit_group::UnitGroup;
pub use value_reader::read_plain;
pub use value_text::append_plain;
/// There was no memory for what was asked. Nothing that was lent has changed.
pub use std::alloc::AllocError as Memory;
