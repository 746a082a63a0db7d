//! Finite groups by their multiplication tables.
#![tactic(auto)]

ghost use Rattle.group_table.specs.Laws.{GroupOfNumbers, GroupExactly, PassingExactly, PassingAscends};

mod fault;
mod group;
mod laws;
mod nats;
mod powers;

pub use fault::{GroupFault, GroupRefusal};
pub use group::Group;
pub use nats::Nats;
/// There was no memory for what was asked. Nothing that was lent has changed.
pub use std::alloc::AllocError as Memory;

/// The sentences of a group, from a table that breaks no law: products and the identity are elements, the identity is neutral on
/// both sides, each element has a right inverse, and products associate. The check of a table is no stricter: a square table whose
/// products meet these sentences breaks no law.
pub fn group_laws()
    ensures sentences { GroupOfNumbers }
    ensures exactly { GroupExactly }
{}

/// The numbers below a bound that pass a test: each of them is in the list, no other is, and the list ascends.
pub fn number_laws()
    ensures exactly { PassingExactly }
    ensures ascends { PassingAscends }
{}
