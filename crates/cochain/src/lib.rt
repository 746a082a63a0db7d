//! Normalised 3-cocycles of finite groups with values in roots of unity.
#![tactic(auto)]

ghost use Rattle.cochain.specs.Laws.{CocycleExactly};

mod coboundary;
mod cocycle;
mod fault;
mod laws;
mod three_cochain;
mod zero_rows;

pub use coboundary::exponents_by;
pub use cocycle::Cocycle;
pub use fault::{CocycleFault, CocycleRefusal, GaugeRefusal};

/// The check of exponents is no stricter than the laws: a cochain whose exponents meet the plain equations breaks none.
pub fn cocycle_laws()
    ensures exactly { CocycleExactly }
{}
