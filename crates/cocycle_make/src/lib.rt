//! Normalised 3-cocycles by formulas: the trivial one, types I, II and III on products of cyclic groups, and
//! inflation along a map.
#![tactic(auto)]

ghost use Rattle.cocycle_make.specs.Laws.{LawfulExponents, TrivialIsLawful, TypeOneIsLawful, TypeTwoIsLawful, TypeThreeIsLawful, InflatedIsLawful};

mod inflation;
mod lowest;
mod makers;
mod refusal;
mod values;

pub use group_table::Memory;
pub use inflation::inflate;
pub use makers::{trivial, type_one, type_three, type_two};
pub use refusal::InflateRefusal;

/// The formulas give normalised 3-cocycles, for numbers without bound. Exponents that meet the plain laws break none.
pub fn cocycle_laws()
    ensures complete { LawfulExponents }
    ensures trivial { TrivialIsLawful }
    ensures type_one { TypeOneIsLawful }
    ensures type_two { TypeTwoIsLawful }
    ensures type_three { TypeThreeIsLawful }
    ensures inflated { InflatedIsLawful }
{}
