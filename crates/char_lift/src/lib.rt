//! From the central characters of a twist modulo a prime to rows of cyclotomic values: degrees, multiplicities, and lifted values.
#![tactic(auto)]

ghost use Rattle.char_lift.specs.Laws.{LiftedAreRoots, LiftedValues};

mod degree;
mod lifting;
mod multiplicities;
mod ratios;
mod refusal;
mod root_powers;
mod value;

pub use lifting::lift;
pub use refusal::LiftRefusal;

/// What the rows of a lift are: each value of a row is a sum of d roots of unity, where d is the degree of its candidate and d d at most
/// the number of places. So conjugates, root multiples, products and sums of lifted values are sums of roots too, as many as their
/// factors and terms say, and no size of theirs is greater than that number.
pub fn lifted_row_laws()
    ensures roots { LiftedAreRoots }
    ensures values { LiftedValues }
{}
