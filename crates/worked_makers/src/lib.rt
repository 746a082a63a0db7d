//! Groups and cocycles by formulas, with tables and exponents worked by hand.
#![tactic(auto)]

#[cfg(test)]
mod cocycles;
#[cfg(test)]
mod groups;
#[cfg(test)]
mod named;
