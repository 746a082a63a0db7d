//! Webs of fusion numbers and indicators, worked by hand.
#![tactic(auto)]

#[cfg(test)]
mod indicators_by_hand;
#[cfg(test)]
mod webs;
