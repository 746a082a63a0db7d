//! Central characters modulo a prime and their lifts, worked by hand or by an independent program.
#![tactic(auto)]

#[cfg(test)]
mod characters;
#[cfg(test)]
mod lifts;
#[cfg(test)]
mod made;
