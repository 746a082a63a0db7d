//! Values over prime fields, worked by hand or by an independent program: what no contract says, and each call that may want memory once.
#![tactic(auto)]

#[cfg(test)]
mod fields;
#[cfg(test)]
mod matrices;
