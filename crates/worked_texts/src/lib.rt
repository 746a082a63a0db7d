//! Texts, documents and lines, worked by hand: what no contract says, and each call that may want memory once.
#![tactic(auto)]

#[cfg(test)]
mod documents;
#[cfg(test)]
mod lines;
#[cfg(test)]
mod texts;
