//! Groups, classes, twists, extensions, tables and S, worked by hand: what no contract says, and each call that may want memory once.
#![tactic(auto)]

#[cfg(test)]
mod conjugacy;
#[cfg(test)]
mod extensions;
#[cfg(test)]
mod groups;
#[cfg(test)]
mod made;
#[cfg(test)]
mod orbits_by_hand;
#[cfg(test)]
mod phases_by_hand;
#[cfg(test)]
mod semions;
#[cfg(test)]
mod tables;
#[cfg(test)]
mod twists;
