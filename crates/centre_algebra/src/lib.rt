//! The centre of a twisted group algebra modulo a listed prime, as an algebra with the class sums as a basis, and its characters.
#![tactic(auto)]

ghost use Rattle.centre_algebra.specs.Laws.{CentreSplits};

use prime_field::ModRing;

/// Every centre splits: for each twist that has fewer than q places and whose modulus times the exponent of its group divides
/// the conductor of the field, there are as many central characters modulo q as the rank.
pub fn splitting_law(ring: &ModRing)
    ensures splits { CentreSplits ring.now }
{}
