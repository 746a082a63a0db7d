//! Minimal polynomials of class sums modulo a listed prime.
#![tactic(auto)]

ghost use Rattle.minimal_polynomials.specs.Laws.{HaveMinimalPolynomials, EveryClassSumSplits};

use prime_field::ModRing;

/// Every class sum splits: for each twist that has fewer than q places and whose modulus times the exponent of its group divides
/// the conductor of the field, the minimal polynomial modulo q of the class sum of each regular class has as many distinct roots
/// as its degree.
pub fn class_sum_laws(ring: &ModRing)
    ensures there { HaveMinimalPolynomials ring.now }
    ensures splits { EveryClassSumSplits ring.now }
{}
