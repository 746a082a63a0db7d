//! Laws of the rows that a modulus gives: a function with an empty body, whose clauses are theorems.

ghost use Rattle.qd_steps.specs.Laws.{IsFieldOfItsNumbers, LiftedAreMatched, LiftedAreRootRows, ModulusCauses};

use prime_field::ModRing;

/// A field is the one of its modulus and its conductor. The lifted rows of all classes match the classes; they are rows of sums of roots
/// of unity where every class has them, as the conductor is a multiple of the number of roots times the exponent of the group; and so the
/// simples are refused only for a class without lifted rows, for an equation that fails, for a row without a twist, or for want of a
/// vacuum: never for a number of rows or a sum that overflows.
pub fn modulus_laws(ring: &ModRing)
    ensures field { IsFieldOfItsNumbers ring.now }
    ensures matched { LiftedAreMatched ring.now }
    ensures roots { LiftedAreRootRows ring.now }
    ensures causes { ModulusCauses ring.now }
{}
