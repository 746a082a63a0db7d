//! From a twist and a prime to the lifted rows of all its central characters.
#![tactic(auto)]

ghost use Rattle.std.specs.Prelude.{◌≡◌, ◌<◌, ◌%◌, None, OnOk, IfOk, IfErr};
ghost use Rattle.twisted.specs.Twist.{size};
ghost use Rattle.twisted.specs.Regular.{rank};
ghost use Rattle.centre_powers.specs.CentralPowers.{unit_period};
ghost use Rattle.centre_algebra.specs.Laws.{AreCentralCharacters};
ghost use Rattle.char_lift.specs.Faults.{Refuses};
ghost use Rattle.twist_lift.specs.TwistRows.{twist_fault, twist_rows};
ghost use Rattle.twist_lift.specs.Laws.{TwistRowsAreRoots, TwistRowsMissClauses, ServesClasses};

use char_lift::{LiftRefusal, lift};
use dixon_split::Central;
use prime_field::ModRing;
use qd_ring::Rows;
use std::alloc::Global;
use twisted::Twist;

/// The lifted rows of all central characters of the twist modulo the prime of the field, which are these: one row for each, with one value
/// for each place, in their order.
///
/// They come exactly where every candidate has its degree and multiplicities; else the refusal is that of the first row that fails, and in
/// it of the least element (Dixon 1967).
pub fn lifted_rows<const K: u32>(
    alloc: Global,
    twist: &Twist,
    ring: &ModRing,
    central: &Central,
) -> Result<Rows<K>, LiftRefusal>
    requires conductor { ring.now.conductor ≡ K }
    requires period { K % unit_period twist.now ≡ 0 }
    requires over { size twist.now < ring.now.q }
    requires characters { AreCentralCharacters ring.now twist.now central.now.lists }
    requires width { central.now.width ≡ rank twist.now }
    ensures faultless { OnOk result (twist_fault ring.now twist.now ≡ None) }
    ensures rows { IfOk result (λ rows. rows ≡ twist_rows ring.now twist.now) }
    ensures refused { IfErr result (λ why. Refuses why (twist_fault ring.now twist.now)) }
{
    lift(alloc, twist, ring, central)
}

/// Of the rows that come so the values are sums of roots of unity, so that the check of their table never overflows, and never finds that
/// they are too few or too many. A field that serves a cocycle serves the twisted centraliser of every element.
pub fn twist_row_laws(ring: &ModRing)
    ensures roots { TwistRowsAreRoots ring.now }
    ensures misses { TwistRowsMissClauses ring.now }
    ensures classes { ServesClasses ring.now }
{}
