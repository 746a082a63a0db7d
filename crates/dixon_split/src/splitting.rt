//! All central characters of a twisted group algebra modulo a prime.

ghost use Rattle.std.specs.Prelude.{◌≡◌, ◌%◌, ◌<◌, IfOk};
ghost use Rattle.twisted.specs.Twist.{size};
ghost use Rattle.twisted.specs.Regular.{rank};
ghost use Rattle.centre_powers.specs.CentralPowers.{unit_period};
ghost use Rattle.centre_algebra.specs.Laws.{AreCentralCharacters};

use crate::central::Central;
use crate::class_sums::centre;
use crate::multipliers::values;
use crate::pieces::all_pieces;
use group_table::Memory;
use prime_field::ModRing;
use std::alloc::Global;
use twisted::Twist;

/// All central characters of the twisted group algebra of `twist` over the residues modulo the prime of `ring` (Dixon 1967): for each the
/// list of its values at the class sums, one for each regular class, in the order of the regular representatives. Each central
/// character is there once, the lists ascend, and there are as many as the rank.
///
/// The modulus of the twist times the exponent of its group has to divide the conductor of the ring, and the prime has to be over the
/// number of places: then all class sums split. It fails only where there is no memory.
pub fn split(alloc: Global, twist: &Twist, ring: &ModRing) -> Result<Central, Memory>
    requires period { ring.now.conductor % unit_period twist.now ≡ 0 }
    requires over { size twist.now < ring.now.q }
    ensures width { IfOk result (λ central. central.width ≡ rank twist.now) }
    ensures characters { IfOk result (λ central.
        AreCentralCharacters ring.now twist.now central.lists) }
{
    let algebra = centre(alloc, ring, twist)?;
    let pieces = all_pieces(alloc, &algebra)?;
    let values = values(alloc, &algebra, pieces.as_slice())?;
    Ok(Central::from_lists(algebra.rank, values))
}
