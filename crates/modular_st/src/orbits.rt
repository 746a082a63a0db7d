//! The commuting pairs of elements of the group, up to conjugation.

ghost use Rattle.std.specs.Prelude.{◌≡◌, IfOk};
ghost use Rattle.pair_orbits.specs.PairOrbits.{listed_pairs};
ghost use Rattle.pair_orbits.specs.Listing.{AreCommuting, AreLeast, CoverCommuting, AreListedOnce, Ascend, HoldWeights};

use group_table::Memory;
use pair_orbits::Pairs;
use std::alloc::Global;
use transport::Simples;

/// The pairs of elements of the group that commute, up to conjugation of both at once: each is conjugate to exactly one listed pair, which is
/// the least of its conjugates by `g`, then by `h`; the list ascends, and the weight of a pair is the number of its conjugates.
#[tactic(auto, using(pair_orbits::proofs::Listings::listed_commute, pair_orbits::proofs::Listings::listed_least, pair_orbits::proofs::Listings::listed_cover, pair_orbits::proofs::Listings::listed_once, pair_orbits::proofs::Listings::listed_ascend, pair_orbits::proofs::Listings::listed_weights))]
pub fn commuting_pairs<const K: u32>(alloc: Global, simples: &Simples<K>) -> Result<Pairs, Memory>
    ensures listed { IfOk result (λ pairs. pairs ≡ listed_pairs simples.now.cocycle.group) }
    ensures commute { IfOk result (AreCommuting simples.now.cocycle.group) }
    ensures least { IfOk result (AreLeast simples.now.cocycle.group) }
    ensures cover { IfOk result (CoverCommuting simples.now.cocycle.group) }
    ensures unique { IfOk result (AreListedOnce simples.now.cocycle.group) }
    ensures ascend { IfOk result (Ascend simples.now.cocycle.group) }
    ensures weights { IfOk result (HoldWeights simples.now.cocycle.group) }
{
    pair_orbits::commuting_pairs(alloc, simples.cocycle().group())
}
