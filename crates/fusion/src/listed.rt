//! The listed pairs of elements that commute.

ghost use Rattle.std.specs.Prelude.{◌≡◌, ◌<◌, length};
ghost use Rattle.group_table.specs.Group.{Commute};
ghost use Rattle.pair_orbits.specs.PairOrbits.{listed_pairs};
ghost use Rattle.fusion.specs.Kept.{listed_at};

use crate::elements::order;
use pair_orbits::{Pair, Pairs, listing_laws};
use transport::Simples;

/// The listed pair at place `p`.
pub fn listed_at<const K: u32>(simples: &Simples<K>, pairs: &Pairs, p: u32) -> Pair
    requires pairs { pairs.now ≡ listed_pairs simples.now.cocycle.group }
    requires p_below { p < length (listed_pairs simples.now.cocycle.group) }
    ensures pair { result ≡ listed_at K simples.now p }
    ensures g_below { result.g < simples.now.cocycle.group.order }
    ensures h_below { result.h < simples.now.cocycle.group.order }
    ensures commute { Commute simples.now.cocycle.group result.g result.h }
{
    listing_laws();
    let _order = order(simples);
    let _cocycle = simples.cocycle();
    pairs.at(p)
}
