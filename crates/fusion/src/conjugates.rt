//! The weighted conjugates of full characters at the listed pairs, made once, in sparse form.

ghost use Rattle.std.specs.Prelude.{◌≡◌, ◌<◌, IfSome, IfOk};
ghost use Rattle.group_table.specs.Group.{Commute};
ghost use Rattle.pair_orbits.specs.PairOrbits.{listed_pairs};
ghost use Rattle.qd_ring.specs.SparseValues.{value_of_terms};
ghost use Rattle.transport.specs.Simples.{count};
ghost use Rattle.fusion.specs.Kept.{weighted_conjugate, AreWeighted, AreAllWeighted};

use crate::elements::{is_in_class, order};
use crate::listed::listed_at;
use crate::weighted::Weighted;
use group_table::Memory;
use pair_orbits::{Pair, Pairs};
use qd_ring::{Cyc, Terms};
use std::alloc::Global;
use transport::Simples;

/// The conjugate of the full character of simple `l` at a pair of elements that commute, as often as its weight says, where it fits.
fn weighted_conjugate<const K: u32>(simples: &Simples<K>, l: u32, pair: Pair) -> Option<Terms<K>>
    requires l_below { l < count K simples.now }
    requires g_below { pair.g < simples.now.cocycle.group.order }
    requires h_below { pair.h < simples.now.cocycle.group.order }
    requires commute { Commute simples.now.cocycle.group pair.g pair.h }
    ensures value { IfSome result
        (λ terms. value_of_terms K terms ≡ weighted_conjugate K simples.now l pair) }
{
    let _order = order(simples);
    let Ok(value) = simples.ch(l, pair.g, pair.h) else {
        return None;
    };
    let Some(conjugate) = value.try_conj() else {
        return None;
    };
    let Some(weighted) = conjugate.try_mul(&Cyc::whole(i128::from(pair.weight))) else {
        return None;
    };
    Some(Terms::of(&weighted))
}

/// Those of simple `l` at the listed pairs whose first element is in its class.
fn conjugate_row<const K: u32>(
    alloc: Global,
    simples: &Simples<K>,
    pairs: &Pairs,
    l: u32,
) -> Result<Vec<Weighted<K>>, Memory>
    requires pairs { pairs.now ≡ listed_pairs simples.now.cocycle.group }
    requires l_below { l < count K simples.now }
    ensures row { IfOk result (λ row. AreWeighted K simples.now l row.items) }
{
    let mut row = Vec::new(alloc);
    for p in 0..pairs.len() {
        let pair = listed_at(simples, pairs, p);
        if is_in_class(simples, l, pair.g) {
            let conjugate = weighted_conjugate(simples, l, pair);
            row.push(Weighted {
                place: p,
                conjugate,
            })?;
        }
    }
    Ok(row)
}

/// Those of all simples.
pub fn conjugate_rows<const K: u32>(
    alloc: Global,
    simples: &Simples<K>,
    pairs: &Pairs,
) -> Result<Vec<Vec<Weighted<K>>>, Memory>
    requires pairs { pairs.now ≡ listed_pairs simples.now.cocycle.group }
    ensures rows { IfOk result (λ rows. AreAllWeighted K simples.now rows.items) }
{
    let mut rows = Vec::new(alloc);
    for l in 0..simples.count() {
        rows.push(conjugate_row(alloc, simples, pairs, l)?)?;
    }
    Ok(rows)
}
