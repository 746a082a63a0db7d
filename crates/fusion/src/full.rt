//! The full characters of all simples, made once, in sparse form.

ghost use Rattle.std.specs.Prelude.{◌≡◌, ◌<◌, IfOk, IfErr};
ghost use Rattle.std.specs.Result.{result_ok};
ghost use Rattle.classes.specs.Conjugacy.{class_of};
ghost use Rattle.qd_ring.specs.Formed.{Forms};
ghost use Rattle.transport.specs.Simples.{count, class_at};
ghost use Rattle.fusion.specs.Kept.{value_or_nought, full_term, IsFullRow, IsClassRow, AreFullValues};
ghost use Rattle.fusion.specs.Sites.{IsFullOverflow};
ghost use Rattle.fusion.specs.Refusal.{Refuses};

use crate::elements::{commute, is_in_class, order};
use crate::refusal::FusionRefusal;
use crate::sparse::sparse_or_nought;
use qd_ring::{Cyc, Site, Terms};
use std::alloc::Global;
use transport::Simples;

/// The full character of simple `i` at `g` and `x`, which is 0 where they don't commute. The site exactly where it overflows.
fn full_term<const K: u32>(simples: &Simples<K>, i: u32, g: u32, x: u32) -> Result<Cyc<K>, Site>
    requires i_below { i < count K simples.now }
    requires g_below { g < simples.now.cocycle.group.order }
    requires x_below { x < simples.now.cocycle.group.order }
    ensures forms { Forms (full_term K simples.now i g x) (result_ok result) }
    ensures site { IfErr result (λ site. IsFullOverflow K simples.now site) }
{
    let _order = order(simples);
    if commute(simples, g, x) {
        simples.ch(i, g, x)
    } else {
        Ok(Cyc::zero())
    }
}

/// It in sparse form; none where it is 0.
fn full_value<const K: u32>(
    alloc: Global,
    simples: &Simples<K>,
    i: u32,
    g: u32,
    x: u32,
) -> Result<Option<Box<Terms<K>>>, FusionRefusal<K>>
    requires i_below { i < count K simples.now }
    requires g_below { g < simples.now.cocycle.group.order }
    requires x_below { x < simples.now.cocycle.group.order }
    ensures value { IfOk result
        (λ value. value_or_nought K value ≡ (full_term K simples.now i g x).value) }
    ensures refused { IfErr result (λ refusal. Refuses K simples.now refusal) }
{
    match full_term(simples, i, g, x) {
        Ok(value) => Ok(sparse_or_nought(alloc, &value)?),
        Err(site) => Err(FusionRefusal::Overflow { site }),
    }
}

/// Those of simple `i` at `g` and each element.
fn full_row<const K: u32>(
    alloc: Global,
    simples: &Simples<K>,
    i: u32,
    g: u32,
) -> Result<Vec<Option<Box<Terms<K>>>>, FusionRefusal<K>>
    requires i_below { i < count K simples.now }
    requires g_below { g < simples.now.cocycle.group.order }
    ensures row { IfOk result (λ row. IsFullRow K simples.now i g row.items) }
    ensures refused { IfErr result (λ refusal. Refuses K simples.now refusal) }
{
    let order = order(simples);
    let mut row = Vec::with_capacity(alloc, order as usize)?;
    for x in 0..order {
        row.push(full_value(alloc, simples, i, g, x)?)?;
    }
    Ok(row)
}

/// Those of simple `i` at `g` and each element, where `g` is in its class, and nothing elsewhere, where they are 0.
fn class_row<const K: u32>(
    alloc: Global,
    simples: &Simples<K>,
    i: u32,
    g: u32,
) -> Result<Vec<Option<Box<Terms<K>>>>, FusionRefusal<K>>
    requires i_below { i < count K simples.now }
    requires g_below { g < simples.now.cocycle.group.order }
    ensures row { IfOk result (λ row. IsClassRow K simples.now i g row.items) }
    ensures refused { IfErr result (λ refusal. Refuses K simples.now refusal) }
{
    if is_in_class(simples, i, g) {
        full_row(alloc, simples, i, g)
    } else {
        Ok(Vec::new(alloc))
    }
}

/// Those of all simples, by simple and element.
pub fn full_values<const K: u32>(
    alloc: Global,
    simples: &Simples<K>,
) -> Result<Vec<Vec<Option<Box<Terms<K>>>>>, FusionRefusal<K>>
    ensures kept { IfOk result (λ rows. AreFullValues K simples.now rows.items) }
    ensures refused { IfErr result (λ refusal. Refuses K simples.now refusal) }
{
    let order = order(simples);
    let mut rows = Vec::new(alloc);
    for q in 0..simples.count() * order {
        rows.push(class_row(alloc, simples, q / order, q % order)?)?;
    }
    Ok(rows)
}

/// What is kept of simple `i` at `g`, which is in its class, and `x`.
pub fn full_at<'a, const K: u32>(
    simples: &Simples<K>,
    values: &'a Vec<Vec<Option<Box<Terms<K>>>>>,
    i: u32,
    g: u32,
    x: u32,
) -> &'a Option<Box<Terms<K>>>
    requires kept { AreFullValues K simples.now values.now.items }
    requires i_below { i < count K simples.now }
    requires g_below { g < simples.now.cocycle.group.order }
    requires x_below { x < simples.now.cocycle.group.order }
    requires class { class_of simples.now.cocycle.group g ≡ class_at K simples.now i }
    ensures value { value_or_nought K result.now ≡ (full_term K simples.now i g x).value }
{
    let _count = simples.count();
    let order = order(simples);
    let row = &values[(i * order + g) as usize];
    &row[x as usize]
}
