//! Tensor characters and fusion sums, term by term: the way where a folded sum has no room left.

ghost use Rattle.std.specs.Prelude.{◌≡◌, ◌*◌, ◌<◌};
ghost use Rattle.group_table.specs.Group.{Commute};
ghost use Rattle.qd_ring.specs.Formed.{Forms};
ghost use Rattle.transport.specs.Simples.{count};
ghost use Rattle.transport.specs.FullCharacters.{full_character};
ghost use Rattle.transport.specs.Fusion.{tensor_term, tensor_character, fusion_sum};
ghost use Rattle.fusion.specs.Kept.{IsTensorPlace, tensor_part, inner_term, inner_part};

use crate::elements::{commute, coproduct_root, left_quotient, order};
use qd_ring::{Cyc, Total};
use transport::Simples;

/// The full character of simple `i` at `g` and `x`, which commute.
fn full_character<const K: u32>(simples: &Simples<K>, i: u32, g: u32, x: u32) -> Option<Cyc<K>>
    requires i_below { i < count K simples.now }
    requires g_below { g < simples.now.cocycle.group.order }
    requires x_below { x < simples.now.cocycle.group.order }
    requires commute { Commute simples.now.cocycle.group g x }
    ensures forms { Forms (full_character K simples.now i g x) result }
{
    match simples.ch(i, g, x) {
        Ok(value) => Some(value),
        Err(_) => None,
    }
}

/// The part of simples `i` and `j` at `h` and `h^-1 g`; `g` and `h` commute with `x`.
fn tensor_term<const K: u32>(
    simples: &Simples<K>,
    i: u32,
    j: u32,
    g: u32,
    x: u32,
    h: u32,
) -> Option<Cyc<K>>
    requires place { IsTensorPlace K simples.now i j g x }
    requires h_below { h < simples.now.cocycle.group.order }
    requires h_commutes { Commute simples.now.cocycle.group h x }
    ensures forms { Forms (tensor_term K simples.now i j g x h) result }
{
    let _count = simples.count();
    let other = left_quotient(simples, h, g);
    let Some(left) = full_character(simples, i, h, x) else {
        return None;
    };
    let Some(right) = full_character(simples, j, other, x) else {
        return None;
    };
    let Some(product) = left.try_mul(&right) else {
        return None;
    };
    product.try_times(coproduct_root(simples, x, h, other))
}

/// The part of simples `i` and `j` at `h` and `h^-1 g`, 0 where `h` doesn't commute with `x`; `g` does.
fn tensor_part<const K: u32>(
    simples: &Simples<K>,
    i: u32,
    j: u32,
    g: u32,
    x: u32,
    h: u32,
) -> Option<Cyc<K>>
    requires place { IsTensorPlace K simples.now i j g x }
    requires h_below { h < simples.now.cocycle.group.order }
    ensures forms { Forms (tensor_part K simples.now i j g x h) result }
{
    let _order = order(simples);
    if commute(simples, h, x) {
        tensor_term(simples, i, j, g, x, h)
    } else {
        Some(Cyc::zero())
    }
}

/// The tensor character of simples `i` and `j` at `g` and `x`, which commute.
pub fn tensor_character<const K: u32>(
    simples: &Simples<K>,
    i: u32,
    j: u32,
    g: u32,
    x: u32,
) -> Option<Cyc<K>>
    requires place { IsTensorPlace K simples.now i j g x }
    ensures forms { Forms (tensor_character K simples.now i j g x) result }
{
    let order = order(simples);
    let mut total = Total::zero();
    for h in 0..order {
        let Some(more) = total.with(tensor_part(simples, i, j, g, x, h)) else {
            return None;
        };
        total = more;
    }
    Some(total.sum())
}

/// The tensor character of simples `i` and `j` at `g` and `x`, which commute, times the conjugate of the full character of `l`.
fn inner_term<const K: u32>(
    simples: &Simples<K>,
    i: u32,
    j: u32,
    l: u32,
    g: u32,
    x: u32,
) -> Option<Cyc<K>>
    requires place { IsTensorPlace K simples.now i j g x }
    requires l_below { l < count K simples.now }
    ensures forms { Forms (inner_term K simples.now i j l g x) result }
{
    let Some(value) = full_character(simples, l, g, x) else {
        return None;
    };
    let Some(conjugate) = value.try_conj() else {
        return None;
    };
    let Some(tensor) = tensor_character(simples, i, j, g, x) else {
        return None;
    };
    tensor.try_mul(&conjugate)
}

/// The term of the fusion sum of simples `i`, `j` and `l` for the pair of elements with the number `p`, 0 where they don't commute.
fn inner_part<const K: u32>(simples: &Simples<K>, i: u32, j: u32, l: u32, p: u32) -> Option<Cyc<K>>
    requires i_below { i < count K simples.now }
    requires j_below { j < count K simples.now }
    requires l_below { l < count K simples.now }
    requires p_below { p < simples.now.cocycle.group.order * simples.now.cocycle.group.order }
    ensures forms { Forms (inner_part K simples.now i j l p) result }
{
    let order = order(simples);
    let g = p / order;
    let x = p % order;
    if commute(simples, g, x) {
        inner_term(simples, i, j, l, g, x)
    } else {
        Some(Cyc::zero())
    }
}

/// The fusion sum of simples `i`, `j` and `l`; `None` exactly where it overflows.
pub fn fusion_sum<const K: u32>(simples: &Simples<K>, i: u32, j: u32, l: u32) -> Option<Cyc<K>>
    requires i_below { i < count K simples.now }
    requires j_below { j < count K simples.now }
    requires l_below { l < count K simples.now }
    ensures forms { Forms (fusion_sum K simples.now i j l) result }
{
    let order = order(simples);
    let mut total = Total::zero();
    for p in 0..order * order {
        let Some(more) = total.with(inner_part(simples, i, j, l, p)) else {
            return None;
        };
        total = more;
    }
    Some(total.sum())
}
