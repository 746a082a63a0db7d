//! The numerators of S, each as the sum over all pairs of elements that commute.

ghost use Rattle.std.specs.Prelude.{◌≡◌, ◌<◌, ◌*◌, true, IfErr};
ghost use Rattle.std.specs.Result.{result_ok};
ghost use Rattle.group_table.specs.Group.{product, IsSmall, commute};
ghost use Rattle.cyclotomic.specs.Conductors.{is_conductor};
ghost use Rattle.table_check.specs.Formed.{Forms, conjugated};
ghost use Rattle.transport.specs.Simples.{count};
ghost use Rattle.transport.specs.FullCharacters.{full_character};
ghost use Rattle.transport.specs.SSums.{pair_term, s_sum};
ghost use Rattle.modular_st.specs.Numerators.{s_term, s_site};

use group_table::Group;
use qd_ring::{Cyc, Part, Site, Total};
use transport::Simples;

/// The order of the group.
pub fn order<const K: u32>(simples: &Simples<K>) -> u32
    ensures order { result ≡ simples.now.cocycle.group.order }
    ensures small { IsSmall simples.now.cocycle.group.order }
    ensures conductor { is_conductor K ≡ true }
{
    simples.cocycle().group().order()
}

/// Whether two elements commute.
pub fn commute(group: &Group, g: u32, h: u32) -> bool
    requires g_below { g < group.now.order }
    requires h_below { h < group.now.order }
    ensures commute { result ≡ commute group.now g h }
{
    group.product(g, h) == group.product(h, g)
}

/// The conjugate of the full character of simple `i` at `g` and `h`, which commute.
pub fn conjugate<const K: u32>(simples: &Simples<K>, i: u32, g: u32, h: u32) -> Option<Cyc<K>>
    requires i_below { i < count K simples.now }
    requires g_below { g < simples.now.cocycle.group.order }
    requires h_below { h < simples.now.cocycle.group.order }
    requires commute { product simples.now.cocycle.group g h
        ≡ product simples.now.cocycle.group h g }
    ensures forms { Forms (conjugated K (full_character K simples.now i g h)) result }
{
    match simples.ch(i, g, h) {
        Ok(value) => value.try_conj(),
        Err(_) => None,
    }
}

/// The term of simples `i` and `j` for `g` and `h`, which commute.
fn pair_term<const K: u32>(simples: &Simples<K>, i: u32, j: u32, g: u32, h: u32) -> Option<Cyc<K>>
    requires i_below { i < count K simples.now }
    requires j_below { j < count K simples.now }
    requires g_below { g < simples.now.cocycle.group.order }
    requires h_below { h < simples.now.cocycle.group.order }
    requires commute { product simples.now.cocycle.group g h
        ≡ product simples.now.cocycle.group h g }
    ensures forms { Forms (pair_term K simples.now i j g h) result }
{
    let Some(left) = conjugate(simples, i, g, h) else {
        return None;
    };
    let Some(right) = conjugate(simples, j, h, g) else {
        return None;
    };
    left.try_mul(&right)
}

/// The term of simples `i` and `j` for the pair of elements with the number `p`, which is 0 where they don't commute.
fn term<const K: u32>(simples: &Simples<K>, i: u32, j: u32, p: u32) -> Option<Cyc<K>>
    requires i_below { i < count K simples.now }
    requires j_below { j < count K simples.now }
    requires p_below { p < simples.now.cocycle.group.order * simples.now.cocycle.group.order }
    ensures forms { Forms (s_term K simples.now i j p) result }
{
    let order = order(simples);
    let g = p / order;
    let h = p % order;
    if commute(simples.cocycle().group(), g, h) {
        pair_term(simples, i, j, g, h)
    } else {
        Some(Cyc::zero())
    }
}

/// The sum of the terms of simples `i` and `j`, term by term.
pub fn sum<const K: u32>(simples: &Simples<K>, i: u32, j: u32) -> Option<Cyc<K>>
    requires i_below { i < count K simples.now }
    requires j_below { j < count K simples.now }
    ensures forms { Forms (s_sum K simples.now i j) result }
{
    let order = order(simples);
    let mut total = Total::zero();
    for p in 0..order * order {
        let Some(more) = total.with(term(simples, i, j, p)) else {
            return None;
        };
        total = more;
    }
    Some(total.sum())
}

/// The site of the numerator at `i` and `j`.
pub fn s_site(i: u32, j: u32) -> Site
    ensures site { result ≡ s_site i j }
{
    Site {
        part: Part::S,
        at: 0,
        i,
        j,
        x: 0,
    }
}

/// The entry of S at simples `i` and `j`, times the order of the group: the sum over all `g` and `h` that commute of the conjugate of the
/// full character of `i` at `(g, h)` times the conjugate of that of `j` at `(h, g)`. Its site is given exactly where it overflows.
pub fn s_numerator<const K: u32>(simples: &Simples<K>, i: u32, j: u32) -> Result<Cyc<K>, Site>
    requires i_below { i < count K simples.now }
    requires j_below { j < count K simples.now }
    ensures forms { Forms (s_sum K simples.now i j) (result_ok result) }
    ensures site { IfErr result (λ site. site ≡ s_site i j) }
{
    match sum(simples, i, j) {
        Some(sum) => Ok(sum),
        None => Err(s_site(i, j)),
    }
}
