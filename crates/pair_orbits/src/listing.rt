//! The list of commuting pairs of a group.

ghost use Rattle.std.specs.Prelude.{◌≡◌, ◌*◌, ◌<◌, ◌==◌, ◌&&◌, length, IfOk};
ghost use Rattle.pair_orbits.specs.PairOrbits.{conjugate_pair, is_commuting, is_least, fixing, weighted_pair, listed_pairs};

use crate::pair::Pair;
use crate::pairs::Pairs;
use classes::conjugate;
use group_table::{Group, Memory};
use scan::holds_below;
use std::alloc::Global;

/// The pair of the conjugates by `c` of both elements of the pair with the number `p`.
#[tactic(auto, unfolding(crate::specs::PairOrbits::conjugate_pair))]
fn conjugate_pair(group: &Group, c: u32, p: u32) -> u32
    requires c_below { c < group.now.order }
    requires p_below { p < group.now.order * group.now.order }
    ensures pair { result ≡ conjugate_pair group.now c p }
{
    let order = group.order();
    conjugate(group, c, p / order) * order + conjugate(group, c, p % order)
}

/// Whether the elements of the pair with the number `p` commute.
fn is_commuting(group: &Group, p: u32) -> bool
    requires p_below { p < group.now.order * group.now.order }
    ensures commuting { result ≡ is_commuting group.now p }
{
    let g = p / group.order();
    let h = p % group.order();
    group.product(g, h) == group.product(h, g)
}

/// Whether no conjugate of the pair with the number `p` has a lower number.
#[tactic(auto, unfolding(crate::specs::PairOrbits::is_least))]
fn is_least(group: &Group, p: u32) -> bool
    requires p_below { p < group.now.order * group.now.order }
    ensures least { result ≡ is_least group.now p }
{
    holds_below(group.order(), |c| !(conjugate_pair(group, c, p) < p))
}

/// Whether the pair with the number `p` is listed.
fn is_listed(group: &Group, p: u32) -> bool
    requires p_below { p < group.now.order * group.now.order }
    ensures listed { result ≡ (is_commuting group.now p && is_least group.now p) }
{
    is_commuting(group, p) && is_least(group, p)
}

/// How many elements carry the pair with the number `p` to itself.
fn count_fixing(group: &Group, p: u32) -> u32
    requires p_below { p < group.now.order * group.now.order }
    ensures count { result ≡ length (fixing group.now p) }
{
    let mut count = 0;
    for c in 0..group.order() {
        if conjugate_pair(group, c, p) == p {
            count += 1;
        }
    }
    count
}

/// The pair with the number `p`, with the number of its conjugates.
#[tactic(auto, using(crate::proofs::Stabilisers::orbit_quotient, crate::proofs::Stabilisers::fixing_positive))]
fn weighted_pair(group: &Group, p: u32) -> Pair
    requires p_below { p < group.now.order * group.now.order }
    ensures pair { result ≡ weighted_pair group.now p }
{
    let order = group.order();
    Pair {
        g: p / order,
        h: p % order,
        weight: order / count_fixing(group, p),
    }
}

/// The orbits of commuting pairs of `group` under conjugation of both elements at once: of each the least pair, by the first element, then by
/// the second, with the number of its conjugates, ascending.
#[tactic(auto, unfolding(crate::specs::PairOrbits::least_pairs))]
pub fn commuting_pairs(alloc: Global, group: &Group) -> Result<Pairs, Memory>
    ensures pairs { IfOk result (λ pairs. pairs ≡ listed_pairs group.now) }
{
    let order = group.order();
    let mut pairs = Pairs::empty(alloc);
    for p in 0..order * order {
        if is_listed(group, p) {
            pairs.push(weighted_pair(group, p))?;
        }
    }
    Ok(pairs)
}
