//! The numerators of S from the conjugates that are kept.

ghost use Rattle.std.specs.Prelude.{◌≡◌, ◌*◌, ◌<◌, List, length, true, Some, IfSome};
ghost use Rattle.classes.specs.Conjugacy.{representatives};
ghost use Rattle.cyclotomic.specs.Conductors.{is_conductor};
ghost use Rattle.pair_orbits.specs.declared.pair.Pair.{Pair};
ghost use Rattle.qd_ring.specs.Formed.{Forms};
ghost use Rattle.transport.specs.Simples.{count};
ghost use Rattle.transport.specs.SSums.{s_sum};
ghost use Rattle.modular_st.specs.Dots.{dot_product};
ghost use Rattle.modular_st.specs.Conjugates.{IsKeptRow, AreKeptRows, AreKept};

use crate::conjugates::KeptConjugates;
use crate::numerator::sum;
use qd_ring::{Cyc, Folded, Root, Terms};
use transport::Simples;

/// The sum of the products of two rows, where they may be folded.
fn dot_product<const K: u32>(left: &Vec<Terms<K>>, right: &Vec<Terms<K>>) -> Option<Cyc<K>>
    requires conductor { is_conductor K ≡ true }
    requires width { length left.now.items ≡ length right.now.items }
    ensures forms { IfSome result (λ sum.
        Forms (dot_product K left.now.items right.now.items) (Some sum)) }
{
    let mut folded = Folded::zero();
    for q in 0..left.len() {
        if !folded.add_product(&left[q], &right[q], Root::new(0)) {
            return None;
        }
    }
    Some(folded.finish())
}

/// The row of simple `i` and the class `d`.
fn row_at<'a, const K: u32>(
    simples: &Simples<K>,
    rows: &'a Vec<Vec<Terms<K>>>,
    i: u32,
    d: u32,
) -> &'a Vec<Terms<K>>
    requires count { length rows.now.items
        ≡ count K simples.now * length (representatives simples.now.cocycle.group) }
    requires i_below { i < count K simples.now }
    requires d_below { d < length (representatives simples.now.cocycle.group) }
    ensures row { (pairs : List Pair) → AreKeptRows K simples.now pairs rows.now.items
        → IsKeptRow K simples.now pairs i d result.now.items }
{
    let _count = simples.count();
    let classes = simples.classes().count();
    &rows[(i * classes + d) as usize]
}

/// The sum of the terms of simples `i` and `j`, each listed pair as often as it has conjugates, where it may be folded.
fn folded_sum<const K: u32>(
    simples: &Simples<K>,
    conjugates: &KeptConjugates<K>,
    i: u32,
    j: u32,
) -> Option<Cyc<K>>
    requires kept { AreKept K simples.now conjugates.now }
    requires i_below { i < count K simples.now }
    requires j_below { j < count K simples.now }
    ensures forms { IfSome result (λ sum. Forms (s_sum K simples.now i j) (Some sum)) }
{
    let _count = simples.count();
    let left = row_at(simples, &conjugates.at_pairs, i, simples.class(j));
    let right = row_at(simples, &conjugates.at_exchanged, j, simples.class(i));
    dot_product(left, right)
}

/// The sum of the terms of simples `i` and `j`: folded, or else term by term.
pub fn kept_sum<const K: u32>(
    simples: &Simples<K>,
    conjugates: &Option<KeptConjugates<K>>,
    i: u32,
    j: u32,
) -> Option<Cyc<K>>
    requires kept { IfSome conjugates.now (AreKept K simples.now) }
    requires i_below { i < count K simples.now }
    requires j_below { j < count K simples.now }
    ensures forms { Forms (s_sum K simples.now i j) result }
{
    let Some(conjugates) = conjugates else {
        return sum(simples, i, j);
    };
    match folded_sum(simples, conjugates, i, j) {
        Some(folded) => Some(folded),
        None => sum(simples, i, j),
    }
}
