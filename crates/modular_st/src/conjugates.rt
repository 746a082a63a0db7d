//! The conjugates of all full characters at the listed commuting pairs, made once, in sparse form.

ghost use Rattle.std.specs.Prelude.{◌≡◌, ◌<◌, ◌^◌, true, length, map, IfOk, IfSome};
ghost use Rattle.group_table.specs.Group.{product};
ghost use Rattle.classes.specs.Conjugacy.{representatives};
ghost use Rattle.cyclotomic.specs.Conductors.{is_conductor};
ghost use Rattle.cyclotomic.specs.CyclotomicRing.{cyclotomic_value};
ghost use Rattle.pair_orbits.specs.PairOrbits.{listed_pairs};
ghost use Rattle.pair_orbits.specs.Listing.{AreCommuting};
ghost use Rattle.qd_ring.specs.Formed.{whole};
ghost use Rattle.qd_ring.specs.SparseValues.{value_of_terms, total_of_terms};
ghost use Rattle.transport.specs.Simples.{count, class_at};
ghost use Rattle.modular_st.specs.Conjugates.{exchanged, meets, IsSmall, conjugate_at, IsKeptRow, AreKeptRows, AreKept};

use crate::numerator::{conjugate, order};
use crate::orbits::commuting_pairs;
use group_table::Memory;
use pair_orbits::{Pair, Pairs};
use qd_ring::{Cyc, Terms};
use std::alloc::Global;
use transport::Simples;

/// A value is kept where the magnitudes of its coefficients add up to less than this number.
const TOTAL_LIMIT: u128 = 1 << 54;

/// The conjugates of all full characters, by simple and class.
#[derive(Debug, Drop)]
pub struct KeptConjugates<const K: u32> {
    /// Those at the listed pairs whose second element is in the class, each as often as its pair has conjugates.
    pub at_pairs: Vec<Vec<Terms<K>>>,
    /// Those at the listed pairs, the other way round, whose first element is in the class.
    pub at_exchanged: Vec<Vec<Terms<K>>>,
}

/// The sparse form of a value, where the magnitudes of its coefficients don't add up to too much.
fn small_terms<const K: u32>(value: &Cyc<K>) -> Option<Terms<K>>
    ensures value { IfSome result (λ terms. value_of_terms K terms
        ≡ cyclotomic_value K value.now.coefficients) }
    ensures small { IfSome result (λ terms. total_of_terms terms < 2 ^ 54) }
{
    let terms = Terms::of(value);
    if terms.total() < TOTAL_LIMIT {
        Some(terms)
    } else {
        None
    }
}

/// A number as a value.
fn whole<const K: u32>(number: u32) -> Cyc<K>
    requires conductor { is_conductor K ≡ true }
    ensures whole { cyclotomic_value K result.coefficients ≡ whole K number }
{
    Cyc::whole(number as i128)
}

/// The conjugate of the full character of simple `i` at a pair, as often as its weight says, where it is small.
fn kept_conjugate<const K: u32>(simples: &Simples<K>, i: u32, pair: Pair) -> Option<Terms<K>>
    requires i_below { i < count K simples.now }
    requires g_below { pair.g < simples.now.cocycle.group.order }
    requires h_below { pair.h < simples.now.cocycle.group.order }
    requires commute { product simples.now.cocycle.group pair.g pair.h
        ≡ product simples.now.cocycle.group pair.h pair.g }
    ensures value { IfSome result (λ terms. value_of_terms K terms
        ≡ conjugate_at K simples.now i pair) }
    ensures small { IfSome result (λ terms. IsSmall K (conjugate_at K simples.now i pair)) }
{
    let _order = order(simples);
    let Some(value) = conjugate(simples, i, pair.g, pair.h) else {
        return None;
    };
    let Some(weighted) = whole(pair.weight).try_mul(&value) else {
        return None;
    };
    small_terms(&weighted)
}

/// Whether the first element of a pair is in the class of simple `i`, and the second in the class `d`.
fn meets<const K: u32>(simples: &Simples<K>, i: u32, d: u32, pair: Pair) -> bool
    requires i_below { i < count K simples.now }
    requires g_below { pair.g < simples.now.cocycle.group.order }
    requires h_below { pair.h < simples.now.cocycle.group.order }
    ensures meets { result ≡ meets simples.now.cocycle.group (class_at K simples.now i) d pair }
{
    let classes = simples.classes();
    classes.class_of(pair.g) == simples.class(i) && classes.class_of(pair.h) == d
}

/// The conjugates of simple `i` at the pairs of a list whose first element is in its class and whose second is in the class `d`; none where
/// one of them isn't small.
fn kept_row<const K: u32>(
    alloc: Global,
    simples: &Simples<K>,
    pairs: &[Pair],
    i: u32,
    d: u32,
) -> Result<Option<Vec<Terms<K>>>, Memory>
    requires commute { AreCommuting simples.now.cocycle.group pairs.now }
    requires i_below { i < count K simples.now }
    ensures row { IfOk result (λ found.
        IfSome found (λ row. IsKeptRow K simples.now pairs.now i d row.items)) }
{
    let mut row = Vec::new(alloc);
    for m in 0..pairs.len() {
        let pair = pairs[m];
        if meets(simples, i, d, pair) {
            let Some(terms) = kept_conjugate(simples, i, pair) else {
                return Ok(None);
            };
            row.push(terms)?;
        }
    }
    Ok(Some(row))
}

/// The conjugates of all simples at the pairs of a list, by simple and class; none where one of them isn't small.
fn kept_rows<const K: u32>(
    alloc: Global,
    simples: &Simples<K>,
    pairs: &[Pair],
) -> Result<Option<Vec<Vec<Terms<K>>>>, Memory>
    requires commute { AreCommuting simples.now.cocycle.group pairs.now }
    ensures rows { IfOk result (λ found.
        IfSome found (λ rows. AreKeptRows K simples.now pairs.now rows.items)) }
{
    let classes = simples.classes().count();
    let mut rows = Vec::new(alloc);
    for q in 0..simples.count() * classes {
        let Some(row) = kept_row(alloc, simples, pairs, q / classes, q % classes)? else {
            return Ok(None);
        };
        rows.push(row)?;
    }
    Ok(Some(rows))
}

/// The pairs of a list the other way round, each once.
fn exchanged(alloc: Global, pairs: &Pairs) -> Result<Vec<Pair>, Memory>
    ensures pairs { IfOk result (λ list. list.items ≡ map exchanged pairs.now) }
{
    let list = pairs
        .as_slice()
        .iter()
        .map(|pair| Pair {
            g: pair.h,
            h: pair.g,
            weight: 1,
        })
        .collect(alloc)?;
    Ok(list)
}

/// The conjugates of all simples at the listed pairs; none where one of them isn't small.
pub fn conjugates<const K: u32>(
    alloc: Global,
    simples: &Simples<K>,
) -> Result<Option<KeptConjugates<K>>, Memory>
    ensures kept { IfOk result (λ found. IfSome found (AreKept K simples.now)) }
{
    let pairs = commuting_pairs(alloc, simples)?;
    let Some(at_pairs) = kept_rows(alloc, simples, pairs.as_slice())? else {
        return Ok(None);
    };
    let exchanged = exchanged(alloc, &pairs)?;
    let Some(at_exchanged) = kept_rows(alloc, simples, exchanged.as_slice())? else {
        return Ok(None);
    };
    Ok(Some(KeptConjugates {
        at_pairs,
        at_exchanged,
    }))
}
