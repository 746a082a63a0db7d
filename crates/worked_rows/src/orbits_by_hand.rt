//! The commuting pairs of small groups up to conjugation, worked by hand.

use crate::made::{PERMUTATIONS, group_of};
use pair_orbits::{Pair, Pairs, commuting_pairs};
use std::process::Abort;

/// The list has these pairs, each an element, another and a weight.
fn expect_pairs(rt: &impl Abort, pairs: &Pairs, wanted: &[(u32, u32, u32)]) {
    assert!(rt; pairs.len() as usize == wanted.len());
    for m in 0..wanted.len() {
        let (g, h, weight) = wanted[m];
        assert_eq!(rt; pairs.at(m as u32), Pair { g, h, weight }, "pair {m}");
    }
}

#[test]
fn pairs_of_three_points(rt: HostRuntime) {
    let group = group_of(&rt, rt.alloc(), 6, &PERMUTATIONS);
    let pairs = commuting_pairs(rt.alloc(), &group).expect(&rt, "memory");
    expect_pairs(
        &rt,
        &pairs,
        &[
            (0, 0, 1),
            (0, 1, 2),
            (0, 3, 3),
            (1, 0, 2),
            (1, 1, 2),
            (1, 2, 2),
            (3, 0, 3),
            (3, 3, 3),
        ],
    );
}

#[test]
fn pairs_of_an_abelian_group(rt: HostRuntime) {
    let group = group_of(&rt, rt.alloc(), 2, &[1, 0, 0, 1]);
    let pairs = commuting_pairs(rt.alloc(), &group).expect(&rt, "memory");
    expect_pairs(&rt, &pairs, &[(0, 0, 1), (0, 1, 1), (1, 0, 1), (1, 1, 1)]);
}
