//! Phases worked by hand, and the phases of a cocycle of the permutations of three points that a 2-cochain makes.

use crate::made::{PERMUTATIONS, cocycle_of};
use cochain::Cocycle;
use slant::{gamma, theta, twist_at};
use std::alloc::Global;
use std::process::Abort;

/// The phases at these elements are these exponents.
fn expect_phases(rt: &impl Abort, w: &Cocycle, at: [u32; 3], slant: u32, coproduct: u32) {
    let order = w.group().order();
    let [g, x, y] = at;
    assert!(rt; g < order && x < order && y < order);
    assert_eq!(rt; theta(w, g, x, y), slant);
    assert_eq!(rt; gamma(w, g, x, y), coproduct);
}

/// The centraliser of `a` has these elements, and these phases row after row.
fn expect_twist(
    rt: &impl Abort,
    alloc: Global,
    w: &Cocycle,
    a: u32,
    elements: &[u32],
    phases: &[u32],
) {
    assert!(rt; a < w.group().order());
    let twist = twist_at(alloc, w, a).expect(rt, "memory");
    let size = twist.size();
    assert_eq!(rt; twist.at(), a);
    assert_eq!(rt; twist.modulus(), w.roots());
    assert!(rt; elements.len() == size as usize);
    assert!(rt; phases.len() == (size * size) as usize);
    for p in 0..size {
        assert_eq!(rt; twist.element(p), elements[p as usize]);
        for r in 0..size {
            assert!(rt; ((p * size + r) as usize) < phases.len());
            assert_eq!(rt; twist.phase(p, r), phases[(p * size + r) as usize]);
        }
    }
}

#[test]
fn order_two(rt: HostRuntime) {
    let w = cocycle_of(
        &rt,
        rt.alloc(),
        2,
        &[0, 1, 1, 0],
        2,
        &[0, 0, 0, 0, 0, 0, 0, 1],
    );
    expect_phases(&rt, &w, [1, 1, 1], 1, 1);
    expect_phases(&rt, &w, [0, 1, 1], 0, 0);
    expect_twist(&rt, rt.alloc(), &w, 0, &[0, 1], &[0, 0, 0, 0]);
    expect_twist(&rt, rt.alloc(), &w, 1, &[0, 1], &[0, 0, 0, 1]);
}

/// The exponents modulo 5 of `b(h,k) b(g,hk) / (b(gh,k) b(g,h))`, where `b(g,h)` is `g (h h + 2)` and 0 at the identity.
const FROM_PAIRS: [u32; 216] = [
    0, 0, 0, 0, 0, 0, 0, 0, 0, 0, 0, 0, 0, 0, 0, 0, 0, 0, 0, 0, 0, 0, 0, 0, 0, 0, 0, 0, 0, 0, 0, 0,
    0, 0, 0, 0, 0, 0, 0, 0, 0, 0, 0, 0, 1, 4, 1, 1, 0, 0, 4, 3, 1, 1, 0, 3, 1, 3, 2, 0, 0, 0, 3, 4,
    4, 1, 0, 2, 1, 1, 2, 2, 0, 0, 0, 0, 0, 0, 0, 4, 0, 1, 1, 3, 0, 1, 0, 3, 3, 1, 0, 1, 2, 1, 4, 0,
    0, 4, 4, 1, 2, 3, 0, 0, 4, 4, 0, 3, 0, 0, 0, 0, 0, 0, 0, 2, 2, 1, 0, 1, 0, 1, 4, 1, 4, 2, 0, 2,
    4, 0, 4, 2, 0, 0, 4, 2, 2, 3, 0, 0, 1, 1, 0, 2, 0, 0, 0, 0, 0, 0, 0, 1, 1, 3, 0, 3, 0, 2, 0, 1,
    1, 2, 0, 0, 0, 3, 1, 2, 0, 4, 0, 4, 0, 0, 0, 3, 4, 4, 3, 3, 0, 0, 0, 0, 0, 0, 0, 1, 2, 2, 1, 4,
    0, 2, 4, 4, 2, 3, 0, 3, 1, 1, 3, 2, 0, 4, 3, 3, 4, 1, 0, 0, 0, 0, 0, 0,
];

// With c_g(x) = b(x, x^-1 g x) / b(g,x) the slant product is c_g(x) c_h(y) / c_g(xy), h = x^-1 g x. The coproduct phase at x, g, h is
// c_gh(x) b(x^-1 g x, x^-1 h x) / (c_g(x) c_h(x) b(g,h)).
#[test]
fn permutations(rt: HostRuntime) {
    let w = cocycle_of(&rt, rt.alloc(), 6, &PERMUTATIONS, 5, &FROM_PAIRS);
    expect_phases(&rt, &w, [3, 1, 1], 3, 2);
    expect_phases(&rt, &w, [3, 1, 2], 2, 1);
    expect_phases(&rt, &w, [3, 3, 4], 3, 2);
    expect_phases(&rt, &w, [1, 2, 3], 4, 1);
    expect_phases(&rt, &w, [1, 5, 2], 1, 1);
    expect_phases(&rt, &w, [4, 2, 1], 2, 3);
    expect_phases(&rt, &w, [2, 4, 4], 2, 0);
    expect_phases(&rt, &w, [5, 3, 1], 4, 3);
    expect_twist(&rt, rt.alloc(), &w, 1, &[0, 1, 2], &[0; 9]);
    expect_twist(&rt, rt.alloc(), &w, 4, &[0, 4], &[0; 4]);
}

/// The product of three groups of order 2, whose elements are the numbers below 8 by their bits.
const BITS: [u32; 64] = [
    0, 1, 2, 3, 4, 5, 6, 7, 1, 0, 3, 2, 5, 4, 7, 6, 2, 3, 0, 1, 6, 7, 4, 5, 3, 2, 1, 0, 7, 6, 5, 4,
    4, 5, 6, 7, 0, 1, 2, 3, 5, 4, 7, 6, 1, 0, 3, 2, 6, 7, 4, 5, 2, 3, 0, 1, 7, 6, 5, 4, 3, 2, 1, 0,
];

/// The first bit of g, the second of h and the third of k, multiplied.
const THREE_BITS: [u32; 512] = [
    0, 0, 0, 0, 0, 0, 0, 0, 0, 0, 0, 0, 0, 0, 0, 0, 0, 0, 0, 0, 0, 0, 0, 0, 0, 0, 0, 0, 0, 0, 0, 0,
    0, 0, 0, 0, 0, 0, 0, 0, 0, 0, 0, 0, 0, 0, 0, 0, 0, 0, 0, 0, 0, 0, 0, 0, 0, 0, 0, 0, 0, 0, 0, 0,
    0, 0, 0, 0, 0, 0, 0, 0, 0, 0, 0, 0, 0, 0, 0, 0, 0, 0, 0, 0, 0, 0, 0, 0, 0, 0, 0, 0, 0, 0, 0, 0,
    0, 0, 0, 0, 0, 0, 0, 0, 0, 0, 0, 0, 0, 0, 0, 0, 0, 0, 0, 0, 0, 0, 0, 0, 0, 0, 0, 0, 0, 0, 0, 0,
    0, 0, 0, 0, 0, 0, 0, 0, 0, 0, 0, 0, 0, 0, 0, 0, 0, 0, 0, 0, 0, 0, 0, 0, 0, 0, 0, 0, 0, 0, 0, 0,
    0, 0, 0, 0, 0, 0, 0, 0, 0, 0, 0, 0, 0, 0, 0, 0, 0, 0, 0, 0, 0, 0, 0, 0, 0, 0, 0, 0, 0, 0, 0, 0,
    0, 0, 0, 0, 0, 0, 0, 0, 0, 0, 0, 0, 0, 0, 0, 0, 0, 0, 0, 0, 0, 0, 0, 0, 0, 0, 0, 0, 0, 0, 0, 0,
    0, 0, 0, 0, 0, 0, 0, 0, 0, 0, 0, 0, 0, 0, 0, 0, 0, 0, 0, 0, 0, 0, 0, 0, 0, 0, 0, 0, 0, 0, 0, 0,
    0, 0, 0, 0, 0, 0, 0, 0, 0, 0, 0, 0, 0, 0, 0, 0, 0, 1, 0, 1, 0, 1, 0, 1, 0, 1, 0, 1, 0, 1, 0, 1,
    0, 0, 0, 0, 0, 0, 0, 0, 0, 0, 0, 0, 0, 0, 0, 0, 0, 1, 0, 1, 0, 1, 0, 1, 0, 1, 0, 1, 0, 1, 0, 1,
    0, 0, 0, 0, 0, 0, 0, 0, 0, 0, 0, 0, 0, 0, 0, 0, 0, 1, 0, 1, 0, 1, 0, 1, 0, 1, 0, 1, 0, 1, 0, 1,
    0, 0, 0, 0, 0, 0, 0, 0, 0, 0, 0, 0, 0, 0, 0, 0, 0, 1, 0, 1, 0, 1, 0, 1, 0, 1, 0, 1, 0, 1, 0, 1,
    0, 0, 0, 0, 0, 0, 0, 0, 0, 0, 0, 0, 0, 0, 0, 0, 0, 1, 0, 1, 0, 1, 0, 1, 0, 1, 0, 1, 0, 1, 0, 1,
    0, 0, 0, 0, 0, 0, 0, 0, 0, 0, 0, 0, 0, 0, 0, 0, 0, 1, 0, 1, 0, 1, 0, 1, 0, 1, 0, 1, 0, 1, 0, 1,
    0, 0, 0, 0, 0, 0, 0, 0, 0, 0, 0, 0, 0, 0, 0, 0, 0, 1, 0, 1, 0, 1, 0, 1, 0, 1, 0, 1, 0, 1, 0, 1,
    0, 0, 0, 0, 0, 0, 0, 0, 0, 0, 0, 0, 0, 0, 0, 0, 0, 1, 0, 1, 0, 1, 0, 1, 0, 1, 0, 1, 0, 1, 0, 1,
];

// The slant product at (1,0,0) is the second bit of x and the third of y, multiplied.
#[test]
fn three_bits(rt: HostRuntime) {
    let w = cocycle_of(&rt, rt.alloc(), 8, &BITS, 2, &THREE_BITS);
    expect_twist(
        &rt,
        rt.alloc(),
        &w,
        4,
        &[0, 1, 2, 3, 4, 5, 6, 7],
        &[
            0, 0, 0, 0, 0, 0, 0, 0, 0, 0, 0, 0, 0, 0, 0, 0, 0, 1, 0, 1, 0, 1, 0, 1, 0, 1, 0, 1, 0,
            1, 0, 1, 0, 0, 0, 0, 0, 0, 0, 0, 0, 0, 0, 0, 0, 0, 0, 0, 0, 1, 0, 1, 0, 1, 0, 1, 0, 1,
            0, 1, 0, 1, 0, 1,
        ],
    );
}
