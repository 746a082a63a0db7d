//! Cocycles by name, with exponents of an independent program, and numbers that are refused.

use cochain::Cocycle;
use named_cocycles::{MakeRefusal, Maker, make, sample, sample_modulus};
use std::alloc::Global;
use std::process::Abort;

/// The exponent at three elements, and how many roots of unity there are.
fn expect_value(rt: &impl Abort, w: &Cocycle, at: (u32, u32, u32), exponent: u32, roots: u32) {
    let order = w.group().order();
    assert!(rt; at.0 < order && at.1 < order && at.2 < order);
    assert_eq!(rt; w.value(at.0, at.1, at.2), exponent);
    assert!(rt; w.roots() == roots);
}

/// The cocycle that is made, at three elements.
fn expect_made(
    rt: &impl Abort,
    alloc: Global,
    maker: Maker,
    at: (u32, u32, u32),
    exponent: u32,
    roots: u32,
) {
    let w = make(alloc, maker).expect(rt, "a cocycle");
    expect_value(rt, &w, at, exponent, roots);
}

#[test]
fn cyclic_groups_and_products(rt: HostRuntime) {
    let alloc = rt.alloc();
    let rows = [
        (Maker::Cyclic { n: 2, p: 1 }, (1, 1, 1), 1, 2),
        (Maker::Product { a: 2, b: 2, c: 1 }, (3, 3, 3), 0, 1),
        (Maker::TypeTwo { a: 4, b: 2, p: 1 }, (3, 1, 1), 1, 4),
        (
            Maker::TypeThree {
                a: 2,
                b: 2,
                c: 2,
                p: 1,
            },
            (4, 2, 1),
            1,
            2,
        ),
    ];
    for (maker, at, exponent, roots) in rows {
        expect_made(&rt, alloc, maker, at, exponent, roots);
    }
}

#[test]
fn dihedral_dicyclic_and_semidirect_groups(rt: HostRuntime) {
    let alloc = rt.alloc();
    let twisted = Maker::Dihedral {
        n: 3,
        twisted: true,
    };
    let untwisted = Maker::Dihedral {
        n: 3,
        twisted: false,
    };
    let rows = [
        (twisted, (3, 4, 5), 1, 2),
        (twisted, (3, 2, 5), 0, 2),
        (untwisted, (3, 4, 5), 0, 1),
        (Maker::Dicyclic { n: 1 }, (2, 2, 2), 0, 1),
        (Maker::Semidirect { n: 3, m: 2, r: 2 }, (3, 3, 3), 0, 1),
    ];
    for (maker, at, exponent, roots) in rows {
        expect_made(&rt, alloc, maker, at, exponent, roots);
    }
}

#[test]
fn makers_that_are_refused(rt: HostRuntime) {
    let alloc = rt.alloc();
    let rows = [
        (
            Maker::Cyclic { n: 61, p: 1 },
            MakeRefusal::Size { order: 61 },
        ),
        (
            Maker::Semidirect { n: 4, m: 2, r: 2 },
            MakeRefusal::Action { power: 0 },
        ),
        (
            Maker::Semidirect { n: 4, m: 16, r: 2 },
            MakeRefusal::Size { order: 64 },
        ),
    ];
    for (maker, refusal) in rows {
        assert_eq!(rt; make(alloc, maker).err(), Some(refusal));
    }
}

#[test]
fn samples(rt: HostRuntime) {
    let alloc = rt.alloc();

    // The number, the modulus, how many roots, and the exponents at four triples.
    let triples = [(1, 2, 3), (3, 2, 5), (5, 4, 3), (4, 5, 1)];
    let rows = [
        (0, 13, 2, [0, 1, 1, 1]),
        (1, 13, 2, [0, 1, 0, 0]),
        (2, 17, 2, [1, 0, 0, 0]),
        (3, 17, 4, [2, 3, 1, 2]),
        (7, 17, 4, [1, 3, 0, 1]),
        (4_294_967_295, 17, 4, [3, 2, 1, 3]),
    ];
    for (number, modulus, roots, exponents) in rows {
        let w = sample(alloc, number).expect(&rt, "a cocycle");
        assert_eq!(rt; sample_modulus(number), modulus);
        let [first, second, third, fourth] = exponents;
        let [p, q, r, s] = triples;
        expect_value(&rt, &w, p, first, roots);
        expect_value(&rt, &w, q, second, roots);
        expect_value(&rt, &w, r, third, roots);
        expect_value(&rt, &w, s, fourth, roots);
    }
}
