//! Small extensions worked by hand.

ghost use Rattle.std.specs.Prelude.{◌≡◌};
ghost use Rattle.twisted.specs.Twist.{size};

use crate::made::twist_of;
use central_ext::{Pair, ext_classes, ext_inverse, ext_product, lifts_conjugate, power_phase};
use std::alloc::Global;
use std::process::Abort;
use twisted::Twist;

/// The group of order 2, with the phase -1 of its other element with itself.
fn two(rt: &impl Abort, alloc: Global) -> Twist
    ensures size { size result ≡ 2 }
    ensures modulus { result.modulus ≡ 2 }
{
    twist_of(rt, alloc, 1, &[0, 1], &[0, 1, 1, 0], 2, &[0, 0, 0, 1])
}

/// The permutations of three points: the identity, the two turns and the three exchanges, without phases.
fn plain(rt: &impl Abort, alloc: Global) -> Twist
    ensures size { size result ≡ 6 }
    ensures modulus { result.modulus ≡ 2 }
{
    twist_of(
        rt,
        alloc,
        0,
        &[0, 1, 2, 3, 4, 5],
        &[
            0, 1, 2, 3, 4, 5, 1, 2, 0, 4, 5, 3, 2, 0, 1, 5, 3, 4, 3, 5, 4, 0, 2, 1, 4, 3, 5, 1, 0,
            2, 5, 4, 3, 2, 1, 0,
        ],
        2,
        &[
            0, 0, 0, 0, 0, 0, 0, 0, 0, 0, 0, 0, 0, 0, 0, 0, 0, 0, 0, 0, 0, 0, 0, 0, 0, 0, 0, 0, 0,
            0, 0, 0, 0, 0, 0, 0,
        ],
    )
}

/// Three bits, the first worth 4 and the last 1, with the phase -1 where the first bit of the left and the second of the right are 1.
fn bits(rt: &impl Abort, alloc: Global) -> Twist
    ensures size { size result ≡ 8 }
    ensures modulus { result.modulus ≡ 2 }
{
    twist_of(
        rt,
        alloc,
        1,
        &[0, 1, 2, 3, 4, 5, 6, 7],
        &[
            0, 1, 2, 3, 4, 5, 6, 7, 1, 0, 3, 2, 5, 4, 7, 6, 2, 3, 0, 1, 6, 7, 4, 5, 3, 2, 1, 0, 7,
            6, 5, 4, 4, 5, 6, 7, 0, 1, 2, 3, 5, 4, 7, 6, 1, 0, 3, 2, 6, 7, 4, 5, 2, 3, 0, 1, 7, 6,
            5, 4, 3, 2, 1, 0,
        ],
        2,
        &[
            0, 0, 0, 0, 0, 0, 0, 0, 0, 0, 0, 0, 0, 0, 0, 0, 0, 0, 0, 0, 0, 0, 0, 0, 0, 0, 0, 0, 0,
            0, 0, 0, 0, 0, 1, 1, 0, 0, 1, 1, 0, 0, 1, 1, 0, 0, 1, 1, 0, 0, 1, 1, 0, 0, 1, 1, 0, 0,
            1, 1, 0, 0, 1, 1,
        ],
    )
}

/// The permutations of three points as elements of a greater group, with the phases `b(x) + b(y) - b(xy)` modulo 4 for
/// b = 0, 1, 2, 3, 0, 1. The pair `(x,i)` goes to `(x, i + b(x))` in the product of the group with one of order 4.
fn coboundary(rt: &impl Abort, alloc: Global) -> Twist
    ensures size { size result ≡ 6 }
    ensures modulus { result.modulus ≡ 4 }
{
    twist_of(
        rt,
        alloc,
        7,
        &[2, 3, 5, 7, 11, 13],
        &[
            0, 1, 2, 3, 4, 5, 1, 2, 0, 4, 5, 3, 2, 0, 1, 5, 3, 4, 3, 5, 4, 0, 2, 1, 4, 3, 5, 1, 0,
            2, 5, 4, 3, 2, 1, 0,
        ],
        4,
        &[
            0, 0, 0, 0, 0, 0, 0, 0, 3, 0, 0, 3, 0, 3, 3, 0, 3, 3, 0, 3, 1, 2, 1, 3, 0, 2, 1, 2, 0,
            3, 0, 2, 0, 2, 0, 2,
        ],
    )
}

/// The classes of the extension have these numbers.
fn expect_classes(rt: &impl Abort, alloc: Global, twist: &Twist, numbers: &[u32]) {
    let classes = ext_classes(alloc, twist).expect(rt, "memory");
    assert_eq!(rt; classes.as_slice(), numbers);
}

#[test]
fn class_numbers(rt: HostRuntime) {
    let alloc = rt.alloc();
    expect_classes(&rt, alloc, &two(&rt, alloc), &[0, 1, 2, 3]);
    expect_classes(
        &rt,
        alloc,
        &plain(&rt, alloc),
        &[0, 1, 2, 3, 2, 3, 4, 5, 4, 5, 4, 5],
    );
    expect_classes(
        &rt,
        alloc,
        &bits(&rt, alloc),
        &[0, 1, 2, 3, 4, 4, 5, 5, 6, 6, 7, 7, 8, 8, 9, 9],
    );
    expect_classes(
        &rt,
        alloc,
        &coboundary(&rt, alloc),
        &[
            0, 1, 2, 3, 4, 5, 6, 7, 5, 6, 7, 4, 8, 9, 10, 11, 9, 10, 11, 8, 10, 11, 8, 9,
        ],
    );
}

#[test]
fn lifts(rt: HostRuntime) {
    let twist = bits(&rt, rt.alloc());
    assert!(rt; lifts_conjugate(&twist, 4, 0, 1));
    assert!(rt; lifts_conjugate(&twist, 1, 1, 1));
    assert!(rt; !lifts_conjugate(&twist, 1, 0, 1));
    assert!(rt; !lifts_conjugate(&twist, 0, 1, 0));
}

#[test]
fn products(rt: HostRuntime) {
    let twist = coboundary(&rt, rt.alloc());
    let a = Pair { place: 1, root: 2 };
    let b = Pair { place: 3, root: 3 };
    assert_eq!(rt; ext_product(&twist, a, b), Pair { place: 4, root: 1 });
    assert_eq!(rt; ext_inverse(&twist, a), Pair { place: 2, root: 3 });
    assert_eq!(rt; ext_inverse(&twist, b), Pair { place: 3, root: 3 });
}

// The phase of the power of x by j is j b(x) - b(x^j) modulo 4.
#[test]
fn powers(rt: HostRuntime) {
    let semion = two(&rt, rt.alloc());
    let twist = coboundary(&rt, rt.alloc());
    let expected = [(0, 0), (1, 0), (2, 1), (3, 1), (4, 0), (u32::MAX, 1)];
    for (j, phase) in expected {
        assert_eq!(rt; power_phase(&semion, 1, j), phase, "power by {j}");
    }
    let expected = [(0, 0), (2, 0), (3, 3), (4, 3), (1_000_000, 3)];
    for (j, phase) in expected {
        assert_eq!(rt; power_phase(&twist, 1, j), phase, "power of a turn by {j}");
    }
    let expected = [(1, 0), (2, 2), (3, 2), (4, 0), (5, 0), (u32::MAX, 2)];
    for (j, phase) in expected {
        assert_eq!(rt;
            power_phase(&twist, 3, j),
            phase,
            "power of an exchange by {j}"
        );
    }
}
