//! Products, class sums and places on two small twists, worked by hand.

ghost use Rattle.std.specs.Prelude.{◌≡◌, ◌<◌, ◌≤◌, length};
ghost use Rattle.twisted.specs.Twist.{size};

use crate::made::twist_of;
use qd_ring::{Cyc, CycRing};
use std::alloc::Global;
use std::process::Abort;
use twisted::{
    Elem, MulRefusal, Twist, centre_rank, class_sum, is_regular, kappa, mul, regular_reps,
};

/// The group of pairs of bits, with a phase of -1 where the first bit on the left and the second on the right are 1.
fn four(rt: &impl Abort, alloc: Global) -> Twist
    ensures size { size result ≡ 4 }
    ensures modulus { result.modulus ≡ 2 }
{
    twist_of(
        rt,
        alloc,
        0,
        &[0, 1, 2, 3],
        &[0, 1, 2, 3, 1, 0, 3, 2, 2, 3, 0, 1, 3, 2, 1, 0],
        2,
        &[0, 0, 0, 0, 0, 0, 0, 0, 0, 1, 0, 1, 0, 1, 0, 1],
    )
}

#[test]
fn only_the_identity_is_regular(rt: HostRuntime) {
    let twist = four(&rt, rt.alloc());
    assert_eq!(rt; centre_rank(&twist), 1);
    assert_eq!(rt;
        regular_reps(rt.alloc(), &twist)
            .expect(&rt, "memory")
            .as_slice(),
        [0].as_slice()
    );
    assert_eq!(rt; kappa(&twist, 1, 2), 1);
    assert!(rt; !is_regular(&twist, 3));
}

/// The permutations of three points as elements of a greater group: the identity, the two turns and the three exchanges, with the
/// phases `b(x) + b(y) - b(xy)` modulo 4 for b = 0, 1, 2, 3, 0, 1.
fn permutations(rt: &impl Abort, alloc: Global) -> Twist
    ensures size { size result ≡ 6 }
    ensures modulus { result.modulus ≡ 4 }
{
    twist_of(
        rt,
        alloc,
        7,
        &[2, 3, 5, 7, 11, 13],
        &[
            0, 1, 2, 3, 4, 5, 1, 2, 0, 4, 5, 3, 2, 0, 1, 5, 3, 4, 3, 5, 4, 0, 2, 1, 4, 3, 5, 1, 0,
            2, 5, 4, 3, 2, 1, 0,
        ],
        4,
        &[
            0, 0, 0, 0, 0, 0, 0, 0, 3, 0, 0, 3, 0, 3, 3, 0, 3, 3, 0, 3, 1, 2, 1, 3, 0, 2, 1, 2, 0,
            3, 0, 2, 0, 2, 0, 2,
        ],
    )
}

/// The ring of the values of conductor 4, whose x is a root of -1.
fn gaussian_integers() -> CycRing<4> {
    CycRing::new()
}

/// The element has these coefficients: real and imaginary parts by place.
fn expect_coefficients(rt: &impl Abort, a: &Elem<CycRing<4>>, parts: &[(i128, i128)])
    requires same { length a.now ≡ length parts.now }
    requires few { length parts.now ≤ 60 }
{
    for p in 0..parts.len() as u32 {
        let value = a.get(p);
        let (real, imaginary) = parts[p as usize];
        assert_eq!(rt; value.coefficient(0), real, "real part at {p}");
        assert_eq!(rt; value.coefficient(1), imaginary, "imaginary part at {p}");
    }
}

/// The element with the coefficient `v` at the place `p`, and 0 elsewhere.
fn element(rt: &impl Abort, alloc: Global, twist: &Twist, p: u32, v: Cyc<4>) -> Elem<CycRing<4>>
    requires { p < size twist.now }
    ensures { length result ≡ size twist.now }
{
    let mut a = Elem::zero(alloc, &gaussian_integers(), twist).expect(rt, "memory");
    a.set(p, v);
    a
}

#[test]
fn elements_and_places(rt: HostRuntime) {
    let made = permutations(&rt, rt.alloc());
    let twist = made.copy(rt.alloc()).expect(&rt, "memory");
    assert_eq!(rt; twist.at(), 7);
    assert_eq!(rt; twist.element(3), 7);
    assert_eq!(rt; twist.place(13), Some(5));
    assert_eq!(rt; twist.place(4), None);
    assert_eq!(rt; twist.phase(1, 2), 3);
    assert_eq!(rt; twist.group().identity(), 0);
}

#[test]
fn class_sums(rt: HostRuntime) {
    let twist = permutations(&rt, rt.alloc());
    assert_eq!(rt; centre_rank(&twist), 3);
    assert!(rt; is_regular(&twist, 1));
    assert!(rt; is_regular(&twist, 3));
    let ring = gaussian_integers();
    let turns = class_sum(rt.alloc(), &ring, &twist, 1).expect(&rt, "memory");
    expect_coefficients(
        &rt,
        &turns,
        &[(0, 0), (1, 0), (0, -1), (0, 0), (0, 0), (0, 0)],
    );
    let exchanges = class_sum(rt.alloc(), &ring, &twist, 3).expect(&rt, "memory");
    expect_coefficients(
        &rt,
        &exchanges,
        &[(0, 0), (0, 0), (0, 0), (1, 0), (0, -1), (-1, 0)],
    );
}

#[test]
fn products(rt: HostRuntime) {
    let twist = permutations(&rt, rt.alloc());
    let ring = gaussian_integers();
    let turn = element(&rt, rt.alloc(), &twist, 1, Cyc::one());
    let exchange = element(&rt, rt.alloc(), &twist, 3, Cyc::one());
    let Ok(square) = mul(rt.alloc(), &ring, &twist, &exchange, &exchange) else {
        panic!(rt; "no square");
    };
    expect_coefficients(
        &rt,
        &square,
        &[(-1, 0), (0, 0), (0, 0), (0, 0), (0, 0), (0, 0)],
    );
    let Ok(turned) = mul(rt.alloc(), &ring, &twist, &exchange, &turn) else {
        panic!(rt; "no product");
    };
    expect_coefficients(
        &rt,
        &turned,
        &[(0, 0), (0, 0), (0, 0), (0, 0), (0, 0), (0, -1)],
    );
    let great = element(&rt, rt.alloc(), &twist, 0, Cyc::whole(1 << 60));
    let refusal = mul(rt.alloc(), &ring, &twist, &great, &great).err();
    assert_eq!(rt; refusal, Some(MulRefusal::Overflow { place: 0 }));
}
