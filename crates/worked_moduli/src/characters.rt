//! Central characters worked by hand.

ghost use Rattle.std.specs.Prelude.{◌≡◌, true};
ghost use Rattle.cyclotomic.specs.Conductors.{is_conductor};

use crate::made::{PERMUTATIONS, permutations, two, untwisted};
use dixon_split::split;
use prime_field::ModRing;
use std::alloc::Global;
use std::process::Abort;
use twisted::Twist;

/// That these are the central characters of the twist modulo `q`, of as many values as the width says, one after another.
fn expect_lists(
    rt: &impl Abort,
    alloc: Global,
    twist: &Twist,
    ring: &ModRing,
    width: u32,
    wanted: &[u32],
) {
    let period = twist.modulus() * twist.group().exponent();
    assert!(rt; period >= 1 && ring.conductor % period == 0);
    assert!(rt; twist.size() < ring.q());
    let central = split(alloc, twist, ring).expect(rt, "memory");
    assert!(rt; width == twisted::centre_rank(twist));
    let mut place = 0;
    for i in 0..central.count() {
        for c in 0..width {
            assert!(rt; place < wanted.len());
            assert_eq!(rt; central.value(i, c), wanted[place]);
            place += 1;
        }
    }
    assert_eq!(rt; place, wanted.len());
}

/// The field modulo `q`.
fn field(rt: &impl Abort, q: u32, conductor: u32) -> ModRing
    requires conductor { is_conductor conductor ≡ true }
{
    let Ok(ring) = ModRing::new(q, 4, conductor) else {
        panic!(rt; "no field")
    };
    ring
}

#[test]
#[tactic(auto, unfolding(cyclotomic::specs::Conductors::is_conductor, cyclotomic::specs::Conductors::conductors))]
fn worked_lists(rt: HostRuntime) {
    let alloc = rt.alloc();
    let small = field(&rt, 5, 4);
    let twist = untwisted(&rt, alloc, 2, &[0, 1, 1, 0]);
    expect_lists(&rt, alloc, &twist, &small, 2, &[1, 1, 1, 4]);
    let twist = two(&rt, alloc);
    expect_lists(&rt, alloc, &twist, &small, 2, &[1, 2, 1, 3]);
    let twist = untwisted(&rt, alloc, 6, &PERMUTATIONS);
    let seven = field(&rt, 7, 6);
    expect_lists(&rt, alloc, &twist, &seven, 3, &[1, 2, 3, 1, 2, 4, 1, 6, 0]);
    let twist = permutations(&rt, alloc);
    let great = field(&rt, 73, 24);
    expect_lists(
        &rt,
        alloc,
        &twist,
        &great,
        3,
        &[1, 19, 8, 1, 19, 65, 1, 27, 0],
    );
}
