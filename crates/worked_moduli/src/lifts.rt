//! Candidates worked by hand, and by an independent program.

ghost use Rattle.std.specs.Prelude.{◌≡◌, ℕ, ◌^◌, ◌<◌, IsTrue, true, length};
ghost use Rattle.cyclotomic.specs.Conductors.{is_conductor};
ghost use Rattle.dixon_split.specs.CentralLists.{central_value};

use crate::made::{nats_of, permutations, two, untwisted};
use char_lift::{LiftRefusal, lift};
use dixon_split::Central;
use prime_field::ModRing;
use qd_ring::Rows;
use std::alloc::Global;
use std::process::Abort;
use twisted::{Twist, centre_rank};

/// Whether the values of list `i` are below `q`.
fn is_below(central: &Central, width: u32, q: u32, i: u32) -> bool
    requires width { central.now.width ≡ width }
    requires i_below { i < length central.now.lists }
    ensures below { IsTrue result → (t : ℕ) → t < width → central_value central.now i t < q }
{
    for t in 0..width {
        if central.value(i, t) >= q {
            return false;
        }
    }
    true
}

/// Whether all values are below `q`.
fn are_below(central: &Central, width: u32, q: u32) -> bool
    requires width { central.now.width ≡ width }
    ensures below { IsTrue result → (i t : ℕ) → i < length central.now.lists → t < width
        → central_value central.now i t < q }
{
    for i in 0..central.count() {
        if !is_below(central, width, q, i) {
            return false;
        }
    }
    true
}

/// The lifted rows of these lists over the twist, modulo `q`.
fn lifted<const K: u32>(
    rt: &impl Abort,
    alloc: Global,
    twist: &Twist,
    q: u32,
    lists: &[u32],
) -> Result<Rows<K>, LiftRefusal>
    requires conductor { is_conductor K ≡ true }
    requires few { length lists.now < 2 ^ 32 }
{
    let Ok(ring) = ModRing::new(q, twist.size(), K) else {
        panic!(rt; "no field")
    };
    let width = centre_rank(twist);
    let values = nats_of(rt, alloc, lists);
    assert!(rt; width >= 1 && values.len() % width == 0);
    let central = Central::from_lists(width, values);
    assert!(rt; K % twist.modulus() == 0);
    assert!(rt; twist.size() < ring.q());
    assert!(rt; are_below(&central, width, ring.q()));
    lift(alloc, twist, &ring, &central)
}

/// That these rows are lifted: for each value, row after row, its coefficients of 1 and of `x^p`.
fn expect_rows<const K: u32>(
    rt: &impl Abort,
    m: u32,
    p: u32,
    lifted: Result<Rows<K>, LiftRefusal>,
    wanted: &[(i128, i128)],
) {
    let Ok(rows) = lifted else {
        panic!(rt; "refused")
    };
    let mut place = 0;
    for i in 0..rows.rows() {
        assert_eq!(rt; rows.width(i), m);
        for x in 0..m {
            assert!(rt; place < wanted.len());
            let value = rows.value(i, x);
            assert_eq!(rt; (value.coefficient(0), value.coefficient(p)), wanted[place]);
            place += 1;
        }
    }
    assert_eq!(rt; place, wanted.len());
}

/// That the lift is refused so.
fn expect_refusal<const K: u32>(
    rt: &impl Abort,
    lifted: Result<Rows<K>, LiftRefusal>,
    wanted: LiftRefusal,
) {
    match lifted {
        Ok(_) => panic!(rt; "lifted"),
        Err(why) => assert_eq!(rt; why, wanted),
    }
}

#[test]
#[tactic(auto, unfolding(cyclotomic::specs::Conductors::is_conductor, cyclotomic::specs::Conductors::conductors))]
fn lifted_rows(rt: HostRuntime) {
    let alloc = rt.alloc();
    let twist = two(&rt, alloc);
    let rows = lifted::<4>(&rt, alloc, &twist, 5, &[1, 2, 1, 3]);
    expect_rows(&rt, 2, 1, rows, &[(1, 0), (0, 1), (1, 0), (0, -1)]);
    let twist = permutations(&rt, alloc);
    let rows = lifted::<12>(&rt, alloc, &twist, 13, &[1, 3, 2, 1, 3, 11, 1, 5, 0]);
    expect_rows(
        &rt,
        6,
        3,
        rows,
        &[
            (1, 0),
            (0, 1),
            (-1, 0),
            (0, -1),
            (1, 0),
            (0, 1),
            (1, 0),
            (0, 1),
            (-1, 0),
            (0, 1),
            (-1, 0),
            (0, -1),
            (2, 0),
            (0, -1),
            (1, 0),
            (0, 0),
            (0, 0),
            (0, 0),
        ],
    );
}

#[test]
#[tactic(auto, unfolding(cyclotomic::specs::Conductors::is_conductor, cyclotomic::specs::Conductors::conductors))]
fn refused_rows(rt: HostRuntime) {
    let alloc = rt.alloc();
    let twist = untwisted(&rt, alloc, 2, &[0, 1, 1, 0]);
    let rows = lifted::<4>(&rt, alloc, &twist, 5, &[1, 2]);
    expect_refusal(&rt, rows, LiftRefusal::NoDegree { row: 0, s: 0 });
    let twist = untwisted(&rt, alloc, 3, &[0, 1, 2, 1, 2, 0, 2, 0, 1]);
    let rows = lifted::<6>(&rt, alloc, &twist, 7, &[1, 3, 5]);
    expect_refusal(
        &rt,
        rows,
        LiftRefusal::Multiplicity {
            row: 0,
            x: 1,
            sum: 8,
            degree: 1,
        },
    );
    let twist = two(&rt, alloc);
    let rows = lifted::<4>(&rt, alloc, &twist, 5, &[1, 2, 1, 1]);
    expect_refusal(&rt, rows, LiftRefusal::NoDegree { row: 1, s: 0 });
    let twist = permutations(&rt, alloc);
    let rows = lifted::<12>(&rt, alloc, &twist, 13, &[1, 3, 2, 1, 10, 11]);
    expect_refusal(
        &rt,
        rows,
        LiftRefusal::Multiplicity {
            row: 1,
            x: 3,
            sum: 14,
            degree: 1,
        },
    );
}
