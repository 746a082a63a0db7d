//! Tables over the four group with a twist: its algebra is that of the matrices of two rows, with one character, 2 at the identity and 0
//! elsewhere.

ghost use Rattle.std.specs.Prelude.{◌≡◌, length};
ghost use Rattle.table_check.specs.Characters.{IsShaped};
ghost use Rattle.table_check.specs.Instances.{one_twist};
ghost use Rattle.twisted.specs.Instances.{four_twist};

use crate::made::twist_of;
use qd_ring::{Cyc, Rows};
use std::alloc::Global;
use std::process::Abort;
use table_check::{IdentityName, Table, TableRefusal};
use twisted::Twist;

/// The group of one element.
fn one(rt: &impl Abort, alloc: Global) -> Twist
    ensures twist { result ≡ one_twist }
{
    twist_of(rt, alloc, 0, &[0], &[0], 1, &[0])
}

/// The group of pairs of bits, with a phase of -1 where the first bit on the left and the second on the right are 1.
fn four(rt: &impl Abort, alloc: Global) -> Twist
    ensures twist { result ≡ four_twist }
{
    twist_of(
        rt,
        alloc,
        0,
        &[0, 1, 2, 3],
        &[0, 1, 2, 3, 1, 0, 3, 2, 2, 3, 0, 1, 3, 2, 1, 0],
        2,
        &[0, 0, 0, 0, 0, 0, 0, 0, 0, 1, 0, 1, 0, 1, 0, 1],
    )
}

/// One row of these values.
#[tactic(auto, unfolding(cyclotomic::specs::Conductors::is_conductor, cyclotomic::specs::Conductors::conductors))]
fn row(rt: &impl Abort, alloc: Global, a: u8, b: u8, c: u8, d: u8) -> Rows<4>
    ensures shaped { IsShaped 4 (record { over = four_twist; rows = result }) }
{
    let mut rows = Rows::<4>::empty(alloc);
    rows.push_row().expect(rt, "memory");
    rows.push_value(Cyc::whole(i128::from(a)))
        .expect(rt, "memory");
    rows.push_value(Cyc::whole(i128::from(b)))
        .expect(rt, "memory");
    rows.push_value(Cyc::whole(i128::from(c)))
        .expect(rt, "memory");
    rows.push_value(Cyc::whole(i128::from(d)))
        .expect(rt, "memory");
    rows
}

/// Why the table of one row of these values is refused.
fn refusal(rt: &impl Abort, alloc: Global, a: u8, b: u8, c: u8, d: u8) -> Option<TableRefusal<4>> {
    let twist = four(rt, alloc);
    Table::check(alloc, &twist, row(rt, alloc, a, b, c, d)).err()
}

/// The table of the one row `1`.
#[tactic(auto, unfolding(cyclotomic::specs::Conductors::is_conductor, cyclotomic::specs::Conductors::conductors))]
fn trivial(rt: &impl Abort, alloc: Global) -> Table<4>
    ensures over { result.over ≡ one_twist }
    ensures rows { length result.rows ≡ 1 }
{
    let mut rows = Rows::<4>::empty(alloc);
    rows.push_row().expect(rt, "memory");
    rows.push_value(Cyc::one()).expect(rt, "memory");
    match Table::check(alloc, &one(rt, alloc), rows) {
        Ok(table) => table,
        Err(_) => panic!(rt; "no table"),
    }
}

#[test]
fn accepts(rt: HostRuntime) {
    let table = trivial(&rt, rt.alloc());
    assert_eq!(rt; table.rows(), 1);
    assert_eq!(rt; table.degree(0), 1);
    assert_eq!(rt; table.twist(0), 0);
    assert_eq!(rt; table.value(0, 0).coefficient(0), 1);
    assert_eq!(rt; table.over().size(), 1);
}

#[test]
#[tactic(auto, unfolding(cyclotomic::specs::Conductors::is_conductor, cyclotomic::specs::Conductors::conductors))]
fn checks(rt: HostRuntime) {
    assert_eq!(rt;
        refusal(&rt, rt.alloc(), 2, 0, 0, 0),
        Some(TableRefusal::NoVacuum { rows: 1 })
    );
    let product = TableRefusal::Identity {
        name: IdentityName::Product,
        i: 0,
        j: 0,
        x: 0,
        left: Cyc::one(),
        right: Cyc::whole(4),
    };
    assert_eq!(rt; refusal(&rt, rt.alloc(), 1, 0, 0, 0), Some(product));
    let degree = TableRefusal::Identity {
        name: IdentityName::Degree,
        i: 0,
        j: 0,
        x: 0,
        left: Cyc::whole(3),
        right: Cyc::whole(2),
    };
    assert_eq!(rt; refusal(&rt, rt.alloc(), 3, 0, 0, 0), Some(degree));
    let central = TableRefusal::Identity {
        name: IdentityName::Central,
        i: 0,
        j: 1,
        x: 3,
        left: Cyc::whole(1),
        right: -Cyc::<4>::one(),
    };
    assert_eq!(rt; refusal(&rt, rt.alloc(), 2, 0, 1, 0), Some(central));
}
