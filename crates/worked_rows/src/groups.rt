//! Small groups, and tables that are none, with values worked by hand.

use crate::made::{PERMUTATIONS, made_of, nats_of};
use group_table::{GroupFault, GroupRefusal, Nats};
use std::alloc::Global;
use std::process::Abort;

/// The group of this table, with its identity, the inverses and the orders of its elements, and its exponent.
fn expect_group(
    rt: &impl Abort,
    alloc: Global,
    table: &[u32],
    identity: u32,
    inverses: &[u32],
    orders: &[u32],
    exponent: u32,
) {
    let order = orders.len();
    assert!(rt; order <= 60);
    let made = made_of(rt, alloc, order as u32, table).expect(rt, "a group");
    let group = made.copy(alloc).expect(rt, "memory");
    assert!(rt; group.order() == order as u32);
    assert_eq!(rt; group.identity(), identity);
    assert_eq!(rt; group.exponent(), exponent);
    assert!(rt; inverses.len() == order);
    for g in 0..order {
        assert_eq!(rt; group.inverse(g as u32), inverses[g], "inverse of {g}");
        assert_eq!(rt; group.element_order(g as u32), orders[g], "order of {g}");
    }
}

#[test]
fn groups(rt: HostRuntime) {
    expect_group(&rt, rt.alloc(), &[0, 1, 1, 0], 0, &[0, 1], &[1, 2], 2);
    expect_group(&rt, rt.alloc(), &[1, 0, 0, 1], 1, &[0, 1], &[2, 1], 2);
    expect_group(
        &rt,
        rt.alloc(),
        &PERMUTATIONS,
        0,
        &[0, 2, 1, 3, 4, 5],
        &[1, 3, 3, 2, 2, 2],
        6,
    );
}

#[test]
fn products_and_powers(rt: HostRuntime) {
    let group = made_of(&rt, rt.alloc(), 6, &PERMUTATIONS).expect(&rt, "a group");
    assert!(rt; group.order() == 6);
    assert_eq!(rt; group.product(1, 3), 4);
    assert_eq!(rt; group.product(3, 1), 5);
    assert_eq!(rt; group.power(1, 0), 0);
    assert_eq!(rt; group.power(1, 5), 2);
    assert_eq!(rt; group.power(1, 4_294_967_295), 0);
    assert_eq!(rt; group.power(3, 4_294_967_295), 3);
}

/// A table with this fault makes no group.
fn expect_fault(rt: &impl Abort, alloc: Global, order: u32, table: &[u32], fault: GroupFault) {
    assert_eq!(rt;
        made_of(rt, alloc, order, table).err(),
        Some(GroupRefusal::Fault(fault))
    );
}

#[test]
fn faults(rt: HostRuntime) {
    expect_fault(
        &rt,
        rt.alloc(),
        2,
        &[0, 1, 1, 2],
        GroupFault::Entry { g: 1, h: 1 },
    );
    expect_fault(&rt, rt.alloc(), 2, &[0, 0, 0, 0], GroupFault::NoIdentity);
    expect_fault(
        &rt,
        rt.alloc(),
        2,
        &[0, 1, 1, 1],
        GroupFault::NoInverse { g: 1 },
    );
    let loop_of_five = [
        0, 1, 2, 3, 4, 1, 0, 3, 4, 2, 2, 4, 0, 1, 3, 3, 2, 4, 0, 1, 4, 3, 1, 2, 0,
    ];
    expect_fault(
        &rt,
        rt.alloc(),
        5,
        &loop_of_five,
        GroupFault::NotAssociative { g: 1, h: 1, k: 2 },
    );
}

#[test]
fn numbers(rt: HostRuntime) {
    let list = nats_of(&rt, rt.alloc(), &[4_294_967_295, 0, 7]);
    let copy = list.copy(rt.alloc()).expect(&rt, "memory");
    assert_eq!(rt; copy.as_slice(), [4_294_967_295, 0, 7].as_slice());
    assert!(rt; copy.len() == 3);
    assert_eq!(rt; copy.at(2), 7);
    assert!(rt; !copy.is_empty());
    assert!(rt; Nats::empty(rt.alloc()).is_empty());
    let ones = Nats::passing_below(rt.alloc(), 8, |i| i % 3 == 1).expect(&rt, "memory");
    assert_eq!(rt; ones.as_slice(), [1, 4, 7].as_slice());
}
