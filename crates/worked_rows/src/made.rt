//! Lists, groups, cocycles and twists made of numbers, for the rows beside.

ghost use Rattle.std.specs.Prelude.{◌≡◌, length};
ghost use Rattle.twisted.specs.Twist.{IsTwist};

use cochain::Cocycle;
use group_table::{Group, GroupRefusal, Nats};
use std::alloc::Global;
use std::process::Abort;
use twisted::Twist;

/// The permutations of three points: the identity, the two turns and the three exchanges.
pub const PERMUTATIONS: [u32; 36] = [
    0, 1, 2, 3, 4, 5, 1, 2, 0, 4, 5, 3, 2, 0, 1, 5, 3, 4, 3, 5, 4, 0, 2, 1, 4, 3, 5, 1, 0, 2, 5, 4,
    3, 2, 1, 0,
];

/// A list of these numbers.
pub fn nats_of(rt: &impl Abort, alloc: Global, numbers: &[u32]) -> Nats
    ensures numbers { result ≡ numbers.now }
{
    let mut list = Nats::empty(alloc);
    for number in numbers {
        assert!(rt; list.len() < 60 * 60);
        list.push(*number).expect(rt, "memory");
    }
    list
}

/// What is made of this table.
pub fn made_of(
    rt: &impl Abort,
    alloc: Global,
    order: u32,
    table: &[u32],
) -> Result<Group, GroupRefusal> {
    let table = nats_of(rt, alloc, table);
    assert!(rt; 1 <= order && order <= 60);
    assert!(rt; table.len() == order * order);
    Group::from_table(alloc, order, &table)
}

/// The group of this table.
pub fn group_of(rt: &impl Abort, alloc: Global, order: u32, table: &[u32]) -> Group {
    made_of(rt, alloc, order, table).expect(rt, "a group")
}

/// The cocycle with these exponents of the group with this table.
pub fn cocycle_of(
    rt: &impl Abort,
    alloc: Global,
    order: u32,
    table: &[u32],
    roots: u32,
    exponents: &[u32],
) -> Cocycle {
    let group = group_of(rt, alloc, order, table);
    let exponents = nats_of(rt, alloc, exponents);
    let n = group.order();
    assert!(rt; 1 <= roots && roots <= 64);
    assert!(rt; exponents.len() == n * n * n);
    Cocycle::from_exponents(alloc, group, roots, &exponents).expect(rt, "a cocycle")
}

/// The cocycle of the group of order 2 that is -1 at (1,1,1).
pub fn semion_cocycle(rt: &impl Abort, alloc: Global) -> Cocycle {
    cocycle_of(rt, alloc, 2, &[0, 1, 1, 0], 2, &[0, 0, 0, 0, 0, 0, 0, 1])
}

/// The twist of these lists.
pub fn twist_of(
    rt: &impl Abort,
    alloc: Global,
    at: u32,
    elements: &[u32],
    table: &[u32],
    modulus: u32,
    phases: &[u32],
) -> Twist
    requires twist { IsTwist (record { at = at; elements = elements.now; group = record { order = length elements.now; entries = table.now }; modulus = modulus; phases = phases.now }) }
    ensures twist { result ≡ record { at = at; elements = elements.now; group = record { order = length elements.now; entries = table.now }; modulus = modulus; phases = phases.now } }
{
    let table = nats_of(rt, alloc, table);
    let group = Group::from_table(alloc, elements.len() as u32, &table).expect(rt, "a group");
    let phases = nats_of(rt, alloc, phases);
    Twist::new(at, nats_of(rt, alloc, elements), group, modulus, phases)
}
