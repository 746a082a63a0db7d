//! Lists and twists made of numbers, for the rows beside.

ghost use Rattle.std.specs.Prelude.{◌≡◌, ℕ, ◌*◌, ◌^◌, ◌<◌, ◌≤◌, length};
ghost use Rattle.group_table.specs.Group.{IsSmall};
ghost use Rattle.prime_field.specs.ResidueLists.{IsTabulated};
ghost use Rattle.twisted.specs.Twist.{IsTwist};

use group_table::{Group, Nats};
use std::alloc::Global;
use std::process::Abort;
use twisted::Twist;

/// The permutations of three points: the identity, the two turns and the three exchanges.
pub const PERMUTATIONS: [u32; 36] = [
    0, 1, 2, 3, 4, 5, 1, 2, 0, 4, 5, 3, 2, 0, 1, 5, 3, 4, 3, 5, 4, 0, 2, 1, 4, 3, 5, 1, 0, 2, 5, 4,
    3, 2, 1, 0,
];

/// A list of these numbers.
pub fn nats_of(rt: &impl Abort, alloc: Global, numbers: &[u32]) -> Nats
    requires few { length numbers.now < 2 ^ 32 }
    ensures numbers { result ≡ numbers.now }
{
    let mut list = Nats::empty(alloc);
    for number in numbers {
        list.push(*number).expect(rt, "memory");
    }
    list
}

/// The first `n` multiples of the step.
pub fn multiples(rt: &impl Abort, alloc: Global, n: u32, step: u32) -> Nats
    requires few { n ≤ 3600 }
    requires small { step ≤ 1 }
    ensures multiples { IsTabulated n (λ k. k * step) result }
{
    let mut list = Nats::empty(alloc);
    for k in 0..n {
        list.push(k * step).expect(rt, "memory");
    }
    list
}

/// The group with this table, without phases.
pub fn untwisted(rt: &impl Abort, alloc: Global, order: u32, table: &[u32]) -> Twist
    requires small { IsSmall order }
    requires square { length table.now ≡ order * order }
{
    let table = nats_of(rt, alloc, table);
    let group = Group::from_table(alloc, order, &table).expect(rt, "a group");
    let elements = multiples(rt, alloc, order, 1);
    let phases = multiples(rt, alloc, order * order, 0);
    Twist::new(0, elements, group, 1, phases)
}

/// The twist of these lists.
pub fn twist_of(
    rt: &impl Abort,
    alloc: Global,
    at: u32,
    elements: &[u32],
    table: &[u32],
    modulus: u32,
    phases: &[u32],
) -> Twist
    requires twist { IsTwist (record { at = at; elements = elements.now; group = record { order = length elements.now; entries = table.now }; modulus = modulus; phases = phases.now }) }
{
    let table = nats_of(rt, alloc, table);
    let group = Group::from_table(alloc, elements.len() as u32, &table).expect(rt, "a group");
    let phases = nats_of(rt, alloc, phases);
    Twist::new(at, nats_of(rt, alloc, elements), group, modulus, phases)
}

/// The group of order 2, with the phase -1 of its other element with itself.
pub fn two(rt: &impl Abort, alloc: Global) -> Twist {
    twist_of(rt, alloc, 1, &[0, 1], &[0, 1, 1, 0], 2, &[0, 0, 0, 1])
}

/// The permutations of three points as elements of a greater group: the identity, the two turns and the three exchanges, with the phases
/// `b(x) + b(y) - b(xy)` modulo 4 for b = 0, 1, 2, 3, 0, 1. Its characters are those without phases, each value times the root with
/// exponent b.
pub fn permutations(rt: &impl Abort, alloc: Global) -> Twist {
    twist_of(
        rt,
        alloc,
        7,
        &[2, 3, 5, 7, 11, 13],
        &PERMUTATIONS,
        4,
        &[
            0, 0, 0, 0, 0, 0, 0, 0, 3, 0, 0, 3, 0, 3, 3, 0, 3, 3, 0, 3, 1, 2, 1, 3, 0, 2, 1, 2, 0,
            3, 0, 2, 0, 2, 0, 2,
        ],
    )
}
