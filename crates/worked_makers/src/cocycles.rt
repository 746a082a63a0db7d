//! Cocycles by formulas, with exponents worked by hand, and numbers and maps that are refused.

ghost use Rattle.std.specs.Prelude.{◌<◌, ℕ, length, slice_index};

use cochain::{Cocycle, GaugeRefusal};
use cocycle_make::{InflateRefusal, inflate, trivial, type_one, type_three, type_two};
use group_make::{MakeRefusal, cyclic, dihedral};
use group_table::Nats;
use std::alloc::Global;
use std::process::Abort;

/// A list of these numbers.
fn nats_of(rt: &impl Abort, alloc: Global, numbers: &[u32]) -> Nats {
    let mut list = Nats::empty(alloc);
    for number in numbers {
        assert!(rt; list.len() < 60 * 60);
        list.push(*number).expect(rt, "memory");
    }
    list
}

/// The exponent at three elements, and how many roots of unity there are.
fn expect_value(rt: &impl Abort, w: &Cocycle, at: (u32, u32, u32), exponent: u32, roots: u32) {
    let order = w.group().order();
    assert!(rt; at.0 < order && at.1 < order && at.2 < order);
    assert_eq!(rt; w.value(at.0, at.1, at.2), exponent);
    assert!(rt; w.roots() == roots);
}

/// The cocycle of the group of order 2 that is not a coboundary.
fn semion(rt: &impl Abort, alloc: Global) -> Cocycle {
    type_one(alloc, 2, 1).expect(rt, "a cocycle")
}

/// The exponent is 1 exactly where the three elements are from `first` on.
fn expect_ones_from(rt: &impl Abort, w: &Cocycle, order: u32, first: u32) {
    assert!(rt; w.group().order() == order && order <= 60);
    for x in 0..order {
        for y in 0..order {
            for z in 0..order {
                let all = x >= first && y >= first && z >= first;
                expect_value(rt, w, (x, y, z), if all { 1 } else { 0 }, 2);
            }
        }
    }
}

#[test]
fn formulas(rt: HostRuntime) {
    let alloc = rt.alloc();
    expect_ones_from(&rt, &semion(&rt, alloc), 2, 1);
    let half = type_one(alloc, 4, 2).expect(&rt, "a cocycle");
    expect_value(&rt, &half, (1, 2, 2), 1, 2);
    expect_value(&rt, &half, (2, 2, 2), 0, 2);
    let most = type_one(alloc, 4, 4_294_967_295).expect(&rt, "a cocycle");
    expect_value(&rt, &most, (1, 2, 2), 3, 4);
    let none = type_one(alloc, 4, 8).expect(&rt, "a cocycle");
    expect_value(&rt, &none, (3, 3, 3), 0, 1);
    let two = type_two(alloc, 4, 2, 1).expect(&rt, "a cocycle");
    expect_value(&rt, &two, (3, 1, 1), 1, 4);
    expect_value(&rt, &two, (1, 1, 1), 0, 4);
    let three = type_three(alloc, 2, 2, 2, 1).expect(&rt, "a cocycle");
    expect_value(&rt, &three, (4, 2, 1), 1, 2);
    expect_value(&rt, &three, (1, 2, 4), 0, 2);
    let group = cyclic(alloc, 3).expect(&rt, "a group");
    let plain = trivial(alloc, group, 64).expect(&rt, "memory");
    expect_value(&rt, &plain, (1, 2, 1), 0, 64);
    assert_eq!(rt;
        type_one(alloc, 61, 1).err(),
        Some(MakeRefusal::Size { order: 61 })
    );
    assert_eq!(rt;
        type_two(alloc, 61, 1, 1).err(),
        Some(MakeRefusal::Size { order: 61 })
    );
    assert_eq!(rt;
        type_three(alloc, 2, 0, 2, 1).err(),
        Some(MakeRefusal::Size { order: 0 })
    );
}

/// Each number of the list is below this.
fn expect_below(rt: &impl Abort, numbers: &Nats, bound: u32)
    ensures below { (g : ℕ) → g < length numbers.now → slice_index numbers.now g < bound }
{
    for i in 0..numbers.len() {
        assert!(rt; numbers.at(i) < bound);
    }
}

/// The cocycle `w` along this map from the dihedral group of order 6.
fn inflated(
    rt: &impl Abort,
    alloc: Global,
    w: &Cocycle,
    map: &Nats,
) -> Result<Cocycle, InflateRefusal> {
    let group = dihedral(alloc, 3).expect(rt, "a group");
    let order = w.group().order();
    assert!(rt; group.order() == 6 && map.len() == 6);
    expect_below(rt, map, order);
    inflate(alloc, group, map, w)
}

#[test]
fn inflated_and_gauged(rt: HostRuntime) {
    let alloc = rt.alloc();
    let w = semion(&rt, alloc);
    assert!(rt; w.group().order() == 2);
    let signs = nats_of(&rt, alloc, &[0, 0, 0, 1, 1, 1]);
    let reflections = inflated(&rt, alloc, &w, &signs).expect(&rt, "a cocycle");
    expect_ones_from(&rt, &reflections, 6, 3);
    let bad = nats_of(&rt, alloc, &[0, 1, 0, 0, 0, 0]);
    assert_eq!(rt;
        inflated(&rt, alloc, &w, &bad).err(),
        Some(InflateRefusal::BadMap { g: 1, h: 2 })
    );
    let turned = nats_of(&rt, alloc, &[0, 0, 0, 1]);
    assert!(rt; turned.len() == 4);
    expect_ones_from(&rt, &w.gauge(alloc, &turned).expect(&rt, "a cocycle"), 2, 1);
    let moved = nats_of(&rt, alloc, &[0, 1, 0, 0]);
    assert!(rt; moved.len() == 4);
    assert_eq!(rt;
        w.gauge(alloc, &moved).err(),
        Some(GaugeRefusal::NotNormal { g: 0, h: 1 })
    );
}
