//! The double of the group of order 2 with its nontrivial cocycle, worked by hand.

ghost use Rattle.std.specs.Prelude.{◌<◌, All};

use group_table::Nats;
use indicators::indicator;
use std::alloc::Global;
use std::process::Abort;

/// A list of these numbers.
fn nats_of(rt: &impl Abort, alloc: Global, numbers: &[u32]) -> Nats {
    let mut list = Nats::empty(alloc);
    for number in numbers {
        assert!(rt; list.len() < 1_000);
        list.push(*number).expect(rt, "memory");
    }
    list
}

/// The twists, which are below the conductor.
fn twists(rt: &impl Abort, alloc: Global) -> Nats
    ensures below { All (λ t. t < 4) result }
{
    let mut list = Nats::empty(alloc);
    for twist in [0, 0, 3, 1_u32] {
        assert!(rt; twist < 4 && list.len() < 4);
        list.push(twist).expect(rt, "memory");
    }
    list
}

/// The pairs in whose product a simple comes are those whose numbers differ in the same digits as its own.
fn plane(rt: &impl Abort, alloc: Global, k: u32) -> Nats {
    let mut list = Nats::empty(alloc);
    for q in 0..16_u32 {
        assert!(rt; list.len() < 16);
        list.push(u32::from((q / 4) ^ (q % 4) == k))
            .expect(rt, "memory");
    }
    list
}

#[test]
#[tactic(auto, unfolding(cyclotomic::specs::Conductors::is_conductor, cyclotomic::specs::Conductors::conductors))]
fn semions(rt: HostRuntime) {
    let dims = nats_of(&rt, rt.alloc(), &[1, 1, 1, 1]);
    let twists = twists(&rt, rt.alloc());
    let rows = [
        (1, [4, 0, 0, 0]),
        (2, [4, 4, -4, -4]),
        (4_294_967_294, [4, 4, -4, -4_i128]),
    ];
    for (m, numerators) in rows {
        for k in 0..4_usize {
            let plane = plane(&rt, rt.alloc(), k as u32);
            assert!(rt; dims.len() == 4 && twists.len() == dims.len());
            assert!(rt; plane.len() == dims.len() * dims.len());
            let value = indicator::<4>(k as u32, &plane, &dims, &twists, m).expect(&rt, "a sum");
            assert_eq!(rt; value.as_whole(), Some(numerators[k]));
        }
    }
}
