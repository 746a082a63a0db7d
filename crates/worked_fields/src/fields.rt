//! Moduli, least roots, inverses and sums of residues, with values worked by hand or by an independent program.

ghost use Rattle.std.specs.Prelude.{◌≡◌, true};
ghost use Rattle.cyclotomic.specs.Conductors.{is_conductor};

use prime_field::{ModRing, ModulusFault};
use qd_ring::{Ring, root_of, try_sum};
use std::process::Abort;

/// The least root of the field, or why there is none.
fn expect_root(
    rt: &impl Abort,
    q: u32,
    above: u32,
    conductor: u32,
    wanted: Result<u32, ModulusFault>,
)
    requires { is_conductor conductor ≡ true }
{
    match ModRing::new(q, above, conductor) {
        Ok(ring) => {
            assert_eq!(rt; wanted, Ok(ring.root()));
            assert_eq!(rt; ring.q(), q);
            assert_eq!(rt; ring.unit_order(), conductor);
        }
        Err(fault) => assert_eq!(rt; wanted, Err(fault)),
    }
}

#[test]
#[tactic(auto, unfolding(cyclotomic::specs::Conductors::is_conductor, cyclotomic::specs::Conductors::conductors))]
fn least_roots(rt: HostRuntime) {
    expect_root(&rt, 5, 2, 4, Ok(2));
    expect_root(&rt, 13, 12, 12, Ok(2));
    expect_root(&rt, 7, 2, 6, Ok(3));
    expect_root(&rt, 73, 60, 9, Ok(2));
    expect_root(&rt, 109, 60, 27, Ok(3));
    expect_root(&rt, 101, 60, 25, Ok(5));
    expect_root(&rt, 197, 60, 49, Ok(16));
    expect_root(&rt, 193, 60, 64, Ok(11));
    expect_root(&rt, 337, 60, 84, Ok(9));
    expect_root(&rt, 241, 60, 120, Ok(3));
}

/// Of the listed moduli these are valid for the conductor, over groups that are small enough for them, and no other.
fn expect_moduli(rt: &impl Abort, conductor: u32, valid: &[u32])
    requires { is_conductor conductor ≡ true }
{
    let listed = [
        5, 7, 13, 17, 61, 73, 97, 101, 109, 113, 127, 193, 197, 241, 337,
    ];
    for q in listed {
        assert_eq!(rt;
            (q, ModRing::new(q, 1, conductor).is_ok()),
            (q, valid.contains(&q))
        );
    }
}

#[test]
#[tactic(auto, unfolding(cyclotomic::specs::Conductors::is_conductor, cyclotomic::specs::Conductors::conductors))]
fn valid_moduli(rt: HostRuntime) {
    expect_moduli(
        &rt,
        4,
        &[5, 13, 17, 61, 73, 97, 101, 109, 113, 193, 197, 241, 337],
    );
    expect_moduli(&rt, 6, &[7, 13, 61, 73, 97, 109, 127, 193, 241, 337]);
    expect_moduli(&rt, 8, &[17, 73, 97, 113, 193, 241, 337]);
    expect_moduli(&rt, 9, &[73, 109, 127]);
    expect_moduli(&rt, 12, &[13, 61, 73, 97, 109, 193, 241, 337]);
    expect_moduli(&rt, 16, &[17, 97, 113, 193, 241, 337]);
    expect_moduli(&rt, 18, &[73, 109, 127]);
    expect_moduli(&rt, 20, &[61, 101, 241]);
    expect_moduli(&rt, 24, &[73, 97, 193, 241, 337]);
    expect_moduli(&rt, 25, &[101]);
    expect_moduli(&rt, 27, &[109]);
    expect_moduli(&rt, 28, &[113, 197, 337]);
    expect_moduli(&rt, 30, &[61, 241]);
    expect_moduli(&rt, 32, &[97, 193]);
    expect_moduli(&rt, 36, &[73, 109]);
    expect_moduli(&rt, 40, &[241]);
    expect_moduli(&rt, 42, &[127, 337]);
    expect_moduli(&rt, 48, &[97, 193, 241, 337]);
    expect_moduli(&rt, 49, &[197]);
    expect_moduli(&rt, 54, &[109]);
    expect_moduli(&rt, 60, &[61, 241]);
    expect_moduli(&rt, 64, &[193]);
    expect_moduli(&rt, 72, &[73]);
    expect_moduli(&rt, 84, &[337]);
    expect_moduli(&rt, 96, &[97, 193]);
    expect_moduli(&rt, 120, &[241]);
}

#[test]
#[tactic(auto, unfolding(cyclotomic::specs::Conductors::is_conductor, cyclotomic::specs::Conductors::conductors))]
fn refused_moduli(rt: HostRuntime) {
    expect_root(&rt, 2, 2, 4, Err(ModulusFault::Range { q: 2, above: 2 }));
    expect_root(&rt, 5, 5, 4, Err(ModulusFault::Range { q: 5, above: 5 }));
    expect_root(
        &rt,
        65_537,
        2,
        4,
        Err(ModulusFault::Range {
            q: 65_537,
            above: 2,
        }),
    );
    expect_root(&rt, 9, 2, 4, Err(ModulusFault::Unlisted { q: 9 }));
    expect_root(&rt, 11, 1, 4, Err(ModulusFault::Unlisted { q: 11 }));
    expect_root(&rt, 0, 0, 4, Err(ModulusFault::Range { q: 0, above: 0 }));
    expect_root(
        &rt,
        5,
        1,
        20,
        Err(ModulusFault::DividesConductor {
            q: 5,
            conductor: 20,
        }),
    );
    expect_root(
        &rt,
        7,
        2,
        4,
        Err(ModulusFault::NoRoot { q: 7, conductor: 4 }),
    );
}

#[test]
#[tactic(auto, unfolding(cyclotomic::specs::Conductors::is_conductor, cyclotomic::specs::Conductors::conductors))]
fn inverses(rt: HostRuntime) {
    let ring = ModRing::new(241, 60, 4).expect(&rt, "a field");
    assert_eq!(rt; ring.inverse(100), Some(94));
    assert_eq!(rt; ring.inverse(341), Some(94));
    assert_eq!(rt; ring.inverse(1), Some(1));
    assert_eq!(rt; ring.inverse(0), None);
    assert_eq!(rt; ring.inverse(482), None);
}

#[test]
#[tactic(auto, unfolding(cyclotomic::specs::Conductors::is_conductor, cyclotomic::specs::Conductors::conductors))]
fn residues(rt: HostRuntime) {
    let ring = ModRing::new(5, 2, 4).expect(&rt, "a field");
    assert_eq!(rt; root_of(&ring, 3), 3);
    assert_eq!(rt; root_of(&ring, 6), 4);
    assert!(rt; ring.q() == 5);
    assert_eq!(rt; try_sum(&ring, &[4, 3, 3]), Some(0));
    assert_eq!(rt; ring.try_mul(&3, &4), Some(2));
    assert_eq!(rt; ring.try_scale(5, &3), Some(1));
    assert!(rt; ring.same(&ring.zero(), &0));
    assert!(rt; !ring.same(&ring.one(), &0));
}
