//! Tests of values: products, conjugates, and what fits.

ghost use Rattle.std.specs.Prelude.{◌≡◌, true};
ghost use Rattle.cyclotomic.specs.Conductors.{is_conductor};

use crate::cyc::Cyc;
use crate::cyc_buffer::all_zero;
use crate::cyc_ring::CycRing;
use crate::root::Root;
use crate::sum::try_sum;

// x in the ring of conductor K.
fn variable<const K: u32>() -> Cyc<K>
    requires { is_conductor K ≡ true }
{
    Cyc::from_root(Root::new(1))
}

// Whether the coefficients begin with these numbers, and the others are 0.
fn begins_with<const K: u32>(value: &Cyc<K>, front: [i128; 4]) -> bool {
    let [a, b, c, d] = front;
    let listed = value.coefficient(0) == a
        && value.coefficient(1) == b
        && value.coefficient(2) == c
        && value.coefficient(3) == d;
    listed && all_zero(&value.coefficients[4..])
}

#[test]
#[tactic(auto, unfolding(cyclotomic::specs::Conductors::is_conductor, cyclotomic::specs::Conductors::conductors))]
fn multiplies_and_conjugates(rt: HostRuntime) {
    let x: Cyc<6> = variable();
    assert_eq!(rt;
        x.try_mul(&x)
            .is_some_and(|y| begins_with(&y, [-1, 1, 0, 0])),
        true
    );
    let x: Cyc<12> = variable();
    assert_eq!(rt;
        x.try_conj().is_some_and(|y| begins_with(&y, [0, 1, 0, -1])),
        true
    );
}

#[test]
#[tactic(auto, unfolding(cyclotomic::specs::Conductors::is_conductor, cyclotomic::specs::Conductors::conductors))]
fn knows_what_fits(rt: HostRuntime) {
    let big: Cyc<4> = Cyc::whole(1 << 54);
    let less: Cyc<4> = Cyc::whole((1 << 54) - 1);
    assert_eq!(rt; big.try_mul(&big).is_none(), true);
    assert_eq!(rt;
        big.try_mul(&less)
            .is_some_and(|y| begins_with(&y, [(1 << 108) - (1 << 54), 0, 0, 0])),
        true
    );
    let most: Cyc<4> = Cyc::whole((1 << 120) - 1);
    assert_eq!(rt; most.try_add(&Cyc::one()).is_none(), true);
    assert_eq!(rt; most.try_sub(&Cyc::one()).is_some(), true);
}

#[test]
#[tactic(auto, unfolding(cyclotomic::specs::Conductors::is_conductor, cyclotomic::specs::Conductors::conductors))]
fn sums_in_the_ring(rt: HostRuntime) {
    let ring: CycRing<9> = CycRing::new();
    let terms: [Cyc<9>; 3] = [
        Cyc::from_root(Root::new(0)),
        Cyc::from_root(Root::new(3)),
        Cyc::from_root(Root::new(6)),
    ];
    assert_eq!(rt;
        try_sum(&ring, &terms).is_some_and(|sum| begins_with(&sum, [0, 0, 0, 0])),
        true
    );
}
