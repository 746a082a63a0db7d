//! Tests of listed sums, over two ring objects.

ghost use Rattle.std.specs.Prelude.{ℕ, ◌≡◌, ◌+◌, ◌*◌, ◌%◌, ◌<◌, true, refl};
ghost use Rattle.algebra.specs.Below.{Below, below_equal};
ghost use Rattle.algebra.specs.Residues.{residue};
ghost use Rattle.qd_ring.specs.Fit.{no_limits};
ghost use Rattle.qd_ring.specs.Thirds.{three, thirds, thirds_unit};

use crate::cyc::Cyc;
use crate::cyc_ring::CycRing;
use crate::ring::Ring;
use crate::sum::{root_of, try_sum, try_sum_below, try_term};
use std::test::Fail;

// the residues modulo 3, with the root of unity 2
struct Thirds;

impl Ring for Thirds {
    type Elem = u32;

    ghost Carrier = { λ _. Below 3 };

    ghost ops = { λ _. thirds };

    ghost order = { λ _. 2 };

    ghost unit = { λ _. thirds_unit };

    ghost rules = { λ _. no_limits thirds };

    ghost IsValue = { λ _ a. a < 3 };

    ghost of = { λ _ a. residue 3 three a };

    ghost values_fit = { λ _ a h. refl };

    ghost roots_fit = { λ _ e. refl };

    fn unit_order(&self) -> u32 {
        2
    }

    fn zero(&self) -> u32 {
        0
    }

    fn one(&self) -> u32 {
        1
    }

    fn try_add(&self, a: &u32, b: &u32) -> Option<u32> {
        Some((*a + *b) % 3)
    }

    fn try_mul(&self, a: &u32, b: &u32) -> Option<u32> {
        Some(*a * *b % 3)
    }

    fn try_scale(&self, e: u32, a: &u32) -> Option<u32> {
        Some(if e % 2 == 0 { *a } else { *a * 2 % 3 })
    }

    fn same(&self, a: &u32, b: &u32) -> bool {
        *a == *b
    }
}

#[test]
fn sums_of_residues(rt: HostRuntime) -> Result<(), Fail> {
    assert_eq!(rt; try_sum(&Thirds, &[1, 2, 2]), Some(2));
    Ok(())
}

#[test]
#[tactic(auto, unfolding(cyclotomic::specs::Conductors::is_conductor, cyclotomic::specs::Conductors::conductors))]
fn sums_of_cyclotomic_values(rt: HostRuntime) -> Result<(), Fail> {
    let ring = CycRing::<12>::new();
    let one = Cyc::<12>::one();
    let x_to_3 = root_of(&ring, 3);
    let minus_one = root_of(&ring, 6);
    assert_eq!(rt; try_sum(&ring, &[one, x_to_3, minus_one]), Some(x_to_3));
    let vanishing = try_sum_below(&ring, 4, |j| try_term(&ring, 3 * j, &one, &one));
    assert_eq!(rt; vanishing, Some(Cyc::zero()));
    Ok(())
}
