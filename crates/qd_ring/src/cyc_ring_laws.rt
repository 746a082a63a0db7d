//! That cyclotomic values are a ring object.

ghost use Rattle.std.specs.Prelude.{◌≡◌, true, IsTrue, ◌↔◌};
ghost use Rattle.cyclotomic.specs.CyclotomicRing.{CyclotomicValue, cyclotomic_ring, cyclotomic_value};
ghost use Rattle.cyclotomic.proofs.Orthogonality.{x_root};
ghost use Rattle.qd_ring.specs.CyclotomicFit.{cyclotomic_fit};
ghost use Rattle.qd_ring.specs.ArrayLaws.{array_fits, power_fits};

use crate::cyc::Cyc;
use crate::cyc_ring::CycRing;
use crate::ring::Ring;
use crate::root::Root;

impl<const K: u32> Ring for CycRing<K> {
    type Elem = Cyc<K>;

    ghost Carrier = { λ _. CyclotomicValue K };

    ghost ops = { λ _. cyclotomic_ring K };

    ghost order = { λ _. K };

    ghost unit = { λ r. x_root K r.conductor };

    ghost rules = { λ _. cyclotomic_fit K };

    ghost IsValue = { λ _ _. Unit {0} };

    ghost of = { λ _ a. cyclotomic_value K a.coefficients };

    ghost values_fit = { λ _ a _. array_fits K a.conductor a.coefficients a.array a.small };

    ghost roots_fit = { λ r e. power_fits K r.conductor e };

    fn unit_order(&self) -> u32 {
        K
    }

    fn zero(&self) -> Cyc<K> {
        Cyc::zero()
    }

    fn one(&self) -> Cyc<K> {
        Cyc::one()
    }

    fn try_add(&self, a: &Cyc<K>, b: &Cyc<K>) -> Option<Cyc<K>> {
        a.try_add(b)
    }

    fn try_mul(&self, a: &Cyc<K>, b: &Cyc<K>) -> Option<Cyc<K>> {
        a.try_mul(b)
    }

    fn try_scale(&self, e: u32, a: &Cyc<K>) -> Option<Cyc<K>> {
        a.try_times(Root::new(e))
    }

    fn same(&self, a: &Cyc<K>, b: &Cyc<K>) -> bool {
        a == b
    }
}
