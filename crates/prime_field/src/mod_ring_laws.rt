//! The field of residues as a ring object.

ghost use Rattle.std.specs.Prelude.{◌≡◌, ◌<◌, refl};
ghost use Rattle.algebra.specs.Below.{Below};
ghost use Rattle.qd_ring.specs.Fit.{no_limits};
ghost use Rattle.prime_field.specs.Field.{field, field_residue};
ghost use Rattle.prime_field.specs.Laws.Field.{field_unit};

use crate::mod_ring::ModRing;
use qd_ring::Ring;

impl Ring for ModRing {
    type Elem = u32;

    ghost Carrier = { λ r. Below r.q };

    ghost ops = { λ r. field r.q r.listed };

    ghost order = { λ r. r.conductor };

    ghost unit = { λ r. field_unit r.q r.listed r.conductor r.root r.least r.entry r.apart };

    ghost rules = { λ r. no_limits (field r.q r.listed) };

    ghost IsValue = { λ r a. a < r.q };

    ghost of = { λ r a. field_residue r.q r.listed a };

    ghost values_fit = { λ r a value. refl };

    ghost roots_fit = { λ r e. refl };

    fn unit_order(&self) -> u32 {
        self.conductor
    }

    #[tactic(auto, using(crate::specs::Laws::Moduli::modulus_positive))]
    fn zero(&self) -> u32 {
        0
    }

    #[tactic(auto, using(crate::specs::Laws::Moduli::modulus_over_one))]
    fn one(&self) -> u32 {
        1
    }

    #[tactic(auto, using(crate::specs::Laws::Moduli::modulus_bound, crate::proofs::ResidueSums::sum_residue))]
    fn try_add(&self, a: &u32, b: &u32) -> Option<u32> {
        Some((*a + *b) % self.q)
    }

    #[tactic(auto, using(crate::proofs::Inverses::residues_fit, crate::proofs::ResidueSums::product_residue))]
    fn try_mul(&self, a: &u32, b: &u32) -> Option<u32> {
        Some(*a * *b % self.q)
    }

    fn try_scale(&self, e: u32, a: &u32) -> Option<u32> {
        Some(self.root_power(e % self.conductor) * *a % self.q)
    }

    fn same(&self, a: &u32, b: &u32) -> bool {
        *a == *b
    }
}
