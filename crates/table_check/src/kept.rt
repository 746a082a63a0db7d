//! Values kept with their sparse forms.

ghost use Rattle.std.specs.Prelude.{◌≡◌};
ghost use Rattle.cyclotomic.specs.CyclotomicRing.{cyclotomic_value};
ghost use Rattle.qd_ring.specs.SparseValues.{value_of_terms};

use qd_ring::{Cyc, Terms};

/// A value as it is kept for many products: itself, and its sparse form.
#[derive(Debug, Drop)]
pub struct Kept<const K: u32> {
    /// The value.
    pub value: Cyc<K>,
    /// Its sparse form.
    pub terms: Terms<K>,
    ghost same: { value_of_terms K terms ≡ cyclotomic_value K value.coefficients },
}
