//! Values in sparse form.

ghost use Rattle.std.specs.Prelude.{◌≡◌, IfOk};
ghost use Rattle.cyclotomic.specs.CyclotomicRing.{cyclotomic_value};
ghost use Rattle.fusion.specs.Kept.{value_or_nought};

use group_table::Memory;
use qd_ring::{Cyc, Terms};
use std::alloc::Global;

/// The sparse form of a value; none where it is 0.
pub fn sparse_or_nought<const K: u32>(
    alloc: Global,
    value: &Cyc<K>,
) -> Result<Option<Box<Terms<K>>>, Memory>
    ensures value { IfOk result
        (λ terms. value_or_nought K terms ≡ cyclotomic_value K value.now.coefficients) }
{
    if *value == Cyc::zero() {
        Ok(None)
    } else {
        Ok(Some(Box::new(alloc, Terms::of(value))?))
    }
}
