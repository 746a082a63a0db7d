//! Class sums.

ghost use Rattle.std.specs.Prelude.{◌≡◌, ℕ, ◌<◌, ◌%◌, true, All, length, IfOk};
ghost use Rattle.twisted.specs.Twist.{size};
ghost use Rattle.twisted.specs.Regular.{is_regular};
ghost use Rattle.twisted.specs.Algebra.{coefficient, class_sum, IsCentral};

use crate::elem::Elem;
use crate::product::exponent;
use crate::regular::kappa;
use crate::twist::Twist;
use classes::conjugate;
use group_table::Memory;
use qd_ring::{Ring, root_of};
use std::alloc::Global;

/// The class sum of the regular place `p`: at each conjugate `c p c^-1` the root of the conjugation phase of `c` and `p`, and 0
/// elsewhere. It commutes with the whole algebra. The exponents of the twist count modulo its modulus, of which the order of the
/// ring's root is a multiple.
pub fn class_sum<R: Ring>(alloc: Global, ring: &R, twist: &Twist, p: u32) -> Result<Elem<R>, Memory>
    requires order { R.order ring.now % twist.now.modulus ≡ 0 }
    requires p_below { p < size twist.now }
    requires regular { is_regular twist.now p ≡ true }
    ensures size { IfOk result (λ sum. length sum ≡ size twist.now) }
    ensures values { IfOk result (λ sum. All (R.IsValue ring.now) sum) }
    ensures sum { IfOk result
        (λ sum.
        (y : ℕ) → y < size twist.now → coefficient (R.of ring.now) (R.ops ring.now).nought sum y
        ≡ class_sum (R.ops ring.now) (R.unit ring.now) twist.now p y) }
    ensures central { IfOk result
        (λ sum.
        IsCentral (R.ops ring.now) (R.unit ring.now) twist.now
        (coefficient (R.of ring.now) (R.ops ring.now).nought sum)) }
{
    let mut sum = Elem::zero(alloc, ring, twist)?;
    for c in 0..twist.size() {
        let carried = conjugate(twist.group(), c, p);
        let e = exponent(ring, twist, kappa(twist, c, p));
        sum.set(carried, root_of(ring, e));
    }
    Ok(sum)
}
