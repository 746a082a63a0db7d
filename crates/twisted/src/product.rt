//! Products in twisted group algebras.

ghost use Rattle.std.specs.Prelude.{◌≡◌, ℕ, ◌<◌, ◌*◌, ◌/◌, ◌%◌, true, All, length, IfOk, IfErr, IfSome, IfNone, is_some};
ghost use Rattle.qd_ring.specs.Fit.{IsTerm, term_fits};
ghost use Rattle.twisted.specs.Twist.{size, phase};
ghost use Rattle.twisted.specs.Algebra.{left_quotient, coefficient, exponent, product_term, twisted_product, product_overflows};
ghost use Rattle.twisted.specs.Refusal.{Refuses};

use crate::elem::Elem;
use crate::twist::Twist;
use group_table::Memory;
use qd_ring::{Ring, try_sum_below, try_term};
use std::alloc::Global;

/// Why no product was made.
#[derive(Clone, Copy, Debug, PartialEq, Eq)]
pub enum MulRefusal {
    /// The sum at this place overflows.
    Overflow { place: u32 },
    /// There was no memory. It says nothing of the product.
    Memory,
}

impl From<Memory> for MulRefusal {
    ghost use Rattle.twisted.specs.declared.product.MulRefusal.TheVariants as refusals;

    ghost from_gives = { λ _ refusal. refusal ≡ refusals.Memory };

    fn from(_memory: Memory) -> MulRefusal {
        MulRefusal::Memory
    }
}

/// The place of `y^-1 x`.
fn left_quotient(twist: &Twist, y: u32, x: u32) -> u32
    requires y_below { y < size twist.now }
    requires x_below { x < size twist.now }
    ensures quotient { result ≡ left_quotient twist.now y x }
    ensures below { result < size twist.now }
{
    let group = twist.group();
    group.product(group.inverse(y), x)
}

/// The exponent in the ring of the root with exponent `v` modulo the modulus of the twist.
pub fn exponent<R: Ring>(ring: &R, twist: &Twist, v: u32) -> u32
    requires v_below { v < twist.now.modulus }
    ensures exponent { result ≡ exponent (R.order ring.now) twist.now v }
{
    v * (ring.unit_order() / twist.modulus())
}

/// The term at `y` of the product of `a` and `b` at the place `x`; `None` exactly where one of its steps doesn't fit.
fn product_term<R: Ring>(
    ring: &R,
    twist: &Twist,
    a: &Elem<R>,
    b: &Elem<R>,
    x: u32,
    y: u32,
) -> Option<R::Elem>
    requires x_below { x < size twist.now }
    requires y_below { y < size twist.now }
    requires a_size { length a.now ≡ size twist.now }
    requires b_size { length b.now ≡ size twist.now }
    requires a_values { All (R.IsValue ring.now) a.now }
    requires b_values { All (R.IsValue ring.now) b.now }
    ensures value { IfSome result (λ term. R.IsValue ring.now term) }
    ensures term { let p = coefficient (R.of ring.now) (R.ops ring.now).nought a.now
        in let r = coefficient (R.of ring.now) (R.ops ring.now).nought b.now
        in let z = left_quotient twist.now y x
        in IsTerm (R.of ring.now)
        (term_fits (R.ops ring.now) (R.rules ring.now) (R.unit ring.now).root
        (exponent (R.order ring.now) twist.now (phase twist.now y z)) (p y) (r z))
        (product_term (R.ops ring.now) (R.unit ring.now) twist.now p r x y) result }
{
    let z = left_quotient(twist, y, x);
    let e = exponent(ring, twist, twist.phase(y, z));
    try_term(ring, e, &a.get(y), &b.get(z))
}

/// The product of `a` and `b` at the place `x`; `None` only where its sum overflows.
fn product_at<R: Ring>(ring: &R, twist: &Twist, a: &Elem<R>, b: &Elem<R>, x: u32) -> Option<R::Elem>
    requires x_below { x < size twist.now }
    requires a_size { length a.now ≡ size twist.now }
    requires b_size { length b.now ≡ size twist.now }
    requires a_values { All (R.IsValue ring.now) a.now }
    requires b_values { All (R.IsValue ring.now) b.now }
    ensures value { IfSome result (λ sum. R.IsValue ring.now sum) }
    ensures overflow { let p = coefficient (R.of ring.now) (R.ops ring.now).nought a.now
        in let r = coefficient (R.of ring.now) (R.ops ring.now).nought b.now
        in IfNone result
        (product_overflows (R.ops ring.now) (R.unit ring.now) twist.now (R.rules ring.now) p r x
        ≡ true) }
    ensures sum { let p = coefficient (R.of ring.now) (R.ops ring.now).nought a.now
        in let r = coefficient (R.of ring.now) (R.ops ring.now).nought b.now
        in IfSome result
        (λ sum.
        R.of ring.now sum ≡ twisted_product (R.ops ring.now) (R.unit ring.now) twist.now p r x) }
{
    try_sum_below(
        ring,
        twist.size(),
        |y| product_term(ring, twist, a, b, x, y),
    )
}

/// The product of `a` and `b` in the twisted group algebra: its coefficient at the place `x` is the sum over all places `y` of the
/// root of the phase at `y` and `y^-1 x`, times the coefficients of `a` at `y` and of `b` at `y^-1 x`. The exponents of the twist
/// count modulo its modulus, of which the order of the ring's root is a multiple.
///
/// It is refused with a place only where the sum at that place overflows, its terms listed by `y`.
pub fn mul<R: Ring>(
    alloc: Global,
    ring: &R,
    twist: &Twist,
    a: &Elem<R>,
    b: &Elem<R>,
) -> Result<Elem<R>, MulRefusal>
    requires order { R.order ring.now % twist.now.modulus ≡ 0 }
    requires a_size { length a.now ≡ size twist.now }
    requires b_size { length b.now ≡ size twist.now }
    requires a_values { All (R.IsValue ring.now) a.now }
    requires b_values { All (R.IsValue ring.now) b.now }
    ensures size { IfOk result (λ product. length product ≡ size twist.now) }
    ensures values { IfOk result (λ product. All (R.IsValue ring.now) product) }
    ensures product { let p = coefficient (R.of ring.now) (R.ops ring.now).nought a.now
        in let r = coefficient (R.of ring.now) (R.ops ring.now).nought b.now
        in IfOk result
        (λ product.
        (x : ℕ) → x < size twist.now → coefficient (R.of ring.now) (R.ops ring.now).nought product x
        ≡ twisted_product (R.ops ring.now) (R.unit ring.now) twist.now p r x) }
    ensures refused { let p = coefficient (R.of ring.now) (R.ops ring.now).nought a.now
        in let r = coefficient (R.of ring.now) (R.ops ring.now).nought b.now
        in IfErr result
        (λ refusal.
        Refuses refusal
        (λ place.
        (place < size twist.now)
        × (product_overflows (R.ops ring.now) (R.unit ring.now) twist.now (R.rules ring.now) p r
        place ≡ true))) }
{
    let mut product = Elem::zero(alloc, ring, twist)?;
    for place in 0..twist.size() {
        let Some(sum) = product_at(ring, twist, a, b, place) else {
            return Err(MulRefusal::Overflow { place });
        };
        product.set(place, sum);
    }
    Ok(product)
}
