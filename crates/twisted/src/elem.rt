//! Elements of the twisted group algebra.

ghost use Rattle.std.specs.Prelude.{◌≡◌, ℕ, ◌<◌, All, length, slice_get, slice_set, Some, IfOk};
ghost use Rattle.twisted.specs.Twist.{size};

use crate::twist::Twist;
use group_table::Memory;
use qd_ring::Ring;
use std::alloc::Global;
use std::marker::Model;

/// An element of the twisted group algebra of a twist over a ring: one coefficient for each place.
#[derive(Drop)]
pub struct Elem<R: Ring> {
    coefficients: Vec<R::Elem>,
}

impl<R: Ring> Model for Elem<R> {
    ghost use Rattle.std.specs.Prelude.{List};

    ghost Value = { List R.Elem };

    ghost view = { λ a. a.coefficients.items };
}

impl<R: Ring> Elem<R> {
    /// The element 0 of the algebra of `twist`.
    pub fn zero(alloc: Global, ring: &R, twist: &Twist) -> Result<Elem<R>, Memory>
        ensures size { IfOk result (λ a. length a ≡ size twist.now) }
        ensures values { IfOk result (λ a. All (R.IsValue ring.now) a) }
        ensures zero { IfOk result (λ a. All (λ v. R.of ring.now v ≡ (R.ops ring.now).nought) a) }
    {
        let mut coefficients = Vec::new(alloc);
        for p in 0..twist.size() {
            coefficients.push(ring.zero())?;
        }
        Ok(Elem { coefficients })
    }

    /// The coefficient at the place `p`.
    pub fn get(&self, p: u32) -> R::Elem
        requires p_below { p < length self.now }
        ensures coefficient { slice_get self.now p ≡ Some result }
    {
        self.coefficients[p as usize]
    }

    /// Puts `v` at the place `p`; the other coefficients stay.
    pub fn set(&mut self, p: u32, v: R::Elem)
        requires p_below { p < length self.old }
        ensures set { self.new ≡ slice_set self.old p v }
    {
        self.coefficients[p as usize] = v;
    }
}
