//! Polynomials modulo a prime, and their roots.

ghost use Rattle.std.specs.Prelude.{◌≡◌, ◌≢◌, ℕ, ◌<◌, ◌≤◌, ◌%◌, List, length, slice_index, true};
ghost use Rattle.group_table.specs.Numbers.{passing_below};
ghost use Rattle.prime_field.specs.Evaluation.{value_at, is_root};
ghost use Rattle.prime_field.specs.Moduli.{is_modulus};
ghost use Rattle.prime_field.specs.Polynomials.{HasCoefficient};

use crate::arithmetic::plus_product;
use crate::mod_ring::ModRing;
use arrayvec::ArrayVec;
use group_table::Nats;
use std::marker::Model;

/// A polynomial by its coefficients, constant term first, at most 61 of them; or a list of as many numbers.
#[derive(Clone, Debug, Drop)]
pub struct Poly {
    coefficients: ArrayVec<u32, 61>,
}

impl Model for Poly {
    ghost use Rattle.std.specs.Prelude.{ℕ, ◌≤◌, List, length};

    ghost Value = { List ℕ };

    ghost view = { λ f. f.coefficients.items };

    ghost invariant = { λ f. length f.coefficients.items ≤ 61 };
}

impl Poly {
    /// The polynomial with these coefficients, constant term first.
    pub fn of(values: &Nats) -> Poly
        requires few { length values.now ≤ 61 }
        ensures coefficients { result ≡ values.now }
    {
        let mut coefficients = ArrayVec::new();
        for value in values.as_slice() {
            coefficients.push(*value);
        }
        Poly { coefficients }
    }

    // The polynomial with these coefficients.
    pub(crate) fn from_coefficients(coefficients: ArrayVec<u32, 61>) -> Poly
        requires few { length coefficients.items ≤ 61 }
        ensures coefficients { result ≡ coefficients.items }
    {
        Poly { coefficients }
    }

    /// How many coefficients there are.
    pub fn len(&self) -> u32
        ensures count { result ≡ length self.now }
        ensures few { length self.now ≤ 61 }
    {
        self.coefficients.len() as u32
    }

    /// The coefficient at place `i`: that of the power `i`.
    pub fn at(&self, i: u32) -> u32
        requires in_range { i < length self.now }
        ensures coefficient { result ≡ slice_index self.now i }
    {
        self.coefficients.as_slice()[i as usize]
    }
}

// The value of the polynomial at `x`, modulo `q`.
fn value_at(q: u32, x: u32, coefficients: &[u32]) -> u32
    requires modulus { is_modulus q ≡ true }
    requires x_below { x < q }
    ensures value { result ≡ value_at q x coefficients.now }
{
    let mut value = 0;
    for i in (0..coefficients.len()).rev() {
        value = plus_product(q, coefficients[i] % q, x, value);
    }
    value
}

// Whether `x` is a root of the polynomial modulo `q`.
fn is_root(q: u32, x: u32, coefficients: &[u32]) -> bool
    requires modulus { is_modulus q ≡ true }
    requires x_below { x < q }
    ensures root { result ≡ is_root q coefficients.now x }
{
    value_at(q, x, coefficients) == 0
}

/// All roots of the polynomial modulo the prime of the field, each once, ascending.
pub fn roots(ring: &ModRing, f: &Poly) -> Poly
    requires some_coefficient { HasCoefficient ring.now.q f.now }
    ensures roots { result ≡ passing_below ring.now.q (is_root ring.now.q f.now) }
{
    let q = ring.q();
    let coefficients = f.coefficients.as_slice();
    let mut found = ArrayVec::new();
    for x in 0..q {
        if is_root(q, x, coefficients) {
            found.push(x);
        }
    }
    Poly {
        coefficients: found,
    }
}
