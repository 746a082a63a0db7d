//! Listed sums of products, added up in one buffer.

ghost use Rattle.std.specs.Prelude.{◌≡◌, ◌+◌, ◌*◌, ℕ, true, false, Some, IsTrue};
ghost use Rattle.cyclotomic.specs.Conductors.{is_conductor};
ghost use Rattle.cyclotomic.specs.Ring.{value_nought, value_sum};
ghost use Rattle.cyclotomic.specs.CyclotomicRing.{cyclotomic_value};
ghost use Rattle.qd_ring.specs.Formed.{Formed, Forms, listed, given};
ghost use Rattle.qd_ring.specs.SparseValues.{value_of_terms, total_of_terms};
ghost use Rattle.qd_ring.specs.Folding.{folded_value, has_room, turned_product, IsTurnedProduct, IsFolded};

use crate::cyc::Cyc;
use crate::cyc_buffer::reduced;
use crate::root::Root;
use crate::sparse_buffer::add_product;
use crate::terms::Terms;
use std::marker::Model;

/// Totals of magnitudes from this number on aren't multiplied.
const FACTOR_LIMIT: u128 = 1 << 54;

/// The bound of a sum stays below this number, so that every product of its terms fits.
const BOUND_LIMIT: u128 = 1 << 108;

/// A listed sum of products while it is added up: coefficients modulo x^K - 1, which are reduced
/// once at the end, and a bound of their magnitudes; seen as both.
///
/// While the bound stays below 2^108, each term is formed by steps that fit, and the sum doesn't
/// overflow. Where it doesn't, the sum has to be formed term by term, as a `Total`.
#[derive(Debug, Drop)]
pub struct Folded<const K: u32> {
    coefficients: [i128; 120],
    bound: u128,
}

impl<const K: u32> Model for Folded<K> {
    ghost use Rattle.qd_ring.specs.Folding.{Folding, IsBuffer};

    ghost Value = { Folding };

    ghost view = { λ f. record { coefficients = f.coefficients; bound = f.bound } };

    ghost invariant = { λ f. IsBuffer K
        (record { coefficients = f.coefficients; bound = f.bound }) };
}

impl<const K: u32> Folded<K> {
    /// The sum of no terms.
    pub fn zero() -> Folded<K>
        requires { is_conductor K ≡ true }
        ensures value { folded_value K result ≡ value_nought }
        ensures bound { result.bound ≡ 0 }
        ensures listed { (term : ℕ → Formed K)
            → IsFolded K term 0 (folded_value K result) result.bound }
    {
        Folded {
            coefficients: [0; 120],
            bound: 0,
        }
    }

    /// Adds the product of two values times a root of unity, where the bound stays below 2^108.
    /// Else nothing changes, and the answer is false.
    pub fn add_product(&mut self, a: &Terms<K>, b: &Terms<K>, root: Root<K>) -> bool
        ensures there { result ≡ has_room self.old.bound (total_of_terms a.now)
            (total_of_terms b.now) }
        ensures value { IsTrue result → folded_value K self.new
            ≡ value_sum (folded_value K self.old)
            (turned_product K root.entry.exponent (value_of_terms K a.now)
            (value_of_terms K b.now)) }
        ensures bound { IsTrue result
            → self.new.bound ≡ self.old.bound + total_of_terms a.now * total_of_terms b.now }
        ensures unchanged { result ≡ false → self.new ≡ self.old }
        ensures listed { IsTrue result → (term : ℕ → Formed K) (i : ℕ)
            → IsFolded K term i (folded_value K self.old) self.old.bound
            → IsTurnedProduct K (term i) root.entry.exponent (value_of_terms K a.now)
            (value_of_terms K b.now)
            → IsFolded K term (i + 1) (folded_value K self.new) self.new.bound }
    {
        let a_total = a.total();
        let b_total = b.total();
        if a_total >= FACTOR_LIMIT || b_total >= FACTOR_LIMIT {
            return false;
        }
        let bound = self.bound + a_total * b_total;
        if bound >= BOUND_LIMIT {
            return false;
        }
        add_product(
            K,
            &mut self.coefficients[..K as usize],
            a.terms(),
            b.terms(),
            root.exponent(),
        );
        self.bound = bound;
        true
    }

    /// The sum of the terms that were added.
    pub fn finish(&self) -> Cyc<K>
        ensures value { cyclotomic_value K result.coefficients ≡ folded_value K self.now }
        ensures listed { (term : ℕ → Formed K) (n : ℕ)
            → IsFolded K term n (folded_value K self.now) self.now.bound
            → Forms (listed K n term) (Some result) }
    {
        let mut coefficients = self.coefficients;
        Cyc {
            coefficients: reduced(K, &mut coefficients[..K as usize]),
        }
    }
}
