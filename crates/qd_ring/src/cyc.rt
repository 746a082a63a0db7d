//! Values of a cyclotomic ring, with coefficients that fit.

ghost use Rattle.std.specs.Prelude.{◌≡◌, ◌-◌, ◌*◌, ◌^◌, ◌≤◌, ◌<◌, ◌&&◌, ◌%◌, ℤ, pos, true, [], ◌∷◌, nat_abs, is_some, IfSome, IfNone};
ghost use Rattle.std.specs.Int.{IsGcd};
ghost use Rattle.cyclotomic.specs.Polynomial.{coefficient};
ghost use Rattle.cyclotomic.specs.Cyclotomic.{cyclotomic};
ghost use Rattle.cyclotomic.specs.Conductors.{is_conductor};
ghost use Rattle.cyclotomic.specs.Ring.{value_sum, value_multiple, value_negative, value_nought, value_one, value_product};
ghost use Rattle.cyclotomic.specs.CyclotomicRing.{cyclotomic_value, conjugate, galois_image, root};
ghost use Rattle.cyclotomic.specs.Fit.{value_size, value_fits, product_fits, greatest_magnitude};
ghost use Rattle.qd_ring.specs.CycArrays.{is_array, is_small};

use crate::cyc_buffer::{all_zero, combine, image, is_padded, size};
use crate::plain::Plain;
use crate::reduction::reduction;
use crate::root::Root;
use crate::terms::Terms;

/// The largest magnitude of a coefficient.
const GREATEST: u128 = (1 << 120) - 1;

/// A value of the cyclotomic ring of conductor K that fits: a polynomial in x modulo the cyclotomic
/// polynomial.
///
/// It stands for `cyclotomic_value K coefficients`. A value exists only where K is an entry of the
/// table of conductors.
#[derive(Clone, Copy, PartialEq, Eq, PartialOrd, Ord, Hash, Debug)]
pub struct Cyc<const K: u32> {
    /// The coefficients of 1, x, x^2, .., with zeros from phi(K) on.
    pub coefficients: [i128; 42],
    ghost conductor: { is_conductor K ≡ true },
    ghost array: { is_array K coefficients ≡ true },
    ghost small: { is_small coefficients ≡ true },
}

impl<const K: u32> Cyc<K> {
    /// The value 0.
    pub fn zero() -> Cyc<K>
        requires { is_conductor K ≡ true }
        ensures { cyclotomic_value K result.coefficients ≡ value_nought }
    {
        Cyc {
            coefficients: [0; 42],
        }
    }

    /// The value 1.
    pub fn one() -> Cyc<K>
        requires { is_conductor K ≡ true }
        ensures { cyclotomic_value K result.coefficients ≡ value_one (cyclotomic K) }
    {
        Cyc::whole(1)
    }

    /// The whole number `v`.
    pub fn whole(v: i128) -> Cyc<K>
        requires conductor { is_conductor K ≡ true }
        requires fits { nat_abs v ≤ greatest_magnitude }
        ensures { cyclotomic_value K result.coefficients ≡ cyclotomic_value K (v ∷ []) }
    {
        let mut coefficients = [0; 42];
        coefficients[0] = v;
        Cyc { coefficients }
    }

    /// The root of unity, as a value.
    #[tactic(auto, using(crate::proofs::CycLaws::small_total))]
    pub fn from_root(r: Root<K>) -> Cyc<K>
        ensures { cyclotomic_value K result.coefficients ≡ root K r.entry.exponent }
    {
        let one: Cyc<K> = Cyc::one();
        Cyc {
            coefficients: image(K, &one.coefficients, r.exponent(), 1),
        }
    }

    /// The coefficient of x^p, 0 past the last one.
    pub fn coefficient(&self, p: u32) -> i128
        ensures { result ≡ coefficient (cyclotomic_value K self.now.coefficients).coefficients p }
    {
        if p < 42 {
            self.coefficients[p as usize]
        } else {
            0
        }
    }

    /// The largest magnitude of a coefficient.
    pub fn size(&self) -> u128
        ensures { result ≡ value_size (cyclotomic_value K self.now.coefficients) }
    {
        size(&self.coefficients)
    }

    /// The whole number that the value is; `None` exactly where it is none.
    pub fn as_whole(&self) -> Option<i128>
        ensures whole { IfSome result (λ v. cyclotomic_value K self.now.coefficients
            ≡ cyclotomic_value K (v ∷ [])) }
        ensures none { IfNone result ((v : ℤ)
            → cyclotomic_value K self.now.coefficients ≡ cyclotomic_value K (v ∷ []) → ⊥) }
    {
        if all_zero(&self.coefficients[1..]) {
            Some(self.coefficients[0])
        } else {
            None
        }
    }

    /// The coefficients alone.
    pub fn to_plain(&self) -> Plain
        ensures { result.coefficients ≡ self.now.coefficients }
    {
        Plain {
            coefficients: self.coefficients,
        }
    }

    /// The value with these coefficients; `None` exactly where one from phi(K) on isn't 0 or one
    /// doesn't fit.
    pub fn from_plain(p: &Plain) -> Option<Cyc<K>>
        requires { is_conductor K ≡ true }
        ensures fits { is_some result ≡
            (is_array K p.now.coefficients && is_small p.now.coefficients) }
        ensures value { IfSome result (λ value. value.coefficients ≡ p.now.coefficients) }
    {
        if is_padded(K, &p.coefficients) {
            Cyc::fitted(p.coefficients)
        } else {
            None
        }
    }

    // The value with these coefficients, where they fit.
    fn fitted(coefficients: [i128; 42]) -> Option<Cyc<K>>
        requires conductor { is_conductor K ≡ true }
        requires array { is_array K coefficients ≡ true }
        ensures small { is_some result ≡ is_small coefficients }
        ensures same { IfSome result (λ value. value.coefficients ≡ coefficients) }
        ensures fits { is_some result ≡ value_fits (cyclotomic_value K coefficients) }
        ensures value { IfSome result (λ value. cyclotomic_value K value.coefficients
            ≡ cyclotomic_value K coefficients) }
    {
        if size(&coefficients) <= GREATEST {
            Some(Cyc { coefficients })
        } else {
            None
        }
    }

    /// The sum; `None` exactly where it doesn't fit.
    #[tactic(auto, using(crate::proofs::CycLaws::small_means))]
    pub fn try_add(&self, b: &Cyc<K>) -> Option<Cyc<K>>
        ensures fits { is_some result ≡ value_fits
            (value_sum (cyclotomic_value K self.now.coefficients)
            (cyclotomic_value K b.now.coefficients)) }
        ensures value { IfSome result (λ value. cyclotomic_value K value.coefficients
            ≡ value_sum (cyclotomic_value K self.now.coefficients)
            (cyclotomic_value K b.now.coefficients)) }
    {
        let mut sum = self.coefficients;
        combine(&mut sum, &b.coefficients, -1);
        Cyc::fitted(sum)
    }

    /// The difference; `None` exactly where it doesn't fit.
    #[tactic(auto, using(crate::proofs::CycLaws::small_means))]
    pub fn try_sub(&self, b: &Cyc<K>) -> Option<Cyc<K>>
        ensures fits { is_some result ≡ value_fits
            (value_sum (cyclotomic_value K self.now.coefficients)
            (value_negative (cyclotomic_value K b.now.coefficients))) }
        ensures value { IfSome result (λ value. cyclotomic_value K value.coefficients
            ≡ value_sum (cyclotomic_value K self.now.coefficients)
            (value_negative (cyclotomic_value K b.now.coefficients))) }
    {
        let mut difference = self.coefficients;
        combine(&mut difference, &b.coefficients, 1);
        Cyc::fitted(difference)
    }

    /// The conjugate; `None` exactly where it doesn't fit.
    #[tactic(auto, using(cyclotomic::proofs::Checks::conductor_positive, crate::specs::ReductionSigns::conductor_bounds, crate::proofs::CycLaws::small_total))]
    pub fn try_conj(&self) -> Option<Cyc<K>>
        ensures fits { is_some result ≡ value_fits
            (conjugate K (cyclotomic_value K self.now.coefficients)) }
        ensures value { IfSome result (λ value. cyclotomic_value K value.coefficients
            ≡ conjugate K (cyclotomic_value K self.now.coefficients)) }
    {
        Cyc::fitted(image(K, &self.coefficients, 0, K - 1))
    }

    /// The multiple by a root; `None` exactly where it doesn't fit.
    #[tactic(auto, using(crate::proofs::CycLaws::small_total))]
    pub fn try_times(&self, r: Root<K>) -> Option<Cyc<K>>
        ensures fits { is_some result ≡ value_fits
            (value_product (cyclotomic K) (root K r.entry.exponent)
            (cyclotomic_value K self.now.coefficients)) }
        ensures value { IfSome result (λ value. cyclotomic_value K value.coefficients
            ≡ value_product (cyclotomic K) (root K r.entry.exponent)
            (cyclotomic_value K self.now.coefficients)) }
    {
        Cyc::fitted(image(K, &self.coefficients, r.exponent(), 1))
    }

    /// The Galois image under t, which is prime to K; `None` exactly where it doesn't fit.
    #[tactic(auto, using(cyclotomic::proofs::Checks::conductor_positive, crate::specs::ReductionSigns::conductor_bounds, crate::proofs::CycLaws::small_total))]
    pub fn try_galois(&self, t: u32) -> Option<Cyc<K>>
        requires { IsGcd t K 1 }
        ensures fits { is_some result ≡ value_fits
            (galois_image K t (cyclotomic_value K self.now.coefficients)) }
        ensures value { IfSome result (λ value. cyclotomic_value K value.coefficients
            ≡ galois_image K t (cyclotomic_value K self.now.coefficients)) }
    {
        Cyc::fitted(image(K, &self.coefficients, 0, t % K))
    }

    /// The product; `None` exactly where the two values don't fit together.
    pub fn try_mul(&self, b: &Cyc<K>) -> Option<Cyc<K>>
        ensures fits { is_some result ≡ product_fits (cyclotomic_value K self.now.coefficients)
            (cyclotomic_value K b.now.coefficients) }
        ensures value { IfSome result (λ value. cyclotomic_value K value.coefficients
            ≡ value_product (cyclotomic K) (cyclotomic_value K self.now.coefficients)
            (cyclotomic_value K b.now.coefficients)) }
    {
        Terms::of(self).try_mul(&Terms::of(b))
    }
}

#[cfg(test)]
mod tests;
