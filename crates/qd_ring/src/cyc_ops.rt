//! The operators of values.

ghost use Rattle.std.specs.Prelude.{◌≡◌, true};
ghost use Rattle.cyclotomic.specs.Cyclotomic.{cyclotomic};
ghost use Rattle.cyclotomic.specs.Ring.{value_sum, value_negative, value_product};
ghost use Rattle.cyclotomic.specs.CyclotomicRing.{cyclotomic_value};
ghost use Rattle.cyclotomic.specs.Fit.{value_fits, product_fits};

use crate::cyc::Cyc;
use std::ops::{Add, Mul, Neg, Sub};

impl<const K: u32> Add for Cyc<K> {
    type Output = Cyc<K>;

    ghost can_add = { λ a b. value_fits (value_sum (cyclotomic_value K a.coefficients)
        (cyclotomic_value K b.coefficients)) ≡ true };

    ghost add_gives = { λ a b sum. cyclotomic_value K sum.coefficients
        ≡ value_sum (cyclotomic_value K a.coefficients) (cyclotomic_value K b.coefficients) };

    /// The sum, which has to fit.
    fn add(self, other: Cyc<K>) -> Cyc<K> {
        self.try_add(&other).unwrap()
    }
}

impl<const K: u32> Sub for Cyc<K> {
    type Output = Cyc<K>;

    ghost can_sub = { λ a b. value_fits (value_sum (cyclotomic_value K a.coefficients)
        (value_negative (cyclotomic_value K b.coefficients))) ≡ true };

    ghost sub_gives = { λ a b difference. cyclotomic_value K difference.coefficients
        ≡ value_sum (cyclotomic_value K a.coefficients)
        (value_negative (cyclotomic_value K b.coefficients)) };

    /// The difference, which has to fit.
    fn sub(self, other: Cyc<K>) -> Cyc<K> {
        self.try_sub(&other).unwrap()
    }
}

impl<const K: u32> Mul for Cyc<K> {
    type Output = Cyc<K>;

    ghost can_mul = { λ a b. product_fits (cyclotomic_value K a.coefficients)
        (cyclotomic_value K b.coefficients) ≡ true };

    ghost mul_gives = { λ a b product. cyclotomic_value K product.coefficients
        ≡ value_product (cyclotomic K) (cyclotomic_value K a.coefficients)
        (cyclotomic_value K b.coefficients) };

    /// The product; the two values have to fit together.
    fn mul(self, other: Cyc<K>) -> Cyc<K> {
        self.try_mul(&other).unwrap()
    }
}

impl<const K: u32> Neg for Cyc<K> {
    type Output = Cyc<K>;

    ghost neg_gives = { λ a negative. cyclotomic_value K negative.coefficients
        ≡ value_negative (cyclotomic_value K a.coefficients) };

    /// The negative, which always fits.
    fn neg(self) -> Cyc<K> {
        let zero: Cyc<K> = Cyc::zero();
        zero.try_sub(&self).unwrap()
    }
}
