//! Listed sums, added up term by term.

ghost use Rattle.std.specs.Prelude.{◌≡◌, ◌<◌, ◌+◌, ℕ, Option, Some, None, IfSome, IfNone, true};
ghost use Rattle.cyclotomic.specs.Conductors.{is_conductor};
ghost use Rattle.cyclotomic.specs.CyclotomicRing.{cyclotomic_value};
ghost use Rattle.qd_ring.specs.Formed.{Formed, Forms, listed};
ghost use Rattle.qd_ring.specs.Totals.{IsTotal};

use crate::cyc::Cyc;

/// The greatest number that the sizes of the terms of a listed sum may add up to.
const GREATEST: u128 = (1 << 120) - 1;

/// A listed sum while it is added up: the sum of the terms so far, and that of their sizes.
#[derive(Clone, Copy, Debug)]
pub struct Total<const K: u32> {
    /// The sum of the terms so far.
    pub sum: Cyc<K>,
    /// The sum of their sizes.
    pub sizes: u128,
}

impl<const K: u32> Total<K> {
    /// The sum of no terms.
    pub fn zero() -> Total<K>
        requires { is_conductor K ≡ true }
        ensures none_added { (term : ℕ → Formed K)
            → IsTotal term 0 (cyclotomic_value K result.sum.coefficients) result.sizes }
    {
        Total {
            sum: Cyc::zero(),
            sizes: 0,
        }
    }

    /// One more term; `None` where it wasn't formed, or where the sizes add up to more than 2^120 -
    /// 1.
    pub fn with(self, next: Option<Cyc<K>>) -> Option<Total<K>>
        ensures more { (term : ℕ → Formed K) (i : ℕ)
            → IsTotal term i (cyclotomic_value K self.entry.sum.coefficients) self.entry.sizes
            → Forms (term i) next.entry → IfSome result
            (λ total. IsTotal term (i + 1)
            (cyclotomic_value K total.sum.coefficients) total.sizes) }
        ensures overflow { (term : ℕ → Formed K) (i n : ℕ) → i < n
            → IsTotal term i (cyclotomic_value K self.entry.sum.coefficients) self.entry.sizes
            → Forms (term i) next.entry → IfNone result (Forms (listed K n term) None) }
    {
        let Some(next) = next else {
            return None;
        };
        let Some(sizes) = self.sizes.checked_add(next.size()) else {
            return None;
        };
        if sizes > GREATEST {
            return None;
        }
        match self.sum.try_add(&next) {
            Some(sum) => Some(Total { sum, sizes }),
            None => None,
        }
    }

    /// The sum, where all terms were added.
    pub fn sum(self) -> Cyc<K>
        ensures all_added { (term : ℕ → Formed K) (n : ℕ)
            → IsTotal term n (cyclotomic_value K self.entry.sum.coefficients) self.entry.sizes
            → Forms (listed K n term) (Some result) }
    {
        self.sum
    }
}
