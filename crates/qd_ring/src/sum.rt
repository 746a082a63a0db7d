//! Listed sums over any ring object.

ghost use Rattle.std.specs.Prelude.{◌≡◌, ◌<◌, ℕ, Bool, true, map, All, Option, IfSome, IfNone, is_some};
ghost use Rattle.algebra.specs.Sums.{sum_list, sum_below, power};
ghost use Rattle.qd_ring.specs.Fit.{term_fits, sum_overflows, IsTerm};

use crate::ring::Ring;

/// The root `z^e`.
pub fn root_of<R: Ring>(ring: &R, e: u32) -> R::Elem
    ensures value { R.IsValue ring.now result }
    ensures root { R.of ring.now result ≡ power (R.ops ring.now) (R.unit ring.now).root e }
{
    let one = ring.one();
    match ring.try_scale(e, &one) {
        Some(root) => root,
        None => unreachable!(),
    }
}

/// The sum of the listed values; `None` only where the listed sum overflows.
pub fn try_sum<R: Ring>(ring: &R, terms: &[R::Elem]) -> Option<R::Elem>
    requires { All (R.IsValue ring.now) terms.now }
    ensures overflow { IfNone result ((R.rules ring.now).overflows (map (R.of ring.now) terms.now)
        ≡ true) }
    ensures value { IfSome result (λ sum. R.IsValue ring.now sum) }
    ensures sum { IfSome result (λ sum. R.of ring.now sum
        ≡ sum_list (R.ops ring.now) (map (R.of ring.now) terms.now)) }
{
    let mut sum = ring.zero();
    for term in terms {
        let Some(next) = ring.try_add(&sum, term) else {
            return None;
        };
        sum = next;
    }
    Some(sum)
}

/// The term `z^e (a b)` of a listed sum; `None` exactly where one of its steps doesn't fit.
pub fn try_term<R: Ring>(ring: &R, e: u32, a: &R::Elem, b: &R::Elem) -> Option<R::Elem>
    requires a_value { R.IsValue ring.now a.now }
    requires b_value { R.IsValue ring.now b.now }
    ensures fits { is_some result ≡ term_fits (R.ops ring.now) (R.rules ring.now)
        (R.unit ring.now).root e (R.of ring.now a.now) (R.of ring.now b.now) }
    ensures value { IfSome result (λ term. R.IsValue ring.now term) }
    ensures term { IfSome result (λ term. R.of ring.now term
        ≡ (R.ops ring.now).mul (power (R.ops ring.now) (R.unit ring.now).root e)
        ((R.ops ring.now).mul (R.of ring.now a.now) (R.of ring.now b.now))) }
{
    let product = ring.try_mul(a, b)?;
    ring.try_scale(e, &product)
}

/// The listed sum of the terms with numbers below `n`; `None` only where it overflows.
///
/// It is said for any terms and any test of their steps such that `term` answers `None` exactly
/// where the test fails, and else the value of that term.
pub fn try_sum_below<R: Ring, F: Fn(u32) -> Option<R::Elem>>(
    ring: &R,
    n: u32,
    term: F,
) -> Option<R::Elem>
where
    F: Drop,
    requires callable { (i : ℕ) → i < n → F.pre term i }
    requires values { (i : ℕ) (r : Option R.Elem) → i < n → F.post term i r
        → IfSome r (λ a. R.IsValue ring.now a) }
    ensures value { IfSome result (λ sum. R.IsValue ring.now sum) }
    ensures overflow { (steps_fit : ℕ → Bool) (value : ℕ → R.Carrier ring.now)
        → ((i : ℕ) (r : Option R.Elem) → i < n → F.post term i r
        → IsTerm (R.of ring.now) (steps_fit i) (value i) r)
        → IfNone result (sum_overflows (R.ops ring.now) (R.rules ring.now) n steps_fit value
        ≡ true) }
    ensures sum { (steps_fit : ℕ → Bool) (value : ℕ → R.Carrier ring.now)
        → ((i : ℕ) (r : Option R.Elem) → i < n → F.post term i r
        → IsTerm (R.of ring.now) (steps_fit i) (value i) r)
        → IfSome result (λ sum. R.of ring.now sum ≡ sum_below (R.ops ring.now) n value) }
{
    let mut sum = ring.zero();
    for i in 0..n {
        let Some(next) = term(i) else {
            return None;
        };
        let Some(next_sum) = ring.try_add(&sum, &next) else {
            return None;
        };
        sum = next_sum;
    }
    Some(sum)
}

#[cfg(test)]
mod tests;
