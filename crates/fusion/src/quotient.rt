//! Values that are multiples of a whole number.

ghost use Rattle.std.specs.Prelude.{◌≡◌, ◌<◌};
ghost use Rattle.cyclotomic.specs.CyclotomicRing.{cyclotomic_value};
ghost use Rattle.fusion.specs.Numbers.{natural_of, whole_quotient};

use qd_ring::Cyc;

/// The number, where it is at least 0.
fn natural(whole: i128) -> Option<u128>
    ensures natural { result ≡ natural_of whole }
{
    if whole < 0 {
        None
    } else {
        Some(whole.unsigned_abs())
    }
}

/// The whole number of at least 0 of which the value is the multiple by `n`; `None` exactly where there is none.
pub fn whole_quotient<const K: u32>(n: u32, value: &Cyc<K>) -> Option<u128>
    requires positive { 0 < n }
    ensures quotient { result ≡ whole_quotient K n (cyclotomic_value K value.now.coefficients) }
{
    let Some(whole) = value.as_whole() else {
        return None;
    };
    let Some(number) = natural(whole) else {
        return None;
    };
    let n = u128::from(n);
    if number % n == 0 {
        Some(number / n)
    } else {
        None
    }
}
