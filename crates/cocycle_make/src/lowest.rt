//! Greatest common divisors, and a class modulo a number in lowest terms.

ghost use Rattle.std.specs.Prelude.{◌≡◌, ℕ, ◌*◌, ◌<◌, ◌≤◌};
ghost use Rattle.cocycle_make.specs.Divisors.{greatest, divides_both, common_divisor};
ghost use Rattle.cocycle_make.specs.Cocycles.{roots_of, step_of};

/// Whether `d` divides both numbers.
fn divides_both(n: u32, p: u32, d: u32) -> bool
    requires positive { 0 < d }
    ensures both { result ≡ divides_both n p d }
{
    n % d == 0 && p % d == 0
}

/// The greatest number to `n` that divides `n` and `p`.
pub fn common_divisor(n: u32, p: u32) -> u32
    requires positive { 0 < n }
    ensures greatest { result ≡ common_divisor n p }
    ensures from_one { 1 ≤ result }
    ensures to_most { result ≤ n }
{
    let mut greatest = 0;
    for i in 0..n {
        if divides_both(n, p, i + 1) {
            greatest = i + 1;
        }
    }
    greatest
}

/// How many roots of unity the class `p` modulo `n` needs.
pub fn roots_of(n: u32, p: u32) -> u32
    requires positive { 0 < n }
    ensures roots { result ≡ roots_of n p }
    ensures from_one { 1 ≤ result }
    ensures to_most { result ≤ n }
{
    n / common_divisor(n, p % n)
}

/// The exponent of a root of unity that stands for the class `p` modulo `n`.
pub fn step_of(n: u32, p: u32) -> u32
    requires positive { 0 < n }
    ensures step { result ≡ step_of n p }
    ensures below { result < n }
{
    p % n / common_divisor(n, p % n)
}
