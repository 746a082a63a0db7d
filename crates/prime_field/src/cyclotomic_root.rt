//! The least root of a cyclotomic polynomial modulo a prime.

ghost use Rattle.std.specs.Prelude.{◌≡◌, ◌<◌, ◌≤◌, ◌++◌, [], ◌∷◌, pos, true};
ghost use Rattle.cyclotomic.specs.Conductors.{is_conductor};
ghost use Rattle.cyclotomic.specs.Cyclotomic.{cyclotomic};
ghost use Rattle.cyclotomic.specs.Fit.{size_of};
ghost use Rattle.prime_field.specs.Evaluation.{whole_modulo, reduced, value_at, is_root};
ghost use Rattle.prime_field.specs.Moduli.{least_root};

use qd_ring::reduction::reduction;
use scan::first_below;

// The number below q that is congruent to the coefficient modulo q.
fn residue_of(q: u32, coefficient: i8) -> u32
    requires positive { 0 < q }
    ensures { result ≡ whole_modulo q coefficient }
{
    let magnitude = u32::from(coefficient.unsigned_abs()) % q;
    if coefficient < 0 {
        (q - magnitude) % q
    } else {
        magnitude
    }
}

// The value at r, modulo q, of the polynomial with these lower coefficients and the leading coefficient 1.
fn monic_value(q: u32, lower: &[i8], r: u32) -> u32
    requires over_one { 1 < q }
    requires small { q < 65536 }
    requires r_below { r < q }
    requires ternary { size_of lower.now ≤ 1 }
    ensures value { result ≡ value_at q r (reduced q (lower.now ++ pos 1 ∷ [])) }
{
    let mut value = 1;
    for i in (0..lower.len()).rev() {
        value = (residue_of(q, lower[i]) + r * value) % q;
    }
    value
}

// Whether r is a root modulo q of the cyclotomic polynomial of the conductor.
fn is_root(q: u32, conductor: u32, r: u32) -> bool
    requires over_one { 1 < q }
    requires small { q < 65536 }
    requires entry { is_conductor conductor ≡ true }
    requires r_below { r < q }
    ensures { result ≡ is_root q (reduced q (cyclotomic conductor)) r }
{
    monic_value(q, reduction(conductor), r) == 0
}

// The least root modulo q of the cyclotomic polynomial of the conductor.
#[tactic(auto, unfolding(crate::specs::Moduli::least_root))]
pub(crate) fn least_root(q: u32, conductor: u32) -> Option<u32>
    requires over_one { 1 < q }
    requires small { q < 65536 }
    requires entry { is_conductor conductor ≡ true }
    ensures { result ≡ least_root q conductor }
{
    first_below(q, |r| {
        if is_root(q, conductor, r) {
            Some(r)
        } else {
            None
        }
    })
}
