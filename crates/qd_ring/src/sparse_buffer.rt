//! Products of sparse values, added to buffers of coefficients modulo x^k - 1.

ghost use Rattle.std.specs.Prelude.{◌≡◌, ◌+◌, ◌*◌, ◌%◌, ◌^◌, ◌<◌, ◌≤◌, nat_abs, length, true, All};
ghost use Rattle.cyclotomic.specs.Cyclotomic.{cyclotomic};
ghost use Rattle.cyclotomic.specs.Conductors.{is_conductor};
ghost use Rattle.cyclotomic.specs.Ring.{value_sum, value_multiple, value_product};
ghost use Rattle.cyclotomic.specs.CyclotomicRing.{cyclotomic_value, root};
ghost use Rattle.cyclotomic.specs.Polynomial.{zeros};
ghost use Rattle.cyclotomic.proofs.Sizes.{total_of};
ghost use Rattle.qd_ring.specs.CycArrays.{is_array};
ghost use Rattle.qd_ring.specs.SparseValues.{value_of_terms, total_of_terms};

use crate::cyc_buffer::{add_at, reduced};
use crate::monomial::Monomial;

// The place of x^power, times x^start, modulo x^k - 1.
fn turned(k: u32, start: u32, power: u32) -> u32
    requires start { start < k }
    requires power { power < k }
    requires small { k ≤ 120 }
    ensures place { result ≡ (start + power) % k }
    ensures below { result < k }
{
    let place = start + power;
    if place < k { place } else { place - k }
}

// Adds a multiple of one term, times x^start.
fn add_term(k: u32, buffer: &mut [i128], factor: i128, term: Monomial, start: u32)
    requires conductor { is_conductor k ≡ true }
    requires size { length buffer.old ≡ k }
    requires start { start < k }
    requires power { term.power < k }
    requires room { total_of buffer.old + nat_abs factor * nat_abs term.coefficient < 2 ^ 126 }
    ensures value { cyclotomic_value k buffer.new ≡ value_sum (cyclotomic_value k buffer.old)
        (value_multiple factor (value_product (cyclotomic k) (root k start)
        (value_multiple term.coefficient (root k term.power)))) }
    ensures total { total_of buffer.new ≤ total_of buffer.old
        + nat_abs factor * nat_abs term.coefficient }
{
    let place = turned(k, start, term.power);
    add_at(buffer, place as usize, factor * term.coefficient);
}

// Adds a multiple of a sparse value, times x^start.
fn add_terms(k: u32, buffer: &mut [i128], factor: i128, terms: &[Monomial], start: u32)
    requires conductor { is_conductor k ≡ true }
    requires size { length buffer.old ≡ k }
    requires start { start < k }
    requires powers { All (λ term. term.power < k) terms.now }
    requires room { total_of buffer.old + nat_abs factor * total_of_terms terms.now < 2 ^ 126 }
    ensures value { cyclotomic_value k buffer.new ≡ value_sum (cyclotomic_value k buffer.old)
        (value_multiple factor (value_product (cyclotomic k) (root k start)
        (value_of_terms k terms.now))) }
    ensures total { total_of buffer.new ≤ total_of buffer.old
        + nat_abs factor * total_of_terms terms.now }
{
    for term in terms {
        add_term(k, buffer, factor, *term, start);
    }
}

/// Adds the product of two sparse values, times x^start.
pub(crate) fn add_product(k: u32, buffer: &mut [i128], a: &[Monomial], b: &[Monomial], start: u32)
    requires conductor { is_conductor k ≡ true }
    requires size { length buffer.old ≡ k }
    requires start { start < k }
    requires a_powers { All (λ term. term.power < k) a.now }
    requires b_powers { All (λ term. term.power < k) b.now }
    requires room { total_of buffer.old + total_of_terms a.now * total_of_terms b.now < 2 ^ 126 }
    ensures value { cyclotomic_value k buffer.new ≡ value_sum (cyclotomic_value k buffer.old)
        (value_product (cyclotomic k) (root k start)
        (value_product (cyclotomic k) (value_of_terms k a.now) (value_of_terms k b.now))) }
    ensures total { total_of buffer.new ≤ total_of buffer.old
        + total_of_terms a.now * total_of_terms b.now }
{
    for term in a {
        add_terms(k, buffer, term.coefficient, b, turned(k, start, term.power));
    }
}

// The product of two sparse values, reduced; the buffer is used up.
#[tactic(auto, using(cyclotomic::proofs::Checks::conductor_positive, crate::proofs::ProductLaws::empty_size, crate::proofs::ProductLaws::empty_total))]
fn reduced_product(k: u32, buffer: &mut [i128], a: &[Monomial], b: &[Monomial]) -> [i128; 42]
    requires conductor { is_conductor k ≡ true }
    requires empty { buffer.old ≡ zeros k }
    requires a_powers { All (λ term. term.power < k) a.now }
    requires b_powers { All (λ term. term.power < k) b.now }
    requires room { total_of_terms a.now * total_of_terms b.now < 2 ^ 126 }
    ensures array { is_array k result ≡ true }
    ensures value { cyclotomic_value k result
        ≡ value_product (cyclotomic k) (value_of_terms k a.now)
        (value_of_terms k b.now) }
{
    add_product(k, buffer, a, b, 0);
    reduced(k, buffer)
}

/// The product of two sparse values.
#[tactic(auto, using(crate::specs::ReductionSigns::conductor_bounds, crate::proofs::ProductLaws::empty_front, crate::proofs::ProductLaws::empty_length))]
pub(crate) fn product(k: u32, a: &[Monomial], b: &[Monomial]) -> [i128; 42]
    requires conductor { is_conductor k ≡ true }
    requires a_powers { All (λ term. term.power < k) a.now }
    requires b_powers { All (λ term. term.power < k) b.now }
    requires room { total_of_terms a.now * total_of_terms b.now < 2 ^ 126 }
    ensures array { is_array k result ≡ true }
    ensures value { cyclotomic_value k result
        ≡ value_product (cyclotomic k) (value_of_terms k a.now)
        (value_of_terms k b.now) }
{
    let mut buffer = [0i128; 120];
    reduced_product(k, &mut buffer[..k as usize], a, b)
}
