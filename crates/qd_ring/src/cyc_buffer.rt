//! Polynomials of up to 120 coefficients, in which products and images are formed before they are
//! reduced.

ghost use Rattle.std.specs.Prelude.{◌≡◌, ℕ, ◌+◌, ◌-◌, ◌*◌, ◌^◌, ◌<◌, ◌≤◌, ℤ, ◌+ℤ◌, ◌-ℤ◌, ◌*ℤ◌, neg_ℤ, nat_abs, pos, List, [], ◌∷◌, ◌++◌, length, drop, take, true};
ghost use Rattle.cyclotomic.specs.Polynomial.{at_power, leading, plus, scaled, zeros};
ghost use Rattle.cyclotomic.specs.Division.{cancelled, remainder};
ghost use Rattle.cyclotomic.specs.Cyclotomic.{cyclotomic};
ghost use Rattle.cyclotomic.specs.Conductors.{is_conductor, phi_of};
ghost use Rattle.cyclotomic.specs.Fit.{size_of};
ghost use Rattle.cyclotomic.specs.Ring.{value_of, value_sum, value_multiple, value_product, value_root};
ghost use Rattle.cyclotomic.specs.CyclotomicRing.{cyclotomic_value, galois_image, root};
ghost use Rattle.cyclotomic.proofs.Sizes.{total_of};
ghost use Rattle.qd_ring.specs.CycArrays.{is_array, is_nought};
ghost use Rattle.std.specs.List.{list_all};

use crate::reduction::reduction;

// a - c * sign, for a sign of -1, 0 or 1.
fn less_signed(a: i128, c: i128, sign: i8) -> i128
    requires a_small { nat_abs a < 2 ^ 126 }
    requires c_small { nat_abs c < 2 ^ 126 }
    requires ternary { nat_abs sign ≤ 1 }
    ensures { result ≡ a +ℤ (neg_ℤ c *ℤ sign) }
{
    if sign > 0 {
        a - c
    } else if sign < 0 {
        a + c
    } else {
        a
    }
}

// Adds c at the place v: the multiple c x^v.
pub(crate) fn add_at(buffer: &mut [i128], v: usize, c: i128)
    requires place { v < length buffer.old }
    requires room { total_of buffer.old + nat_abs c < 2 ^ 126 }
    ensures value { (m : List ℤ) → value_of m buffer.new
        ≡ value_sum (value_of m buffer.old) (value_multiple c (value_root m v)) }
    ensures total { total_of buffer.new ≤ total_of buffer.old + nat_abs c }
{
    buffer[v] += c;
}

// One step of long division by the monic polynomial with the lower coefficients `low`, in place:
// the last number of the window is cancelled, and stays where it was.
fn cancel(window: &mut [i128], low: &[i8])
    requires size { length window.old ≡ length low.now + 1 }
    requires ternary { size_of low.now ≤ 1 }
    requires room { size_of window.old < 2 ^ 126 }
    ensures { window.new ≡ cancelled (low.now ++ (pos 1 ∷ [])) window.old ++
        (leading window.old ∷ []) }
{
    let last = window[low.len()];
    if last == 0 {
        return;
    }
    for j in 0..low.len() {
        window[j] = less_signed(window[j], last, low[j]);
    }
}

// The remainder by the cyclotomic polynomial of conductor k, in the first phi(k) places; what
// stands behind is left over.
#[tactic(auto, using(cyclotomic::proofs::Checks::reduction_length, crate::specs::ReductionSigns::conductor_bounds))]
fn reduce(k: u32, buffer: &mut [i128])
    requires conductor { is_conductor k ≡ true }
    requires size { phi_of k ≤ length buffer.old }
    requires room { total_of buffer.old < 2 ^ 126 }
    ensures { take (phi_of k) buffer.new ≡ remainder (cyclotomic k) buffer.old }
{
    let low = reduction(k);
    let mut at = buffer.len() - low.len();
    while at > 0 {
        at -= 1;
        cancel(&mut buffer[at..at + low.len() + 1], low);
    }
}

// Adds the polynomial at x^stride, times x^start, with exponents modulo k.
fn spread(k: u32, buffer: &mut [i128], coefficients: &[i128], start: u32, stride: u32)
    requires conductor { is_conductor k ≡ true }
    requires size { length buffer.old ≡ k }
    requires start { start < k }
    requires stride { stride < k }
    requires room { total_of buffer.old + total_of coefficients.now < 2 ^ 126 }
    ensures value { cyclotomic_value k buffer.new
        ≡ value_sum (cyclotomic_value k buffer.old)
        (value_product (cyclotomic k) (root k start)
        (cyclotomic_value k (at_power stride coefficients.now))) }
    ensures total { total_of buffer.new ≤ total_of buffer.old + total_of coefficients.now }
{
    let mut place = start;
    for a in coefficients {
        add_at(buffer, place as usize, *a);
        place = (place + stride) % k;
    }
}

// The first phi places of the buffer, then zeros.
fn first_places(buffer: &[i128], phi: usize) -> [i128; 42]
    requires within { phi ≤ length buffer.now }
    requires most { phi ≤ 42 }
    ensures { result ≡ take phi buffer.now ++ zeros (42 - phi) }
{
    let mut result = [0i128; 42];
    result[..phi].copy_from_slice(&buffer[..phi]);
    result
}

/// The largest magnitude of a number.
pub(crate) fn size(coefficients: &[i128]) -> u128
    ensures { result ≡ size_of coefficients.now }
{
    let mut largest = 0;
    for a in coefficients {
        largest = a.unsigned_abs().max(largest);
    }
    largest
}

/// The value of the buffer, as an array; the buffer is used up.
#[tactic(auto, using(cyclotomic::proofs::Checks::reduction_length, crate::specs::ReductionSigns::conductor_bounds))]
pub(crate) fn reduced(k: u32, buffer: &mut [i128]) -> [i128; 42]
    requires conductor { is_conductor k ≡ true }
    requires size { length buffer.old ≡ k }
    requires room { total_of buffer.old < 2 ^ 126 }
    ensures array { is_array k result ≡ true }
    ensures value { cyclotomic_value k result ≡ cyclotomic_value k buffer.old }
{
    reduce(k, buffer);
    first_places(buffer, reduction(k).len())
}

// The polynomial at x^stride, times x^start, reduced; the buffer is used up.
#[tactic(auto, using(crate::proofs::ProductLaws::empty_size, crate::proofs::ProductLaws::empty_total))]
fn reduced_image(k: u32, buffer: &mut [i128], a: &[i128], start: u32, stride: u32) -> [i128; 42]
    requires conductor { is_conductor k ≡ true }
    requires empty { buffer.old ≡ zeros k }
    requires start { start < k }
    requires stride { stride < k }
    requires room { total_of a.now < 2 ^ 126 }
    ensures array { is_array k result ≡ true }
    ensures value { cyclotomic_value k result ≡ value_product (cyclotomic k) (root k start)
        (cyclotomic_value k (at_power stride a.now)) }
{
    spread(k, buffer, a, start, stride);
    reduced(k, buffer)
}

/// The image of a value under x to x^stride, times x^start.
#[tactic(auto, using(cyclotomic::proofs::Checks::reduction_length, crate::specs::ReductionSigns::conductor_bounds, crate::proofs::ProductLaws::empty_front, crate::proofs::ProductLaws::empty_length))]
pub(crate) fn image(k: u32, a: &[i128; 42], start: u32, stride: u32) -> [i128; 42]
    requires conductor { is_conductor k ≡ true }
    requires array { is_array k a.now ≡ true }
    requires start { start < k }
    requires stride { stride < k }
    requires room { total_of a.now < 2 ^ 126 }
    ensures array { is_array k result ≡ true }
    ensures value { cyclotomic_value k result ≡ value_product (cyclotomic k) (root k start)
        (galois_image k stride (cyclotomic_value k a.now)) }
{
    let phi = reduction(k).len();
    let mut buffer = [0i128; 120];
    reduced_image(k, &mut buffer[..k as usize], &a[..phi], start, stride)
}

/// Changes a to a - sign b, number by number.
pub(crate) fn combine(a: &mut [i128], b: &[i128], sign: i8)
    requires same { length a.old ≡ length b.now }
    requires ternary { nat_abs sign ≤ 1 }
    requires a_room { size_of a.old < 2 ^ 126 }
    requires b_room { size_of b.now < 2 ^ 126 }
    ensures { a.new ≡ plus a.old (scaled (neg_ℤ sign) b.now) }
{
    for j in 0..b.len() {
        a[j] = less_signed(a[j], b[j], sign);
    }
}

/// Whether all numbers are 0.
pub(crate) fn all_zero(numbers: &[i128]) -> bool
    ensures { result ≡ list_all is_nought numbers.now }
{
    numbers.iter().all(|a| *a == 0)
}

/// Whether the numbers from a place on are 0.
fn rest_is_zero(numbers: &[i128], from: usize) -> bool
    requires { from ≤ length numbers.now }
    ensures { result ≡ list_all is_nought (drop from numbers.now) }
{
    all_zero(&numbers[from..])
}

/// Whether the places from phi(k) on are 0, of 42.
#[tactic(auto, using(cyclotomic::proofs::Checks::reduction_length, crate::specs::ReductionSigns::conductor_bounds))]
pub(crate) fn is_padded(k: u32, numbers: &[i128]) -> bool
    requires conductor { is_conductor k ≡ true }
    requires size { length numbers.now ≡ 42 }
    ensures { result ≡ is_array k numbers.now }
{
    rest_is_zero(numbers, reduction(k).len())
}
