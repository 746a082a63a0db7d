//! The minimal polynomial of a matrix, by its powers.

ghost use Rattle.std.specs.Prelude.{◌≡◌, ◌≢◌, ℕ, ◌+◌, ◌-◌, ◌*◌, ◌/◌, ◌%◌, ◌<◌, ◌≤◌, true, length, slice_index, slice_range, IfOk};
ghost use Rattle.prime_field.specs.Moduli.{is_modulus};
ghost use Rattle.prime_field.specs.Field.{field};
ghost use Rattle.algebra.specs.Matrices.{dot, IsMinimal};
ghost use Rattle.prime_field.specs.SquareMatrix.{HasEntriesBelow};
ghost use Rattle.prime_field.specs.ResidueLists.{AreBelow, column_of, matrix_of, IsTabulated};
ghost use Rattle.prime_field.specs.PowerLists.{ListsPowers};
ghost use Rattle.prime_field.specs.Solved.{IsSolved, power_equations, IsLastNonzero};

use crate::arithmetic::dot;
use crate::elimination::{identity, last_nonzero, solutions};
use crate::matrix::Matrix;
use crate::mod_ring::ModRing;
use crate::poly::Poly;
use crate::tabulate::tabulate;
use arrayvec::ArrayVec;
use group_table::Memory;
use std::alloc::Global;

// The number at the place `n` of the next power. Powers stand column after column, the matrix row after row.
fn power_number(q: u32, a: &[u32], w: usize, power: &[u32], n: usize) -> u32
    requires modulus { is_modulus q ≡ true }
    requires square { length a.now ≡ w * w }
    requires a_below { AreBelow q a.now }
    requires power_square { length power.now ≡ w * w }
    requires power_below { AreBelow q power.now }
    requires n_below { n < w * w }
    ensures number { (listed : is_modulus q ≡ true) → result
        ≡ (dot (field q listed) w (matrix_of q listed w a.now (n % w)) (matrix_of q listed w
        power.now (n / w))).value }
    ensures below { result < q }
{
    let row = n % w * w;
    let column = n / w * w;
    dot(q, &a[row..row + w], &power[column..column + w])
}

// The next power of the matrix.
fn next_power(alloc: Global, q: u32, a: &[u32], w: usize, power: &[u32]) -> Result<Vec<u32>, Memory>
    requires modulus { is_modulus q ≡ true }
    requires square { length a.now ≡ w * w }
    requires a_below { AreBelow q a.now }
    requires power_square { length power.now ≡ w * w }
    requires power_below { AreBelow q power.now }
    ensures numbers { (listed : is_modulus q ≡ true) → IfOk result (λ next.
        IsTabulated (w * w) (λ n. (dot (field q listed) w (matrix_of q listed w a.now (n % w))
        (matrix_of q listed w power.now (n / w))).value) next.items) }
{
    tabulate(alloc, w * w, |n| power_number(q, a, w, power, n))
}

// The power after the `k`-th, which is the last so far.
fn power_after(
    alloc: Global,
    q: u32,
    a: &[u32],
    w: usize,
    powers: &[u32],
    k: usize,
) -> Result<Vec<u32>, Memory>
    requires modulus { is_modulus q ≡ true }
    requires few { w ≤ 60 }
    requires k_below { k < w }
    requires square { length a.now ≡ w * w }
    requires a_below { AreBelow q a.now }
    requires whole { length powers.now ≡ (k + 1) * (w * w) }
    requires powers_below { AreBelow q powers.now }
    ensures numbers { (listed : is_modulus q ≡ true) → IfOk result (λ next.
        IsTabulated (w * w) (λ m. (dot (field q listed) w (matrix_of q listed w a.now (m % w))
        (matrix_of q listed w (slice_range powers.now (k * (w * w)) (k * (w * w) + w * w)) (m /
        w))).value) next.items) }
{
    let size = w * w;
    let start = k * size;
    let next = next_power(alloc, q, a, w, &powers[start..start + size])?;
    Ok(next)
}

// The powers of the matrix from the 0-th up to the `w`-th, one after another.
fn powers_of(alloc: Global, q: u32, a: &[u32], w: usize) -> Result<Vec<u32>, Memory>
    requires modulus { is_modulus q ≡ true }
    requires some { 0 < w }
    requires few { w ≤ 60 }
    requires square { length a.now ≡ w * w }
    requires a_below { AreBelow q a.now }
    ensures powers { (listed : is_modulus q ≡ true) → IfOk result (λ powers.
        ListsPowers q listed w a.now (w + 1) powers.items) }
{
    let mut powers = identity(alloc, w)?;
    for k in 0..w {
        let done = powers.as_slice();
        let next = power_after(alloc, q, a, w, done, k)?;
        let more = next.as_slice();
        powers.extend_from_slice(more)?;
    }
    Ok(powers)
}

// The number at the place `m` of the equations.
fn equation_number(powers: &[u32], w: usize, m: usize) -> u32
    requires some { 0 < w }
    requires few { w ≤ 60 }
    requires whole { length powers.now ≡ (w + 1) * (w * w) }
    requires m_below { m < w * w * (w + 1) }
    ensures number { result ≡ slice_index powers.now ((w - m % (w + 1)) * (w * w) + m / (w + 1)) }
{
    powers[(w - m % (w + 1)) * (w * w) + m / (w + 1)]
}

// An equation for each place of the matrix: the numbers there of its powers, from the `w`-th down to the 0-th.
fn equations_of(alloc: Global, powers: &[u32], w: usize) -> Result<Vec<u32>, Memory>
    requires some { 0 < w }
    requires few { w ≤ 60 }
    requires whole { length powers.now ≡ (w + 1) * (w * w) }
    ensures equations { IfOk result (λ equations. IsTabulated (w * w * (w + 1)) (λ m.
        slice_index powers.now ((w - m % (w + 1)) * (w * w) + m / (w + 1))) equations.items) }
{
    tabulate(alloc, w * w * (w + 1), |m| equation_number(powers, w, m))
}

// The number of the row at `f` at its own place.
fn own_number(rows: &[u32], v: usize, f: usize) -> u32
    requires few { v ≤ 61 }
    requires square { length rows.now ≡ v * v }
    requires f_below { f < v }
    ensures number { result ≡ slice_index rows.now (f * v + f) }
{
    rows[f * v + f]
}

// The number of each row at its own place.
fn diagonal(alloc: Global, rows: &[u32], v: usize) -> Result<Vec<u32>, Memory>
    requires few { v ≤ 61 }
    requires square { length rows.now ≡ v * v }
    ensures numbers { IfOk result (λ numbers. IsTabulated v (λ f.
        slice_index rows.now (f * v + f)) numbers.items) }
{
    tabulate(alloc, v, |f| own_number(rows, v, f))
}

// The row at `f`, from its last place down to the place `f`.
fn reversed(rows: &[u32], v: usize, f: usize) -> Poly
    requires few { v ≤ 61 }
    requires square { length rows.now ≡ v * v }
    requires f_below { f < v }
    ensures coefficients { IsTabulated (v - f) (λ k. slice_index rows.now (f * v + (v - 1 - k)))
        result }
{
    let mut coefficients = ArrayVec::new();
    for k in 0..v - f {
        coefficients.push(rows[f * v + (v - 1 - k)]);
    }
    Poly::from_coefficients(coefficients)
}

// The last row that isn't gone, from its last place down to its first number that isn't 0.
fn last_row(alloc: Global, rows: &[u32], v: usize) -> Result<Poly, Memory>
    requires some { 0 < v }
    requires few { v ≤ 61 }
    requires square { length rows.now ≡ v * v }
    ensures row { IfOk result (λ poly. (f : ℕ) × IsLastNonzero v (λ g.
        slice_index rows.now (g * v + g)) f
        × IsTabulated (v - f) (λ k. slice_index rows.now (f * v + (v - 1 - k))) poly) }
{
    let own = diagonal(alloc, rows, v)?;
    match last_nonzero(own.as_slice()) {
        Some(f) => Ok(reversed(rows, v, f)),
        None => Ok(reversed(rows, v, 0)),
    }
}

// For each place the polynomial of the reduced basis of those of degree at most `w` that are zero at the matrix that begins there, from
// its coefficient of the power `w` down, or zeros where none does.
fn annihilators(
    alloc: Global,
    ring: &ModRing,
    w: usize,
    numbers: &[u32],
) -> Result<Vec<u32>, Memory>
    requires modulus { is_modulus ring.now.q ≡ true }
    requires some { 0 < w }
    requires few { w ≤ 60 }
    requires square { length numbers.now ≡ w * w }
    requires below { AreBelow ring.now.q numbers.now }
    ensures square { IfOk result (λ rows. length rows.items ≡ (w + 1) * (w + 1)) }
    ensures below { IfOk result (λ rows. AreBelow ring.now.q rows.items) }
    ensures solved { (listed : is_modulus ring.now.q ≡ true)
        → IfOk result (λ rows. IsSolved (field ring.now.q listed) (w * w) (w + 1) (power_equations
        (field ring.now.q listed) w (matrix_of ring.now.q listed w numbers.now)) (matrix_of
        ring.now.q listed (w + 1) rows.items)) }
{
    let powers = powers_of(alloc, ring.q, numbers, w)?;
    let equations = equations_of(alloc, powers.as_slice(), w)?;
    let rows = solutions(alloc, ring, w + 1, equations.as_slice(), w * w)?;
    Ok(rows)
}

// The minimal polynomial of the matrix with these numbers.
fn minimal_of(alloc: Global, ring: &ModRing, w: usize, numbers: &[u32]) -> Result<Poly, Memory>
    requires modulus { is_modulus ring.now.q ≡ true }
    requires some { 0 < w }
    requires few { w ≤ 60 }
    requires square { length numbers.now ≡ w * w }
    requires below { AreBelow ring.now.q numbers.now }
    ensures below { IfOk result (λ f. AreBelow ring.now.q f) }
    ensures minimal { (listed : is_modulus ring.now.q ≡ true)
        → IfOk result (λ f. IsMinimal (field ring.now.q listed) w (matrix_of ring.now.q listed w
        numbers.now) (length f) (column_of ring.now.q listed f)) }
{
    let rows = annihilators(alloc, ring, w, numbers)?;
    let f = last_row(alloc, rows.as_slice(), w + 1)?;
    Ok(f)
}

/// The minimal polynomial of the matrix modulo the prime of the field: monic, zero at the matrix, and of the least degree.
pub fn minimal(alloc: Global, ring: &ModRing, a: &Matrix) -> Result<Poly, Memory>
    requires entries_below { HasEntriesBelow ring.now.q a.now }
    ensures below { IfOk result (λ f. AreBelow ring.now.q f) }
    ensures minimal { (listed : is_modulus ring.now.q ≡ true)
        → IfOk result (λ f. IsMinimal (field ring.now.q listed) a.now.width (matrix_of ring.now.q
        listed a.now.width a.now.numbers) (length f) (column_of ring.now.q listed f)) }
{
    let numbers = a.as_slice();
    let width = a.width();
    let w = width as usize;
    let f = minimal_of(alloc, ring, w, numbers)?;
    Ok(f)
}
