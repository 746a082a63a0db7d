//! Elimination, one equation at a time: the basis of the vectors that fulfil all equations so far.

ghost use Rattle.std.specs.Prelude.{◌≡◌, ◌≢◌, ℕ, suc, ◌+◌, ◌*◌, ◌/◌, ◌%◌, nat_eq, if◌then◌else◌, ◌<◌, ◌≤◌, true, List, length, slice_index, IfOk, IfSome, IfNone};
ghost use Rattle.algebra.specs.Below.{Below};
ghost use Rattle.prime_field.specs.Moduli.{is_modulus};
ghost use Rattle.prime_field.specs.Field.{field};
ghost use Rattle.algebra.specs.Matrices.{dot};
ghost use Rattle.prime_field.specs.ResidueLists.{AreBelow, column_of, matrix_of, IsTabulated, minus_multiple};
ghost use Rattle.prime_field.specs.Solved.{IsSolved};

use crate::arithmetic::{dot, minus_product};
use crate::mod_ring::ModRing;
use crate::tabulate::tabulate;
use group_table::Memory;
use std::alloc::Global;

// The rows of the identity, of width `w`: they stand for all columns, which solve no equation.
pub(crate) fn identity(alloc: Global, w: usize) -> Result<Vec<u32>, Memory>
    requires some { 0 < w }
    requires few { w ≤ 61 }
    ensures rows { IfOk result (λ rows. IsTabulated (w * w) (λ k.
        if nat_eq (k / w) (k % w) then 1 else 0) rows.items) }
{
    tabulate(alloc, w * w, |k| u32::from(k / w == k % w))
}

// The place of the last number that isn't 0.
pub(crate) fn last_nonzero(numbers: &[u32]) -> Option<usize>
    ensures last { IfSome result (λ j. (j < length numbers.now) × (slice_index numbers.now j ≢ 0)
        × ((k : ℕ) → j < k → k < length numbers.now → slice_index numbers.now k ≡ 0)) }
    ensures none { IfNone result ((k : ℕ) → k < length numbers.now
        → slice_index numbers.now k ≡ 0) }
{
    let mut last = None;
    for (i, number) in numbers.iter().enumerate() {
        if *number != 0 {
            last = Some(i);
        }
    }
    last
}

// The inverse of `a` modulo the prime of the field.
fn inverse_of(ring: &ModRing, a: u32) -> u32
    requires below { a < ring.now.q }
    requires nonzero { a ≢ 0 }
    ensures below { result < ring.now.q }
    ensures product { (a * result) % ring.now.q ≡ 1 }
{
    match ring.inverse(a) {
        Some(b) => b,
        None => 0,
    }
}

// With which number the row at `f` fails the equation.
fn failure(q: u32, rows: &[u32], w: usize, equation: &[u32], f: usize) -> u32
    requires modulus { is_modulus q ≡ true }
    requires square { length rows.now ≡ w * w }
    requires rows_below { AreBelow q rows.now }
    requires width { length equation.now ≡ w }
    requires equation_below { AreBelow q equation.now }
    requires f_below { f < w }
    ensures number { (listed : is_modulus q ≡ true) → result
        ≡ (dot (field q listed) w (column_of q listed equation.now) (matrix_of q listed w rows.now
        f)).value }
    ensures below { result < q }
{
    let start = f * w;
    let row = &rows[start..start + w];
    dot(q, equation, row)
}

// With which numbers the rows of width `w` fail the equation.
fn failures(
    alloc: Global,
    q: u32,
    rows: &[u32],
    w: usize,
    equation: &[u32],
) -> Result<Vec<u32>, Memory>
    requires modulus { is_modulus q ≡ true }
    requires square { length rows.now ≡ w * w }
    requires rows_below { AreBelow q rows.now }
    requires width { length equation.now ≡ w }
    requires equation_below { AreBelow q equation.now }
    ensures numbers { (listed : is_modulus q ≡ true) → IfOk result (λ numbers.
        IsTabulated w (λ f. (dot (field q listed) w (column_of q listed equation.now) (matrix_of q
        listed w rows.now f)).value) numbers.items) }
{
    tabulate(alloc, w, |f| failure(q, rows, w, equation, f))
}

// The number at the place `k` of the rows, less that of the row at `j` so often that the row solves the equation.
fn reduced_number(
    q: u32,
    rows: &[u32],
    w: usize,
    numbers: &[u32],
    j: usize,
    c: u32,
    k: usize,
) -> u32
    requires modulus { is_modulus q ≡ true }
    requires square { length rows.now ≡ w * w }
    requires rows_below { AreBelow q rows.now }
    requires width { length numbers.now ≡ w }
    requires numbers_below { AreBelow q numbers.now }
    requires j_below { j < w }
    requires c_below { c < q }
    requires k_below { k < w * w }
    ensures number { (listed : is_modulus q ≡ true) → result
        ≡ minus_multiple q listed (slice_index rows.now k) (slice_index numbers.now (k / w)) c
        (slice_index rows.now (j * w + k % w)) }
    ensures below { result < q }
{
    let b = rows[j * w + k % w];
    minus_product(q, rows[k], numbers[k / w], c, b)
}

// The rows less that at `j`, each so often that it solves the equation that it fails with the number in `numbers`; `c` is the inverse
// of the number of the row at `j`.
fn reduced(
    alloc: Global,
    q: u32,
    rows: &[u32],
    w: usize,
    numbers: &[u32],
    j: usize,
    c: u32,
) -> Result<Vec<u32>, Memory>
    requires modulus { is_modulus q ≡ true }
    requires square { length rows.now ≡ w * w }
    requires rows_below { AreBelow q rows.now }
    requires width { length numbers.now ≡ w }
    requires numbers_below { AreBelow q numbers.now }
    requires j_below { j < w }
    requires c_below { c < q }
    ensures rows { (listed : is_modulus q ≡ true) → IfOk result (λ next.
        IsTabulated (w * w) (λ k. minus_multiple q listed (slice_index rows.now k) (slice_index
        numbers.now (k / w)) c (slice_index rows.now (j * w + k % w))) next.items) }
{
    tabulate(
        alloc,
        w * w,
        |k| reduced_number(q, rows, w, numbers, j, c, k),
    )
}

// The rows after one more equation, which they fail with these numbers: of those that don't solve it the last goes, and the others are
// reduced by it.
fn restricted_by(
    alloc: Global,
    ring: &ModRing,
    rows: &[u32],
    w: usize,
    numbers: &[u32],
) -> Result<Vec<u32>, Memory>
    requires modulus { is_modulus ring.now.q ≡ true }
    requires square { length rows.now ≡ w * w }
    requires rows_below { AreBelow ring.now.q rows.now }
    requires width { length numbers.now ≡ w }
    requires numbers_below { AreBelow ring.now.q numbers.now }
    ensures square { IfOk result (λ next. length next.items ≡ w * w) }
    ensures below { IfOk result (λ next. AreBelow ring.now.q next.items) }
    ensures solved { (listed : is_modulus ring.now.q ≡ true) (n : ℕ) (e : ℕ → ℕ
        → Below ring.now.q) (equation : List ℕ)
        → ((m : ℕ) → m < w → e n m ≡ column_of ring.now.q listed equation m)
        → IsTabulated w (λ f. (dot (field ring.now.q listed) w (column_of ring.now.q listed
        equation) (matrix_of ring.now.q listed w rows.now f)).value) numbers.now
        → IsSolved (field ring.now.q listed) n w e (matrix_of ring.now.q listed w rows.now)
        → IfOk result (λ next. IsSolved (field ring.now.q listed) (suc n) w e (matrix_of ring.now.q
        listed w next.items)) }
{
    let Some(j) = last_nonzero(numbers) else {
        let same = Vec::from_slice(alloc, rows)?;
        return Ok(same);
    };
    let c = inverse_of(ring, numbers[j]);
    let next = reduced(alloc, ring.q, rows, w, numbers, j, c)?;
    Ok(next)
}

// The rows after one more equation.
fn restricted(
    alloc: Global,
    ring: &ModRing,
    rows: &[u32],
    w: usize,
    equation: &[u32],
) -> Result<Vec<u32>, Memory>
    requires modulus { is_modulus ring.now.q ≡ true }
    requires square { length rows.now ≡ w * w }
    requires rows_below { AreBelow ring.now.q rows.now }
    requires width { length equation.now ≡ w }
    requires equation_below { AreBelow ring.now.q equation.now }
    ensures square { IfOk result (λ next. length next.items ≡ w * w) }
    ensures below { IfOk result (λ next. AreBelow ring.now.q next.items) }
    ensures solved { (listed : is_modulus ring.now.q ≡ true) (n : ℕ) (e : ℕ → ℕ → Below ring.now.q)
        → ((m : ℕ) → m < w → e n m ≡ column_of ring.now.q listed equation.now m)
        → IsSolved (field ring.now.q listed) n w e (matrix_of ring.now.q listed w rows.now)
        → IfOk result (λ next. IsSolved (field ring.now.q listed) (suc n) w e (matrix_of ring.now.q
        listed w next.items)) }
{
    let numbers = failures(alloc, ring.q, rows, w, equation)?;
    let next = restricted_by(alloc, ring, rows, w, numbers.as_slice())?;
    Ok(next)
}

// For each place below `w` the column of the reduced basis of all solutions that begins there, or zeros where none does. The equations
// stand one after another, `w` numbers each.
pub(crate) fn solutions(
    alloc: Global,
    ring: &ModRing,
    w: usize,
    equations: &[u32],
    n: usize,
) -> Result<Vec<u32>, Memory>
    requires modulus { is_modulus ring.now.q ≡ true }
    requires some { 0 < w }
    requires few { w ≤ 61 }
    requires whole { length equations.now ≡ n * w }
    requires below { AreBelow ring.now.q equations.now }
    ensures square { IfOk result (λ rows. length rows.items ≡ w * w) }
    ensures below { IfOk result (λ rows. AreBelow ring.now.q rows.items) }
    ensures solved { (listed : is_modulus ring.now.q ≡ true) (e : ℕ → ℕ → Below ring.now.q)
        → ((k m : ℕ) → k < n → m < w → e k m ≡ matrix_of ring.now.q listed w equations.now k m)
        → IfOk result (λ rows. IsSolved (field ring.now.q listed) n w e (matrix_of ring.now.q listed
        w rows.items)) }
{
    let mut rows = identity(alloc, w)?;
    for i in 0..n {
        let start = i * w;
        rows = restricted(
            alloc,
            ring,
            rows.as_slice(),
            w,
            &equations[start..start + w],
        )?;
    }
    Ok(rows)
}
