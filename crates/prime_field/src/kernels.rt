//! The kernel of a matrix, by its basis in reduced form.

ghost use Rattle.std.specs.Prelude.{◌≡◌, ℕ, ◌+◌, ◌*◌, ◌/◌, ◌%◌, ◌<◌, ◌≤◌, ◌==◌, not, true, length, slice_index, IfOk};
ghost use Rattle.algebra.specs.Below.{Below};
ghost use Rattle.group_table.specs.Numbers.{passing_below};
ghost use Rattle.prime_field.specs.Moduli.{is_modulus};
ghost use Rattle.prime_field.specs.Field.{field};
ghost use Rattle.algebra.specs.Matrices.{Solves, IsCombination, IsReduced};
ghost use Rattle.prime_field.specs.Kernels.{IsKernelBasis};
ghost use Rattle.prime_field.specs.SquareMatrix.{HasEntriesBelow};
ghost use Rattle.prime_field.specs.ResidueLists.{AreBelow, matrix_of, IsTabulated};

use crate::elimination::solutions;
use crate::matrix::Matrix;
use crate::mod_ring::ModRing;
use group_table::{Memory, Nats};
use std::alloc::Global;

// Whether a row begins at the place `f`.
fn begins_at(rows: &[u32], w: u32, f: u32) -> bool
    requires few { w ≤ 60 }
    requires square { length rows.now ≡ w * w }
    requires f_below { f < w }
    ensures begins { result ≡ not (slice_index rows.now (f * w + f) == 0) }
{
    rows[(f * w + f) as usize] != 0
}

// The places at which a row begins.
fn beginnings(alloc: Global, rows: &[u32], w: u32) -> Result<Nats, Memory>
    requires few { w ≤ 60 }
    requires square { length rows.now ≡ w * w }
    ensures places { IfOk result (λ places. places ≡ passing_below w (λ f.
        not (slice_index rows.now (f * w + f) == 0))) }
{
    Nats::passing_below(alloc, w, |f| begins_at(rows, w, f))
}

// The rows at these places, one after another.
fn gathered(alloc: Global, rows: &[u32], w: u32, places: &Nats) -> Result<Nats, Memory>
    requires some { 0 < w }
    requires few { w ≤ 60 }
    requires square { length rows.now ≡ w * w }
    requires few_places { length places.now ≤ w }
    requires places_below { (i : ℕ) → i < length places.now → slice_index places.now i < w }
    ensures rows { IfOk result (λ basis. IsTabulated (length places.now * w) (λ k.
        slice_index rows.now (slice_index places.now (k / w) * w + k % w)) basis) }
{
    let mut basis = Nats::empty(alloc);
    for k in 0..places.len() * w {
        let place = places.at(k / w) * w + k % w;
        basis.push(rows[place as usize])?;
    }
    Ok(basis)
}

// The basis in reduced form of the kernel of the matrix with these numbers.
fn kernel_of(alloc: Global, ring: &ModRing, w: u32, numbers: &[u32]) -> Result<Nats, Memory>
    requires modulus { is_modulus ring.now.q ≡ true }
    requires some { 0 < w }
    requires few { w ≤ 60 }
    requires square { length numbers.now ≡ w * w }
    requires below { AreBelow ring.now.q numbers.now }
    ensures basis { (listed : is_modulus ring.now.q ≡ true)
        → IfOk result (λ basis. IsKernelBasis ring.now.q listed w numbers.now basis) }
{
    let rows = solutions(alloc, ring, w as usize, numbers, w as usize)?;
    let places = beginnings(alloc, rows.as_slice(), w)?;
    let basis = gathered(alloc, rows.as_slice(), w, &places)?;
    Ok(basis)
}

/// The basis in reduced form of the kernel of the matrix modulo the prime of the field: of the columns whose product with the matrix
/// is zero. Its rows stand one after another; the first number of each that isn't 0 is 1, it stands further right than that of the
/// row before, and every other row has 0 at its place.
pub fn kernel(alloc: Global, ring: &ModRing, a: &Matrix) -> Result<Nats, Memory>
    requires entries_below { HasEntriesBelow ring.now.q a.now }
    ensures whole_rows { IfOk result (λ basis. length basis
        ≡ length basis / a.now.width * a.now.width) }
    ensures below { IfOk result (λ basis. AreBelow ring.now.q basis) }
    ensures in_kernel { (listed : is_modulus ring.now.q ≡ true)
        → IfOk result (λ basis. (i : ℕ) → i < length basis / a.now.width
        → Solves (field ring.now.q listed) a.now.width a.now.width (matrix_of ring.now.q listed
        a.now.width a.now.numbers) (matrix_of ring.now.q listed a.now.width basis i)) }
    ensures spans { (listed : is_modulus ring.now.q ≡ true)
        → IfOk result (λ basis. (v : ℕ → Below ring.now.q)
        → Solves (field ring.now.q listed) a.now.width a.now.width (matrix_of ring.now.q listed
        a.now.width a.now.numbers) v → (x : ℕ → Below ring.now.q)
        × IsCombination (field ring.now.q listed) (length basis / a.now.width) a.now.width
        (matrix_of ring.now.q listed a.now.width basis) x v) }
    ensures reduced { (listed : is_modulus ring.now.q ≡ true)
        → IfOk result (λ basis. IsReduced (field ring.now.q listed) (length basis / a.now.width)
        a.now.width (matrix_of ring.now.q listed a.now.width basis)) }
{
    let numbers = a.as_slice();
    let w = a.width();
    let basis = kernel_of(alloc, ring, w, numbers)?;
    Ok(basis)
}
