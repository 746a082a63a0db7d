//! The matrix S, as its numerators over the order of the group.

ghost use Rattle.std.specs.Prelude.{ℕ, ◌≡◌, ◌<◌, ◌+◌, ◌^◌, [], ◌∷◌, ◌++◌, length, slice_index_or, IfOk, IfErr, IfSome, OnOk};
ghost use Rattle.cyclotomic.specs.CyclotomicRing.{cyclotomic_value};
ghost use Rattle.qd_ring.specs.RowLists.{row_at};
ghost use Rattle.transport.specs.Simples.{count};
ghost use Rattle.transport.specs.SSums.{s_sum};
ghost use Rattle.modular_st.specs.Conjugates.{AreKept};
ghost use Rattle.modular_st.specs.SMatrices.{values_of_rows, s_front, s_rows};
ghost use Rattle.modular_st.specs.Refusal.{Refuses};
ghost use Rattle.modular_st.specs.ModularMatrices.{entries_of, IsSymmetric, HoldsDimensions, IsUnitary};

use crate::conjugates::{KeptConjugates, conjugates};
use crate::kept_sum::kept_sum;
use crate::numerator::s_site;
use crate::refusal::StRefusal;
use qd_ring::{Cyc, Rows};
use std::alloc::Global;
use std::marker::Model;
use transport::Simples;

/// The matrix S of a twisted quantum double, times the order of its group; seen as a list of rows, each a list of values, each the list of
/// its coefficients.
#[derive(Debug, Drop)]
pub struct SMatrix<const K: u32> {
    rows: Rows<K>,
}

impl<const K: u32> Model for SMatrix<K> {
    ghost use Rattle.std.specs.Prelude.{ℤ, List};

    ghost Value = { List (List (List ℤ)) };

    ghost view = { λ matrix. matrix.rows };
}

impl<const K: u32> SMatrix<K> {
    /// The entry at simples `i` and `j`.
    pub fn get(&self, i: u32, j: u32) -> Cyc<K>
        requires row { i < length self.now }
        requires place { j < length (row_at self.now i) }
        ensures entry { result.coefficients ≡ slice_index_or (row_at self.now i) j [] }
    {
        self.rows.value(i, j)
    }

    /// The entries, row after row.
    pub fn rows(&self) -> &Rows<K>
        ensures rows { result.now ≡ self.now }
    {
        &self.rows
    }
}

/// The entry at simples `i` and `j`.
fn entry<const K: u32>(
    simples: &Simples<K>,
    conjugates: &Option<KeptConjugates<K>>,
    i: u32,
    j: u32,
) -> Result<Cyc<K>, StRefusal>
    requires kept { IfSome conjugates.now (AreKept K simples.now) }
    requires i_below { i < count K simples.now }
    requires j_below { j < count K simples.now }
    ensures entry { IfOk result (λ value. cyclotomic_value K value.coefficients
        ≡ (s_sum K simples.now i j).value) }
    ensures refused { IfErr result (λ refusal. Refuses K simples.now refusal) }
{
    match kept_sum(simples, conjugates, i, j) {
        Some(sum) => Ok(sum),
        None => Err(StRefusal::Overflow { site: s_site(i, j) }),
    }
}

/// Adds the row of simple `i`.
fn append_row<const K: u32>(
    rows: &mut Rows<K>,
    simples: &Simples<K>,
    conjugates: &Option<KeptConjugates<K>>,
    i: u32,
) -> Result<(), StRefusal>
    requires kept { IfSome conjugates.now (AreKept K simples.now) }
    requires i_below { i < count K simples.now }
    requires room { length rows.old + 1 < 2 ^ 32 }
    ensures added { OnOk result (values_of_rows K rows.new
        ≡ values_of_rows K rows.old ++ s_front K simples.now i (count K simples.now) ∷ []) }
    ensures refused { IfErr result (λ refusal. Refuses K simples.now refusal) }
{
    rows.push_row()?;
    for j in 0..simples.count() {
        let value = entry(simples, conjugates, i, j)?;
        rows.push_value(value)?;
    }
    Ok(())
}

/// The rows of all simples.
fn numerator_rows<const K: u32>(
    alloc: Global,
    simples: &Simples<K>,
    conjugates: &Option<KeptConjugates<K>>,
) -> Result<Rows<K>, StRefusal>
    requires kept { IfSome conjugates.now (AreKept K simples.now) }
    ensures rows { IfOk result (λ rows. values_of_rows K rows ≡ s_rows K simples.now) }
    ensures refused { IfErr result (λ refusal. Refuses K simples.now refusal) }
{
    let count = simples.count();
    let mut rows = Rows::empty(alloc);
    for i in 0..count {
        append_row(&mut rows, simples, conjugates, i)?;
    }
    Ok(rows)
}

/// The matrix S, times the order of the group: the entry at simples `i` and `j` is the sum over all `g` and `h` that commute of the
/// conjugate of the full character of `i` at `(g, h)` times the conjugate of that of `j` at `(h, g)`.
pub fn s_matrix<const K: u32>(alloc: Global, simples: &Simples<K>) -> Result<SMatrix<K>, StRefusal>
    ensures matrix { IfOk result (λ matrix. values_of_rows K matrix ≡ s_rows K simples.now) }
    ensures rows { IfOk result (λ matrix. length matrix ≡ count K simples.now) }
    ensures columns { IfOk result (λ matrix. (i : ℕ) → i < count K simples.now
        → length (row_at matrix i) ≡ count K simples.now) }
    ensures entries { IfOk result (λ matrix. (i j : ℕ) → i < count K simples.now
        → j < count K simples.now → cyclotomic_value K (slice_index_or (row_at matrix i) j [])
        ≡ (s_sum K simples.now i j).value) }
    ensures refused { IfErr result (λ refusal. Refuses K simples.now refusal) }

    // The theory of modular data, of these very entries.
    ensures symmetric { IfOk result (λ matrix. IsSymmetric K simples.now (entries_of K matrix)) }
    ensures dimensions { IfOk result (λ matrix.
        HoldsDimensions K simples.now (entries_of K matrix)) }
    ensures unitary { IfOk result (λ matrix. IsUnitary K simples.now (entries_of K matrix)) }
{
    let _count = simples.count();
    let conjugates = conjugates(alloc, simples)?;
    let rows = numerator_rows(alloc, simples, &conjugates)?;
    Ok(SMatrix { rows })
}
