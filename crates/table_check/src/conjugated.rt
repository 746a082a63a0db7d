//! Rows with the conjugates of their values, each made once.

ghost use Rattle.std.specs.Prelude.{◌≡◌, ◌<◌, length, map, vec_len, Some, None, IfOk, OnOk};
ghost use Rattle.twisted.specs.Twist.{size};
ghost use Rattle.table_check.specs.Characters.{characters_of, IsShaped};
ghost use Rattle.table_check.specs.Check.{unitary_miss};
ghost use Rattle.table_check.specs.Conjugates.{values_of, conjugate_row};
ghost use Rattle.cyclotomic.specs.CyclotomicRing.{cyclotomic_value, conjugate};
ghost use Rattle.qd_ring.specs.Folding.{IsSparseOf};
ghost use Rattle.table_check.specs.Sides.{FormsIn, conjugate_value};

use crate::candidate::Candidate;
use crate::kept::Kept;
use group_table::Memory;
use qd_ring::Terms;
use std::alloc::Global;
use std::marker::Model;

/// Rows of values over a twisted centraliser, with the conjugate of each value.
#[derive(Debug, Drop)]
pub struct Conjugated<const K: u32> {
    candidate: Candidate<K>,
    conjugates: Vec<Vec<Kept<K>>>,
}

impl<const K: u32> Model for Conjugated<K> {
    ghost use Rattle.table_check.specs.Characters.{RowsOver, IsShaped};
    ghost use Rattle.table_check.specs.Conjugates.{AreConjugates};

    ghost Value = { RowsOver };

    ghost view = { λ t. t.candidate };

    ghost invariant = { λ t.
        IsShaped K t.candidate × AreConjugates K t.candidate t.conjugates.items };
}

/// The conjugates of row `i`.
fn conjugate_row<const K: u32>(
    alloc: Global,
    table: &Candidate<K>,
    i: u32,
) -> Result<Vec<Kept<K>>, Memory>
    requires i_below { i < length table.now.rows }
    requires unitary { unitary_miss table.now.over (characters_of K table.now.rows) ≡ None }
    ensures row { IfOk result (λ row. values_of K row.items
        ≡ conjugate_row (size table.now.over) (characters_of K table.now.rows) i) }
{
    let places = table.over().size();
    let mut row = Vec::new(alloc);
    for x in 0..places {
        let Some(conjugate) = table.value(i, x).try_conj() else {
            unreachable!()
        };
        let terms = Terms::of(&conjugate);
        row.push(Kept {
            value: conjugate,
            terms,
        })?;
    }
    Ok(row)
}

impl<const K: u32> Conjugated<K> {
    /// The rows with their conjugates, where the clause on inverses holds: each conjugate is a factor of its sides, and fits.
    pub fn of(alloc: Global, candidate: Candidate<K>) -> Result<Conjugated<K>, Memory>
        requires unitary { unitary_miss candidate.over (characters_of K candidate.rows) ≡ None }
        ensures same { IfOk result (λ table. table ≡ candidate.entry) }
    {
        let rows = candidate.rows();
        let mut conjugates = Vec::new(alloc);
        for i in 0..rows {
            conjugates.push(conjugate_row(alloc, &candidate, i)?)?;
        }
        Ok(Conjugated {
            candidate,
            conjugates,
        })
    }

    /// The rows without their conjugates.
    pub fn candidate(&self) -> &Candidate<K>
        ensures candidate { result.now ≡ self.now }
        ensures shaped { IsShaped K self.now }
    {
        &self.candidate
    }

    /// The same, given back.
    pub fn into_candidate(self) -> Candidate<K>
        ensures candidate { result ≡ self.entry }
    {
        self.candidate
    }

    /// The conjugate of the value of row `i` at the place `x`, as it is kept.
    pub fn kept(&self, i: u32, x: u32) -> &Kept<K>
        requires i_below { i < length self.now.rows }
        requires x_below { x < size self.now.over }
        ensures value { cyclotomic_value K result.now.value.coefficients
            ≡ conjugate K ((characters_of K self.now.rows).chi i x) }
        ensures forms { FormsIn K self.now (λ s t. conjugate_value s t i x)
            (Some result.now.value) }
        ensures terms { let values = characters_of K self.now.rows in
            IsSparseOf K (conjugate_value self.now.over values i x) result.now.terms }
    {
        &self.conjugates[i as usize][x as usize]
    }
}
