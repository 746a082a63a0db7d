//! Good tables of projective characters.

ghost use Rattle.std.specs.Prelude.{◌≡◌, ◌<◌, ◌≤◌, ◌*◌, Some, IfOk, length};
ghost use Rattle.cyclotomic.specs.CyclotomicRing.{cyclotomic_value};
ghost use Rattle.twisted.specs.Twist.{size};
ghost use Rattle.group_table.specs.Group.{identity_of};
ghost use Rattle.table_check.specs.Characters.{RowsOver, characters_of, IsShaped};
ghost use Rattle.table_check.specs.Formed.{whole};
ghost use Rattle.table_check.specs.Sides.{twist_left, twist_right};
ghost use Rattle.table_check.specs.Good.{IsGood};
ghost use Rattle.table_check.specs.Check.{degree_of, twist_of, table_miss};
ghost use Rattle.table_check.specs.Answers.{Checks};

use crate::algebra_clauses::algebra_refusal;
use crate::candidate::Candidate;
use crate::conjugated::Conjugated;
use crate::refusal::TableRefusal;
use crate::row_clauses::{degree_of, row_refusal, twist_of};
use crate::sides::degree;
use qd_ring::{Cyc, Rows};
use std::alloc::Global;
use std::marker::Model;
use twisted::Twist;

/// A good table of projective characters of a twisted centraliser: one value for each row and each place.
#[derive(Debug, Drop)]
pub struct Table<const K: u32> {
    candidate: Candidate<K>,
}

impl<const K: u32> Model for Table<K> {
    ghost use Rattle.std.specs.Prelude.{◌≡◌, None};
    ghost use Rattle.table_check.specs.Characters.{RowsOver, IsShaped, characters_of};
    ghost use Rattle.table_check.specs.Check.{table_miss};

    ghost Value = { RowsOver };

    ghost view = { λ t. t.candidate };

    ghost invariant = { λ t. IsShaped K t.candidate
        × (table_miss t.candidate.over (characters_of K t.candidate.rows) ≡ None) };
}

impl<const K: u32> Table<K> {
    /// Checks these rows over the twisted centraliser, with one value for each place in every row.
    ///
    /// They are good where the nine clauses hold: as many rows as the rank; degrees at the identity; values at inverses; twists; and that
    /// the elements of the conjugates are central, orthogonal idempotents up to whole factors, and add up to one; columns that are
    /// orthogonal; and a vacuum over the identity. The refusal is that of the first place, by clauses, then rows, then places, at which a
    /// side overflows or the clause fails; an overflow goes first there.
    pub fn check(alloc: Global, twist: &Twist, rows: Rows<K>) -> Result<Table<K>, TableRefusal<K>>
        requires shaped { IsShaped K (record { over = twist.now; rows = rows }) }
        ensures checks { Checks K twist.now rows.entry result }
        ensures good { IfOk result (λ table. IsGood table.over (characters_of K table.rows)) }
    {
        let candidate = Candidate::new(twist.copy(alloc)?, rows);
        if let Some(refusal) = row_refusal(&candidate) {
            return Err(refusal);
        }
        let conjugated = Conjugated::of(alloc, candidate)?;
        match algebra_refusal(&conjugated) {
            Some(refusal) => Err(refusal),
            None => Ok(Table {
                candidate: conjugated.into_candidate(),
            }),
        }
    }

    /// The twisted centraliser that the rows are over.
    pub fn over(&self) -> &Twist
        ensures over { result.now ≡ self.now.over }
        ensures shaped { IsShaped K self.now }
        ensures good { IsGood self.now.over (characters_of K self.now.rows) }
    {
        self.candidate.over()
    }

    /// How many rows there are: the rank.
    pub fn rows(&self) -> u32
        ensures rows { result ≡ length self.now.rows }
        ensures shaped { IsShaped K self.now }
        ensures good { IsGood self.now.over (characters_of K self.now.rows) }
    {
        self.candidate.rows()
    }

    /// The degree of row `i`, its value at the identity.
    pub fn degree(&self, i: u32) -> u32
        requires i_below { i < length self.now.rows }
        ensures degree { let s = self.now.over in
            let value = (characters_of K self.now.rows).chi i (identity_of s.group) in
            degree_of K (size s) value ≡ Some result }
        ensures positive { 1 ≤ result }
        ensures square { result * result ≤ size self.now.over }
        ensures value { (characters_of K self.now.rows).chi i (identity_of self.now.over.group)
            ≡ whole K result }
    {
        match degree_of(self.candidate.over().size(), &degree(&self.candidate, i)) {
            Some(degree) => degree,
            None => unreachable!(),
        }
    }

    /// The least exponent `t` of a root, modulo K, by which the value of row `i` at the centraliser's own element is a multiple of its
    /// degree.
    pub fn twist(&self, i: u32) -> u32
        requires i_below { i < length self.now.rows }
        ensures twist { twist_of self.now.over (characters_of K self.now.rows) i ≡ Some result }
        ensures below { result < K }
        ensures value { let s = self.now.over in let values = characters_of K self.now.rows in
            (twist_left s values i).value ≡ (twist_right s values i result).value }
    {
        match twist_of(&self.candidate, i) {
            Some(twist) => twist,
            None => unreachable!(),
        }
    }

    /// The value of row `i` at the place `p`.
    pub fn value(&self, i: u32, p: u32) -> Cyc<K>
        requires i_below { i < length self.now.rows }
        requires p_below { p < size self.now.over }
        ensures value { cyclotomic_value K result.coefficients
            ≡ (characters_of K self.now.rows).chi i p }
    {
        self.candidate.value(i, p)
    }
}
