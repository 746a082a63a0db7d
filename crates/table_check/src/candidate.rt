//! Rows of values that may be a good table.

ghost use Rattle.std.specs.Prelude.{◌≡◌, ◌<◌, length};
ghost use Rattle.cyclotomic.specs.CyclotomicRing.{cyclotomic_value};
ghost use Rattle.twisted.specs.Twist.{size};
ghost use Rattle.table_check.specs.Characters.{characters_of, IsShaped};

use qd_ring::{Cyc, Rows};
use std::marker::Model;
use twisted::Twist;

/// Rows of values over a twisted centraliser, before they are known to be good.
#[derive(Debug, Drop)]
pub struct Candidate<const K: u32> {
    twist: Twist,
    rows: Rows<K>,
}

impl<const K: u32> Model for Candidate<K> {
    ghost use Rattle.table_check.specs.Characters.{RowsOver, IsShaped};

    ghost Value = { RowsOver };

    ghost view = { λ t. record { over = t.twist; rows = t.rows } };

    ghost invariant = { λ t. IsShaped K (record { over = t.twist; rows = t.rows }) };
}

impl<const K: u32> Candidate<K> {
    /// These rows over this centraliser.
    pub fn new(twist: Twist, rows: Rows<K>) -> Candidate<K>
        requires { IsShaped K (record { over = twist; rows = rows }) }
        ensures { result ≡ record { over = twist; rows = rows.entry } }
    {
        Candidate { twist, rows }
    }

    /// The twisted centraliser.
    pub fn over(&self) -> &Twist
        ensures over { result.now ≡ self.now.over }
        ensures shaped { IsShaped K self.now }
    {
        &self.twist
    }

    /// How many rows there are.
    pub fn rows(&self) -> u32
        ensures rows { result ≡ length self.now.rows }
        ensures shaped { IsShaped K self.now }
    {
        self.rows.rows()
    }

    /// The value of row `i` at the place `x`.
    pub fn value(&self, i: u32, x: u32) -> Cyc<K>
        requires i_below { i < length self.now.rows }
        requires x_below { x < size self.now.over }
        ensures value { cyclotomic_value K result.coefficients
            ≡ (characters_of K self.now.rows).chi i x }
        ensures shaped { IsShaped K self.now }
    {
        self.rows.value(i, x)
    }
}
