//! Rows of values.

ghost use Rattle.std.specs.Prelude.{◌≡◌, ◌+◌, ◌-◌, ◌^◌, ◌<◌, ℤ, List, [], ◌∷◌, ◌++◌, length, slice_index_or, true, OnOk, OnErr};
ghost use Rattle.cyclotomic.specs.Conductors.{is_conductor};
ghost use Rattle.qd_ring.specs.RowLists.{row_at, with_value};

use crate::Memory;
use crate::cyc::Cyc;
use std::alloc::Global;
use std::marker::Model;

/// Rows of cyclotomic values, of any widths; seen as a list of rows, each a list of values, each
/// the list of its coefficients.
///
/// Rows exist only where K is an entry of the table of conductors.
#[derive(Debug, Drop)]
pub struct Rows<const K: u32> {
    rows: Vec<Vec<Cyc<K>>>,
}

impl<const K: u32> Model for Rows<K> {
    ghost use Rattle.std.specs.Prelude.{◌≡◌, ◌^◌, ◌<◌, ℤ, List, All, true, map, length, vec_len};
    ghost use Rattle.cyclotomic.specs.Conductors.{is_conductor};

    ghost Value = { List (List (List ℤ)) };

    ghost view = { λ table. map (λ row. map
        (λ value. value.coefficients) row.items) table.rows.items };

    ghost invariant = { λ table. (is_conductor K
        ≡ true) × (length table.rows.items < 2 ^ 32) × All
        (λ row. length row.items < 2 ^ 32) table.rows.items };
}

impl<const K: u32> Rows<K> {
    /// No row, which takes no memory yet.
    pub fn empty(alloc: Global) -> Rows<K>
        requires { is_conductor K ≡ true }
        ensures { result ≡ [] }
    {
        Rows {
            rows: Vec::new(alloc),
        }
    }

    /// Adds a row with no value. After `Memory` the rows are as before.
    pub fn push_row(&mut self) -> Result<(), Memory>
        requires { length self.old + 1 < 2 ^ 32 }
        ensures added { OnOk result (self.new ≡ self.old ++ [] ∷ []) }
        ensures unchanged { OnErr result (self.new ≡ self.old) }
    {
        let row = Vec::new(*self.rows.allocator());
        self.rows.push(row)?;
        Ok(())
    }

    /// Adds a value at the end of the last row. After `Memory` the rows are as before.
    pub fn push_value(&mut self, v: Cyc<K>) -> Result<(), Memory>
        requires row { 0 < length self.old }
        requires room { length (row_at self.old (length self.old - 1)) + 1 < 2 ^ 32 }
        ensures added { OnOk result (self.new ≡ with_value self.old v.entry.coefficients) }
        ensures unchanged { OnErr result (self.new ≡ self.old) }
    {
        let last = self.rows.len() - 1;
        self.rows[last].push(v)?;
        Ok(())
    }

    /// How many rows there are.
    pub fn rows(&self) -> u32
        ensures count { result ≡ length self.now }
        ensures small { length self.now < 2 ^ 32 }
        ensures conductor { is_conductor K ≡ true }
    {
        self.rows.len() as u32
    }

    /// How many values row `i` has.
    pub fn width(&self, i: u32) -> u32
        requires { i < length self.now }
        ensures count { result ≡ length (row_at self.now i) }
        ensures small { length (row_at self.now i) < 2 ^ 32 }
    {
        self.rows[i as usize].len() as u32
    }

    /// The value at place `p` of row `i`.
    pub fn value(&self, i: u32, p: u32) -> Cyc<K>
        requires row { i < length self.now }
        requires place { p < length (row_at self.now i) }
        ensures { result.coefficients ≡ slice_index_or (row_at self.now i) p [] }
    {
        self.rows[i as usize][p as usize]
    }
}

#[cfg(test)]
mod tests;
