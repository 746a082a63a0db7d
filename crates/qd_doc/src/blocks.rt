//! Blocks of rows of values.

ghost use Rattle.std.specs.Prelude.{◌≡◌, ◌+◌, ◌-◌, ◌^◌, ◌<◌, ◌≤◌, ℤ, List, [], ◌∷◌, ◌++◌, length, drop, slice_index, slice_index_or, OnOk, OnErr};
ghost use Rattle.qd_ring.specs.RowLists.{row_at};
ghost use Rattle.qd_doc.specs.Blocks.{block, block_at, last_rows, with_row, with_value};
ghost use Rattle.qd_doc.specs.Stretches.{AreInOrder, first_start};
ghost use Rattle.qd_doc.specs.declared.head.Head.{Head};

use crate::head::{Head, place_of_row, rows_in};
use crate::stretch::{next_place, range_of};
use crate::values::Values;
use group_table::Memory;
use qd_ring::Plain;
use std::alloc::Global;
use std::marker::Model;

/// Blocks of rows of values; seen as a list of blocks, each its number and a list of rows, each a
/// list of values, each the list of its 42 coefficients.
#[derive(Debug, Drop)]
pub struct Blocks {
    heads: Vec<Head>,
    rows: Vec<u32>,
    values: Values,
}

impl Model for Blocks {
    ghost use Rattle.std.specs.Prelude.{List};
    ghost use Rattle.qd_doc.specs.Blocks.{Block};
    ghost use Rattle.qd_doc.specs.StoredBlocks.{stored_blocks, AreBlocks};

    ghost Value = { List Block };

    ghost view = { λ list. stored_blocks list.heads.items list.rows.items list.values };

    ghost invariant = { λ list. AreBlocks list.heads.items list.rows.items list.values };
}

impl Blocks {
    /// No block, which takes no memory yet.
    pub fn empty(alloc: Global) -> Blocks
        ensures empty { result ≡ [] }
    {
        Blocks {
            heads: Vec::new(alloc),
            rows: Vec::new(alloc),
            values: Values::empty(alloc),
        }
    }

    /// Adds a block with this number and no row. After `Memory` the blocks are as before.
    pub fn push_block(&mut self, representative: u32) -> Result<(), Memory>
        ensures added { OnOk result (self.new ≡ self.old ++ block representative [] ∷ []) }
        ensures unchanged { OnErr result (self.new ≡ self.old) }
    {
        next_place(self.heads.len())?;
        let start = next_place(self.rows.len())?;
        self.heads.push(Head {
            representative,
            start,
        })?;
        Ok(())
    }

    /// Adds a row with no value at the end of the last block. After `Memory` the blocks are as before.
    pub fn push_row(&mut self) -> Result<(), Memory>
        requires listed { 0 < length self.old }
        ensures added { OnOk result (self.new ≡ with_row self.old) }
        ensures unchanged { OnErr result (self.new ≡ self.old) }
    {
        next_place(self.rows.len())?;
        self.rows.push(self.values.len())?;
        Ok(())
    }

    /// Adds a value at the end of the last row of the last block. After `Memory` the blocks are as
    /// before.
    pub fn push_value(&mut self, v: Plain) -> Result<(), Memory>
        requires listed { 0 < length self.old }
        requires row { 0 < length (last_rows self.old) }
        ensures added { OnOk result (self.new ≡ with_value self.old v.coefficients) }
        ensures unchanged { OnErr result (self.new ≡ self.old) }
    {
        self.push_plain(&v)
    }

    /// The same, of a value that stays where it is.
    pub fn push_plain(&mut self, v: &Plain) -> Result<(), Memory>
        requires listed { 0 < length self.old }
        requires row { 0 < length (last_rows self.old) }
        ensures added { OnOk result (self.new ≡ with_value self.old v.now.coefficients) }
        ensures unchanged { OnErr result (self.new ≡ self.old) }
    {
        self.values.push(v)
    }

    /// How many blocks there are.
    #[tactic(auto, using(crate::proofs::BlockLists::blocks_count))]
    pub fn blocks(&self) -> u32
        ensures count { result ≡ length self.now }
        ensures small { length self.now < 2 ^ 32 }
    {
        self.heads.len() as u32
    }

    /// The number of block `b`.
    pub fn representative(&self, b: u32) -> u32
        requires listed { b < length self.now }
        ensures number { result ≡ (block_at self.now b).representative }
    {
        self.heads[b as usize].representative
    }

    /// How many rows block `b` has.
    pub fn rows(&self, b: u32) -> u32
        requires listed { b < length self.now }
        ensures count { result ≡ length (block_at self.now b).rows }
        ensures small { length (block_at self.now b).rows < 2 ^ 32 }
    {
        rows_in(&self.heads, b, self.rows.len() as u32)
    }

    /// How many values row `r` of block `b` has.
    pub fn width(&self, b: u32, r: u32) -> u32
        requires listed { b < length self.now }
        requires row { r < length (block_at self.now b).rows }
        ensures count { result ≡ length (row_at (block_at self.now b).rows r) }
        ensures small { length (row_at (block_at self.now b).rows r) < 2 ^ 32 }
    {
        let place = place_of_row(&self.heads, b, r, self.rows.len() as u32);
        let (start, end) = range_of(&self.rows, place, self.values.len() as usize);
        (end - start) as u32
    }

    /// The value at place `p` of row `r` of block `b`.
    pub fn value(&self, b: u32, r: u32, p: u32) -> Plain
        requires listed { b < length self.now }
        requires row { r < length (block_at self.now b).rows }
        requires place { p < length (row_at (block_at self.now b).rows r) }
        ensures value { result.coefficients
            ≡ slice_index_or (row_at (block_at self.now b).rows r) p [] }
    {
        let place = place_of_row(&self.heads, b, r, self.rows.len() as u32);
        let (start, _) = range_of(&self.rows, place, self.values.len() as usize);
        self.values.value(start as u32 + p)
    }
}
