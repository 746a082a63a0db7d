//! The rows of a block, as values of a conductor.

ghost use Rattle.std.specs.Prelude.{◌≡◌, ◌<◌, All, true, [], ◌∷◌, ◌++◌, length, take, OnOk, IfOk};
ghost use Rattle.qd_ring.specs.RowLists.{row_at};
ghost use Rattle.cyclotomic.specs.Conductors.{is_conductor};
ghost use Rattle.qd_doc.specs.Blocks.{block_at};
ghost use Rattle.qd_doc.specs.Contents.{IsValueOf};

use group_table::Memory;
use qd_doc::Blocks;
use qd_ring::{Cyc, Rows};
use std::alloc::Global;

/// Adds the values of row `r` of block `b` to the last row, which has none.
fn push_values<const K: u32>(
    rows: &mut Rows<K>,
    blocks: &Blocks,
    b: u32,
    r: u32,
) -> Result<(), Memory>
    requires b_below { b < length blocks.now }
    requires r_below { r < length (block_at blocks.now b).rows }
    requires values { All (IsValueOf K) (row_at (block_at blocks.now b).rows r) }
    requires begun { rows.old ≡ take r (block_at blocks.now b).rows ++ [] ∷ [] }
    ensures added { let stated = (block_at blocks.now b).rows in
        OnOk result (rows.new ≡ take r stated ++ row_at stated r ∷ []) }
{
    rows.rows();
    for p in 0..blocks.width(b, r) {
        match Cyc::from_plain(&blocks.value(b, r, p)) {
            Some(value) => rows.push_value(value)?,
            None => unreachable!(),
        }
    }
    Ok(())
}

/// The rows of block `b`, as values of conductor K.
pub fn rows_of<const K: u32>(alloc: Global, blocks: &Blocks, b: u32) -> Result<Rows<K>, Memory>
    requires conductor { is_conductor K ≡ true }
    requires b_below { b < length blocks.now }
    requires values { All (λ row. All (IsValueOf K) row) (block_at blocks.now b).rows }
    ensures rows { IfOk result (λ rows. rows ≡ (block_at blocks.now b).rows) }
{
    let mut rows = Rows::empty(alloc);
    for r in 0..blocks.rows(b) {
        rows.push_row()?;
        push_values(&mut rows, blocks, b, r)?;
    }
    Ok(rows)
}
