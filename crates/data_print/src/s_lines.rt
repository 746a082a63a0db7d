//! The lines of the matrix S.

ghost use Rattle.std.specs.Prelude.{◌≡◌, ◌<◌, ◌++◌, length, map, string_bytes, IfOk, OnOk, OnErr};
ghost use Rattle.cyclotomic.specs.CyclotomicRing.{cyclotomic_value};
ghost use Rattle.qd_ring.specs.RowLists.{row_at};
ghost use Rattle.data_print.specs.SLines.{s_head, s_line, s_text};

use crate::Memory;
use crate::value_words::append_row;
use qd_ring::Rows;
use std::alloc::Global;

fn s_head(alloc: Global, n: u32, i: u32) -> Result<String, Memory>
    ensures text { IfOk result (λ text. string_bytes text ≡ s_head n i) }
{
    if i == 0 {
        format!(in alloc; "S over {n}\n")
    } else {
        Ok(String::new(alloc))
    }
}

/// The line of row `i`.
#[tactic(auto, using(std::proofs::Common::append_assoc))]
fn s_line<const K: u32>(alloc: Global, values: &Rows<K>, i: u32) -> Result<Vec<u8>, Memory>
    requires i_below { i < length values.now }
    ensures line { IfOk result (λ text. text.items
        ≡ s_line i (map (λ coefficients. cyclotomic_value K coefficients) (row_at values.now i))) }
{
    let mut line = format!(in alloc; "S {i}")?.into_bytes();
    append_row(&mut line, values, i)?;
    line.push(b'\n')?;
    Ok(line)
}

/// Adds the line of the row of `values` with the number `row`, and before row 0 the line that says that the entries are those of S times
/// `n`. After `Memory` the text is as before.
#[tactic(auto, using(std::proofs::Common::append_assoc))]
pub fn append_s<const K: u32>(
    out: &mut Vec<u8>,
    n: u32,
    row: u32,
    values: &Rows<K>,
) -> Result<(), Memory>
    requires row_below { row < length values.now }
    ensures added { OnOk result (out.new.items ≡ out.old.items ++ s_text K n row values.now) }
    ensures unchanged { OnErr result (out.new.items ≡ out.old.items) }
{
    let alloc = *out.allocator();
    let mut text = s_head(alloc, n, row)?.into_bytes();
    let line = s_line(alloc, values, row)?;
    text.extend_from_slice(line.as_slice())?;
    out.extend_from_slice(text.as_slice())
}
