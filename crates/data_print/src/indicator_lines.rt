//! The lines of indicators.

ghost use Rattle.std.specs.Prelude.{◌≡◌, ◌++◌, IfOk, OnOk, OnErr};
ghost use Rattle.cyclotomic.specs.CyclotomicRing.{cyclotomic_value};
ghost use Rattle.data_print.specs.IndicatorLines.{indicator_line};

use crate::Memory;
use crate::value_words::append_value;
use qd_ring::Cyc;
use std::alloc::Global;

/// The line of the simple `k`.
#[tactic(auto, using(std::proofs::Common::append_assoc))]
fn indicator_line<const K: u32>(alloc: Global, k: u32, v: &Cyc<K>) -> Result<Vec<u8>, Memory>
    ensures line { IfOk result (λ text. text.items
        ≡ indicator_line k (cyclotomic_value K v.now.coefficients)) }
{
    let mut line = format!(in alloc; "nu {k}")?.into_bytes();
    append_value(&mut line, v)?;
    line.push(b'\n')?;
    Ok(line)
}

/// Adds the line of the simple `k`, whose indicator times the square of the order of the group is `v`. After `Memory` the text is as
/// before.
pub fn append_indicator<const K: u32>(out: &mut Vec<u8>, k: u32, v: &Cyc<K>) -> Result<(), Memory>
    ensures added { OnOk result (out.new.items ≡ out.old.items
        ++ indicator_line k (cyclotomic_value K v.now.coefficients)) }
    ensures unchanged { OnErr result (out.new.items ≡ out.old.items) }
{
    let alloc = *out.allocator();
    let line = indicator_line(alloc, k, v)?;
    out.extend_from_slice(line.as_slice())
}
