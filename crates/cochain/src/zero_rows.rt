//! Rows of a cochain in which it is 1 throughout: there the cocycle law needs no look at single places.

ghost use Rattle.std.specs.Prelude.{◌≡◌, ◌<◌, IfOk};
ghost use Rattle.cochain.specs.Cochain.{IsCochain};
ghost use Rattle.cochain.specs.ZeroRows.{is_zero_row, has_zero_rows, MarksZeroRows};

use crate::three_cochain::ThreeCochain;
use scan::holds_below;
use std::alloc::{AllocError, Global};

/// Whether `w(g,h,k)` is 1 for every `k`.
fn is_zero_row(w: &ThreeCochain, g: u32, h: u32) -> bool
    requires g_below { g < w.now.group.order }
    requires h_below { h < w.now.group.order }
    ensures zero { result ≡ is_zero_row w.now g h }
{
    holds_below(w.group().order(), |k| w.value(g, h, k) == 0)
}

/// For each row, in the order of their places, whether the cochain is 1 throughout it.
pub fn mark_zero_rows(alloc: Global, w: &ThreeCochain) -> Result<Vec<bool>, AllocError>
    ensures marks { IfOk result (λ marks. MarksZeroRows w.now marks.items) }
{
    let n = w.group().order();
    let mut marks = Vec::new(alloc);
    for i in 0..n * n {
        marks.push(is_zero_row(w, i / n, i % n))?;
    }
    Ok(marks)
}

/// Whether the row of `g` and `h` is marked.
#[tactic(auto, using(group_table::proofs::Square::place_below))]
fn is_marked(w: &ThreeCochain, marks: &[bool], g: u32, h: u32) -> bool
    requires marks { MarksZeroRows w.now marks.now }
    requires g_below { g < w.now.group.order }
    requires h_below { h < w.now.group.order }
    ensures zero { result ≡ is_zero_row w.now g h }
{
    marks[(g * w.group().order() + h) as usize]
}

/// Whether the cochain is 1 in each row that the cocycle law at `(g,h,k,l)` looks into.
pub fn has_zero_rows(w: &ThreeCochain, marks: &[bool], g: u32, h: u32, k: u32) -> bool
    requires marks { MarksZeroRows w.now marks.now }
    requires g_below { g < w.now.group.order }
    requires h_below { h < w.now.group.order }
    requires k_below { k < w.now.group.order }
    ensures zero { result ≡ has_zero_rows w.now g h k }
    ensures cochain { IsCochain w.now }
{
    let group = w.group();
    is_marked(w, marks, g, h)
        && is_marked(w, marks, h, k)
        && is_marked(w, marks, g, group.product(h, k))
        && is_marked(w, marks, group.product(g, h), k)
}
