//! The report on rows of values, with values of the conductor that is needed.

ghost use Rattle.std.specs.Prelude.{◌≡◌, ◌≤◌, ◌%◌, true, sum};
ghost use Rattle.cyclotomic.specs.Conductors.{is_conductor};
ghost use Rattle.twist_lift.specs.Laws.{root_order};
ghost use Rattle.qd_engine.specs.ClassLists.{IsListOf};
ghost use Rattle.qd_engine.specs.Rows.{Serve, AddsParts};
ghost use Rattle.qd_engine.specs.Words.{have_numbers};
ghost use Rattle.qd_engine.specs.Report.{class_ranks};

use crate::class_list::ClassList;
use crate::command::RowPart;
use crate::numbers::web_of;
use crate::row_parts::append_row_parts;
use crate::rows::{Rows, simples_of};
use crate::stop::Stop;
use cochain::Cocycle;

/// Adds these parts of the report on the simples that the rows give, with values of conductor K.
fn append_numbers<const K: u32>(
    out: &mut Vec<u8>,
    parts: &[RowPart],
    w: Cocycle,
    list: ClassList,
    rows: &Rows,
) -> Result<(), Stop>
    requires conductor { is_conductor K ≡ true }
    requires multiple { K % root_order w ≡ 0 }
    requires list { IsListOf w list }
    requires serve { Serve K w rows.now }
    requires few { have_numbers parts.now ≡ true → sum (class_ranks w) ≤ 64 }
    ensures follows { AddsParts K w rows.now parts.now out.old.items out.new.items result }
{
    let alloc = *out.allocator();
    let simples = simples_of::<K>(alloc, w, list, rows)?;
    let web = web_of(alloc, parts, rows, &simples)?;
    append_row_parts(out, parts, rows, &simples, &web)
}

/// Adds these parts of the report on the simples that the rows give, with values of conductor `k`.
#[tactic(auto, unfolding(cyclotomic::specs::Conductors::is_conductor, cyclotomic::specs::Conductors::conductors))]
pub fn append_over(
    out: &mut Vec<u8>,
    k: u32,
    parts: &[RowPart],
    w: Cocycle,
    list: ClassList,
    rows: &Rows,
) -> Result<(), Stop>
    requires conductor { is_conductor k ≡ true }
    requires multiple { k % root_order w ≡ 0 }
    requires list { IsListOf w list }
    requires serve { Serve k w rows.now }
    requires few { have_numbers parts.now ≡ true → sum (class_ranks w) ≤ 64 }
    ensures follows { AddsParts k w rows.now parts.now out.old.items out.new.items result }
{
    match k {
        4 => append_numbers::<4>(out, parts, w, list, rows),
        6 => append_numbers::<6>(out, parts, w, list, rows),
        8 => append_numbers::<8>(out, parts, w, list, rows),
        9 => append_numbers::<9>(out, parts, w, list, rows),
        12 => append_numbers::<12>(out, parts, w, list, rows),
        16 => append_numbers::<16>(out, parts, w, list, rows),
        18 => append_numbers::<18>(out, parts, w, list, rows),
        20 => append_numbers::<20>(out, parts, w, list, rows),
        24 => append_numbers::<24>(out, parts, w, list, rows),
        25 => append_numbers::<25>(out, parts, w, list, rows),
        27 => append_numbers::<27>(out, parts, w, list, rows),
        28 => append_numbers::<28>(out, parts, w, list, rows),
        30 => append_numbers::<30>(out, parts, w, list, rows),
        32 => append_numbers::<32>(out, parts, w, list, rows),
        36 => append_numbers::<36>(out, parts, w, list, rows),
        40 => append_numbers::<40>(out, parts, w, list, rows),
        42 => append_numbers::<42>(out, parts, w, list, rows),
        48 => append_numbers::<48>(out, parts, w, list, rows),
        49 => append_numbers::<49>(out, parts, w, list, rows),
        54 => append_numbers::<54>(out, parts, w, list, rows),
        60 => append_numbers::<60>(out, parts, w, list, rows),
        64 => append_numbers::<64>(out, parts, w, list, rows),
        72 => append_numbers::<72>(out, parts, w, list, rows),
        84 => append_numbers::<84>(out, parts, w, list, rows),
        96 => append_numbers::<96>(out, parts, w, list, rows),
        120 => append_numbers::<120>(out, parts, w, list, rows),
        _ => unreachable!(),
    }
}
