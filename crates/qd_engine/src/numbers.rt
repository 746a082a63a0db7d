//! The fusion numbers that a report needs, and their lines.

ghost use Rattle.std.specs.Prelude.{◌≡◌, ◌≤◌, ◌++◌, true, Option, OnOk};
ghost use Rattle.fusion_web.specs.Entries.{WebEntries};
ghost use Rattle.root_tables.specs.RootRows.{HasRootRows};
ghost use Rattle.transport.specs.Simples.{count};
ghost use Rattle.qd_engine.specs.Words.{have_numbers};
ghost use Rattle.qd_engine.specs.Report.{numbers_text, where_lifted};
ghost use Rattle.qd_engine.specs.Tests.{whole_test, numbers_test};
ghost use Rattle.qd_engine.specs.Rows.{source_of, AreRooted, numbers_cause, IsWebOf, HoldsNumbers, HasWeb};
ghost use Rattle.qd_engine.specs.Follows.{Tests};

use crate::command::{RowPart, have_numbers};
use crate::rows::Rows;
use crate::stop::Stop;
use data_print::{Cause, append_fusion};
use fusion::{FusionRefusal, numbers};
use fusion_web::Web;
use std::alloc::{AllocError, Global};
use transport::Simples;

/// The web of the fusion numbers of these simples.
fn whole_web<const K: u32>(alloc: Global, simples: &Simples<K>) -> Result<Web, Stop>
    requires rooted { HasRootRows K simples.now }
    requires few { count K simples.now ≤ 64 }
    ensures tested { Tests (whole_test K simples.now)
        (λ (web : WebEntries). IsWebOf K simples.now web) result }
{
    let _count = simples.count();
    match numbers(alloc, simples) {
        Ok(web) => Ok(web),
        Err(FusionRefusal::NotWhole { i, j, k, value }) => Err(Stop::Refused(Cause::NotWhole {
            i,
            j,
            k,
            value: value.to_plain(),
        })),
        Err(FusionRefusal::Overflow { .. }) => unreachable!(),
        Err(FusionRefusal::Memory) => Err(Stop::Memory),
    }
}

/// The web of the fusion numbers of these simples, where one of the parts needs it; the rows are lifted.
fn lifted_web<const K: u32>(
    alloc: Global,
    parts: &[RowPart],
    simples: &Simples<K>,
) -> Result<Option<Web>, Stop>
    requires rooted { HasRootRows K simples.now }
    requires few { have_numbers parts.now ≡ true → count K simples.now ≤ 64 }
    ensures tested { Tests (numbers_test K simples.now parts.now)
        (λ (web : Option WebEntries). have_numbers parts.now
        ≡ true → HoldsNumbers K simples.now web) result }
{
    if have_numbers(parts) {
        Ok(Some(whole_web(alloc, simples)?))
    } else {
        Ok(None)
    }
}

/// The web of the fusion numbers of the simples that these rows give, where they are lifted and one of the parts needs it.
pub fn web_of<const K: u32>(
    alloc: Global,
    parts: &[RowPart],
    rows: &Rows,
    simples: &Simples<K>,
) -> Result<Option<Web>, Stop>
    requires rooted { AreRooted K simples.now rows.now }
    requires few { have_numbers parts.now ≡ true → count K simples.now ≤ 64 }
    ensures tested { Tests (numbers_cause K simples.now rows.now parts.now)
        (λ (web : Option WebEntries). have_numbers parts.now
        ≡ true → HasWeb K simples.now rows.now web) result }
{
    match rows {
        Rows::Stated(_) => Ok(None),
        Rows::Lifted(_) => lifted_web(alloc, parts, simples),
    }
}

/// Adds the lines of the fusion numbers, where they are at hand.
pub fn append_fusion_numbers<const K: u32>(
    out: &mut Vec<u8>,
    rows: &Rows,
    simples: &Simples<K>,
    web: &Option<Web>,
) -> Result<(), AllocError>
    requires web { HasWeb K simples.now rows.now web.now }
    ensures added { OnOk result (out.new.items ≡ out.old.items
        ++ where_lifted (source_of rows.now) (numbers_text K simples.now)) }
{
    match web {
        Some(web) => append_fusion(out, web),
        None => Ok(()),
    }
}
