//! The report on the rows of a command, or why there is none: its tests in order, and then its parts.

ghost use Rattle.std.specs.Prelude.{◌≡◌, ◌++◌, Option, Some, IfSome};
ghost use Rattle.qd_doc.specs.Contents.{IsGivenInRange};
ghost use Rattle.qd_engine.specs.Documents.{given_or_none};
ghost use Rattle.qd_engine.specs.Sources.{HasRowsFor, HasRowsOf};
ghost use Rattle.qd_engine.specs.Report.{rows_text};
ghost use Rattle.qd_engine.specs.ClassLists.{IsListOf, IsKnownOf, IsNeeded};
ghost use Rattle.qd_engine.specs.Rows.{AddsRows};
ghost use Rattle.qd_engine.specs.Tests.{rows_test, LateRows};
ghost use Rattle.qd_engine.specs.Follows.{Follows};

use crate::class_list::{ClassList, known_or_made};
use crate::command::{RowReport, RowSource, most_simples};
use crate::conductors::append_over;
use crate::row_tests::{few_simples, field, matching, needed_conductor, stated_is};
use crate::rows::Rows;
use crate::stop::Stop;
use cochain::Cocycle;
use qd_doc::Given;

/// Adds the report on the rows that a document gives, with values of conductor `k`.
fn append_stated(
    out: &mut Vec<u8>,
    report: &RowReport,
    k: u32,
    w: Cocycle,
    list: ClassList,
    given: &Given,
) -> Result<(), Stop>
    requires given { IsGivenInRange given.now }
    requires needed { IsNeeded w k }
    requires list { IsListOf w list }
    ensures follows { AddsRows RowSource.Stated w given.now report.now.parts
        out.old.items out.new.items result }
{
    stated_is(given.conductor, k)?;
    few_simples(&list.ranks, most_simples(&report.parts))?;
    matching(&list.classes, &given.blocks)?;
    let rows = Rows::Stated(&given.blocks);
    append_over(out, k, &report.parts, w, list, &rows)
}

/// Adds the report on the rows that are lifted modulo `q`, with values of conductor `k`.
fn append_lifted(
    out: &mut Vec<u8>,
    report: &RowReport,
    q: u32,
    k: u32,
    w: Cocycle,
    list: ClassList,
) -> Result<(), Stop>
    requires needed { IsNeeded w k }
    requires list { IsListOf w list }
    ensures follows { AddsRows (RowSource.Lifted q) w (given_or_none Option.None) report.now.parts
        out.old.items out.new.items result }
{
    let ring = field(q, &w, k)?;
    few_simples(&list.ranks, most_simples(&report.parts))?;
    append_over(out, k, &report.parts, w, list, &Rows::Lifted(ring))
}

/// Adds the report on the rows of a source, with values of conductor `k`.
fn append_source(
    out: &mut Vec<u8>,
    report: &RowReport,
    k: u32,
    w: Cocycle,
    list: ClassList,
    characters: &Option<Given>,
) -> Result<(), Stop>
    requires stated { HasRowsFor report.now.source characters.now }
    requires given { IfSome characters.now IsGivenInRange }
    requires needed { IsNeeded w k }
    requires list { IsListOf w list }
    ensures follows { AddsRows report.now.source w (given_or_none characters.now) report.now.parts
        out.old.items out.new.items result }
{
    match report.source {
        RowSource::Lifted { modulus } => append_lifted(out, report, modulus, k, w, list),
        RowSource::Stated => match characters {
            Some(given) => append_stated(out, report, k, w, list, given),
            None => unreachable!(),
        },
    }
}

/// Adds the report on the rows of a source.
#[tactic(auto, unfolding(crate::specs::Tests::report_test))]
fn append_report(
    out: &mut Vec<u8>,
    report: &RowReport,
    w: Cocycle,
    list: ClassList,
    characters: &Option<Given>,
) -> Result<(), Stop>
    requires stated { HasRowsFor report.now.source characters.now }
    requires given { IfSome characters.now IsGivenInRange }
    requires list { IsListOf w list }
    ensures follows { let given = given_or_none characters.now in
        Follows (rows_test w given (Some report.now)) (LateRows w given (Some report.now))
        (λ done. out.new.items ≡ out.old.items ++ rows_text w given (Some report.now)) result }
{
    let k = needed_conductor(&w)?;
    append_source(out, report, k, w, list, characters)
}

/// Adds the report on rows, where the command has one.
pub fn append_rows(
    out: &mut Vec<u8>,
    report: &Option<RowReport>,
    w: Cocycle,
    known: Option<ClassList>,
    characters: &Option<Given>,
) -> Result<(), Stop>
    requires stated { HasRowsOf report.now characters.now }
    requires given { IfSome characters.now IsGivenInRange }
    requires known { IsKnownOf w known }
    ensures follows { let given = given_or_none characters.now in
        Follows (rows_test w given report.now) (LateRows w given report.now)
        (λ done. out.new.items ≡ out.old.items ++ rows_text w given report.now) result }
{
    match report {
        None => Ok(()),
        Some(report) => {
            let list = known_or_made(*out.allocator(), &w, known)?;
            append_report(out, report, w, list, characters)
        }
    }
}
