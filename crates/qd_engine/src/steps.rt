//! The steps from the input to the report, each by its test.

ghost use Rattle.std.specs.Prelude.{◌≡◌, ◌≤◌, ◌++◌, ℕ, List, None, vec_len, OnOk, IfOk, IfSome};
ghost use Rattle.std.specs.Global.{Vec};
ghost use Rattle.group_table.specs.Group.{Table};
ghost use Rattle.cochain.specs.Cochain.{Cochain};
ghost use Rattle.qd_text.specs.Tokens.{tokens};
ghost use Rattle.qd_doc.specs.Grammar.{stop_of};
ghost use Rattle.qd_doc.specs.Contents.{IsGivenInRange, IsInRange, document_of};
ghost use Rattle.qd_doc.specs.declared.document.Document.{Document};
ghost use Rattle.qd_io.specs.declared.reading.TheConstants.{INPUT_LIMIT};
ghost use Rattle.named_cocycles.specs.Makers.{made_cocycle, maker_fault};
ghost use Rattle.qd_engine.specs.Words.{form_of};
ghost use Rattle.qd_engine.specs.Documents.{document_in, table_of, exponents_of, given_or_none};
ghost use Rattle.qd_engine.specs.Sources.{HasRowsOf, IsServed};
ghost use Rattle.qd_engine.specs.Report.{part_text, parts_text, cocycle_report, report_of};
ghost use Rattle.qd_engine.specs.ClassLists.{IsKnownOf};
ghost use Rattle.qd_engine.specs.Tests.{scan_test, maker_test, group_test, cocycle_test, rows_test, document_test, refusal, LateRows, Late};
ghost use Rattle.qd_engine.specs.Follows.{Tests, Follows};
ghost use Rattle.qd_engine.specs.Endings.{Reports};

use crate::bare::append_bare;
use crate::class_list::{ClassList, known_or_made};
use crate::command::{Command, Input, Part, form_of};
use crate::row_report::append_rows;
use crate::stop::Stop;
use cochain::{Cocycle, CocycleRefusal};
use data_print::{Cause, append_classes, append_head};
use group_table::{Group, GroupRefusal};
use named_cocycles::{MakeRefusal, Maker, make, sample};
use qd_doc::{DocRefusal, Document, Form, Given, parse};
use std::alloc::{AllocError, Global};

/// The document that the bytes spell, of this form.
fn document(alloc: Global, bytes: &Vec<u8>, form: Form) -> Result<Document, Stop>
    requires limit { vec_len bytes.now ≤ INPUT_LIMIT }
    ensures tested { Tests (scan_test (stop_of form bytes.now.items))
        (λ (d : Document).
        (stop_of form bytes.now.items ≡ None)
        × (d ≡ document_of form (tokens bytes.now.items))) result }
    ensures shaped { IfOk result IsInRange }
{
    match parse(alloc, bytes, form) {
        Ok(document) => Ok(document),
        Err(DocRefusal::Syntax { offset, expected }) => Err(Stop::Refused(Cause::Syntax {
            offset,
            expected,
        })),
        Err(DocRefusal::Wide { offset }) => Err(Stop::Refused(Cause::Wide { offset })),
        Err(DocRefusal::Section { offset }) => Err(Stop::Refused(Cause::Section { offset })),
        Err(DocRefusal::Order { number }) => Err(Stop::Refused(Cause::Order { number })),
        Err(DocRefusal::Roots { number }) => Err(Stop::Refused(Cause::Roots { number })),
        Err(DocRefusal::Memory) => Err(Stop::Memory),
    }
}

/// The group that the table of a document is.
fn group(alloc: Global, document: &Document) -> Result<Group, Stop>
    requires shaped { IsInRange document.now }
    ensures tested { Tests (group_test document.now)
        (λ (g : Table). g ≡ table_of document.now) result }
{
    match Group::from_table(alloc, document.order, &document.table) {
        Ok(group) => Ok(group),
        Err(GroupRefusal::Fault(fault)) => Err(Stop::Refused(Cause::Group(fault))),
        Err(GroupRefusal::Memory) => Err(Stop::Memory),
    }
}

/// The cocycle that the exponents of a document are.
fn cocycle(alloc: Global, group: Group, document: &Document) -> Result<Cocycle, Stop>
    requires shaped { IsInRange document.now }
    requires group { group ≡ table_of document.now }
    ensures tested { Tests (cocycle_test document.now)
        (λ (w : Cochain). w ≡ exponents_of document.now) result }
{
    match Cocycle::from_exponents(alloc, group, document.roots, &document.exponents) {
        Ok(cocycle) => Ok(cocycle),
        Err(CocycleRefusal::Fault(fault)) => Err(Stop::Refused(Cause::Cocycle(fault))),
        Err(CocycleRefusal::Memory) => Err(Stop::Memory),
    }
}

/// Adds the lines of the classes, whose list is known or made.
fn append_class_lines(
    out: &mut Vec<u8>,
    w: &Cocycle,
    known: &mut Option<ClassList>,
) -> Result<(), AllocError>
    requires known { IsKnownOf w.now known.old }
    ensures added { OnOk result (out.new.items ≡ out.old.items ++ part_text w.now Part.Classes) }
    ensures known { OnOk result (IsKnownOf w.now known.new) }
{
    let list = known_or_made(*out.allocator(), w, known.take())?;
    append_classes(out, &list.classes, &list.ranks)?;
    *known = Some(list);
    Ok(())
}

/// Adds a part of a report that needs no rows.
fn append_part(
    out: &mut Vec<u8>,
    part: Part,
    w: &Cocycle,
    known: &mut Option<ClassList>,
) -> Result<(), AllocError>
    requires known { IsKnownOf w.now known.old }
    ensures added { OnOk result (out.new.items ≡ out.old.items ++ part_text w.now part) }
    ensures known { OnOk result (IsKnownOf w.now known.new) }
{
    match part {
        Part::Blank => Ok(()),
        Part::Head => append_head(out, w),
        Part::Classes => append_class_lines(out, w, known),
        Part::Document => append_bare(out, w),
        Part::End => out.extend_from_slice(b"end\n"),
    }
}

/// Adds these parts of a report, one after the other, and gives the list of the classes where a part speaks of them.
fn append_parts(
    out: &mut Vec<u8>,
    parts: &[Part],
    w: &Cocycle,
) -> Result<Option<ClassList>, AllocError>
    ensures added { OnOk result
        (out.new.items ≡ out.old.items ++ parts_text (part_text w.now) parts.now) }
    ensures known { IfOk result (IsKnownOf w.now) }
{
    let mut known = None;
    for part in parts {
        append_part(out, *part, w, &mut known)?;
    }
    Ok(known)
}

/// The cocycle that a maker names.
fn made(alloc: Global, maker: Maker) -> Result<Cocycle, Stop>
    ensures tested { Tests (maker_test (maker_fault maker))
        (λ (w : Cochain). w ≡ made_cocycle maker) result }
    ensures accepted { IfOk result (λ w. maker_fault maker ≡ None) }
{
    match make(alloc, maker) {
        Ok(w) => Ok(w),
        Err(MakeRefusal::Size { order }) => Err(Stop::Refused(Cause::Size { order })),
        Err(MakeRefusal::Action { power }) => Err(Stop::Refused(Cause::Action { power })),
        Err(MakeRefusal::Memory) => Err(Stop::Memory),
    }
}

/// The report of a command on a cocycle and the rows that a document gives, or why there is none.
fn report(
    alloc: Global,
    command: &Command,
    characters: &Option<Given>,
    w: Cocycle,
) -> Result<Vec<u8>, Stop>
    requires given { IfSome characters.now IsGivenInRange }
    requires stated { HasRowsOf command.now.rows characters.now }
    ensures follows { Follows (rows_test w (given_or_none characters.now) command.now.rows)
        (LateRows w (given_or_none characters.now) command.now.rows)
        (λ (text : Vec ℕ). text.items
        ≡ cocycle_report command.now w (given_or_none characters.now)) result }
{
    let mut out = Vec::new(alloc);
    let known = append_parts(&mut out, &command.parts, &w)?;
    append_rows(&mut out, &command.rows, w, known, characters)?;
    Ok(out)
}

/// The report of a command on a document, or why there is none.
#[tactic(auto, unfolding(crate::specs::Tests::document_test))]
fn report_on(alloc: Global, command: &Command, document: &Document) -> Result<Vec<u8>, Stop>
    requires shaped { IsInRange document.now }
    requires stated { HasRowsOf command.now.rows document.now.characters }
    ensures follows { Follows
        (document_test command.now document.now) (Late command.now document.now)
        (λ (text : Vec ℕ). text.items ≡ report_of command.now document.now) result }
{
    let group = group(alloc, document)?;
    let w = cocycle(alloc, group, document)?;
    report(alloc, command, &document.characters, w)
}

/// The report of a command on a text that was read, or why there is none.
fn answer_to_text(alloc: Global, command: &Command, bytes: &Vec<u8>) -> Result<Vec<u8>, Stop>
    requires read { command.now.input ≡ Input.Read }
    requires limit { vec_len bytes.now ≤ INPUT_LIMIT }
    ensures follows { Follows
        (refusal command.now bytes.now.items)
        (Late command.now (document_in command.now bytes.now.items))
        (λ (text : Vec ℕ). Reports text.items command.now bytes.now.items) result }
{
    let document = document(alloc, bytes, form_of(command))?;
    report_on(alloc, command, &document)
}

/// The report of a command on the cocycle that a maker names, or why there is none. What was read does not matter.
fn answer_to_maker(alloc: Global, command: &Command, maker: Maker) -> Result<Vec<u8>, Stop>
    requires made { command.now.input ≡ Input.Made maker }
    requires stated { HasRowsOf command.now.rows None }
    ensures follows { (bytes : List ℕ)
        → Follows (refusal command.now bytes) (Late command.now (document_in command.now bytes))
        (λ (text : Vec ℕ). Reports text.items command.now bytes) result }
{
    let w = made(alloc, maker)?;
    report(alloc, command, &None, w)
}

/// The report of a command on the sample with this number, or why there is none. What was read does not matter.
fn answer_to_sample(alloc: Global, command: &Command, number: u32) -> Result<Vec<u8>, Stop>
    requires sampled { command.now.input ≡ Input.Sampled number }
    requires stated { HasRowsOf command.now.rows None }
    ensures follows { (bytes : List ℕ)
        → Follows (refusal command.now bytes) (Late command.now (document_in command.now bytes))
        (λ (text : Vec ℕ). Reports text.items command.now bytes) result }
{
    let w = sample(alloc, number)?;
    report(alloc, command, &None, w)
}

/// The report of a command on the bytes that came, or why there is none.
pub fn answer_to(alloc: Global, command: &Command, bytes: &Vec<u8>) -> Result<Vec<u8>, Stop>
    requires limit { vec_len bytes.now ≤ INPUT_LIMIT }
    requires served { IsServed command.now }
    ensures follows { Follows (refusal command.now bytes.now.items)
        (Late command.now (document_in command.now bytes.now.items))
        (λ (text : Vec ℕ). Reports text.items command.now bytes.now.items) result }
{
    match command.input {
        Input::Read => answer_to_text(alloc, command, bytes),
        Input::Made(maker) => answer_to_maker(alloc, command, maker),
        Input::Sampled(number) => answer_to_sample(alloc, command, number),
    }
}
