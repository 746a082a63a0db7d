//! The canonical text of a document.

ghost use Rattle.std.specs.Prelude.{◌≡◌, ℕ, ◌+◌, ◌*◌, ◌%◌, ◌<◌, ◌≤◌, ◌^◌, ◌++◌, [], ◌∷◌, length, map, codes, IfOk, OnOk};
ghost use Rattle.std.specs.List.{flat_map};
ghost use Rattle.std.specs.Fmt.{decimal};
ghost use Rattle.qd_doc.specs.Contents.{IsInRange};
ghost use Rattle.qd_doc.specs.Canonical.{line, rows, reduced, are_trivial, omega_lines, canonical_text, PrintedIsRead};

use crate::block_text::append_characters;
use crate::document::Document;
use qd_text::{Memory, append_number, append_word};
use std::alloc::Global;

/// The canonical text of a document: one space between tokens, one line feed at the end of each
/// line, and the exponents modulo the number of roots; all of them, or `trivial` where all are 0.
pub fn print(alloc: Global, document: &Document) -> Result<Vec<u8>, Memory>
    requires in_range { IsInRange document.now }
    ensures text { IfOk result (λ text. text.items ≡ canonical_text document.now) }
{
    let order = document.order;
    let mut out = Vec::new(alloc);
    append_front(&mut out, order)?;
    append_rows(&mut out, order, order, document.table.as_slice())?;
    append_roots(&mut out, document.roots)?;
    append_exponents(
        alloc,
        &mut out,
        order,
        document.roots,
        document.exponents.as_slice(),
    )?;
    append_characters(&mut out, &document.characters)?;
    append_word(&mut out, "end\n")?;
    Ok(out)
}

/// A law: the canonical text of a document is a document, and `parse` reads it as the one that was
/// printed, with its exponents modulo the number of roots.
pub fn printed_is_read()
    ensures law { PrintedIsRead }
{}

/// The lines before the table.
fn append_front(out: &mut Vec<u8>, order: u32) -> Result<(), Memory>
    ensures added { OnOk result
        (out.new.items ≡ out.old.items
        ++ (codes "qdouble 1\norder " ++ (decimal order ++ codes "\ntable\n"))) }
{
    append_word(out, "qdouble 1\norder ")?;
    append_number(out, u128::from(order))?;
    append_word(out, "\ntable\n")
}

/// The line of the number of roots.
fn append_roots(out: &mut Vec<u8>, roots: u32) -> Result<(), Memory>
    ensures added { OnOk result
        (out.new.items ≡ out.old.items ++ (codes "roots " ++ (decimal roots ++ codes "\n"))) }
{
    append_word(out, "roots ")?;
    append_number(out, u128::from(roots))?;
    append_word(out, "\n")
}

/// The lines of the exponents.
#[tactic(auto, unfolding(crate::specs::Canonical::omega_lines))]
fn append_exponents(
    alloc: Global,
    out: &mut Vec<u8>,
    order: u32,
    roots: u32,
    exponents: &[u32],
) -> Result<(), Memory>
    requires order { order ≤ 60 }
    requires roots { 1 ≤ roots }
    requires all { length exponents.now ≡ order * order * order }
    ensures added { OnOk result
        (out.new.items ≡ out.old.items ++ flat_map line (omega_lines order roots exponents.now)) }
{
    if is_trivial(exponents, roots) {
        return append_word(out, "omega trivial\n");
    }
    append_word(out, "omega dense\n")?;
    let reduced = reduced(alloc, exponents, roots)?;
    append_rows(out, order * order, order, &reduced)
}

fn is_trivial(exponents: &[u32], roots: u32) -> bool
    requires roots { 1 ≤ roots }
    ensures trivial { result ≡ are_trivial roots exponents.now }
{
    exponents.iter().all(|exponent| *exponent % roots == 0)
}

fn reduced(alloc: Global, exponents: &[u32], roots: u32) -> Result<Vec<u32>, Memory>
    requires roots { 1 ≤ roots }
    ensures reduced { IfOk result (λ numbers. numbers.items ≡ reduced roots exponents.now) }
{
    let numbers = exponents
        .iter()
        .map(|exponent| *exponent % roots)
        .collect(alloc)?;
    Ok(numbers)
}

/// So many lines of `width` numbers each.
fn append_rows(out: &mut Vec<u8>, count: u32, width: u32, numbers: &[u32]) -> Result<(), Memory>
    requires all { length numbers.now ≡ count * width }
    ensures added { OnOk result
        (out.new.items ≡ out.old.items ++ flat_map line (rows count width numbers.now)) }
{
    let mut rest = numbers;
    for _ in 0..count {
        let (row, after) = rest.split_at(width as usize);
        append_row(out, row)?;
        rest = after;
    }
    Ok(())
}

/// One line of numbers.
fn append_row(out: &mut Vec<u8>, numbers: &[u32]) -> Result<(), Memory>
    ensures added { OnOk result (out.new.items ≡ out.old.items ++ line (map decimal numbers.now)) }
{
    if let [first, rest @ ..] = numbers {
        append_number(out, u128::from(*first))?;
        append_more(out, rest)?;
    }
    append_word(out, "\n")
}

/// Numbers that follow another in a line.
fn append_more(out: &mut Vec<u8>, numbers: &[u32]) -> Result<(), Memory>
    ensures added { OnOk result
        (out.new.items ≡ out.old.items ++ flat_map (λ next. 32 ∷ next) (map decimal numbers.now)) }
{
    for number in numbers {
        append_word(out, " ")?;
        append_number(out, u128::from(*number))?;
    }
    Ok(())
}
