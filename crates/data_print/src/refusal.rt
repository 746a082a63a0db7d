//! The lines of refusals.

ghost use Rattle.std.specs.Prelude.{◌≡◌, ◌++◌, ℕ, List, string_bytes, IfOk, OnOk, OnErr};
ghost use Rattle.data_print.specs.declared.cause.Cause.{Cause};
ghost use Rattle.data_print.specs.Lines.{part_word, name_word, group_line, cocycle_line, modulus_line, multiplicity_line, shape_line, overflow_line, identity_start, sides_text, twist_start, whole_start, last_value, line_of};

use crate::Memory;
use crate::cause::{Cause, ShapeFault};
use cochain::CocycleFault;
use group_table::GroupFault;
use prime_field::ModulusFault;
use qd_ring::{Part, Plain, Site, append_plain};
use qd_text::Expected;
use std::alloc::Global;
use table_check::IdentityName;

/// The word that stands for a kind of sum.
fn part_word(part: Part) -> &'static str
    ensures word { result.now ≡ part_word part }
{
    match part {
        Part::Unitary => "unitary",
        Part::Twist => "twist",
        Part::Central => "central",
        Part::Product => "product",
        Part::Sum => "sum",
        Part::Column => "column",
        Part::Full => "full",
        Part::S => "s",
        Part::Tensor => "tensor",
        Part::Inner => "inner",
        Part::Indicator => "indicator",
    }
}

/// The word that stands for a clause of the check.
fn name_word(name: IdentityName) -> &'static str
    ensures word { result.now ≡ name_word name }
{
    match name {
        IdentityName::Degree => "degree",
        IdentityName::Unitary => "unitary",
        IdentityName::Central => "central",
        IdentityName::Product => "product",
        IdentityName::Sum => "sum",
        IdentityName::Column => "column",
    }
}

/// The line of a token where another was expected.
fn syntax_line(alloc: Global, offset: u32, expected: Expected) -> Result<String, Memory>
    ensures line { IfOk result (λ text. string_bytes text
        ≡ line_of (Cause.Syntax offset expected)) }
{
    let word = expected.text();
    format!(in alloc; "refused 3 syntax {offset} {word}\n")
}

/// The line of a table that is no group.
fn group_line(alloc: Global, fault: GroupFault) -> Result<String, Memory>
    ensures line { IfOk result (λ text. string_bytes text ≡ group_line fault) }
{
    match fault {
        GroupFault::Entry { g, h } => format!(in alloc; "refused 4 entry {g} {h}\n"),
        GroupFault::NoIdentity => String::from_str(alloc, "refused 4 identity\n"),
        GroupFault::NoInverse { g } => format!(in alloc; "refused 4 inverse {g}\n"),
        GroupFault::NotAssociative { g, h, k } => {
            format!(in alloc; "refused 4 associativity {g} {h} {k}\n")
        }
    }
}

/// The line of exponents that are no normalised 3-cocycle.
fn cocycle_line(alloc: Global, fault: CocycleFault) -> Result<String, Memory>
    ensures line { IfOk result (λ text. string_bytes text ≡ cocycle_line fault) }
{
    match fault {
        CocycleFault::NotNormalised { g, h, k } => format!(in alloc;
            "refused 5 normal {g} {h} {k}\n"
        ),
        CocycleFault::NotCocycle { g, h, k, l } => {
            format!(in alloc; "refused 5 cocycle {g} {h} {k} {l}\n")
        }
    }
}

/// The line of a stated conductor that is not the one that is needed.
fn stated_line(alloc: Global, stated: u32, needed: u32) -> Result<String, Memory>
    ensures line { IfOk result (λ text. string_bytes text
        ≡ line_of (Cause.Conductor stated needed)) }
{
    format!(in alloc; "refused 6 stated {stated} needed {needed}\n")
}

/// The line of a number that is no modulus.
fn modulus_line(alloc: Global, fault: ModulusFault) -> Result<String, Memory>
    ensures line { IfOk result (λ text. string_bytes text ≡ modulus_line fault) }
{
    match fault {
        ModulusFault::Range { q, .. } => format!(in alloc; "refused 7 range {q}\n"),
        ModulusFault::Unlisted { q } => format!(in alloc; "refused 7 unlisted {q}\n"),
        ModulusFault::DividesConductor { q, conductor } => {
            format!(in alloc; "refused 7 divides {q} {conductor}\n")
        }
        ModulusFault::NoRoot { q, conductor } => format!(in alloc;
            "refused 7 root {q} {conductor}\n"
        ),
    }
}

/// The line of a sum of values that no degree fits.
fn degree_line(alloc: Global, at: u32, row: u32, s: u32) -> Result<String, Memory>
    ensures line { IfOk result (λ text. string_bytes text ≡ line_of (Cause.NoDegree at row s)) }
{
    format!(in alloc; "refused 8 degree {at} {row} {s}\n")
}

/// The line of multiplicities that don't add up to the degree.
fn multiplicity_line(
    alloc: Global,
    at: u32,
    row: u32,
    x: u32,
    sum: u32,
    degree: u32,
) -> Result<String, Memory>
    ensures line { IfOk result (λ text. string_bytes text ≡ multiplicity_line at row x sum degree) }
{
    format!(in alloc; "refused 8 multiplicity {at} {row} {x} {sum} {degree}\n")
}

/// The line of a table that has not as many rows as its rank.
fn count_line(alloc: Global, at: u32, rows: u32, rank: u32) -> Result<String, Memory>
    ensures line { IfOk result (λ text. string_bytes text ≡ line_of (Cause.Count at rows rank)) }
{
    format!(in alloc; "refused 9 count {at} {rows} {rank}\n")
}

/// The line of blocks that don't match the classes.
fn shape_line(alloc: Global, fault: ShapeFault) -> Result<String, Memory>
    ensures line { IfOk result (λ text. string_bytes text ≡ shape_line fault) }
{
    match fault {
        ShapeFault::Blocks { given, wanted } => format!(in alloc;
            "refused 9 blocks {given} {wanted}\n"
        ),
        ShapeFault::Representative {
            block,
            given,
            wanted,
        } => { format!(in alloc; "refused 9 representative {block} {given} {wanted}\n") }
        ShapeFault::Width {
            block,
            row,
            given,
            wanted,
        } => { format!(in alloc; "refused 9 width {block} {row} {given} {wanted}\n") }
    }
}

/// The line of a sum that doesn't fit.
fn overflow_line(alloc: Global, site: Site) -> Result<String, Memory>
    ensures line { IfOk result (λ text. string_bytes text ≡ overflow_line site) }
{
    let part = part_word(site.part);
    let Site { at, i, j, x, .. } = site;
    format!(in alloc; "refused 11 overflow {part} {at} {i} {j} {x}\n")
}

/// The line of a value that gives no twist, up to the value.
fn twist_start(alloc: Global, at: u32, row: u32) -> Result<String, Memory>
    ensures start { IfOk result (λ text. string_bytes text ≡ twist_start at row) }
{
    format!(in alloc; "refused 9 twist {at} {row} ")
}

/// The line of a fusion sum that gives no multiplicity, up to the sum.
fn whole_start(alloc: Global, i: u32, j: u32, k: u32) -> Result<String, Memory>
    ensures start { IfOk result (λ text. string_bytes text ≡ whole_start i j k) }
{
    format!(in alloc; "refused 10 whole {i} {j} {k} ")
}

/// A value after what stands before it, and the end of the line.
#[tactic(auto, using(std::proofs::Common::append_assoc))]
fn with_value(start: String, value: &Plain) -> Result<Vec<u8>, Memory>
    ensures line { IfOk result (λ text. text.items ≡ string_bytes start ++ last_value value.now) }
{
    let mut line = start.into_bytes();
    append_plain(&mut line, value)?;
    line.push(b'\n')?;
    Ok(line)
}

/// The line of an equation up to its sides.
fn identity_start(
    alloc: Global,
    name: IdentityName,
    at: u32,
    i: u32,
    j: u32,
    x: u32,
) -> Result<String, Memory>
    ensures start { IfOk result (λ text. string_bytes text ≡ identity_start name at i j x) }
{
    let name = name_word(name);
    format!(in alloc; "refused 9 {name} {at} {i} {j} {x} ")
}

/// The two sides of an equation after what stands before them, and the end of the line.
#[tactic(auto, using(std::proofs::Common::append_assoc))]
fn with_sides(start: String, left: &Plain, right: &Plain) -> Result<Vec<u8>, Memory>
    ensures line { IfOk result (λ text. text.items ≡ string_bytes start
        ++ sides_text left.now right.now) }
{
    let mut line = start.into_bytes();
    append_plain(&mut line, left)?;
    line.push(b' ')?;
    append_plain(&mut line, right)?;
    line.push(b'\n')?;
    Ok(line)
}

/// The bytes of a line that was made.
fn bytes(line: Result<String, Memory>) -> Result<Vec<u8>, Memory>
    ensures same { (text : List ℕ) → IfOk line (λ made. string_bytes made ≡ text)
        → IfOk result (λ bytes. bytes.items ≡ text) }
{
    Ok(line?.into_bytes())
}

/// The line that the program writes when it refuses for this cause.
fn line(alloc: Global, why: &Cause) -> Result<Vec<u8>, Memory>
    ensures line { IfOk result (λ text. text.items ≡ line_of why.now) }
{
    match why {
        Cause::Usage => bytes(String::from_str(alloc, "refused 2 usage\n")),
        Cause::Read => bytes(String::from_str(alloc, "refused 12 read\n")),
        Cause::TooLong => bytes(String::from_str(alloc, "refused 6 bytes 4194304\n")),
        Cause::Syntax { offset, expected } => bytes(syntax_line(alloc, *offset, *expected)),
        Cause::Wide { offset } => bytes(format!(in alloc; "refused 3 wide {offset}\n")),
        Cause::Section { offset } => bytes(format!(in alloc; "refused 3 section {offset}\n")),
        Cause::Order { number } => bytes(format!(in alloc; "refused 6 order {number}\n")),
        Cause::Roots { number } => bytes(format!(in alloc; "refused 6 roots {number}\n")),
        Cause::Group(fault) => bytes(group_line(alloc, *fault)),
        Cause::Cocycle(fault) => bytes(cocycle_line(alloc, *fault)),
        Cause::Size { order } => bytes(format!(in alloc; "refused 6 size {order}\n")),
        Cause::Action { power } => bytes(format!(in alloc; "refused 4 action {power}\n")),
        Cause::NoConductor { multiple } => bytes(format!(in alloc;
            "refused 6 conductor {multiple}\n"
        )),
        Cause::Conductor { stated, needed } => bytes(stated_line(alloc, *stated, *needed)),
        Cause::Modulus(fault) => bytes(modulus_line(alloc, *fault)),
        Cause::Simples { ranks, .. } => bytes(format!(in alloc; "refused 6 simples {ranks}\n")),
        Cause::Shape(fault) => bytes(shape_line(alloc, *fault)),
        Cause::NoDegree { at, row, s } => bytes(degree_line(alloc, *at, *row, *s)),
        Cause::Multiplicity {
            at,
            row,
            x,
            sum,
            degree,
        } => { bytes(multiplicity_line(alloc, *at, *row, *x, *sum, *degree)) }
        Cause::Count { at, rows, rank } => bytes(count_line(alloc, *at, *rows, *rank)),
        Cause::Identity {
            name,
            at,
            i,
            j,
            x,
            left,
            right,
        } => { with_sides(identity_start(alloc, *name, *at, *i, *j, *x)?, left, right) }
        Cause::NoTwist { at, row, value } => with_value(twist_start(alloc, *at, *row)?, value),
        Cause::NoVacuum { rows } => bytes(format!(in alloc; "refused 9 vacuum {rows}\n")),
        Cause::NotWhole { i, j, k, value } => with_value(whole_start(alloc, *i, *j, *k)?, value),
        Cause::Overflow { site } => bytes(overflow_line(alloc, *site)),
    }
}

/// Adds the line of a refusal for this cause. After `Memory` the text is as before.
pub fn append_refusal(out: &mut Vec<u8>, why: &Cause) -> Result<(), Memory>
    ensures added { OnOk result (out.new.items ≡ out.old.items ++ line_of why.now) }
    ensures unchanged { OnErr result (out.new.items ≡ out.old.items) }
{
    let line = line(*out.allocator(), why)?;
    out.extend_from_slice(&line)
}
