//! The lines of conjugacy classes.

ghost use Rattle.std.specs.Prelude.{◌≡◌, ◌≤◌, ◌++◌, ◌<◌, ◌^◌, All, length, sum, string_bytes, IfOk, OnOk, OnErr};
ghost use Rattle.classes.specs.Conjugacy.{representatives};
ghost use Rattle.data_print.specs.Text.{AddsFront};
ghost use Rattle.data_print.specs.ClassLines.{class_line, class_lines, simples_line, classes_text};

use crate::Memory;
use classes::Classes;
use group_table::Nats;
use std::alloc::Global;

/// The line of class `c`.
fn class_line(alloc: Global, classes: &Classes, c: u32, rank: u32) -> Result<String, Memory>
    requires c_below { c < length (representatives classes.now) }
    ensures text { IfOk result (λ text. string_bytes text ≡ class_line classes.now c rank) }
{
    let representative = classes.representative(c);
    let size = classes.size(c);
    let centraliser = classes.centraliser(c).len();
    format!(in alloc;
        "class {c} at {representative} size {size} centraliser {centraliser} rank {rank}\n"
    )
}

/// Adds the lines of all classes. After `Memory` some of them are added.
fn append_class_lines(out: &mut Vec<u8>, classes: &Classes, ranks: &Nats) -> Result<(), Memory>
    requires one_each { length ranks.now ≡ length (representatives classes.now) }
    ensures added { OnOk result (out.new.items ≡ out.old.items
        ++ class_lines classes.now ranks.now) }
    ensures front { OnErr result (AddsFront out.old.items out.new.items
        (class_lines classes.now ranks.now)) }
{
    let alloc = *out.allocator();
    for c in 0..classes.count() {
        let text = class_line(alloc, classes, c, ranks.at(c))?;
        out.extend_from_slice(text.as_bytes())?;
    }
    Ok(())
}

/// The sum of the ranks.
fn total(ranks: &[u32]) -> u32
    requires { sum ranks.now < 2 ^ 32 }
    ensures { result ≡ sum ranks.now }
{
    ranks.iter().sum()
}

/// Adds the line of the sum of the ranks. After `Memory` the text is as before.
#[tactic(auto, using(crate::proofs::Ranks::sum_small))]
fn append_simples(out: &mut Vec<u8>, ranks: &Nats) -> Result<(), Memory>
    requires few { length ranks.now ≤ 60 }
    requires small { All (λ rank. rank ≤ 60) ranks.now }
    ensures added { OnOk result (out.new.items ≡ out.old.items ++ simples_line ranks.now) }
    ensures unchanged { OnErr result (out.new.items ≡ out.old.items) }
{
    let alloc = *out.allocator();
    let simples = total(ranks.as_slice());
    let text = format!(in alloc; "simples {simples}\n")?;
    out.extend_from_slice(text.as_bytes())
}

/// Adds the lines of the conjugacy classes, one rank for each, and the line of the sum of the ranks.
/// After `Memory` a front of these lines is added.
pub fn append_classes(out: &mut Vec<u8>, classes: &Classes, ranks: &Nats) -> Result<(), Memory>
    requires one_each { length ranks.now ≡ length (representatives classes.now) }
    requires small { All (λ rank. rank ≤ 60) ranks.now }
    ensures added { OnOk result (out.new.items ≡ out.old.items
        ++ classes_text classes.now ranks.now) }
    ensures front { OnErr result (AddsFront out.old.items out.new.items
        (classes_text classes.now ranks.now)) }
{
    // The classes promise here that they are at most 60, which bounds the sum of the ranks.
    let _count = classes.count();
    append_class_lines(out, classes, ranks)?;
    append_simples(out, ranks)
}
