//! The lines of simples.

ghost use Rattle.std.specs.Prelude.{◌≡◌, ◌<◌, ◌++◌, string_bytes, IfOk, OnOk, OnErr};
ghost use Rattle.twisted.specs.Twist.{size};
ghost use Rattle.transport.specs.Simples.{count, over_at};
ghost use Rattle.data_print.specs.Text.{◌⧺◌};
ghost use Rattle.data_print.specs.Values.{value_words};
ghost use Rattle.data_print.specs.SimpleLines.{simple_line, first_values, character_line, simples_text};

use crate::Memory;
use crate::value_words::append_value;
use std::alloc::Global;
use transport::Simples;

fn simple_line<const K: u32>(alloc: Global, simples: &Simples<K>, i: u32) -> Result<String, Memory>
    requires i_below { i < count K simples.now }
    ensures line { IfOk result (λ text. string_bytes text ≡ simple_line K simples.now i) }
{
    let class = simples.class(i);
    let degree = simples.degree(i);
    let dimension = simples.dimension(i);
    let twist = simples.twist(i);
    format!(in alloc;
        "simple {i} class {class} degree {degree} dimension {dimension} twist {twist}\n"
    )
}

/// How many elements the centraliser of simple `i` has.
fn places<const K: u32>(simples: &Simples<K>, i: u32) -> u32
    requires i_below { i < count K simples.now }
    ensures places { result ≡ size (over_at K simples.now i) }
{
    simples.classes().centraliser(simples.class(i)).len()
}

/// Adds the values of simple `i`, each after a space.
fn append_values<const K: u32>(
    text: &mut Vec<u8>,
    simples: &Simples<K>,
    i: u32,
) -> Result<(), Memory>
    requires i_below { i < count K simples.now }
    ensures added { OnOk result (text.new.items ≡ text.old.items
        ++ value_words (first_values K simples.now i (size (over_at K simples.now i)))) }
{
    for p in 0..places(simples, i) {
        append_value(text, &simples.value(i, p))?;
    }
    Ok(())
}

/// The line of the values of simple `i`.
#[tactic(auto, using(std::proofs::Common::append_assoc))]
fn character_line<const K: u32>(
    alloc: Global,
    simples: &Simples<K>,
    i: u32,
) -> Result<Vec<u8>, Memory>
    requires i_below { i < count K simples.now }
    ensures line { IfOk result (λ text. text.items ≡ character_line K simples.now i) }
{
    let mut line = format!(in alloc; "chi {i}")?.into_bytes();
    append_values(&mut line, simples, i)?;
    line.push(b'\n')?;
    Ok(line)
}

/// Adds the two lines of simple `i`.
#[tactic(auto, using(std::proofs::Common::append_assoc))]
fn append_simple<const K: u32>(
    text: &mut Vec<u8>,
    simples: &Simples<K>,
    i: u32,
) -> Result<(), Memory>
    requires i_below { i < count K simples.now }
    ensures added { OnOk result (text.new.items ≡ text.old.items
        ++ (simple_line K simples.now i ⧺ character_line K simples.now i)) }
{
    let alloc = *text.allocator();
    let numbers = simple_line(alloc, simples, i)?;
    let values = character_line(alloc, simples, i)?;
    text.extend_from_slice(numbers.as_bytes())?;
    text.extend_from_slice(values.as_slice())
}

/// The lines of all simples.
fn simples_text<const K: u32>(alloc: Global, simples: &Simples<K>) -> Result<Vec<u8>, Memory>
    ensures text { IfOk result (λ text. text.items ≡ simples_text K simples.now) }
{
    let mut text = Vec::new(alloc);
    for i in 0..simples.count() {
        append_simple(&mut text, simples, i)?;
    }
    Ok(text)
}

/// Adds two lines for each simple, in order: the numbers of its class, its degree, its dimension and its twist, and then its values at the
/// elements of the centraliser of the representative of its class. After `Memory` the text is as before.
pub fn append_simples<const K: u32>(out: &mut Vec<u8>, simples: &Simples<K>) -> Result<(), Memory>
    ensures added { OnOk result (out.new.items ≡ out.old.items ++ simples_text K simples.now) }
    ensures unchanged { OnErr result (out.new.items ≡ out.old.items) }
{
    let alloc = *out.allocator();
    let text = simples_text(alloc, simples)?;
    out.extend_from_slice(text.as_slice())
}
