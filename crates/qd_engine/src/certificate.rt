//! The certificate of simples: a document with the rows that they are.

ghost use Rattle.std.specs.Prelude.{◌≡◌, ◌==◌, ◌<◌, All, [], ◌∷◌, ◌++◌, length, map, OnOk, IfOk};
ghost use Rattle.classes.specs.Conjugacy.{representatives};
ghost use Rattle.transport.specs.Simples.{count, class_at};
ghost use Rattle.row_order.specs.SimpleRows.{simples_in, row_of};
ghost use Rattle.qd_doc.specs.Blocks.{Block, block, last_rows, with_last_rows};
ghost use Rattle.qd_doc.specs.Contents.{IsValueOf, IsInRange};
ghost use Rattle.qd_engine.specs.Certificate.{certified_block, certified_blocks, certificate_document, certificate_text};

use cochain::Cocycle;
use group_table::{Group, Memory, Nats};
use qd_doc::{Blocks, Document, Given, print};
use std::alloc::Global;
use transport::Simples;

/// The products of a group, row after row.
pub fn table_of(alloc: Global, group: &Group) -> Result<Nats, Memory>
    ensures table { IfOk result (λ table. table ≡ group.now.entries) }
{
    let n = group.order();
    let mut table = Nats::empty(alloc);
    for place in 0..n * n {
        table.push(group.product(place / n, place % n))?;
    }
    Ok(table)
}

/// The exponents of a cocycle, in the order of their places.
pub fn exponents_of(alloc: Global, w: &Cocycle) -> Result<Nats, Memory>
    ensures exponents { IfOk result (λ exponents. exponents ≡ w.now.exponents) }
{
    let n = w.group().order();
    let mut exponents = Nats::empty(alloc);
    for place in 0..n * n * n {
        exponents.push(w.value(place / n / n, place / n % n, place % n))?;
    }
    Ok(exponents)
}

/// The numbers of the simples of class `c`.
fn simples_in<const K: u32>(alloc: Global, simples: &Simples<K>, c: u32) -> Result<Nats, Memory>
    ensures simples { IfOk result (λ list. list ≡ simples_in K simples.now c) }
{
    Nats::passing_below(
        alloc,
        simples.count(),
        |i| -> bool
            requires { i < count K simples.now }
            ensures { result ≡ (class_at K simples.entry.now i == c) }
        { simples.class(i) == c },
    )
}

/// Adds the row that simple `i` is at the end of the last block.
fn push_row_of<const K: u32>(
    blocks: &mut Blocks,
    simples: &Simples<K>,
    i: u32,
) -> Result<(), Memory>
    requires i_below { i < count K simples.now }
    requires begun { 0 < length blocks.old }
    ensures added { OnOk result (blocks.new
        ≡ with_last_rows blocks.old (last_rows blocks.old ++ row_of K simples.now i ∷ [])) }
    ensures values { OnOk result (All (IsValueOf K) (row_of K simples.now i)) }
{
    let places = simples.classes().centraliser(simples.class(i)).len();
    blocks.push_row()?;
    for p in 0..places {
        blocks.push_value(simples.value(i, p).to_plain())?;
    }
    Ok(())
}

/// Adds the rows that these simples are to the last block, which has none.
fn push_rows_of<const K: u32>(
    blocks: &mut Blocks,
    simples: &Simples<K>,
    members: &Nats,
) -> Result<(), Memory>
    requires members { All (λ i. i < count K simples.now) members.now }
    requires begun { 0 < length blocks.old }
    requires empty { last_rows blocks.old ≡ [] }
    ensures added { OnOk result (blocks.new
        ≡ with_last_rows blocks.old (map (row_of K simples.now) members.now)) }
    ensures values { OnOk result (All (λ row. All (IsValueOf K) row)
        (map (row_of K simples.now) members.now)) }
{
    for place in 0..members.len() {
        push_row_of(blocks, simples, members.at(place))?;
    }
    Ok(())
}

/// Adds the block of class `c`.
fn push_class<const K: u32>(
    alloc: Global,
    blocks: &mut Blocks,
    simples: &Simples<K>,
    c: u32,
) -> Result<(), Memory>
    requires c_below { c < length (representatives simples.now.cocycle.group) }
    ensures added { OnOk result (blocks.new ≡ blocks.old ++ certified_block K simples.now c ∷ []) }
    ensures values { OnOk result (All (λ row. All (IsValueOf K) row)
        (certified_block K simples.now c).rows) }
{
    let members = simples_in(alloc, simples, c)?;
    blocks.push_block(simples.classes().representative(c))?;
    push_rows_of(blocks, simples, &members)
}

/// The blocks of all classes.
fn blocks_of<const K: u32>(alloc: Global, simples: &Simples<K>) -> Result<Blocks, Memory>
    ensures blocks { IfOk result (λ blocks. blocks ≡ certified_blocks K simples.now) }
    ensures values { IfOk result (λ blocks.
        All (λ (block : Block). All (λ row. All (IsValueOf K) row) block.rows) blocks) }
{
    let mut blocks = Blocks::empty(alloc);
    for c in 0..simples.classes().count() {
        push_class(alloc, &mut blocks, simples, c)?;
    }
    Ok(blocks)
}

/// The document of the group and of the cocycle of these simples, with the rows that the simples of each class are, in their order.
fn certificate<const K: u32>(alloc: Global, simples: &Simples<K>) -> Result<Document, Memory>
    ensures document { IfOk result (λ document. document ≡ certificate_document K simples.now) }
    ensures in_range { IfOk result IsInRange }
{
    let w = simples.cocycle();
    let table = table_of(alloc, w.group())?;
    let exponents = exponents_of(alloc, w)?;
    let blocks = blocks_of(alloc, simples)?;
    Ok(Document {
        order: w.group().order(),
        table,
        roots: w.roots(),
        exponents,
        characters: Some(Given {
            conductor: K,
            blocks,
        }),
    })
}

/// Adds the certificate of these simples, as a text that `verify` reads.
pub fn append_certificate<const K: u32>(
    out: &mut Vec<u8>,
    simples: &Simples<K>,
) -> Result<(), Memory>
    ensures added { OnOk result (out.new.items ≡ out.old.items ++ certificate_text K simples.now) }
{
    let alloc = *out.allocator();
    let document = certificate(alloc, simples)?;
    let text = print(alloc, &document)?;
    out.extend_from_slice(&text)
}
