//! The document of a cocycle, without rows.

ghost use Rattle.std.specs.Prelude.{◌≡◌, ◌++◌, OnOk, IfOk};
ghost use Rattle.qd_doc.specs.Contents.{IsInRange};
ghost use Rattle.qd_doc.specs.Canonical.{canonical_text};
ghost use Rattle.qd_engine.specs.Documents.{bare_document};

use crate::certificate::{exponents_of, table_of};
use cochain::Cocycle;
use group_table::Memory;
use qd_doc::{Document, print};
use std::alloc::Global;

/// The document of a cocycle and of its group.
fn bare_document(alloc: Global, w: &Cocycle) -> Result<Document, Memory>
    ensures document { IfOk result (λ document. document ≡ bare_document w.now) }
    ensures in_range { IfOk result IsInRange }
{
    let table = table_of(alloc, w.group())?;
    let exponents = exponents_of(alloc, w)?;
    Ok(Document {
        order: w.group().order(),
        table,
        roots: w.roots(),
        exponents,
        characters: None,
    })
}

/// Adds the document of a cocycle and of its group, as a text that is read as it.
pub fn append_bare(out: &mut Vec<u8>, w: &Cocycle) -> Result<(), Memory>
    ensures added { OnOk result (out.new.items ≡ out.old.items
        ++ canonical_text (bare_document w.now)) }
{
    let alloc = *out.allocator();
    let document = bare_document(alloc, w)?;
    let text = print(alloc, &document)?;
    out.extend_from_slice(&text)
}
