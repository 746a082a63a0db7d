//! The lines that every report begins with.

ghost use Rattle.std.specs.Prelude.{◌≡◌, ◌++◌, string_bytes, IfOk, OnOk, OnErr};
ghost use Rattle.data_print.specs.Head.{head_of};

use crate::Memory;
use cochain::Cocycle;
use std::alloc::Global;

/// The two lines that every report begins with.
fn head(alloc: Global, w: &Cocycle) -> Result<String, Memory>
    ensures text { IfOk result (λ text. string_bytes text ≡ head_of w.now) }
{
    let group = w.group();
    let order = group.order();
    let identity = group.identity();
    let exponent = group.exponent();
    let roots = w.roots();
    format!(in alloc;
        "group order {order} identity {identity} exponent {exponent}\ncocycle roots {roots}\n"
    )
}

/// Adds the two lines that every report begins with. After `Memory` the text is as before.
pub fn append_head(out: &mut Vec<u8>, w: &Cocycle) -> Result<(), Memory>
    ensures added { OnOk result (out.new.items ≡ out.old.items ++ head_of w.now) }
    ensures unchanged { OnErr result (out.new.items ≡ out.old.items) }
{
    let alloc = *out.allocator();
    let text = head(alloc, w)?;
    out.extend_from_slice(text.as_bytes())
}
