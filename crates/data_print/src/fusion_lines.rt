//! The lines of fusion numbers.

ghost use Rattle.std.specs.Prelude.{◌≡◌, ◌<◌, ◌++◌, string_bytes, IfOk, OnOk, OnErr};
ghost use Rattle.fusion_web.specs.Entries.{count_of};
ghost use Rattle.data_print.specs.FusionLines.{number_line, product_text, products_text, fusion_text};

use crate::Memory;
use fusion_web::Web;
use std::alloc::Global;

/// The line that says that `k` comes `count` times in the product of `i` and `j`.
fn number_line(alloc: Global, i: u32, j: u32, k: u32, count: u32) -> Result<String, Memory>
    ensures line { IfOk result (λ text. string_bytes text ≡ number_line i j k count) }
{
    format!(in alloc; "N {i} {j} {k} {count}\n")
}

/// Adds the lines of the product of `i` and `j`.
fn append_product(text: &mut Vec<u8>, web: &Web, i: u32, j: u32) -> Result<(), Memory>
    requires i_below { i < web.now.simples }
    requires j_below { j < web.now.simples }
    ensures added { OnOk result (text.new.items ≡ text.old.items
        ++ product_text web.now.simples (count_of web.now) i j) }
{
    let alloc = *text.allocator();
    for (k, count) in web.row(i, j) {
        let line = number_line(alloc, i, j, k, count)?;
        text.extend_from_slice(line.as_bytes())?;
    }
    Ok(())
}

/// Adds the lines of the products of `i` with each simple.
fn append_products(text: &mut Vec<u8>, web: &Web, i: u32) -> Result<(), Memory>
    requires i_below { i < web.now.simples }
    ensures added { OnOk result (text.new.items ≡ text.old.items
        ++ products_text web.now.simples (count_of web.now) i) }
{
    for j in 0..web.simples() {
        append_product(text, web, i, j)?;
    }
    Ok(())
}

/// The lines of all numbers.
fn fusion_text(alloc: Global, web: &Web) -> Result<Vec<u8>, Memory>
    ensures text { IfOk result (λ text. text.items
        ≡ fusion_text web.now.simples (count_of web.now)) }
{
    let mut text = Vec::new(alloc);
    for i in 0..web.simples() {
        append_products(&mut text, web, i)?;
    }
    Ok(text)
}

/// Adds a line for each fusion number that is not 0, by i, then j, then k. After `Memory` the text is as before.
pub fn append_fusion(out: &mut Vec<u8>, web: &Web) -> Result<(), Memory>
    ensures added { OnOk result (out.new.items ≡ out.old.items
        ++ fusion_text web.now.simples (count_of web.now)) }
    ensures unchanged { OnErr result (out.new.items ≡ out.old.items) }
{
    let alloc = *out.allocator();
    let text = fusion_text(alloc, web)?;
    out.extend_from_slice(text.as_slice())
}
