//! The text of blocks of rows of values.

ghost use Rattle.std.specs.Prelude.{◌≡◌, ℕ, ◌+◌, ◌<◌, ◌++◌, [], ◌∷◌, length, map, codes, OnOk};
ghost use Rattle.std.specs.List.{flat_map};
ghost use Rattle.std.specs.Fmt.{decimal};
ghost use Rattle.qd_ring.specs.RowLists.{row_at};
ghost use Rattle.qd_ring.specs.ValueText.{value_text};
ghost use Rattle.qd_doc.specs.Blocks.{block_at};
ghost use Rattle.qd_doc.specs.Canonical.{line, row_words, block_lines, characters_lines};

use crate::blocks::Blocks;
use crate::document::Given;
use qd_ring::append_plain;
use qd_text::{Memory, append_number, append_word};

/// The lines between the exponents and the end.
#[tactic(auto, unfolding(crate::specs::Canonical::characters_lines))]
pub fn append_characters(out: &mut Vec<u8>, characters: &Option<Given>) -> Result<(), Memory>
    ensures added { OnOk result
        (out.new.items ≡ out.old.items ++ flat_map line (characters_lines characters.now)) }
{
    match characters {
        None => Ok(()),
        Some(given) => append_given(out, given),
    }
}

/// The line of the conductor, and the blocks.
fn append_given(out: &mut Vec<u8>, given: &Given) -> Result<(), Memory>
    ensures added { OnOk result
        (out.new.items ≡ out.old.items
        ++ flat_map line
        ((codes "characters" ∷ decimal given.now.conductor ∷ []) ∷ flat_map block_lines
        given.now.blocks)) }
{
    append_word(out, "characters ")?;
    append_number(out, u128::from(given.conductor))?;
    append_word(out, "\n")?;
    append_blocks(out, &given.blocks)
}

fn append_blocks(out: &mut Vec<u8>, blocks: &Blocks) -> Result<(), Memory>
    ensures added { OnOk result
        (out.new.items ≡ out.old.items ++ flat_map line (flat_map block_lines blocks.now)) }
{
    for b in 0..blocks.blocks() {
        append_block(out, blocks, b)?;
    }
    Ok(())
}

/// The lines of block `b`.
fn append_block(out: &mut Vec<u8>, blocks: &Blocks, b: u32) -> Result<(), Memory>
    requires listed { b < length blocks.now }
    ensures added { OnOk result
        (out.new.items ≡ out.old.items ++ flat_map line (block_lines (block_at blocks.now b))) }
{
    append_word(out, "class ")?;
    append_number(out, u128::from(blocks.representative(b)))?;
    append_word(out, "\n")?;
    append_rows(out, blocks, b)
}

/// The lines of the rows of block `b`.
fn append_rows(out: &mut Vec<u8>, blocks: &Blocks, b: u32) -> Result<(), Memory>
    requires listed { b < length blocks.now }
    ensures added { OnOk result
        (out.new.items ≡ out.old.items
        ++ flat_map line (map row_words (block_at blocks.now b).rows)) }
{
    for r in 0..blocks.rows(b) {
        append_row(out, blocks, b, r)?;
    }
    Ok(())
}

/// The line of row `r` of block `b`.
fn append_row(out: &mut Vec<u8>, blocks: &Blocks, b: u32, r: u32) -> Result<(), Memory>
    requires listed { b < length blocks.now }
    requires row { r < length (block_at blocks.now b).rows }
    ensures added { OnOk result
        (out.new.items ≡ out.old.items
        ++ line (row_words (row_at (block_at blocks.now b).rows r))) }
{
    append_word(out, "row")?;
    append_values(out, blocks, b, r)?;
    append_word(out, "\n")
}

/// The values of row `r` of block `b`, each after a space.
fn append_values(out: &mut Vec<u8>, blocks: &Blocks, b: u32, r: u32) -> Result<(), Memory>
    requires listed { b < length blocks.now }
    requires row { r < length (block_at blocks.now b).rows }
    ensures added { OnOk result
        (out.new.items ≡ out.old.items
        ++ flat_map (λ next. 32 ∷ next) (map value_text (row_at (block_at blocks.now b).rows r))) }
{
    for p in 0..blocks.width(b, r) {
        append_word(out, " ")?;
        append_plain(out, &blocks.value(b, r, p))?;
    }
    Ok(())
}
