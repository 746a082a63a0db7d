//! Writing words and numbers at the end of a text.

ghost use Rattle.std.specs.Prelude.{◌≡◌, ◌++◌, OnOk, OnErr};
ghost use Rattle.std.specs.Fmt.{decimal};

use crate::Memory;
use itoa::Buffer;

/// Adds a number in decimal at the end of a text. After `Memory` the text is as before.
pub fn append_number(out: &mut Vec<u8>, v: u128) -> Result<(), Memory>
    ensures added { OnOk result (out.new.items ≡ out.old.items ++ decimal v) }
    ensures unchanged { OnErr result (out.new.items ≡ out.old.items) }
{
    out.extend_from_slice(Buffer::new().format(v).as_bytes())?;
    Ok(())
}

/// Adds a word at the end of a text. After `Memory` the text is as before.
pub fn append_word(out: &mut Vec<u8>, word: &str) -> Result<(), Memory>
    ensures added { OnOk result (out.new.items ≡ out.old.items ++ word.now) }
    ensures unchanged { OnErr result (out.new.items ≡ out.old.items) }
{
    out.extend_from_slice(word.as_bytes())?;
    Ok(())
}
