//! Lists of texts.

ghost use Rattle.std.specs.Prelude.{◌≡◌, ◌∷◌, map, codes, string_bytes, IfOk};
ghost use Rattle.clap.specs.Walk.{texts};

use std::alloc::{AllocError, Global};

/// The name of the program, which stands before its words in a command line.
const PROGRAM: &str = "qdouble";

/// The program's name and its words.
pub fn with_program<'a>(alloc: Global, words: &'a [String]) -> Result<Vec<&'a str>, AllocError>
    ensures named { IfOk result (λ all.
        texts all.items ≡ codes "qdouble" ∷ map string_bytes words.now) }
{
    let mut all = Vec::new(alloc);
    all.push(PROGRAM)?;
    for word in words {
        all.push(word.as_str())?;
    }
    Ok(all)
}

/// The same texts in a list of their own.
pub fn copied(alloc: Global, list: &[&str]) -> Result<Vec<String>, AllocError>
    ensures same { IfOk result (λ copies. map string_bytes copies.items ≡ texts list.now) }
{
    let mut copies = Vec::new(alloc);
    for text in list {
        copies.push(String::from_str(alloc, text)?)?;
    }
    Ok(copies)
}
