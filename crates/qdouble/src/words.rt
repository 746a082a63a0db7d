//! The words that the program was called with.

ghost use Rattle.std.specs.Prelude.{◌-◌, ◌^◌, ◌<◌};

use std::alloc::{AllocError, Global};
use std::env::{Env, FillError};

/// A word that no command has. It stands for a word that is not UTF-8 or is longer than any of a command.
const NO_WORD: &str = "-";

/// How many bytes of a word are looked at.
const WORD_LIMIT: usize = 256;

/// The text of a word.
fn text_of(alloc: Global, bytes: &[u8]) -> Result<String, AllocError> {
    match std::str::from_utf8(bytes) {
        Ok(text) => String::from_str(alloc, text),
        Err(_) => String::from_str(alloc, NO_WORD),
    }
}

/// The word at place `i`, counted from 0 after the program's name; `None` past the last one.
fn word<R: Env>(rt: &R, alloc: Global, i: usize) -> Result<Option<String>, AllocError>
    requires small { i < 2 ^ 64 - 1 }
{
    let mut buffer = [0; WORD_LIMIT];
    match rt.arg(i + 1, &mut buffer) {
        Ok(length) => Ok(Some(text_of(alloc, &buffer[..length])?)),
        Err(FillError::TooLong) => Ok(Some(String::from_str(alloc, NO_WORD)?)),
        Err(FillError::NotPresent) => Ok(None),
    }
}

/// All words after the program's name, in order.
pub fn words<R: Env>(rt: &R, alloc: Global) -> Result<Vec<String>, AllocError> {
    let mut words = Vec::new(alloc);
    for i in 0..usize::MAX {
        match word(rt, alloc, i)? {
            Some(word) => words.push(word)?,
            None => break,
        }
    }
    Ok(words)
}
