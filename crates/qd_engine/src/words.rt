//! The reading of the program's words.

ghost use Rattle.std.specs.Prelude.{◌≡◌, IfOk, IfSome};
ghost use Rattle.qd_engine.specs.Sources.{IsServed};
ghost use Rattle.qd_engine.specs.Words.{texts, command_of};

use crate::command::{Command, command_by};
use command_words::{are_plain, parse_words};
use std::alloc::{AllocError, Global};

/// The command of the words, which follow the program's name; `None` where they are not in its grammar. They are parsed
/// with `clap`, but for words of which one is empty or begins with a hyphen, which are no command.
#[tactic(auto, using(crate::proofs::WordLaws::unplain_is_no_command))]
pub fn read_words(alloc: Global, words: &[String]) -> Result<Option<Command>, AllocError>
    ensures command { IfOk result (λ command. command ≡ command_of (texts words.now)) }
    ensures served { IfOk result (λ command. IfSome command IsServed) }
{
    if !are_plain(words) {
        return Ok(None);
    }
    let parsed = parse_words(alloc, words)?;
    Ok(command_by(parsed.command.as_str(), &parsed.values))
}
