//! The parse of the program's words.

ghost use Rattle.std.specs.Prelude.{◌≡◌, [], ◌∷◌, map, drop, true, Some, is_some, unwrap_or, codes, string_bytes, IfOk};
ghost use Rattle.clap.specs.Walk.{texts, rows_of, first_of, all_of};
ghost use Rattle.clap.specs.Simple.{app_of};
ghost use Rattle.clap.specs.Matches.{found_of};
ghost use Rattle.command_words.specs.PlainWords.{are_plain};
ghost use Rattle.command_words.specs.CommandLine.{command_line};
ghost use Rattle.command_words.specs.Found.{found_in};

use crate::texts::{copied, with_program};
use clap::error::ErrorKind;
use clap::{Arg, ArgAction, ArgMatches, Command};
use std::alloc::{AllocError, Global};

/// The words of the program: a command, and the values that follow it.
#[derive(Debug, Drop)]
pub struct CommandWords {
    /// The first word.
    pub command: String,
    /// The others, in order.
    pub values: Vec<String>,
}

/// The command line of the program.
fn command_line<'a>(alloc: Global) -> Result<Command<'a>, AllocError>
    ensures line { IfOk result (λ line. app_of line ≡ command_line) }
{
    let command = Arg::new(alloc, "command").required(true);
    let values = Arg::new(alloc, "values").action(ArgAction::Append);
    Command::new(alloc, "qdouble")
        .disable_help_flag(true)
        .disable_version_flag(true)
        .arg(command)?
        .arg(values)
}

/// What a parse finds in these words, of which the first is the program's name. It fails only for want of
/// memory.
fn parse<'a>(alloc: Global, all: &'a [&'a str]) -> Result<ArgMatches<'a>, AllocError>
    requires plain { are_plain (drop 1 (texts all.now)) ≡ true }
    ensures found { IfOk result (λ matches.
        rows_of (found_of matches) ≡ found_in (drop 1 (texts all.now))) }
{
    let line = command_line(alloc)?;
    match line.try_get_matches_from(all) {
        Ok(matches) => Ok(matches),
        Err(error) => match error.kind() {
            ErrorKind::OutOfMemory => Err(AllocError),
            _ => unreachable!(),
        },
    }
}

/// The word that a parse found for the command, which it has.
fn the_command(alloc: Global, matches: &ArgMatches<'_>) -> Result<String, AllocError>
    requires given { is_some (first_of (codes "command") (rows_of (found_of matches.now))) ≡ true }
    ensures command { IfOk result (λ command.
        first_of (codes "command") (rows_of (found_of matches.now)) ≡ Some (string_bytes command)) }
{
    let Some(command) = matches.get_str("command") else {
        unreachable!()
    };
    String::from_str(alloc, command)
}

/// The words that a parse found for the values, none where it has nothing for them.
fn the_values(alloc: Global, matches: &ArgMatches<'_>) -> Result<Vec<String>, AllocError>
    ensures values { IfOk result (λ values.
        map string_bytes values.items
        ≡ unwrap_or (all_of (codes "values") (rows_of (found_of matches.now))) []) }
{
    match matches.get_strs("values") {
        Some(values) => copied(alloc, values),
        None => Ok(Vec::new(alloc)),
    }
}

/// The command and the values among words of which each is not empty and does not begin with a hyphen, by a
/// parse with `clap`. It fails only for want of memory.
pub fn parse_words(alloc: Global, words: &[String]) -> Result<CommandWords, AllocError>
    requires plain { are_plain (map string_bytes words.now) ≡ true }
    ensures same { IfOk result (λ parsed.
        string_bytes parsed.command ∷ map string_bytes parsed.values.items
        ≡ map string_bytes words.now) }
{
    let all = with_program(alloc, words)?;
    let matches = parse(alloc, &all)?;
    let command = the_command(alloc, &matches)?;
    let values = the_values(alloc, &matches)?;
    Ok(CommandWords { command, values })
}
