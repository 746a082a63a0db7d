//! Reading the section of characters.

ghost use Rattle.std.specs.Prelude.{◌≡◌, ◌≢◌, ◌+◌, ◌<◌, ◌≤◌, ◌^◌, List, [], Bool, length, IfOk, OnOk};
ghost use Rattle.cyclotomic.specs.Conductors.{phi_of};
ghost use Rattle.qd_text.specs.Tokens.{tokens_from, lexeme_of, text_of, IsWithin};
ghost use Rattle.qd_doc.specs.Values.{begins_value, value_of, coefficients, plain, ValuesAreSpelled};
ghost use Rattle.qd_text.specs.Numbers.{value};
ghost use Rattle.qd_doc.specs.Kinds.{Natural, ClassOrEnd, RowClassOrEnd, ValueRowClassOrEnd, fault_refusal, refusal};
ghost use Rattle.qd_doc.specs.Section.{kind_after, part_of, word_part, is_end, stage_of, with_part, HasPlace};
ghost use Rattle.qd_doc.specs.Reading.{Gives, IsOffset, read, read_blocks, read_given, unless};

use crate::blocks::Blocks;
use crate::document::Given;
use crate::kind::Kind;
use crate::part::{Part, Stage};
use crate::refusal::DocRefusal;
use crate::steps::{is_text, natural, token, word};
use qd_ring::{ValueFault, phi, read_plain};
use qd_text::{Expected, Memory, Token};
use std::alloc::Global;

/// A law: what a token says as a value is the value that is written so.
pub fn values_are_spelled()
    ensures law { ValuesAreSpelled }
{}

/// Whether a token of a row is a value: it begins with a digit or with `-`.
fn begins_value(bytes: &Vec<u8>, token: Token) -> bool
    requires inside { IsWithin bytes.now.items token }
    ensures begins { result ≡ begins_value (text_of bytes.now.items token) }
{
    matches!(bytes[token.start as usize], b'0'..=b'9' | b'-')
}

/// The value with `phi` coefficients that a token spells.
fn value(bytes: &Vec<u8>, token: Token, phi: u32) -> Result<Part, DocRefusal>
    requires inside { IsWithin bytes.now.items token }
    requires powers { phi ≤ 42 }
    ensures spelled { result
        ≡ unless (fault_refusal token.start (value_of phi (text_of bytes.now.items token)))
        (Part.Value (plain (coefficients phi (text_of bytes.now.items token)))) }
{
    match read_plain(bytes, token.start, token.len, phi) {
        Ok(value) => Ok(Part::Value { value }),
        Err(ValueFault::NotValue) => Err(DocRefusal::Syntax {
            offset: token.start,
            expected: Expected::Value,
        }),
        Err(ValueFault::Wide) => Err(DocRefusal::Wide {
            offset: token.start,
        }),
    }
}

/// The word `class` or `end`.
#[tactic(auto, unfolding(crate::specs::Kinds::refusal))]
fn class_or_end(bytes: &Vec<u8>, token: Token) -> Result<Part, DocRefusal>
    requires inside { IsWithin bytes.now.items token }
    ensures said { result ≡ unless (refusal ClassOrEnd (lexeme_of bytes.now.items token))
        (word_part (text_of bytes.now.items token)) }
{
    if is_text(bytes, token, "class") {
        Ok(Part::Class)
    } else if is_text(bytes, token, "end") {
        Ok(Part::End)
    } else {
        Err(DocRefusal::Syntax {
            offset: token.start,
            expected: Expected::End,
        })
    }
}

/// The word `row`, `class` or `end`.
#[tactic(auto, unfolding(crate::specs::Kinds::refusal))]
fn row_class_or_end(bytes: &Vec<u8>, token: Token) -> Result<Part, DocRefusal>
    requires inside { IsWithin bytes.now.items token }
    ensures said { result ≡ unless (refusal RowClassOrEnd (lexeme_of bytes.now.items token))
        (word_part (text_of bytes.now.items token)) }
{
    if is_text(bytes, token, "class") {
        Ok(Part::Class)
    } else if is_text(bytes, token, "end") {
        Ok(Part::End)
    } else if is_text(bytes, token, "row") {
        Ok(Part::Row)
    } else {
        Err(DocRefusal::Syntax {
            offset: token.start,
            expected: Expected::End,
        })
    }
}

/// A value, or one of these words.
#[tactic(auto, unfolding(crate::specs::Kinds::refusal))]
fn value_or_word(bytes: &Vec<u8>, token: Token, phi: u32) -> Result<Part, DocRefusal>
    requires inside { IsWithin bytes.now.items token }
    requires powers { phi ≤ 42 }
    ensures said { result
        ≡ unless (refusal (ValueRowClassOrEnd phi) (lexeme_of bytes.now.items token))
        (part_of phi Stage.Row (text_of bytes.now.items token)) }
{
    if begins_value(bytes, token) {
        value(bytes, token, phi)
    } else {
        row_class_or_end(bytes, token)
    }
}

/// What a token says that isn't the number of a block.
fn token_part(bytes: &Vec<u8>, token: Token, phi: u32, stage: Stage) -> Result<Part, DocRefusal>
    requires inside { IsWithin bytes.now.items token }
    requires powers { phi ≤ 42 }
    requires word { stage ≢ Stage.Class }
    ensures said { result
        ≡ unless (refusal (kind_after phi stage) (lexeme_of bytes.now.items token))
        (part_of phi stage (text_of bytes.now.items token)) }
{
    match stage {
        Stage::Conductor | Stage::Class => class_or_end(bytes, token),
        Stage::Number => row_class_or_end(bytes, token),
        Stage::Row => value_or_word(bytes, token, phi),
    }
}

/// The number of a block, and the offset after it.
fn number_part(bytes: &Vec<u8>, at: u32) -> Result<(Part, u32), DocRefusal>
    requires offset { IsOffset bytes.now.items at }
    ensures gives { Gives (λ found. (found.0, tokens_from found.1 bytes.now.items)) result
        (read (λ text. Part.Number (value text)) (length bytes.now.items) Natural
        (tokens_from at bytes.now.items)) }
    ensures offset { IfOk result (λ found. IsOffset bytes.now.items found.1) }
    ensures later { IfOk result (λ found. at < found.1) }
{
    let numeral = natural(bytes, at, Kind::Any)?;
    Ok((
        Part::Number {
            number: numeral.value,
        },
        numeral.next,
    ))
}

/// What the next token says, which isn't the number of a block, and the offset after it.
#[tactic(auto, unfolding(crate::specs::Reading::read, crate::specs::Kinds::missing))]
fn next_part(bytes: &Vec<u8>, at: u32, phi: u32, stage: Stage) -> Result<(Part, u32), DocRefusal>
    requires offset { IsOffset bytes.now.items at }
    requires powers { phi ≤ 42 }
    requires word { stage ≢ Stage.Class }
    ensures gives { Gives (λ found. (found.0, tokens_from found.1 bytes.now.items)) result
        (read (part_of phi stage) (length bytes.now.items) (kind_after phi stage)
        (tokens_from at bytes.now.items)) }
    ensures offset { IfOk result (λ found. IsOffset bytes.now.items found.1) }
    ensures later { IfOk result (λ found. at < found.1) }
{
    let token = token(bytes, at, Expected::End)?;
    let part = token_part(bytes, token, phi, stage)?;
    Ok((part, token.start + token.len))
}

/// What the next token says, by what was read last, and the offset after it.
fn part(bytes: &Vec<u8>, at: u32, phi: u32, stage: Stage) -> Result<(Part, u32), DocRefusal>
    requires offset { IsOffset bytes.now.items at }
    requires powers { phi ≤ 42 }
    ensures gives { Gives (λ found. (found.0, tokens_from found.1 bytes.now.items)) result
        (read (part_of phi stage) (length bytes.now.items) (kind_after phi stage)
        (tokens_from at bytes.now.items)) }
    ensures offset { IfOk result (λ found. IsOffset bytes.now.items found.1) }
    ensures later { IfOk result (λ found. at < found.1) }
{
    match stage {
        Stage::Class => number_part(bytes, at),
        _ => next_part(bytes, at, phi, stage),
    }
}

/// Puts what a part says into the blocks.
fn add(blocks: &mut Blocks, part: &Part) -> Result<(), Memory>
    requires place { HasPlace part.now blocks.old }
    ensures added { OnOk result (blocks.new ≡ with_part part.now blocks.old) }
{
    match part {
        Part::Class | Part::End => Ok(()),
        Part::Number { number } => blocks.push_block(*number),
        Part::Row => blocks.push_row(),
        Part::Value { value } => blocks.push_plain(value),
    }
}

fn is_end(part: &Part) -> bool
    ensures end { result ≡ is_end part.now }
{
    matches!(part, Part::End)
}

/// What was read last, after a part.
fn stage_of(part: &Part) -> Stage
    ensures stage { result ≡ stage_of part.now }
{
    match part {
        Part::Class => Stage::Class,
        Part::Number { .. } => Stage::Number,
        Part::Row | Part::Value { .. } => Stage::Row,
        Part::End => Stage::Conductor,
    }
}

/// The blocks up to the word `end`, and the offset after it.
fn blocks(alloc: Global, bytes: &Vec<u8>, at: u32, phi: u32) -> Result<(Blocks, u32), DocRefusal>
    requires offset { IsOffset bytes.now.items at }
    requires powers { phi ≤ 42 }
    ensures gives { Gives (λ found. (found.0, tokens_from found.1 bytes.now.items)) result
        (read_blocks (length bytes.now.items) phi Stage.Conductor []
        (tokens_from at bytes.now.items)) }
    ensures offset { IfOk result (λ found. IsOffset bytes.now.items found.1) }
{
    let mut blocks = Blocks::empty(alloc);
    let mut stage = Stage::Conductor;
    let mut next = at;
    loop {
        let (part, after) = part(bytes, next, phi, stage)?;
        next = after;
        if is_end(&part) {
            return Ok((blocks, next));
        }
        add(&mut blocks, &part)?;
        stage = stage_of(&part);
    }
}

/// The section of characters, and the offset after the word `end`.
#[tactic(auto, using(crate::proofs::Entries::few_coefficients), unfolding(crate::specs::Reading::read_given))]
pub fn given(alloc: Global, bytes: &Vec<u8>, at: u32) -> Result<(Given, u32), DocRefusal>
    requires offset { IsOffset bytes.now.items at }
    ensures gives { Gives (λ found. (found.0, tokens_from found.1 bytes.now.items)) result
        (read_given (length bytes.now.items) (tokens_from at bytes.now.items)) }
    ensures offset { IfOk result (λ found. IsOffset bytes.now.items found.1) }
{
    let at = word(bytes, at, Expected::Characters)?;
    let conductor = natural(bytes, at, Kind::Conductor)?;
    let (blocks, at) = blocks(alloc, bytes, conductor.next, phi(conductor.value))?;
    Ok((
        Given {
            conductor: conductor.value,
            blocks,
        },
        at,
    ))
}
