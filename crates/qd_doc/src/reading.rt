//! Reading a document.

ghost use Rattle.std.specs.Prelude.{◌≡◌, ◌<◌, ◌≤◌, ◌^◌, ◌*◌, [], length, vec_len, IfOk};
ghost use Rattle.qd_text.specs.Tokens.{tokens_from};
ghost use Rattle.qd_doc.specs.Contents.{Parses, IsInRange};
ghost use Rattle.qd_doc.specs.Reading.{Gives, IsOffset, read_order, read_roots, read_end, read_characters, read_document};

use crate::characters::given;
use crate::document::{Document, Form, Given};
use crate::kind::Kind;
use crate::listing::{exponents, numbers};
use crate::refusal::DocRefusal;
use crate::steps::{Numeral, end_word, natural, nothing, word};
use qd_text::Expected;
use std::alloc::Global;

/// The document that a text is, of the form that is asked for. The refusal is that of the first
/// token, or of the end, that isn't what may stand there; `Memory` says nothing of the text.
pub fn parse(alloc: Global, bytes: &Vec<u8>, form: Form) -> Result<Document, DocRefusal>
    requires few { vec_len bytes.now < 2 ^ 32 }
    ensures parses { Parses form bytes.now.items result }
    ensures in_range { IfOk result IsInRange }
{
    document(alloc, bytes, form)
}

/// The order, and the offset after the word `table`.
#[tactic(auto, unfolding(crate::specs::Reading::read_order))]
fn order(bytes: &Vec<u8>) -> Result<Numeral, DocRefusal>
    requires offset { IsOffset bytes.now.items 0 }
    ensures gives { Gives
        (λ numeral. (numeral.value, tokens_from numeral.next bytes.now.items)) result
        (read_order (length bytes.now.items) (tokens_from 0 bytes.now.items)) }
    ensures offset { IfOk result (λ numeral. IsOffset bytes.now.items numeral.next) }
    ensures order { IfOk result (λ numeral. (1 ≤ numeral.value) × (numeral.value ≤ 60)) }
{
    let at = word(bytes, 0, Expected::Qdouble)?;
    let at = word(bytes, at, Expected::One)?;
    let at = word(bytes, at, Expected::Order)?;
    let order = natural(bytes, at, Kind::Order)?;
    let next = word(bytes, order.next, Expected::Table)?;
    Ok(Numeral {
        value: order.value,
        next,
    })
}

/// The number of roots, and the offset after the word `omega`.
#[tactic(auto, unfolding(crate::specs::Reading::read_roots))]
fn roots(bytes: &Vec<u8>, at: u32) -> Result<Numeral, DocRefusal>
    requires offset { IsOffset bytes.now.items at }
    ensures gives { Gives
        (λ numeral. (numeral.value, tokens_from numeral.next bytes.now.items)) result
        (read_roots (length bytes.now.items) (tokens_from at bytes.now.items)) }
    ensures offset { IfOk result (λ numeral. IsOffset bytes.now.items numeral.next) }
    ensures roots { IfOk result (λ numeral. (1 ≤ numeral.value) × (numeral.value ≤ 64)) }
{
    let at = word(bytes, at, Expected::Roots)?;
    let roots = natural(bytes, at, Kind::Roots)?;
    let next = word(bytes, roots.next, Expected::Omega)?;
    Ok(Numeral {
        value: roots.value,
        next,
    })
}

/// That the word `end` stands next, and nothing after it.
#[tactic(auto, unfolding(crate::specs::Reading::read_end))]
fn end(bytes: &Vec<u8>, at: u32) -> Result<(), DocRefusal>
    requires offset { IsOffset bytes.now.items at }
    ensures gives { Gives (λ _. []) result
        (read_end (length bytes.now.items) (tokens_from at bytes.now.items)) }
{
    let at = end_word(bytes, at)?;
    nothing(bytes, at)
}

/// What follows the exponents.
#[tactic(auto, unfolding(crate::specs::Reading::read_characters))]
fn characters(
    alloc: Global,
    bytes: &Vec<u8>,
    at: u32,
    form: Form,
) -> Result<Option<Given>, DocRefusal>
    requires offset { IsOffset bytes.now.items at }
    ensures gives { Gives (λ characters. characters) result
        (read_characters (length bytes.now.items) form (tokens_from at bytes.now.items)) }
{
    match form {
        Form::Bare => {
            end(bytes, at)?;
            Ok(None)
        }
        Form::WithCharacters => {
            let (given, next) = given(alloc, bytes, at)?;
            nothing(bytes, next)?;
            Ok(Some(given))
        }
    }
}

/// A document, read token after token.
#[tactic(auto, unfolding(crate::specs::Reading::read_document))]
fn document(alloc: Global, bytes: &Vec<u8>, form: Form) -> Result<Document, DocRefusal>
    requires offset { IsOffset bytes.now.items 0 }
    ensures gives { Gives (λ document. document) result
        (read_document (length bytes.now.items) form (tokens_from 0 bytes.now.items)) }
{
    let order = order(bytes)?;
    let (table, at) = numbers(alloc, bytes, order.next, order.value * order.value)?;
    let roots = roots(bytes, at)?;
    let (exponents, at) = exponents(alloc, bytes, roots.next, order.value)?;
    let characters = characters(alloc, bytes, at, form)?;
    Ok(Document {
        order: order.value,
        table,
        roots: roots.value,
        exponents,
        characters,
    })
}
