//! Reading one token.

ghost use Rattle.std.specs.Prelude.{◌≡◌, ℕ, ◌+◌, ◌<◌, ◌≤◌, ◌^◌, List, ◌∷◌, [], length, vec_len, IfOk, IfErr, OnOk, Bool};
ghost use Rattle.qd_text.specs.Tokens.{tokens_from, lexeme_of, text_of, IsWithin};
ghost use Rattle.qd_text.specs.Numbers.{value};
ghost use Rattle.cyclotomic.specs.Conductors.{is_conductor};
ghost use Rattle.qd_text.specs.declared.expected.Expected.{Expected};
ghost use Rattle.qd_doc.specs.Kinds.{Word, FormWord, EndWord, NoToken, is_word, value_refusal};
ghost use Rattle.qd_doc.specs.Numerals.{what_of, IsOf};
ghost use Rattle.qd_doc.specs.Reading.{Gives, IsOffset, read, skip, read_number, listing_of, unless};

use crate::kind::Kind;
use crate::listing::Listing;
use crate::refusal::DocRefusal;
use qd_ring::conductor;
use qd_text::{Expected, NumberFault, Token, next_token, number};

/// A number that was read, and the offset at which reading goes on.
#[derive(Clone, Copy)]
pub struct Numeral {
    pub value: u32,
    pub next: u32,
}

/// The next token, or the refusal of the end.
pub fn token(bytes: &Vec<u8>, at: u32, expected: Expected) -> Result<Token, DocRefusal>
    requires offset { IsOffset bytes.now.items at }
    ensures token { IfOk result (λ token.
        tokens_from at bytes.now.items
        ≡ lexeme_of bytes.now.items token ∷ tokens_from (token.start + token.len) bytes.now.items) }
    ensures inside { IfOk result (IsWithin bytes.now.items) }
    ensures nothing { IfErr result (λ _. tokens_from at bytes.now.items ≡ []) }
    ensures refusal { IfErr result
        (λ refusal. refusal ≡ DocRefusal.Syntax (length bytes.now.items) expected) }
    ensures later { IfOk result (λ token. at < token.start + token.len) }
{
    match next_token(bytes, at) {
        Some(token) => Ok(token),
        None => Err(DocRefusal::Syntax {
            offset: bytes.len() as u32,
            expected,
        }),
    }
}

/// Whether a token is this word.
pub fn is_text(bytes: &Vec<u8>, token: Token, word: &str) -> bool
    requires inside { IsWithin bytes.now.items token }
    ensures same { result ≡ is_word (text_of bytes.now.items token) word.now }
{
    let start = token.start as usize;
    &bytes[start..start + token.len as usize] == word.as_bytes()
}

/// The offset after a word that has to stand next.
#[tactic(auto, unfolding(crate::specs::Reading::read, crate::specs::Kinds::refusal, crate::specs::Kinds::missing))]
pub fn word(bytes: &Vec<u8>, at: u32, expected: Expected) -> Result<u32, DocRefusal>
    requires offset { IsOffset bytes.now.items at }
    ensures gives { Gives (λ next. tokens_from next bytes.now.items) result
        (skip (length bytes.now.items) (Word expected) (tokens_from at bytes.now.items)) }
    ensures offset { IfOk result (IsOffset bytes.now.items) }
{
    let token = token(bytes, at, expected)?;
    if is_text(bytes, token, expected.text()) {
        Ok(token.start + token.len)
    } else {
        Err(DocRefusal::Syntax {
            offset: token.start,
            expected,
        })
    }
}

/// Whether a number is an entry of the table of conductors: it is its own least multiple there.
#[tactic(auto, using(crate::proofs::Entries::entry_found, crate::proofs::Entries::entry_missing))]
fn is_conductor(k: u32) -> bool
    ensures entry { result ≡ is_conductor k }
{
    match conductor(k) {
        Ok(least) => least == k,
        Err(_) => false,
    }
}

/// The refusal of a number, which stands at `start`, by its value.
#[tactic(auto, unfolding(crate::specs::Kinds::refusal))]
fn check_value(kind: Kind, start: u32, value: u32) -> Result<(), DocRefusal>
    ensures checked { result ≡ unless (value_refusal (what_of kind) start value) tt }
    ensures of_kind { OnOk result (IsOf kind value) }
{
    match kind {
        Kind::Order if value < 1 || value > 60 => Err(DocRefusal::Order { number: value }),
        Kind::Roots if value < 1 || value > 64 => Err(DocRefusal::Roots { number: value }),
        Kind::Element { order } if value >= order => Err(DocRefusal::Syntax {
            offset: start,
            expected: Expected::Element,
        }),
        Kind::Conductor if !is_conductor(value) => Err(DocRefusal::Syntax {
            offset: start,
            expected: Expected::Conductor,
        }),
        _ => Ok(()),
    }
}

/// A number of a kind that has to stand next.
#[tactic(auto, using(qd_text::proofs::Digits::values), unfolding(crate::specs::Reading::read, crate::specs::Kinds::refusal, crate::specs::Kinds::missing))]
pub fn natural(bytes: &Vec<u8>, at: u32, kind: Kind) -> Result<Numeral, DocRefusal>
    requires offset { IsOffset bytes.now.items at }
    ensures gives { Gives
        (λ numeral. (numeral.value, tokens_from numeral.next bytes.now.items)) result
        (read_number (length bytes.now.items) (what_of kind) (tokens_from at bytes.now.items)) }
    ensures offset { IfOk result (λ numeral. IsOffset bytes.now.items numeral.next) }
    ensures of_kind { IfOk result (λ numeral. IsOf kind numeral.value) }
    ensures later { IfOk result (λ numeral. at < numeral.next) }
{
    let token = token(bytes, at, Expected::Number)?;
    match number(bytes, token) {
        Ok(value) => {
            check_value(kind, token.start, value)?;
            Ok(Numeral {
                value,
                next: token.start + token.len,
            })
        }
        Err(NumberFault::NotNumber) => Err(DocRefusal::Syntax {
            offset: token.start,
            expected: Expected::Number,
        }),
        Err(NumberFault::Wide) => Err(DocRefusal::Wide {
            offset: token.start,
        }),
    }
}

/// How the exponents are listed, by the word that has to stand next.
#[tactic(auto, unfolding(crate::specs::Reading::read, crate::specs::Kinds::refusal, crate::specs::Kinds::missing))]
pub fn listing_word(bytes: &Vec<u8>, at: u32) -> Result<(Listing, u32), DocRefusal>
    requires offset { IsOffset bytes.now.items at }
    ensures gives { Gives (λ found. (found.0, tokens_from found.1 bytes.now.items)) result
        (read listing_of (length bytes.now.items) FormWord (tokens_from at bytes.now.items)) }
    ensures offset { IfOk result (λ found. IsOffset bytes.now.items found.1) }
{
    let token = token(bytes, at, Expected::Form)?;
    let next = token.start + token.len;
    if is_text(bytes, token, "dense") {
        Ok((Listing::Dense, next))
    } else if is_text(bytes, token, "sparse") {
        Ok((Listing::Sparse, next))
    } else if is_text(bytes, token, "trivial") {
        Ok((Listing::Trivial, next))
    } else {
        Err(DocRefusal::Syntax {
            offset: token.start,
            expected: Expected::Form,
        })
    }
}

/// The offset after the word `end`, which has to stand next.
#[tactic(auto, unfolding(crate::specs::Reading::read, crate::specs::Kinds::refusal, crate::specs::Kinds::missing))]
pub fn end_word(bytes: &Vec<u8>, at: u32) -> Result<u32, DocRefusal>
    requires offset { IsOffset bytes.now.items at }
    ensures gives { Gives (λ next. tokens_from next bytes.now.items) result
        (skip (length bytes.now.items) EndWord (tokens_from at bytes.now.items)) }
    ensures offset { IfOk result (IsOffset bytes.now.items) }
{
    let token = token(bytes, at, Expected::End)?;
    if is_text(bytes, token, "end") {
        Ok(token.start + token.len)
    } else if is_text(bytes, token, "characters") {
        Err(DocRefusal::Section {
            offset: token.start,
        })
    } else {
        Err(DocRefusal::Syntax {
            offset: token.start,
            expected: Expected::End,
        })
    }
}

/// That no token is left.
#[tactic(auto, unfolding(crate::specs::Reading::read, crate::specs::Kinds::refusal, crate::specs::Kinds::missing))]
pub fn nothing(bytes: &Vec<u8>, at: u32) -> Result<(), DocRefusal>
    requires offset { IsOffset bytes.now.items at }
    ensures gives { Gives (λ _. []) result
        (skip (length bytes.now.items) NoToken (tokens_from at bytes.now.items)) }
{
    match next_token(bytes, at) {
        Some(token) => Err(DocRefusal::Syntax {
            offset: token.start,
            expected: Expected::Nothing,
        }),
        None => Ok(()),
    }
}
