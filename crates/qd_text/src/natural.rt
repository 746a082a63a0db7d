//! Natural numbers of 32 bits, read from digits.

ghost use Rattle.std.specs.Prelude.{◌≡◌, ℕ, ◌^◌, min};
ghost use Rattle.std.specs.List.{list_all};
ghost use Rattle.qd_text.specs.Numbers.{is_digit, value, number_of};
ghost use Rattle.qd_text.specs.Tokens.{IsWithin, text_of};

use crate::token::Token;

/// Why a token is no natural number of 32 bits.
#[derive(Clone, Copy, Debug, PartialEq, Eq, Hash)]
pub enum NumberFault {
    /// A byte isn't a digit.
    NotNumber,
    /// All bytes are digits, and the value is over 4,294,967,295.
    Wide,
}

/// The first number that doesn't fit in 32 bits.
const WIDE: u64 = 1 << 32;

fn is_digit(byte: u8) -> bool
    ensures digit { result ≡ is_digit byte }
{
    48 <= byte && byte <= 57
}

/// The number that the digits of a token spell, leading zeros allowed.
pub fn number(bytes: &Vec<u8>, token: Token) -> Result<u32, NumberFault>
    requires within { IsWithin bytes.now.items token }
    ensures number { result ≡ number_of (text_of bytes.now.items token) }
{
    let start = token.start as usize;
    let end = start + token.len as usize;
    digits_value(&bytes[start..end])
}

#[tactic(auto, unfolding(crate::specs::Numbers::number_of))]
fn digits_value(text: &[u8]) -> Result<u32, NumberFault>
    ensures number { result ≡ number_of text.now }
{
    if !are_digits(text) {
        return Err(NumberFault::NotNumber);
    }
    let value = capped_value(text);
    if value < WIDE {
        Ok(value as u32)
    } else {
        Err(NumberFault::Wide)
    }
}

fn are_digits(text: &[u8]) -> bool
    ensures digits { result ≡ list_all is_digit text.now }
{
    text.iter().all(|byte| is_digit(*byte))
}

/// The value of digits, or `WIDE` where it is at least that.
fn capped_value(text: &[u8]) -> u64
    ensures value { result ≡ min (value text.now) (2 ^ 32) }
{
    let mut capped: u64 = 0;
    for byte in text {
        capped = (capped * 10 + u64::from(byte.saturating_sub(48))).min(WIDE);
    }
    capped
}
