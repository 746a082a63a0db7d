//! Reading the text of a value.

ghost use Rattle.std.specs.Prelude.{nat_abs, nat_lt, ℤ, List, true, ◌↔◌, IfOk, ◌≡◌, ◌≤◌, ◌+◌, ◌<◌, ◌^◌, min, pos, length, take, drop, replicate, None, Some, IfNone, IfSome, ◌==◌, ◌-◌, false, slice_index};
ghost use Rattle.std.specs.List.{list_all, prefix_len};
ghost use Rattle.qd_ring.specs.ValueReading.{is_digit, number, sign_len, numeral_len, power_of, term_of, signed, coefficients_of};
ghost use Rattle.qd_ring.specs.ValueText.{Spells};
ghost use Rattle.qd_ring.specs.CycArrays.{is_small};
ghost use Rattle.qd_ring.specs.ValueOutcome.{IsRead};

use crate::plain::{Plain, ValueFault};

/// The first magnitude that is too great for a coefficient.
const TOO_GREAT: u128 = 1 << 120;

/// One more than the greatest power of the variable.
const POWERS: u32 = 42;

/// A term at the front of a text.
#[derive(Clone, Copy, Debug)]
pub struct Term {
    /// Plus or minus the magnitude, or `TOO_GREAT` where it is at least that.
    pub coefficient: i128,
    /// The power, or `POWERS` where it is at least that.
    pub power: u32,
    /// How many bytes it takes.
    pub len: usize,
}

fn is_digit(byte: u8) -> bool
    ensures { result ≡ is_digit byte }
{
    48 <= byte && byte <= 57
}

/// How many digits stand at the front.
fn digits_len(text: &[u8]) -> usize
    ensures count { result ≡ prefix_len is_digit text.now }
    ensures within { result ≤ length text.now }
{
    text.iter().take_while(|byte| is_digit(**byte)).count()
}

/// The number that the digits spell, or `cap` where it is at least that.
fn capped_number(digits: &[u8], cap: u128) -> u128
    requires { cap ≤ 2 ^ 120 }
    ensures { result ≡ min (number digits.now) cap }
{
    let mut capped: u128 = 0;
    for byte in digits {
        capped = (capped * 10 + u128::from(byte.saturating_sub(48))).min(cap);
    }
    capped
}

/// How many bytes the sign of a term takes.
fn sign_len(text: &[u8], later: bool) -> Option<usize>
    ensures len { result ≡ sign_len later text.now }
    ensures within { IfSome result (λ len. len ≤ length text.now) }
{
    match text.first() {
        Some(b'-') => Some(1),
        Some(b'+') if later => Some(1),
        _ => if later { None } else { Some(0) },
    }
}

/// How many digits a numeral at the front has; it begins with a digit from 1 to 9.
fn numeral_len(text: &[u8]) -> Option<usize>
    ensures len { result ≡ numeral_len text.now }
    ensures within { IfSome result (λ len. len ≤ length text.now) }
{
    match text.first() {
        Some(49..=57) => Some(digits_len(text)),
        _ => None,
    }
}

/// The power at the front and its bytes; none is the power 0.
fn power_of(text: &[u8]) -> Option<(u32, usize)>
    ensures power { result ≡ power_of text.now }
    ensures within { IfSome result (λ power. power.1 ≤ length text.now) }
{
    if text.first() != Some(&b'z') {
        return Some((0, 0));
    }
    let digits = numeral_len(&text[1..])?;
    let power = capped_number(&text[1..1 + digits], u128::from(POWERS));
    Some((power as u32, 1 + digits))
}

/// The whole number with this magnitude, and the sign at the front of the text.
fn with_sign(text: &[u8], magnitude: u128) -> i128
    requires { magnitude ≤ 2 ^ 120 }
    ensures { result ≡ signed (slice_index text.now 0 == 45) magnitude }
{
    let magnitude = magnitude as i128;
    if text.first() == Some(&b'-') {
        -magnitude
    } else {
        magnitude
    }
}

/// The term at the front; `later` says whether one stands before it.
#[tactic(auto, unfolding(crate::specs::ValueReading::term_of, crate::specs::ValueReading::term_after_sign))]
fn read_term(text: &[u8], later: bool) -> Option<Term>
    ensures term { result ≡ term_of later text.now }
    ensures within { IfSome result (λ term. term.len ≤ length text.now) }
{
    let sign = sign_len(text, later)?;
    let rest = &text[sign..];
    let digits = numeral_len(rest)?;
    let (power, len) = power_of(&rest[digits..])?;
    let magnitude = capped_number(&rest[..digits], TOO_GREAT);
    Some(Term {
        coefficient: with_sign(text, magnitude),
        power,
        len: sign + digits + len,
    })
}

/// The coefficients of the terms that the text has, at least one, with powers below `phi`.
fn read_coefficients(text: &[u8], phi: u32) -> Option<[i128; 42]>
    requires { phi ≤ 42 }
    ensures none { IfNone result (coefficients_of phi 0 false text.now ≡ None) }
    ensures some { IfSome result (λ cs. coefficients_of phi 0 false text.now ≡ Some (take phi cs)) }
    ensures count { IfSome result (λ cs. length cs ≡ 42) }
    ensures zeros { IfSome result (λ cs. drop phi cs ≡ replicate (42 - phi) (pos 0)) }
{
    let mut coefficients = [0; 42];
    let mut at: usize = 0;
    let mut next: u32 = 0;
    while at < text.len() {
        let Some(term) = read_term(&text[at..], 0 < at) else {
            return None;
        };
        if term.power < next || phi <= term.power {
            return None;
        }
        coefficients[term.power as usize] = term.coefficient;
        next = term.power + 1;
        at += term.len;
    }
    if at == 0 { None } else { Some(coefficients) }
}

fn are_small(coefficients: &[i128]) -> bool
    ensures { result ≡ list_all (λ c. nat_lt (nat_abs c) (2 ^ 120)) coefficients.now }
{
    coefficients
        .iter()
        .all(|coefficient| coefficient.unsigned_abs() < TOO_GREAT)
}

fn read_value(text: &[u8], phi: u32) -> Result<Plain, ValueFault>
    requires { phi ≤ 42 }
    ensures { IsRead text.now phi result }
{
    if text.len() == 1 && text[0] == b'0' {
        return Ok(Plain {
            coefficients: [0; 42],
        });
    }
    let Some(coefficients) = read_coefficients(text, phi) else {
        return Err(ValueFault::NotValue);
    };
    if are_small(&coefficients) {
        Ok(Plain { coefficients })
    } else {
        Err(ValueFault::Wide)
    }
}

/// The value whose text stands in `bytes` from `start` on and takes `len` bytes; its coefficients
/// are 0 from that of `x^phi` on.
///
/// The text is exactly the one that is written of the value. `Wide` is the answer where it is so
/// written of whole numbers of which one is over 2^120 - 1 in magnitude, and `NotValue` where it is
/// written of no whole numbers that are 0 from that of `x^phi` on.
pub fn read_plain(bytes: &Vec<u8>, start: u32, len: u32, phi: u32) -> Result<Plain, ValueFault>
    requires within { start + len ≤ length bytes.now.items }
    requires powers { phi ≤ 42 }
    ensures spelled { IfOk result (λ p. Spells
        (take len (drop start bytes.now.items)) phi p.coefficients) }
    ensures small { IfOk result (λ p. is_small p.coefficients ≡ true) }
    ensures value { (cs : List ℤ) → Spells (take len (drop start bytes.now.items)) phi cs
        → is_small cs ≡ true → result ≡ Ok (record { coefficients = cs }) }
    ensures wide { (result ≡ Err ValueFault.Wide) ↔
        ((cs : List ℤ) × Spells (take len (drop start bytes.now.items)) phi cs × (is_small cs
        ≡ false)) }
    ensures not_value { (result ≡ Err ValueFault.NotValue) ↔ ((cs : List ℤ)
        → Spells (take len (drop start bytes.now.items)) phi cs → ⊥) }
{
    let start = start as usize;
    let end = start + len as usize;
    read_value(&bytes[start..end], phi)
}

#[cfg(test)]
mod tests;
