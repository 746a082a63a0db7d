//! Writing the text of a value.

ghost use Rattle.std.specs.Prelude.{◌≡◌, ◌<◌, ◌++◌, nat_abs, int_lt, false, ℤ, pos, length, take, OnOk, OnErr};
ghost use Rattle.qd_ring.specs.ValueText.{sign_text, power_text, term_text, terms_text, value_text, numeral};

use crate::Memory;
use crate::plain::Plain;
use itoa::Buffer;

/// Adds the text of a value at the end of `out`. After `Memory` the text is as before.
pub fn append_plain(out: &mut Vec<u8>, p: &Plain) -> Result<(), Memory>
    ensures added { OnOk result (out.new.items ≡ out.old.items ++ value_text p.now.coefficients) }
    ensures unchanged { OnErr result (out.new.items ≡ out.old.items) }
{
    let start = out.len();
    let added = append_value(out, &p.coefficients);
    if added.is_err() {
        out.truncate(start);
    }
    added
}

/// The text begins as before, after `Memory` too.
fn append_value(out: &mut Vec<u8>, coefficients: &[i128]) -> Result<(), Memory>
    ensures added { OnOk result (out.new.items ≡ out.old.items ++ value_text coefficients.now) }
    ensures front { take (length out.old.items) out.new.items ≡ out.old.items }
{
    let start = out.len();
    append_terms(out, coefficients)?;
    if out.len() == start {
        out.push(b'0')?;
    }
    Ok(())
}

fn append_terms(out: &mut Vec<u8>, coefficients: &[i128]) -> Result<(), Memory>
    ensures added { OnOk result (out.new.items
        ≡ out.old.items ++ terms_text false 0 coefficients.now) }
    ensures front { take (length out.old.items) out.new.items ≡ out.old.items }
{
    let start = out.len();
    for (power, coefficient) in coefficients.iter().enumerate() {
        if *coefficient != 0 {
            let later = start < out.len();
            append_term(out, later, power, *coefficient)?;
        }
    }
    Ok(())
}

fn append_term(
    out: &mut Vec<u8>,
    later: bool,
    power: usize,
    coefficient: i128,
) -> Result<(), Memory>
    requires { 0 < nat_abs coefficient }
    ensures added { OnOk result (out.new.items
        ≡ out.old.items ++ term_text later power coefficient) }
    ensures front { take (length out.old.items) out.new.items ≡ out.old.items }
{
    append_sign(out, later, coefficient < 0)?;
    append_numeral(out, coefficient.unsigned_abs())?;
    append_power(out, power)?;
    Ok(())
}

fn append_sign(out: &mut Vec<u8>, later: bool, negative: bool) -> Result<(), Memory>
    ensures added { OnOk result ((c : ℤ) → int_lt c (pos 0) ≡ negative
        → out.new.items ≡ out.old.items ++ sign_text later c) }
    ensures front { take (length out.old.items) out.new.items ≡ out.old.items }
{
    if negative {
        out.push(b'-')?;
    } else if later {
        out.push(b'+')?;
    }
    Ok(())
}

fn append_numeral(out: &mut Vec<u8>, n: u128) -> Result<(), Memory>
    requires { 0 < n }
    ensures added { OnOk result (out.new.items ≡ out.old.items ++ numeral n) }
    ensures front { take (length out.old.items) out.new.items ≡ out.old.items }
{
    out.extend_from_slice(Buffer::new().format(n).as_bytes())?;
    Ok(())
}

fn append_power(out: &mut Vec<u8>, power: usize) -> Result<(), Memory>
    ensures added { OnOk result (out.new.items ≡ out.old.items ++ power_text power) }
    ensures front { take (length out.old.items) out.new.items ≡ out.old.items }
{
    if 0 < power {
        out.push(b'z')?;
        append_numeral(out, power as u128)?;
    }
    Ok(())
}
