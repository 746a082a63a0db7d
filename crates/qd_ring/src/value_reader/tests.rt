//! Tests of the text of a value, written and read.

use crate::plain::{Plain, ValueFault};
use crate::value_reader::read_plain;
use crate::value_text::append_plain;
use std::alloc::{AllocError, Global};
use std::test::Fail;

// Reads a whole text with powers below 4.
fn read(alloc: Global, text: &str) -> Result<Result<Plain, ValueFault>, AllocError> {
    let bytes = Vec::from_slice(alloc, text.as_bytes())?;
    match u32::try_from(bytes.len()) {
        Ok(len) => Ok(read_plain(&bytes, 0, len, 4)),
        Err(_) => Ok(Err(ValueFault::NotValue)),
    }
}

// The coefficients of 1, x, x^2 and x^3.
fn plain(first: i128, second: i128, third: i128, fourth: i128) -> Plain {
    let mut coefficients = [0; 42];
    coefficients[0] = first;
    coefficients[1] = second;
    coefficients[2] = third;
    coefficients[3] = fourth;
    Plain { coefficients }
}

#[test]
fn values_are_written_and_read_back(rt: HostRuntime) -> Result<(), Fail> {
    let greatest = (1 << 120) - 1;
    let rows = [
        ("0", plain(0, 0, 0, 0)),
        ("1", plain(1, 0, 0, 0)),
        ("-1z1", plain(0, -1, 0, 0)),
        ("-1+1z2", plain(-1, 0, 1, 0)),
        ("3-20z3", plain(3, 0, 0, -20)),
        (
            "1329227995784915872903807060280344575-1z1",
            plain(greatest, -1, 0, 0),
        ),
    ];
    for (text, value) in rows.iter() {
        let mut out = Vec::new(rt.alloc());
        append_plain(&mut out, value)?;
        assert!(rt; out.as_slice() == text.as_bytes());
        assert_eq!(rt; read(rt.alloc(), text)?, Ok(*value));
    }
    Ok(())
}

#[test]
fn other_texts_are_refused(rt: HostRuntime) -> Result<(), Fail> {
    let rows = [
        ("", ValueFault::NotValue),
        ("1z0", ValueFault::NotValue),
        ("+1", ValueFault::NotValue),
        ("01", ValueFault::NotValue),
        ("-0", ValueFault::NotValue),
        ("1z2+1z1", ValueFault::NotValue),
        ("1z1+1z1", ValueFault::NotValue),
        ("1z4", ValueFault::NotValue),
        ("1z9999999999999999999999", ValueFault::NotValue),
        ("1z1z2", ValueFault::NotValue),
        ("1 ", ValueFault::NotValue),
        ("1329227995784915872903807060280344576", ValueFault::Wide),
        (
            "-1329227995784915872903807060280344576+1z3",
            ValueFault::Wide,
        ),
        (
            "1329227995784915872903807060280344576z9",
            ValueFault::NotValue,
        ),
    ];
    for (text, fault) in rows.iter() {
        assert_eq!(rt; read(rt.alloc(), text)?, Err(*fault));
    }
    Ok(())
}
