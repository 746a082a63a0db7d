//! Tokens and numbers of texts, and what is appended to them.

use qd_text::{Expected, NumberFault, Token, append_number, append_word, next_token, number};
use std::test::*;

#[test]
fn tokens(rt: HostRuntime) -> Result<(), Fail> {
    let text = Vec::from_slice(rt.alloc(), b" \t12#3 \r4\nab\r#")?;
    let number = next_token(&text, 0).ok_or("a token is left")?;
    assert_eq!(rt; (number.start, number.len), (2, 2));
    let word = next_token(&text, number.start + number.len).ok_or("a token is left")?;
    assert_eq!(rt; (word.start, word.len), (10, 2));
    assert!(rt; next_token(&text, word.start + word.len).is_none());
    Ok(())
}

#[test]
fn numbers(rt: HostRuntime) -> Result<(), Fail> {
    for (text, value) in [
        ("0", Ok(0)),
        ("0000000000000000000060", Ok(60)),
        ("4294967295", Ok(4294967295)),
        ("4294967296", Err(NumberFault::Wide)),
        ("99999999999", Err(NumberFault::Wide)),
        ("99999999999x", Err(NumberFault::NotNumber)),
        ("-1", Err(NumberFault::NotNumber)),
    ] {
        let bytes = Vec::from_slice(rt.alloc(), text.as_bytes())?;
        let token = Token {
            start: 0,
            len: text.len() as u32,
        };
        assert_eq!(rt; number(&bytes, token), value, "at {text}");
    }
    Ok(())
}

#[test]
fn appended(rt: HostRuntime) -> Result<(), Fail> {
    let mut out = Vec::new(rt.alloc());
    append_word(&mut out, Expected::One.text())?;
    append_word(&mut out, Expected::Qdouble.text())?;
    append_number(&mut out, 0)?;
    append_number(&mut out, 340282366920938463463374607431768211455)?;
    assert_eq!(rt;
        out.as_slice(),
        b"1qdouble0340282366920938463463374607431768211455".as_slice()
    );
    Ok(())
}
