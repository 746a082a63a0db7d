//! Documents, read and printed, and where the scan of those that are none stops.

ghost use Rattle.std.specs.Prelude.{◌<◌, ◌^◌, vec_len, IfOk};

use group_table::Nats;
use qd_doc::{Blocks, DocRefusal, Document, Form, parse, print};
use qd_text::Expected;
use std::test::*;

const SEMION: &str =
    "qdouble 1\norder 2\ntable\n0 1\n1 0\nroots 2\nomega dense\n0 0\n0 0\n0 0\n0 1\nend\n";

const CERT: &str =
    "qdouble 1\norder 2\ntable\n0 1\n1 0\nroots 2\nomega dense\n0 0\n0 0\n0 0\n0 1\ncharacters 4\nclass 0\nrow 1 1\nrow 1 -1\nclass 1\nrow 1 -1z1\nrow 1 1z1\nend\n";

const ZCERT: &str =
    "qdouble 1\norder 2\ntable\n0 1\n1 0\nroots 1\nomega trivial\ncharacters 4\nclass 0\nrow 1 1\nrow 1 -1\nclass 1\nrow 1 -1\nrow 1 1\nend\n";

fn bytes_of(rt: &HostRuntime, text: &str) -> Result<Vec<u8>, DocRefusal>
    ensures few { IfOk result (λ bytes. vec_len bytes < 2 ^ 32) }
{
    let bytes = Vec::from_slice(rt.alloc(), text.as_bytes())?;
    if bytes.len() < 4194304 {
        Ok(bytes)
    } else {
        Err(DocRefusal::Memory)
    }
}

fn read_as(rt: &HostRuntime, text: &str, form: Form) -> Result<Document, DocRefusal> {
    let bytes = bytes_of(rt, text)?;
    parse(rt.alloc(), &bytes, form)
}

fn read(rt: &HostRuntime, text: &str) -> Result<Document, DocRefusal> {
    read_as(rt, text, Form::Bare)
}

/// The first two coefficients of a value, where it is there.
fn front(blocks: &Blocks, b: u32, r: u32, p: u32) -> Option<(i128, i128)> {
    if b < blocks.blocks() && r < blocks.rows(b) && p < blocks.width(b, r) {
        let value = blocks.value(b, r, p);
        Some((value.coefficients[0], value.coefficients[1]))
    } else {
        None
    }
}

fn printed(rt: &HostRuntime, text: &str, form: Form) -> Result<Vec<u8>, DocRefusal> {
    let bytes = bytes_of(rt, text)?;
    let document = parse(rt.alloc(), &bytes, form)?;
    Ok(print(rt.alloc(), &document)?)
}

#[test]
fn documents(rt: HostRuntime) -> Result<(), Fail> {
    for (text, exponents) in [
        (SEMION, [0, 0, 0, 0, 0, 0, 0, 1]),
        (
            "qdouble 1 order 02 table 0 1 1 0#c\r c\nroots 2 omega sparse 3 1 1 1 9 0 1 1 4 1 1 1 7 end # end",
            [0, 0, 0, 4, 0, 0, 0, 7],
        ),
        (
            "qdouble 1 order 2 table 0 1 1 0 roots 2 omega trivial end",
            [0, 0, 0, 0, 0, 0, 0, 0],
        ),
    ] {
        let document = read(&rt, text).ok().ok_or("the text is a document")?;
        assert_eq!(rt; document.order, 2);
        assert_eq!(rt; document.roots, 2);
        assert_eq!(rt; document.table.as_slice(), [0, 1, 1, 0].as_slice());
        assert_eq!(rt; document.exponents.as_slice(), exponents.as_slice());
    }
    Ok(())
}

#[test]
fn refusals(rt: HostRuntime) {
    for (text, offset, expected) in [
        ("", 0, Expected::Qdouble),
        ("qdouble 2", 8, Expected::One),
        ("qdouble 1 #", 11, Expected::Order),
        (
            "qdouble 1 order 1 table 0 roots 1 omega sparse 4294967295",
            57,
            Expected::Number,
        ),
        (
            "qdouble 1 order 1 table 0 roots 1 omega sparse 1 0 1 0 5 end",
            51,
            Expected::Element,
        ),
        (
            "qdouble 1 order 1 table 0 roots 1 omega Dense",
            40,
            Expected::Form,
        ),
        (
            "qdouble 1 order 1 table 0 roots 1 omega trivial ending",
            48,
            Expected::End,
        ),
        (
            "qdouble 1 order 1 table 0 roots 1 omega trivial end end",
            52,
            Expected::Nothing,
        ),
    ] {
        assert_eq!(rt;
            read(&rt, text).err(),
            Some(DocRefusal::Syntax { offset, expected }),
            "at {text}"
        );
    }
    for (text, refusal) in [
        ("qdouble 1 order 61", DocRefusal::Order { number: 61 }),
        (
            "qdouble 1 order 99999999999",
            DocRefusal::Wide { offset: 16 },
        ),
        (
            "qdouble 1 order 1 table 0 roots 65",
            DocRefusal::Roots { number: 65 },
        ),
        (
            "qdouble 1 order 1 table 0 roots 1 omega trivial characters 4",
            DocRefusal::Section { offset: 48 },
        ),
    ] {
        assert_eq!(rt; read(&rt, text).err(), Some(refusal), "at {text}");
    }
}

#[test]
fn characters(rt: HostRuntime) -> Result<(), Fail> {
    for (text, last) in [(CERT, [(0, -1), (0, 1)]), (ZCERT, [(-1, 0), (1, 0)])] {
        let document = read_as(&rt, text, Form::WithCharacters)
            .ok()
            .ok_or("the text is a document")?;
        let given = document.characters.ok_or("it has characters")?;
        assert_eq!(rt; given.conductor, 4);
        assert_eq!(rt; given.blocks.blocks(), 2);
        for (b, r, p, value) in [
            (0, 0, 0, Some((1, 0))),
            (0, 0, 1, Some((1, 0))),
            (0, 1, 0, Some((1, 0))),
            (0, 1, 1, Some((-1, 0))),
            (1, 0, 0, Some((1, 0))),
            (1, 0, 1, Some(last[0])),
            (1, 1, 0, Some((1, 0))),
            (1, 1, 1, Some(last[1])),
            (0, 0, 2, None),
            (1, 2, 0, None),
        ] {
            assert_eq!(rt;
                front(&given.blocks, b, r, p),
                value,
                "value {p} of row {r} of block {b}"
            );
        }
    }
    let bytes =
        "qdouble 1 order 1 table 0 roots 1 omega trivial characters 8 class 7 class 9 row end";
    let document = read_as(&rt, bytes, Form::WithCharacters)
        .ok()
        .ok_or("the text is a document")?;
    let given = document.characters.ok_or("it has characters")?;
    assert_eq!(rt; given.conductor, 8);
    let blocks = given.blocks;
    if blocks.blocks() == 2 {
        assert_eq!(rt; (blocks.representative(0), blocks.rows(0)), (7, 0));
        assert_eq!(rt; (blocks.representative(1), blocks.rows(1)), (9, 1));
    } else {
        assert_eq!(rt; blocks.blocks(), 2);
    }
    Ok(())
}

/// A refusal for a token that isn't what is expected.
fn syntax(offset: u32, expected: Expected) -> DocRefusal {
    DocRefusal::Syntax { offset, expected }
}

#[test]
fn refusals_of_the_conductor(rt: HostRuntime) {
    for (text, refusal) in [
        (
            "qdouble 1 order 1 table 0 roots 1 omega trivial end",
            syntax(48, Expected::Characters),
        ),
        (
            "qdouble 1 order 1 table 0 roots 1 omega trivial characters 5",
            syntax(59, Expected::Conductor),
        ),
        (
            "qdouble 1 order 1 table 0 roots 1 omega trivial characters class",
            syntax(59, Expected::Number),
        ),
        (
            "qdouble 1 order 1 table 0 roots 1 omega trivial characters 4294967296",
            DocRefusal::Wide { offset: 59 },
        ),
    ] {
        assert_eq!(rt;
            read_as(&rt, text, Form::WithCharacters).err(),
            Some(refusal),
            "at {text}"
        );
    }
    assert_eq!(rt;
        read(&rt, CERT).err(),
        Some(DocRefusal::Section { offset: 68 })
    );
}

#[test]
fn refusals_of_rows(rt: HostRuntime) {
    for (text, refusal) in [
        (
            "qdouble 1 order 1 table 0 roots 1 omega trivial characters 4 row 1 end",
            syntax(61, Expected::End),
        ),
        (
            "qdouble 1 order 1 table 0 roots 1 omega trivial characters 4 class 0 5 end",
            syntax(69, Expected::End),
        ),
        (
            "qdouble 1 order 1 table 0 roots 1 omega trivial characters 4 class 0 row +1 end",
            syntax(73, Expected::End),
        ),
        (
            "qdouble 1 order 1 table 0 roots 1 omega trivial characters 4 class 0 row -x end",
            syntax(73, Expected::Value),
        ),
        (
            "qdouble 1 order 1 table 0 roots 1 omega trivial characters 4 class 0 row 01 end",
            syntax(73, Expected::Value),
        ),
        (
            "qdouble 1 order 1 table 0 roots 1 omega trivial characters 4 class 0 row 1329227995784915872903807060280344576z9 end",
            syntax(73, Expected::Value),
        ),
        (
            "qdouble 1\norder 2\ntable\n0 1\n1 0\nroots 2\nomega dense\n0 0\n0 0\n0 0\n0 1\ncharacters 4\nclass 0\nrow 1 1\nrow 1 1329227995784915872903807060280344576\n",
            DocRefusal::Wide { offset: 103 },
        ),
    ] {
        assert_eq!(rt;
            read_as(&rt, text, Form::WithCharacters).err(),
            Some(refusal),
            "at {text}"
        );
    }
}

#[test]
fn canonical(rt: HostRuntime) -> Result<(), Fail> {
    for (text, form, canonical) in [
        (CERT, Form::WithCharacters, CERT),
        (
            "qdouble 1 order 1 table 0 roots 1 omega trivial characters 8 class 07 class 9 row row 0 end",
            Form::WithCharacters,
            "qdouble 1\norder 1\ntable\n0\nroots 1\nomega trivial\ncharacters 8\nclass 7\nclass 9\nrow\nrow 0\nend\n",
        ),
        (
            "qdouble 1 order 2 table 0 1 1 0 roots 2 omega sparse 2 0 0 1 4 1 1 1 131 end",
            Form::Bare,
            SEMION,
        ),
        (
            "qdouble 1 order 1 table 0 roots 3 omega dense 6 end",
            Form::Bare,
            "qdouble 1\norder 1\ntable\n0\nroots 3\nomega trivial\nend\n",
        ),
    ] {
        let out = printed(&rt, text, form)
            .ok()
            .ok_or("the text is a document")?;
        assert_eq!(rt; out.as_slice(), canonical.as_bytes());
    }
    Ok(())
}
