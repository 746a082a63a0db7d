//! Whole runs over sources and sinks in memory.

use super::*;
use qd_io::{MemSink, MemSource, SureSink, SureSource};
use std::alloc::{AllocError, Global};
use std::process::Abort;
use std::test::Fail;

const SEMION: &str =
    "qdouble 1\norder 2\ntable\n0 1\n1 0\nroots 2\nomega dense\n0 0\n0 0\n0 0\n0 1\nend\n";

const NO_GROUP: &str = "qdouble 1\norder 2\ntable\n0 1\n1 1\nroots 1\nomega trivial\nend\n";

const REPORT: &str = "group order 2 identity 0 exponent 2\ncocycle roots 2\nend\n";

const CLASSES: &str = "group order 2 identity 0 exponent 2\ncocycle roots 2\n\
    class 0 at 0 size 1 centraliser 2 rank 2\nclass 1 at 1 size 1 centraliser 2 rank 2\nsimples 4\nend\n";

const VERIFIED: &str = "group order 2 identity 0 exponent 2\ncocycle roots 2\n\
    class 0 at 0 size 1 centraliser 2 rank 2\nclass 1 at 1 size 1 centraliser 2 rank 2\nsimples 4\nconductor 4\n\
    simple 0 class 0 degree 1 dimension 1 twist 0\nchi 0 1 1\nsimple 1 class 0 degree 1 dimension 1 twist 0\nchi 1 1 -1\n\
    simple 2 class 1 degree 1 dimension 1 twist 3\nchi 2 1 -1z1\nsimple 3 class 1 degree 1 dimension 1 twist 1\nchi 3 1 1z1\n\
    S over 2\nS 0 1 1 1 1\nS 1 1 1 -1 -1\nS 2 1 -1 -1 1\nS 3 1 -1 1 -1\nend\n";

/// The report of `data 5` on the twisted group of order two, up to its end.
const LIFTED: &str = "group order 2 identity 0 exponent 2\ncocycle roots 2\n\
    class 0 at 0 size 1 centraliser 2 rank 2\nclass 1 at 1 size 1 centraliser 2 rank 2\nsimples 4\nconductor 4\n\
    modulus 5 root 2\n\
    simple 0 class 0 degree 1 dimension 1 twist 0\nchi 0 1 1\nsimple 1 class 0 degree 1 dimension 1 twist 0\nchi 1 1 -1\n\
    simple 2 class 1 degree 1 dimension 1 twist 3\nchi 2 1 -1z1\nsimple 3 class 1 degree 1 dimension 1 twist 1\nchi 3 1 1z1\n\
    S over 2\nS 0 1 1 1 1\nS 1 1 1 -1 -1\nS 2 1 -1 -1 1\nS 3 1 -1 1 -1\n";

const NUMBERS: &str =
    "N 0 0 0 1\nN 0 1 1 1\nN 0 2 2 1\nN 0 3 3 1\nN 1 0 1 1\nN 1 1 0 1\nN 1 2 3 1\nN 1 3 2 1\n\
    N 2 0 2 1\nN 2 1 3 1\nN 2 2 0 1\nN 2 3 1 1\nN 3 0 3 1\nN 3 1 2 1\nN 3 2 1 1\nN 3 3 0 1\n";

const INDICATORS: &str = "indicators 2 over 4\nnu 0 4\nnu 1 4\nnu 2 -4\nnu 3 -4\n";

const VERIFIED_TRIVIAL: &str = "group order 2 identity 0 exponent 2\ncocycle roots 1\n\
    class 0 at 0 size 1 centraliser 2 rank 2\nclass 1 at 1 size 1 centraliser 2 rank 2\nsimples 4\nconductor 4\n\
    simple 0 class 0 degree 1 dimension 1 twist 0\nchi 0 1 1\nsimple 1 class 0 degree 1 dimension 1 twist 0\nchi 1 1 -1\n\
    simple 2 class 1 degree 1 dimension 1 twist 2\nchi 2 1 -1\nsimple 3 class 1 degree 1 dimension 1 twist 0\nchi 3 1 1\n\
    S over 2\nS 0 1 1 1 1\nS 1 1 1 -1 -1\nS 2 1 -1 1 -1\nS 3 1 -1 -1 1\nend\n";

/// The document of the group of order two, with its cocycle that isn't trivial and then with the trivial one, up to the rows that it gives.
const TWISTED: &str =
    "qdouble 1\norder 2\ntable\n0 1\n1 0\nroots 2\nomega dense\n0 0\n0 0\n0 0\n0 1\n";

const TRIVIAL: &str = "qdouble 1\norder 2\ntable\n0 1\n1 0\nroots 1\nomega trivial\n";

const CYCLIC: &str = "qdouble 1\norder 2\ntable\n0 1\n1 0\nroots 1\nomega trivial\nend\n";

const CYCLIC_REPORT: &str = "group order 2 identity 0 exponent 2\ncocycle roots 1\nend\n";

/// The document of the twisted group of order two with its characters.
const CERT: &str = "qdouble 1\norder 2\ntable\n0 1\n1 0\nroots 2\nomega dense\n0 0\n0 0\n0 0\n0 1\n\
    characters 4\nclass 0\nrow 1 1\nrow 1 -1\nclass 1\nrow 1 -1z1\nrow 1 1z1\nend\n";

fn words(alloc: Global, list: &[&str]) -> Result<Vec<String>, AllocError> {
    let mut words = Vec::new(alloc);
    for word in list {
        words.push(String::from_str(alloc, word)?)?;
    }
    Ok(words)
}

fn source(alloc: Global, text: &str, fails: &[u32]) -> Result<MemSource, AllocError> {
    let bytes = Vec::from_slice(alloc, text.as_bytes())?;
    Ok(MemSource::new(bytes, 20, Vec::from_slice(alloc, fails)?))
}

fn sink(alloc: Global, fails: &[u32]) -> Result<MemSink, AllocError> {
    MemSink::new(alloc, 4096, 8, Vec::from_slice(alloc, fails)?)
}

#[test]
fn reports_on_a_document(rt: HostRuntime) -> Result<(), Fail> {
    let alloc = rt.alloc();
    let rows = [("check", REPORT), ("classes", CLASSES)];
    for (word, report) in rows {
        let mut source = SureSource::new(Vec::from_slice(alloc, SEMION.as_bytes())?);
        let mut sink = SureSink::new(alloc, report.len())?;
        let answer = run(alloc, &words(alloc, &[word])?, &mut source, &mut sink);
        assert_eq!(rt;
            answer,
            Answer {
                status: 0,
                why: Why::Done
            }
        );
        assert_eq!(rt; sink.written().as_slice(), report.as_bytes());
    }
    Ok(())
}

#[test]
fn tells_of_streams_that_fail(rt: HostRuntime) -> Result<(), Fail> {
    let alloc = rt.alloc();
    let words = words(alloc, &["check"])?;
    let never: [u32; 0] = [];

    // What is read, which calls of the source and of the sink fail, and what comes of it.
    let rows = [
        (
            SEMION,
            [2].as_slice(),
            never.as_slice(),
            12,
            Why::Read,
            "refused 12 read\n",
        ),
        (
            SEMION,
            never.as_slice(),
            [3].as_slice(),
            13,
            Why::Write { planned: 0 },
            "group order 2 id",
        ),
        (
            NO_GROUP,
            never.as_slice(),
            [2].as_slice(),
            13,
            Why::Write { planned: 4 },
            "refused ",
        ),
    ];
    for (text, source_fails, sink_fails, status, why, written) in rows {
        let mut source = source(alloc, text, source_fails)?;
        let mut sink = sink(alloc, sink_fails)?;
        let answer = run(alloc, &words, &mut source, &mut sink);
        assert_eq!(rt; answer, Answer { status, why });
        assert_eq!(rt; sink.written().as_slice(), written.as_bytes());
    }
    Ok(())
}

/// A run of which one read and one write fail, each by its number from 1, and 0 for none: the answer, and what is written.
fn run_failing(
    alloc: Global,
    list: &[&str],
    document: &str,
    read: u32,
    write: u32,
) -> Result<(Answer, Vec<u8>), AllocError> {
    let bytes = Vec::from_slice(alloc, document.as_bytes())?;
    let mut source = MemSource::new(bytes, 7, Vec::from_slice(alloc, &[read])?);
    let mut sink = MemSink::new(alloc, 4096, 9, Vec::from_slice(alloc, &[write])?)?;
    let answer = run(alloc, &words(alloc, list)?, &mut source, &mut sink);
    Ok((answer, Vec::from_slice(alloc, sink.written().as_slice())?))
}

/// How many reads a run has, each of which fails in turn and is then refused.
fn reads_that_fail(
    rt: &impl Abort,
    alloc: Global,
    list: &[&str],
    document: &str,
) -> Result<u32, Fail> {
    for before in 0..100u32 {
        let (answer, written) = run_failing(alloc, list, document, before + 1, 0)?;
        if answer.why == Why::Done {
            return Ok(before);
        }
        assert_eq!(rt;
            answer,
            Answer {
                status: 12,
                why: Why::Read
            },
            "after {before} reads"
        );
        assert_eq!(rt;
            written.as_slice(),
            b"refused 12 read\n".as_slice(),
            "after {before} reads"
        );
    }
    Ok(100)
}

/// How many writes a run has, each of which fails in turn after a proper front of the report is written.
fn writes_that_fail(
    rt: &impl Abort,
    alloc: Global,
    list: &[&str],
    document: &str,
    report: &str,
) -> Result<u32, Fail> {
    for before in 0..100u32 {
        let (answer, written) = run_failing(alloc, list, document, 0, before + 1)?;
        if answer.why == Why::Done {
            assert_eq!(rt; written.as_slice(), report.as_bytes());
            return Ok(before);
        }
        assert_eq!(rt;
            answer,
            Answer {
                status: 13,
                why: Why::Write { planned: 0 }
            },
            "after {before} writes"
        );
        assert_eq!(rt; written.len(), 9 * before as usize, "after {before} writes");
        assert!(rt;
            report.as_bytes().starts_with(written.as_slice()),
            "after {before} writes"
        );
    }
    Ok(100)
}

#[test]
fn tells_of_each_call_that_fails(rt: HostRuntime) -> Result<(), Fail> {
    let alloc = rt.alloc();

    // The words, the document and its report; how many reads of 7 bytes and writes of 9 a run has, the read of the end among them.
    let rows = [
        (["check"].as_slice(), SEMION, REPORT, 12, 7),
        (["check"].as_slice(), CYCLIC, CYCLIC_REPORT, 10, 7),
        (["verify"].as_slice(), CERT, VERIFIED, 21, 51),
    ];
    for (list, document, report, reads, writes) in rows {
        assert_eq!(rt; reads_that_fail(&rt, alloc, list, document)?, reads);
        assert_eq!(rt;
            writes_that_fail(&rt, alloc, list, document, report)?,
            writes
        );

        // Where both fail, what is refused is the read, and nothing of it is written.
        let (answer, written) = run_failing(alloc, list, document, 1, 1)?;
        assert_eq!(rt;
            answer,
            Answer {
                status: 13,
                why: Why::Write { planned: 12 }
            }
        );
        assert!(rt; written.is_empty());
    }
    Ok(())
}

#[test]
fn asks_for_a_command(rt: HostRuntime) -> Result<(), Fail> {
    let alloc = rt.alloc();
    let never: [u32; 0] = [];
    let mut source = source(alloc, SEMION, &never)?;
    let mut sink = sink(alloc, &never)?;
    let answer = run(alloc, &Vec::new(alloc), &mut source, &mut sink);
    assert_eq!(rt;
        answer,
        Answer {
            status: 2,
            why: Why::Usage
        }
    );
    assert_eq!(rt; sink.written().as_slice(), b"refused 2 usage\n".as_slice());
    Ok(())
}

/// What the program answers and writes to these words and a document.
fn assert_run(
    rt: &impl Abort,
    alloc: Global,
    list: &[&str],
    document: &str,
    status: u8,
    written: &str,
) -> Result<(), Fail> {
    let never: [u32; 0] = [];
    let mut source = source(alloc, document, &never)?;
    let mut sink = sink(alloc, &never)?;
    let answer = run(alloc, &words(alloc, list)?, &mut source, &mut sink);
    assert_eq!(rt; answer.status, status);
    assert_eq!(rt; sink.written().as_slice(), written.as_bytes());
    Ok(())
}

/// What `verify` answers and writes to a document that ends with these rows.
fn assert_verify(
    rt: &impl Abort,
    alloc: Global,
    document: &str,
    rows: &str,
    status: u8,
    written: &str,
) -> Result<(), Fail> {
    let text = format!(in alloc; "{document}{rows}end\n")?;
    assert_run(rt, alloc, &["verify"], text.as_str(), status, written)
}

#[test]
fn lifts_the_rows_of_a_modulus(rt: HostRuntime) -> Result<(), Fail> {
    let alloc = rt.alloc();
    let data = format!(in alloc; "{LIFTED}end\n")?;
    assert_run(&rt, alloc, &["data", "5"], SEMION, 0, data.as_str())?;
    let fusion = format!(in alloc; "{LIFTED}{NUMBERS}end\n")?;
    assert_run(&rt, alloc, &["fusion", "5"], SEMION, 0, fusion.as_str())?;
    let indicators = format!(in alloc; "{LIFTED}{NUMBERS}{INDICATORS}end\n")?;
    assert_run(
        &rt,
        alloc,
        &["indicators", "5", "2"],
        SEMION,
        0,
        indicators.as_str(),
    )?;

    // The words after the first, the status, and the line.
    let rows = [
        ("2", 7, "refused 7 range 2\n"),
        ("9", 7, "refused 7 unlisted 9\n"),
        ("7", 7, "refused 7 root 7 4\n"),
        ("-5", 2, "refused 2 usage\n"),
    ];
    for (modulus, status, line) in rows {
        assert_run(&rt, alloc, &["simples", modulus], SEMION, status, line)?;
    }
    Ok(())
}

#[test]
fn accepts_the_rows_of_the_classes(rt: HostRuntime) -> Result<(), Fail> {
    let documents = [
        (
            TWISTED,
            "characters 4\nclass 0\nrow 1 1\nrow 1 -1\nclass 1\nrow 1 -1z1\nrow 1 1z1\n",
            VERIFIED,
        ),
        (
            TWISTED,
            "characters 4\nclass 0\nrow 1 -1\nrow 1 1\nclass 1\nrow 1 -1z1\nrow 1 1z1\n",
            VERIFIED,
        ),
        (
            TRIVIAL,
            "characters 4\nclass 0\nrow 1 1\nrow 1 -1\nclass 1\nrow 1 -1\nrow 1 1\n",
            VERIFIED_TRIVIAL,
        ),
    ];
    for (document, rows, report) in documents {
        assert_verify(&rt, rt.alloc(), document, rows, 0, report)?;
    }
    Ok(())
}

#[test]
fn refuses_other_rows_of_the_twisted_group(rt: HostRuntime) -> Result<(), Fail> {
    // The rows of class 0, the status, and the line.
    let rows = [
        ("row 1 1\nrow 1 1\n", 9, "refused 9 product 0 0 1 0 2 0\n"),
        ("row 1 1\n", 9, "refused 9 count 0 1 2\n"),
        (
            "row 1 1\nrow 1 1298074214633706907132624082305024\n",
            11,
            "refused 11 overflow product 0 0 1 0\n",
        ),
        (
            "row 1 1\nrow 1 1329227995784915872903807060280344576\n",
            3,
            "refused 3 wide 103\n",
        ),
    ];
    for (first, status, line) in rows {
        let rows = format!(in rt.alloc();
            "characters 4\nclass 0\n{first}class 1\nrow 1 -1z1\nrow 1 1z1\n"
        )?;
        assert_verify(&rt, rt.alloc(), TWISTED, rows.as_str(), status, line)?;
    }
    Ok(())
}

#[test]
fn refuses_rows_of_another_conductor_width_or_twist(rt: HostRuntime) -> Result<(), Fail> {
    let documents = [
        (
            TWISTED,
            "characters 8\nclass 0\nrow 1 1\nrow 1 -1\nclass 1\nrow 1 -1z1\nrow 1 1z1\n",
            6,
            "refused 6 stated 8 needed 4\n",
        ),
        (
            TRIVIAL,
            "characters 4\nclass 0\nrow 1 1\nrow 1 -1\nclass 1\nrow 1 -1\nrow 1 2\n",
            9,
            "refused 9 twist 1 1 2\n",
        ),
        (
            TRIVIAL,
            "characters 4\nclass 0\nrow 1 1\nrow 1 -1\nclass 1\nrow 1 -1\nrow 1\n",
            9,
            "refused 9 width 1 1 1 2\n",
        ),
        (
            TRIVIAL,
            "characters 4\nclass 0\nrow 1 1\nrow 1 -1\n",
            9,
            "refused 9 blocks 1 2\n",
        ),
        (
            TRIVIAL,
            "characters 4\nclass 0\nrow 1 1\nrow 1 -1\nclass 0\nrow 1 -1\nrow 1 1\n",
            9,
            "refused 9 representative 1 0 1\n",
        ),
    ];
    for (document, rows, status, line) in documents {
        assert_verify(&rt, rt.alloc(), document, rows, status, line)?;
    }
    Ok(())
}

/// The document of the group of order 32 in which every element is its own inverse, with the trivial cocycle, up to the rows that it gives.
fn elementary(alloc: Global) -> Result<String, AllocError> {
    let mut text = String::from_str(alloc, "qdouble 1\norder 32\ntable\n")?;
    for g in 0..32u32 {
        for h in 0..32u32 {
            let product = g ^ h;
            let entry = format!(in alloc; "{product} ")?;
            text.push_str(entry.as_str())?;
        }
    }
    text.push_str("roots 1\nomega trivial\n")?;
    Ok(text)
}

#[test]
fn refuses_what_is_too_big_for_verify(rt: HostRuntime) -> Result<(), Fail> {
    let alloc = rt.alloc();

    // 64 roots and the exponent 2: no conductor is a multiple of 128.
    let roots = "qdouble 1\norder 2\ntable\n0 1\n1 0\nroots 64\nomega trivial\n";
    assert_verify(
        &rt,
        alloc,
        roots,
        "characters 4\n",
        6,
        "refused 6 conductor 128\n",
    )?;

    // 32 classes of rank 32; it is refused before its blocks are counted.
    let group = elementary(alloc)?;
    assert_verify(
        &rt,
        alloc,
        group.as_str(),
        "characters 4\n",
        6,
        "refused 6 simples 1024\n",
    )
}
