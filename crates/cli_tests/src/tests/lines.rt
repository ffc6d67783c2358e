//! Runs that tell faults of their document with lines and columns.

use super::checking::{ONE_CERTIFICATE, put_all};
use super::receivers::received;
use super::*;
use device::SliceSource;
use receiving::{Limits, Means, Reading, Version, document_bytes, read_by_lines};

/// What the row shows, the document, and what is told of it. Columns count bytes.
const FAULTS: &[(&str, &[u8], &str)] = &[
    ("the first byte", b")", "P1 at byte 0 line 1 column 1\n"),
    ("no byte", b"", "P2 at byte 0 line 1 column 1\n"),
    (
        "behind line feeds",
        b"Ontology(\n\nSubClassOf(\n  _:b <x:B>)\n)\n",
        "F6 at byte 25 line 4 column 3\n",
    ),
    (
        "behind a line feed",
        b"Ontology(\nFrobnicate())",
        "F2 at byte 10: Frobnicate line 2 column 1\n",
    ),
    (
        "a last line without a feed",
        b"Ontology(\nSubClassOf(<x:A> owl:real))",
        "F5 at byte 27 line 2 column 18\n",
    ),
    (
        "a line behind a carriage return and a feed",
        b"Ontology(\r\nSubClassOf(q:A <x:B>))\r\n",
        "P3 at byte 22 line 2 column 12\n",
    ),
    (
        "a carriage return in the line",
        b"Ontology(\rFrobnicate())",
        "F2 at byte 10: Frobnicate line 1 column 11\n",
    ),
    (
        "behind a character of two bytes",
        b"Ontology(\nSubClassOf(<x:\xc3\xa9> q:A))",
        "P3 at byte 28 line 2 column 19\n",
    ),
    (
        "the end of the text",
        b"Ontology(\nSubClassOf(<x:A>",
        "P2 at byte 26 line 2 column 17\n",
    ),
    (
        "the end before a line feed",
        b"Ontology(\n",
        "P2 at byte 9 line 1 column 10\n",
    ),
    (
        "bytes that are no text",
        b"Ontology(\n\xff",
        "U1 at byte 10 line 2 column 1\n",
    ),
    (
        "words that touch",
        b"Ontology(\n SubClassOf(owl:Thing:A <x:B>))",
        "X4 at byte 22 line 2 column 13\n",
    ),
    (
        "three faults",
        b"Ontology(HasKey(<x:A> (<x:p>) ())\nSubClassOf(_:b <x:B>)\nFrobnicate() )",
        "F1 at byte 9: HasKey line 1 column 10\nF6 at byte 45 line 2 column 12\nF2 at byte 56: Frobnicate line 3 column 1\n",
    ),
];

const LINED_CHECK: &[&str] = &["elc", "check", "doc", "tax", "inst", "cert", "--lines"];

#[test]
fn faults_with_lines_and_columns(rt: HostRuntime) -> Result<(), Fail> {
    for row in FAULTS {
        let (case, document, told) = *row;
        let run = alone(&rt, LINED_CHECK, document)?;
        assert!(rt; is_run(&run, 3, "", told), "{case}");
    }
    Ok(())
}

/// Lines of words, over a document whose fault stands in the second line.
const COMMANDS: &[&str] = &[
    "elc classify doc tax inst cert --lines",
    "elc check doc tax inst cert --lines --progress",
    "elc convert doc cert out --lines",
    "elc infer doc out --lines",
    "elc instances doc x:A --lines",
    "elc supers doc x:A --lines",
    "elc subs doc x:A --lines",
    "elc equivalents doc x:A --lines",
    "elc parents doc x:A --lines",
    "elc children doc x:A --lines",
    "elc explain doc x:A x:B --lines",
    "elc lacks doc x:A x:B --lines",
    "elc types doc x:a --lines",
    "elc unsatisfiable doc --lines",
    "elc query doc <x:A> --lines",
    "elc session doc --lines",
];

const FAULTY: &[u8] = b"Ontology(\nFrobnicate())";

const FAULTY_TOLD: &str = "F2 at byte 10: Frobnicate line 2 column 1\n";

#[test]
fn each_command_that_has_the_flag(rt: HostRuntime) -> Result<(), Fail> {
    for line in COMMANDS {
        let words: Vec<&str> = line.split(' ').collect(rt.alloc())?;
        let run = alone(&rt, &words, FAULTY)?;
        assert!(rt; is_run(&run, 3, "", FAULTY_TOLD), "{line}");
    }
    Ok(())
}

#[test]
fn what_a_receiver_is_told(rt: HostRuntime) -> Result<(), Fail> {
    let mut files = files_with(rt.alloc(), FAULTY)?;
    let check = &["elcheck", "doc", "tax", "inst", "cert", "--lines"];
    let run = received(&rt, check.as_slice(), &mut files)?;
    assert!(rt; is_run(&run, 3, "", FAULTY_TOLD));
    let convert = &["elcheck", "convert", "doc", "cert", "out", "--lines"];
    let run = received(&rt, convert.as_slice(), &mut files)?;
    assert!(rt; is_run(&run, 3, "", FAULTY_TOLD));
    Ok(())
}

#[test]
fn without_the_flag_and_without_a_place(rt: HostRuntime) -> Result<(), Fail> {
    let run = alone(&rt, CHECK, FAULTY)?;
    assert!(rt; is_run(&run, 3, "", "F2 at byte 10: Frobnicate\n"));
    let limited = &[
        "elc",
        "check",
        "doc",
        "tax",
        "inst",
        "cert",
        "--lines",
        "--max-bytes",
        "4",
    ];
    let run = alone(&rt, limited.as_slice(), FAULTY)?;
    assert!(rt; is_run(&run, 5, "", "limit: more than 4 bytes\n"));
    let missing = &["elc", "session", "none", "--lines"];
    let run = alone(&rt, missing.as_slice(), FAULTY)?;
    assert!(rt; is_run(&run, 6, "", "cannot read none\n"));
    Ok(())
}

#[test]
fn documents_without_a_fault(rt: HostRuntime) -> Result<(), Fail> {
    let mut files = files_with(rt.alloc(), ONE_DOCUMENT)?;
    put_all(&mut files, ONE, NO_INSTANCES, ONE_CERTIFICATE)?;
    let run = run_of(&rt, LINED_CHECK, &mut files)?;
    assert!(rt; is_run(&run, 0, "accepted\n", ""));
    let check = &["elcheck", "doc", "tax", "inst", "cert", "--lines"];
    let run = received(&rt, check.as_slice(), &mut files)?;
    assert!(rt; is_run(&run, 0, "accepted\n", ""));
    Ok(())
}

const LIMITS: Limits = Limits {
    max_bytes: 33,
    max_facts: 1,
    version: Version::One,
};

#[test]
fn read_before_a_run(rt: HostRuntime) -> Result<(), Fail> {
    let alloc = rt.alloc();
    let files = files_with(alloc, ONE_DOCUMENT)?;
    let mut err = BufferSink::new(alloc);
    let state = RandomState::new(&rt)?;
    let reading = Reading {
        means: Means { alloc, state },
        path: "doc",
        limits: LIMITS,
    };
    let read = read_by_lines(&reading, &files, &mut err);
    assert!(rt; read == Ok(()) && err.bytes().is_empty());
    let mut document = SliceSource::new(ONE_DOCUMENT);
    let bytes = document_bytes(alloc, &mut document, &LIMITS)?;
    assert!(rt; bytes.as_slice() == ONE_DOCUMENT);
    Ok(())
}
