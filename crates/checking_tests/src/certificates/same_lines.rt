//! Lines that two individuals are one, in texts and as values.

use super::readers::assert_lines;
use super::{has_bytes, is_kept, stops_at};
use crate::documents::ontology_of;
use axioms::{IndId, Memory, Ontology};
use certificate::{
    Certificate, Conclusion, Format, FormatOne, FormatTwo, Line, MakeFault, Rule, Subject,
};
use certificate_text::LineText;
use std::alloc::{AllocError, Global};
use std::process::Abort;
use std::random::RandomSource;
use std::test::Fail;

/// A class A, a property r, individuals a, b and c, and two axioms.
fn three_individuals<R: AllocGlobal + RandomSource>(rt: &R) -> Result<Ontology, Fail> {
    ontology_of(
        rt,
        "Prefix(:=<x:>) Ontology(ClassAssertion(:A :a) ObjectPropertyAssertion(:r :a :b)
Declaration(NamedIndividual(:c)))",
    )
}

/// Texts of certificates: of one that is contradictory, and of one that lists an interpretation.
const TEXTS: &[&str] = &[
    "elcert 1 inconsistent\nsame i0 i1 K17 a1\nsame i1 i2 K17 a2\nsame i0 i2 K18 1 2\nsub i0 e1 K20 a1 3\nend\n",
    "elcert 1 consistent\nsame i2 i0 K17 a2\nsub i0 e2 K15 a1\nsub i2 e2 K19 1 2\nedge i0 p0 i1 K16 a2\nedge i2 p0 i1 K19 1 4\nsame i2 i2 K18\nsub e2 e2 K1\ndomain 1\nclass e2 0\nsucc p0 0 0\nind i0 0\nind i1 0\nind i2 0\nclaim e0 0\nclaim e2 0\nend\n",
];

/// The first of them in format 2.
const IN_FORMAT_TWO: &[u8] =
    b"elcert 2 inconsistent\nsame i0 i1 K17 a1\nsame i1 i2 K17 a2\nsame i0 i2 K18 2 1\nsub i0 e1 K20 a1 1\nend\n";

/// The texts are read, and written again as they were.
fn are_kept<R: AllocGlobal + Abort>(rt: &R, ontology: &Ontology) {
    for text in TEXTS {
        let bytes = text.as_bytes();
        assert!(rt; is_kept::<FormatOne>(rt.alloc(), ontology, bytes), "{text}");
        assert_lines(rt, ontology, bytes);
    }
    assert!(rt;
        is_kept::<FormatTwo>(rt.alloc(), ontology, IN_FORMAT_TWO),
        "format 2"
    );
    assert_lines(rt, ontology, IN_FORMAT_TWO);
}

/// What is no line: not an individual, none of the ontology, one too few or too many, numbers and spaces spelled otherwise, no rule,
/// and a rule that there is not.
const WRONG_LINES: &[&str] = &[
    "same i0 e2 K17",
    "same e0 i0 K17",
    "same e0 e2 K17",
    "same i0 i3 K17",
    "same i3 i0 K17",
    "same i0 K17",
    "same K17",
    "same i0 i1 i2 K17",
    "same i0 p0 i1 K17",
    "same i00 i1 K17",
    "same i0 i01 K17",
    "same i4294967296 i1 K17",
    "same i0 i4294967296 K17",
    "same  i0 i1 K17",
    "same i0  i1 K17",
    "samei0 i1 K17",
    "Same i0 i1 K17",
    "same i0 i1",
    "same i0 i1 K0",
    "same i0 i1 K21",
    "same i0 i1 K17 a3",
    "same i0 i1 K17 0",
];

/// The text of a line that two individuals are one, and of the other line.
fn behind_one(alloc: Global, line: &str) -> Result<Vec<u8>, AllocError> {
    let mut text = Vec::from_slice(alloc, b"elcert 1 inconsistent\nsame i0 i1 K17\n")?;
    text.extend_from_slice(line.as_bytes())?;
    text.extend_from_slice(b"\nend\n")?;
    Ok(text)
}

/// Whether reading the text of the two lines stops at the second.
fn is_refused(alloc: Global, ontology: &Ontology, line: &str) -> bool {
    match behind_one(alloc, line) {
        Ok(text) => stops_at(alloc, ontology, &text, Some(37)),
        Err(_) => false,
    }
}

/// Each of the wrong lines is refused.
fn are_refused<R: AllocGlobal + Abort>(rt: &R, ontology: &Ontology) {
    for line in WRONG_LINES {
        assert!(rt; is_refused(rt.alloc(), ontology, line), "{line}");
    }
}

/// The line that the two are one, by K17 from the first axiom.
fn same(alloc: Global, first: u32, second: u32) -> Line {
    Line {
        conclusion: Conclusion::Same(IndId(first), IndId(second)),
        rule: Rule::K17,
        axiom: Some(1),
        premises: Vec::new(alloc),
    }
}

/// This one line.
fn one_same(alloc: Global, first: u32, second: u32) -> Result<Vec<Line>, AllocError> {
    Ok(vec![in alloc; same(alloc, first, second)]?)
}

/// Whether the certificate of a line that is there has its text.
fn is_made(alloc: Global, ontology: &Ontology) -> Result<bool, AllocError> {
    let lines = one_same(alloc, 2, 0)?;
    match Certificate::new(ontology, lines, None) {
        Ok(certificate) => Ok(has_bytes(
            alloc,
            &certificate,
            Format::One,
            b"elcert 1 inconsistent\nsame i2 i0 K17 a1\nend\n",
        )),
        Err(_) => Ok(false),
    }
}

/// Whether no certificate is made of the line.
fn is_not_made(
    alloc: Global,
    ontology: &Ontology,
    first: u32,
    second: u32,
) -> Result<bool, AllocError> {
    let lines = one_same(alloc, first, second)?;
    Ok(Certificate::new(ontology, lines, None).err() == Some(MakeFault::NoText))
}

/// What the line speaks of, where a text keeps it.
fn source_in_text(alloc: Global, line: &Line) -> Result<Option<Subject>, Memory> {
    let mut text = LineText::<FormatOne>::new(alloc)?;
    text.push(line)?;
    Ok(text.source(1))
}

/// A certificate is made of a line, and none where an individual is not there; and the line speaks of its first individual.
fn assert_made<R: AllocGlobal + Abort>(rt: &R, ontology: &Ontology) {
    let alloc = rt.alloc();
    assert!(rt; is_made(alloc, ontology) == Ok(true), "made");
    assert!(rt; is_not_made(alloc, ontology, 3, 0) == Ok(true), "first");
    assert!(rt; is_not_made(alloc, ontology, 0, 3) == Ok(true), "second");
    let line = same(alloc, 2, 1);
    let first = Subject::Individual(IndId(2));
    assert!(rt; line.conclusion.source() == first, "source");
    assert!(rt;
        source_in_text(alloc, &line) == Ok(Some(first)),
        "source in a text"
    );
}

/// The numbers of the last rules.
fn are_numbered() -> bool {
    Rule::K17.number() == 17
        && Rule::K18.number() == 18
        && Rule::K19.number() == 19
        && Rule::K20.number() == 20
}

#[test]
fn same_lines(rt: HostRuntime) -> Result<(), Fail> {
    let ontology = three_individuals(&rt)?;
    are_kept(&rt, &ontology);
    are_refused(&rt, &ontology);
    assert_made(&rt, &ontology);
    assert!(rt; are_numbered(), "numbers");
    Ok(())
}
