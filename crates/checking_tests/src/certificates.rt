//! The certificate of one subclass axiom, its text cut and changed, and small texts and certificates beside it.
//!
//! Two tests make the ontologies, and functions that borrow them look at all the rest.

mod readers;
mod same_lines;

ghost use Rattle.certificate.specs.Writability.{HasText};

use crate::documents::ontology_of;
use axioms::{ExprId, IndId, Memory, Ontology, PropId};
use certificate::{
    CertFault, Certificate, Claim, Conclusion, Format, FormatOne, FormatTwo, FormatType, Line,
    Listed, MakeFault, Rule, Subject, one_certificate, one_text, read_certificate, texts,
    there_and_back,
};
use certificate_text::{LineText, ListedText, certificate_bytes, write_certificate};
use device::BufferSink;
use readers::{
    LINES, assert_failing_reads, assert_lines, assert_listed_behind_lines, assert_no_readers,
    assert_premises_kept, assert_refused_behind_lines,
};
use std::alloc::{AllocError, Global};
use std::process::Abort;
use std::random::RandomSource;
use std::test::Fail;

/// A certificate of the ontology of the one axiom SubClassOf(A B).
const TEXT: &[u8] =
    b"elcert 1 consistent\nsub e0 e0 K1\nsub e1 e1 K1\nsub e2 e2 K1\nsub e2 e0 K2\nsub e2 e3 K4 a1 3\nsub e3 e3 K1\nsub e3 e0 K2\ndomain 3\nclass e2 1\nclass e3 1 2\nclaim e0 0\nclaim e2 1\nclaim e3 2\nend\n";

/// The same certificate in format 2.
const IN_FORMAT_TWO: &[u8] =
    b"elcert 2 consistent\nsub e0 e0 K1\nsub e1 e1 K1\nsub e2 e2 K1\nsub e2 e0 K2\nsub e2 e3 K4 a1 2\nsub e3 e3 K1\nsub e3 e0 K2\ndomain 3\nclass e2 1\nclass e3 1-2\nclaim e0 0\nclaim e2 1\nclaim e3 2\nend\n";

/// SubClassOf(A B), of the classes of the numbers 2 and 3.
fn one_subclass<R: AllocGlobal + RandomSource>(rt: &R) -> Result<Ontology, Fail> {
    ontology_of(rt, "Ontology(SubClassOf(<x:A> <x:B>))")
}

/// A class A, properties r and s, individuals a and b, and no axioms.
fn names<R: AllocGlobal + RandomSource>(rt: &R) -> Result<Ontology, Fail> {
    ontology_of(
        rt,
        "Prefix(:=<x:>) Ontology(
Declaration(Class(:A)) Declaration(ObjectProperty(:r)) Declaration(ObjectProperty(:s))
Declaration(NamedIndividual(:a)) Declaration(NamedIndividual(:b)))",
    )
}

/// Whether reading the bytes stops there, or where no place is given, whether they are read.
fn stops_at(alloc: Global, ontology: &Ontology, bytes: &[u8], place: Option<usize>) -> bool {
    let expected = place.map(|at| CertFault::BadText { at });
    read_certificate(alloc, ontology, bytes).err() == expected
}

/// Whether this is the certificate's text in the format, in memory.
fn has_bytes(alloc: Global, certificate: &Certificate, format: Format, text: &[u8]) -> bool {
    match certificate_bytes(alloc, certificate, format) {
        Ok(bytes) => bytes.as_slice() == text,
        Err(_) => false,
    }
}

/// Whether this is the certificate's text in the format, in memory and through a sink.
fn is_text(
    alloc: Global,
    ontology: &Ontology,
    certificate: &Certificate,
    format: Format,
    text: &[u8],
) -> bool
    requires { HasText ontology.now Format.One certificate.now }
{
    let mut sink = BufferSink::new(alloc);
    write_certificate(alloc, ontology, certificate, format, &mut sink).is_ok()
        && sink.bytes() == text
        && has_bytes(alloc, certificate, format, text)
}

/// The lines as the text of a certificate of the format.
fn grown_lines<F: FormatType>(alloc: Global, lines: &[Line]) -> Result<LineText<F>, Memory> {
    let mut text = LineText::new(alloc)?;
    for line in lines {
        text.push(line)?;
    }
    Ok(text)
}

/// Adds the rows of classes and of pairs.
fn add_rows<F: FormatType>(text: &mut ListedText<F>, listed: &Listed) -> Result<(), Memory> {
    for row in &listed.classes {
        text.push_class(row)?;
    }
    for row in &listed.pairs {
        text.push_pairs(row)?;
    }
    Ok(())
}

/// The text of the certificate of the lines and of the interpretation, grown line by line and row by row.
fn grown<F: FormatType>(alloc: Global, lines: &[Line], listed: &Listed) -> Result<Vec<u8>, Memory> {
    let mut text = grown_lines::<F>(alloc, lines)?.with_domain(listed.domain)?;
    add_rows(&mut text, listed)?;
    text.end(&listed.individuals, &listed.claims)
}

/// Whether the text of a certificate of the format grows to this, where it lists an interpretation.
fn grows_to<F: FormatType>(alloc: Global, certificate: &Certificate, text: &[u8]) -> bool {
    let Some(listed) = certificate.listed() else {
        return true;
    };
    match grown::<F>(alloc, certificate.lines(), listed) {
        Ok(bytes) => bytes.as_slice() == text,
        Err(_) => false,
    }
}

/// Whether the text, which is in the format, is read, and written again as it was.
fn is_kept<F: FormatType>(alloc: Global, ontology: &Ontology, text: &[u8]) -> bool {
    match read_certificate(alloc, ontology, text) {
        Ok(certificate) => {
            is_text(alloc, ontology, &certificate, F::format(), text)
                && grows_to::<F>(alloc, &certificate, text)
        }
        Err(_) => false,
    }
}

/// Whether the certificate has so many lines, and the domain and the claims of its interpretation are these.
fn are_members(certificate: &Certificate, lines: usize, domain: u32, claims: &[Claim]) -> bool {
    let Some(listed) = certificate.listed() else {
        return false;
    };
    certificate.lines().len() == lines
        && listed.domain == domain
        && listed.claims.as_slice() == claims
}

/// The claims of the text.
const CLAIMS: &[Claim] = &[
    Claim {
        class: ExprId(0),
        element: 0,
    },
    Claim {
        class: ExprId(2),
        element: 1,
    },
    Claim {
        class: ExprId(3),
        element: 2,
    },
];

/// Whether the certificate of the text has these members.
fn has_members(alloc: Global, ontology: &Ontology, text: &[u8]) -> bool {
    match read_certificate(alloc, ontology, text) {
        Ok(certificate) => are_members(&certificate, 7, 3, CLAIMS),
        Err(_) => false,
    }
}

/// The text, which is in the format, is kept, and has its members.
fn assert_kept<F: FormatType, R: AllocGlobal + Abort>(rt: &R, ontology: &Ontology, text: &[u8]) {
    assert!(rt; is_kept::<F>(rt.alloc(), ontology, text), "kept");
    assert!(rt; has_members(rt.alloc(), ontology, text), "members");
}

#[test]
fn laws() {
    one_certificate();
    one_text();
    texts();
    there_and_back();
}

/// Whether reading the text, cut there, stops at the start of its last line.
fn is_cut(alloc: Global, ontology: &Ontology, cut: usize) -> bool {
    let prefix = TEXT.get(..cut).unwrap_or(TEXT);
    let last_end = prefix.iter().rposition(|byte| *byte == b'\n');
    let start = last_end.map_or(0, |at| at + 1);
    stops_at(alloc, ontology, prefix, Some(start))
}

/// Each prefix of the text is cut so.
fn are_cut<R: AllocGlobal + Abort>(rt: &R, ontology: &Ontology) {
    for cut in 0..TEXT.len() {
        assert!(rt; is_cut(rt.alloc(), ontology, cut), "cut after {cut}");
    }
}

/// From which byte to which a part of the text is replaced, by what, and where reading it stops then, if it does.
type Change = (usize, usize, &'static str, Option<usize>);

/// Texts of other certificates, then lines and then interpretations that are those of none.
const CHANGES: &[Change] = &[
    (169, 170, "0", None),
    (72, 90, "", None),
    (88, 89, "5", None),
    (88, 89, "6", None),
    (88, 89, "99999999999", None),
    (88, 89, "18446744073709551615", None),
    (145, 148, "2", None),
    (171, 182, "", None),
    (88, 89, "0", Some(72)),
    (88, 89, "18446744073709551616", Some(72)),
    (85, 87, "a2", Some(72)),
    (85, 87, "a0", Some(72)),
    (25, 26, "00", Some(20)),
    (31, 32, "20", None),
    (31, 32, "21", Some(20)),
    (28, 29, "4", Some(20)),
    (23, 24, "  ", Some(20)),
    (123, 124, "0", Some(116)),
    (123, 124, "4294967296", Some(116)),
    (143, 144, "2", Some(136)),
    (145, 148, "2 1", Some(136)),
    (144, 148, "", Some(136)),
    (180, 181, "3", Some(171)),
    (182, 186, "", Some(182)),
    (186, 186, "x", Some(186)),
];

/// The text with one part of it replaced.
fn changed(alloc: Global, from: usize, to: usize, part: &str) -> Result<Vec<u8>, AllocError> {
    let mut text = Vec::from_slice(alloc, TEXT.get(..from).unwrap_or(b""))?;
    text.extend_from_slice(part.as_bytes())?;
    text.extend_from_slice(TEXT.get(to..).unwrap_or(b""))?;
    Ok(text)
}

/// Whether reading the changed text stops there.
fn is_changed(alloc: Global, ontology: &Ontology, change: Change) -> bool {
    let (from, to, part, at) = change;
    match changed(alloc, from, to, part) {
        Ok(text) => stops_at(alloc, ontology, &text, at),
        Err(_) => false,
    }
}

/// Each change has reading stop at its place.
fn are_changed<R: AllocGlobal + Abort>(rt: &R, ontology: &Ontology) {
    for change in CHANGES {
        let (from, _, part, _) = *change;
        assert!(rt;
            is_changed(rt.alloc(), ontology, *change),
            "{part} at {from}"
        );
    }
}

/// Texts over the names: lines of individuals, then listed individuals and pairs; and where reading stops, if it does.
const TEXTS: &[(&str, Option<usize>)] = &[
    (
        "elcert 1 inconsistent\nedge i1 p0 e2 K8 1\nedge e2 p1 i0 K16\nend\n",
        None,
    ),
    ("elcert 1 inconsistent\nedge i2 p0 e2 K8 1\nend\n", Some(22)),
    ("elcert 1 inconsistent\nedge i1 p2 e2 K8 1\nend\n", Some(22)),
    ("elcert 1 inconsistent\ndomain 1\nend\n", Some(22)),
    (
        "elcert 1 consistent\ndomain 2\nsucc p0 1 0 1\nsucc p1 0 0\nind i0 0\nind i1 0\nend\n",
        None,
    ),
    (
        "elcert 1 consistent\ndomain 2\nsucc p1 0 0\nsucc p0 1 0 1\nind i0 0\nind i1 0\nend\n",
        Some(41),
    ),
    ("elcert 1 consistent\ndomain 2\nind i0 0\nend\n", Some(38)),
    (
        "elcert 1 consistent\ndomain 2\nind i0 0\nind i1 2\nend\n",
        Some(38),
    ),
];

/// Reading each of the texts stops there, and those that are read are kept.
fn are_read<R: AllocGlobal + Abort>(rt: &R, ontology: &Ontology) {
    for (text, at) in TEXTS {
        let bytes = text.as_bytes();
        assert!(rt;
            stops_at(rt.alloc(), ontology, bytes, *at)
                && (at.is_some() || is_kept::<FormatOne>(rt.alloc(), ontology, bytes)),
            "{text}"
        );
    }
}

/// The same in format 2: lines of individuals, pairs whose targets are neighbours, and first lines.
const TEXTS_IN_FORMAT_TWO: &[(&str, Option<usize>)] = &[
    (
        "elcert 2 inconsistent\nedge i1 p0 e2 K16\nedge e2 p1 i0 K8 1\nend\n",
        None,
    ),
    ("elcert 2 inconsistent\nedge i1 p0 e2 K8 1\nend\n", Some(22)),
    (
        "elcert 2 consistent\ndomain 4\nsucc p0 1 0-1 3\nsucc p1 0 0\nind i0 0\nind i1 0\nend\n",
        None,
    ),
    (
        "elcert 2 consistent\ndomain 4\nsucc p0 1 0 1 3\nind i0 0\nind i1 0\nend\n",
        Some(29),
    ),
    ("elcert 3 inconsistent\nend\n", Some(0)),
    ("elcert 02 inconsistent\nend\n", Some(0)),
];

/// Reading each of these stops there, and those that are read are kept.
fn are_read_in_format_two<R: AllocGlobal + Abort>(rt: &R, ontology: &Ontology) {
    for (text, at) in TEXTS_IN_FORMAT_TWO {
        let bytes = text.as_bytes();
        assert!(rt;
            stops_at(rt.alloc(), ontology, bytes, *at)
                && (at.is_some() || is_kept::<FormatTwo>(rt.alloc(), ontology, bytes)),
            "{text}"
        );
    }
}

/// The line that the expression leads to the individual a by s, by K16.
fn edge(
    alloc: Global,
    expression: u32,
    axiom: Option<usize>,
    premise: u64,
) -> Result<Line, AllocError> {
    let source = Subject::Expr(ExprId(expression));
    let target = Subject::Individual(IndId(0));
    Ok(Line {
        conclusion: Conclusion::Edge(source, PropId(1), target),
        rule: Rule::K16,
        axiom,
        premises: vec![in alloc; premise]?,
    })
}

/// This one line.
fn one_edge(
    alloc: Global,
    expression: u32,
    axiom: Option<usize>,
    premise: u64,
) -> Result<Vec<Line>, AllocError> {
    let line = edge(alloc, expression, axiom, premise)?;
    Ok(vec![in alloc; line]?)
}

/// Whether the certificate of a line that is there has its text.
fn is_made(alloc: Global, ontology: &Ontology) -> Result<bool, AllocError> {
    let text = b"elcert 1 inconsistent\nedge e2 p1 i0 K16 7\nend\n";
    let lines = one_edge(alloc, 2, None, 7)?;
    match Certificate::new(ontology, lines, None) {
        Ok(certificate) => Ok(has_bytes(alloc, &certificate, Format::One, text)),
        Err(_) => Ok(false),
    }
}

/// Whether no certificate is made of the line.
fn is_not_made(
    alloc: Global,
    ontology: &Ontology,
    expression: u32,
    axiom: Option<usize>,
    premise: u64,
) -> Result<bool, AllocError> {
    let lines = one_edge(alloc, expression, axiom, premise)?;
    Ok(Certificate::new(ontology, lines, None).err() == Some(MakeFault::NoText))
}

/// A certificate is made of a line, and none where a number is out of range.
fn assert_made<R: AllocGlobal + Abort>(rt: &R, ontology: &Ontology) {
    let alloc = rt.alloc();
    assert!(rt; is_made(alloc, ontology) == Ok(true), "made");
    assert!(rt;
        is_not_made(alloc, ontology, 3, None, 7) == Ok(true),
        "expression"
    );
    assert!(rt;
        is_not_made(alloc, ontology, 2, Some(1), 7) == Ok(true),
        "axiom"
    );
    assert!(rt;
        is_not_made(alloc, ontology, 2, None, 0) == Ok(true),
        "premise"
    );
    assert!(rt; Rule::K16.number() == 16, "number");
}

/// Whether a text of the format takes a first line with this premise.
fn takes_premise<F: FormatType>(alloc: Global, premise: u64) -> Result<bool, Memory> {
    let line = edge(alloc, 2, None, premise)?;
    Ok(LineText::<F>::new(alloc)?.push(&line).is_ok())
}

/// A text of format 2 takes no line with a premise that is not earlier.
fn assert_later_premise_refused<R: AllocGlobal + Abort>(rt: &R) {
    assert!(rt;
        takes_premise::<FormatOne>(rt.alloc(), 1) == Ok(true),
        "format 1"
    );
    assert!(rt;
        takes_premise::<FormatTwo>(rt.alloc(), 1) == Ok(false),
        "format 2"
    );
}

#[test]
fn certificates_of_one_subclass(rt: HostRuntime) -> Result<(), Fail> {
    let ontology = one_subclass(&rt)?;
    assert_kept::<FormatOne, _>(&rt, &ontology, TEXT);
    assert_kept::<FormatTwo, _>(&rt, &ontology, IN_FORMAT_TWO);
    assert_lines(&rt, &ontology, TEXT);
    assert_lines(&rt, &ontology, IN_FORMAT_TWO);
    assert_listed_behind_lines(&rt, &ontology);
    assert_failing_reads(&rt, &ontology);
    are_cut(&rt, &ontology);
    are_changed(&rt, &ontology);
    Ok(())
}

#[test]
fn certificates_over_names(rt: HostRuntime) -> Result<(), Fail> {
    let ontology = names(&rt)?;
    assert_lines(&rt, &ontology, LINES);
    assert_refused_behind_lines(&rt, &ontology);
    assert_no_readers(&rt, &ontology);
    assert_premises_kept(&rt, &ontology);
    are_read(&rt, &ontology);
    are_read_in_format_two(&rt, &ontology);
    assert_made(&rt, &ontology);
    assert_later_premise_refused(&rt);
    Ok(())
}
