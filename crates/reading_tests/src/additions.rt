//! Documents that are opened, and texts with their prefixes: statements that are added, and expressions that are read.

ghost use Rattle.profile.specs.Documents.{IsTaken};
ghost use Rattle.std.specs.Prelude.{IfOk, IfSome};

use crate::parts::nested;
use crate::tables::{Shown, counts, random};
use axioms::{ExprId, Ontology};
use device::SliceSource;
use profile::{
    DocumentFault, Limits, Opened, Version, read_addition, read_expression, read_opened,
};
use std::alloc::{AllocError, Global};
use std::hash::RandomState;
use std::test::Fail;

/// A document of 42 bytes, with the classes `x:A` and `x:B`.
const DOCUMENT: &str = "Prefix(:=<x:>) Ontology(SubClassOf(:A :B))";

/// What reading the document gives, where so many bytes are allowed.
fn opened_within(
    alloc: Global,
    state: RandomState,
    document: &str,
    max_bytes: u64,
) -> Option<Result<Opened, DocumentFault>>
    ensures { IfSome result (λ r. IfOk r (λ d. IsTaken d.ontology)) }
{
    let limits = Limits::new(max_bytes, 1, Version::Two)?;
    let mut source = SliceSource::new(document.as_bytes());
    Some(read_opened(alloc, &mut source, &limits, state))
}

fn opened(alloc: Global, state: RandomState, document: &str) -> Option<Opened>
    ensures { IfSome result (λ d. IsTaken d.ontology) }
{
    opened_within(alloc, state, document, 1_000)?.ok()
}

/// The counts of the ontology that has grown, or the fault.
fn shown(alloc: Global, ontology: &Ontology, answer: &Result<(), DocumentFault>) -> Shown {
    match answer {
        Ok(()) => {
            let counts = counts(ontology);
            format!(in alloc; "{counts:?}")
        }
        Err(fault) => format!(in alloc; "{fault}"),
    }
}

/// The number of the expression and the counts of the ontology that has it, or the fault.
fn shown_expression(alloc: Global, read: &Result<(Ontology, ExprId), DocumentFault>) -> Shown {
    match read {
        Ok((ontology, expression)) => {
            let counts = counts(ontology);
            let number = expression.index();
            format!(in alloc; "{number} {counts:?}")
        }
        Err(fault) => format!(in alloc; "{fault}"),
    }
}

/// What is shown when the text was read as an expression over the document's names.
fn read(alloc: Global, state: RandomState, opened: &Opened, version: Version, text: &str) -> Shown {
    let ontology = &opened.ontology;
    let read = read_expression(alloc, ontology, &opened.prefixes, version, text, state);
    shown_expression(alloc, &read)
}

/// What is shown of a copy of the document's ontology when the text was added.
fn added(alloc: Global, state: RandomState, opened: &Opened, version: Version, text: &str) -> Shown
    requires { IsTaken opened.now.ontology }
{
    let Ok(mut ontology) = opened.ontology.copy() else {
        return Err(AllocError);
    };
    let prefixes = &opened.prefixes;
    let answer = read_addition(alloc, &mut ontology, prefixes, version, text, state);
    shown(alloc, &ontology, &answer)
}

/// What is done with a text.
#[derive(Clone, Copy)]
enum Reading {
    Statements(Version),
    Expression(Version),
}

/// The answers for the rows that differ from what is expected, one behind the other.
fn differing(
    alloc: Global,
    state: RandomState,
    opened: &Opened,
    reading: Reading,
    rows: &[(&str, &str)],
) -> Shown
    requires { IsTaken opened.now.ontology }
{
    let mut out = String::new(alloc);
    for row in rows {
        let (text, expected) = *row;
        let found = match reading {
            Reading::Statements(version) => added(alloc, state, opened, version, text),
            Reading::Expression(version) => read(alloc, state, opened, version, text),
        }?;
        if found.as_str() != expected {
            out.push_str(text)?;
            out.push_str(": ")?;
            out.push_str(found.as_str())?;
        }
    }
    Ok(out)
}

fn differing_of(
    alloc: Global,
    state: RandomState,
    document: &str,
    reading: Reading,
    rows: &[(&str, &str)],
) -> Shown {
    match opened(alloc, state, document) {
        Some(opened) => differing(alloc, state, &opened, reading, rows),
        None => Err(AllocError),
    }
}

/// Texts that are added to the document, each with the counts of classes, properties, individuals, expressions and axioms
/// behind it.
const ADDED: &[(&str, &str)] = &[
    ("SubClassOf(:B :C)", "[5, 0, 0, 5, 2]"),
    ("SubClassOf(<x:A>\n  owl:Thing) # twice", "[4, 0, 0, 4, 2]"),
    (
        "Declaration(Class(:C)) ClassAssertion(ObjectSomeValuesFrom(:r :A) :a)",
        "[5, 1, 1, 6, 2]",
    ),
    // An axiom that is there is stated once more.
    ("SubClassOf(:A :B)", "[4, 0, 0, 4, 2]"),
    // Nothing new.
    ("", "[4, 0, 0, 4, 1]"),
    (" # nothing\n", "[4, 0, 0, 4, 1]"),
    ("Declaration(Class(:A))", "[4, 0, 0, 4, 1]"),
    ("AnnotationAssertion(:p :A \"t\")", "[4, 0, 0, 4, 1]"),
    (
        "SameIndividual(:a :b) DifferentIndividuals(:b :c) NegativeObjectPropertyAssertion(:r :a :c)",
        "[4, 1, 3, 4, 4]",
    ),
];

#[test]
fn texts_are_added(rt: HostRuntime) -> Result<(), Fail> {
    let differing = differing_of(
        rt.alloc(),
        random(&rt)?,
        DOCUMENT,
        Reading::Statements(Version::Two),
        ADDED,
    )?;
    assert!(rt; differing.is_empty(), "{differing}");
    Ok(())
}

/// Texts that are refused, each with its fault by place in the text.
const REFUSED: &[(&str, &str)] = &[
    ("SubClassOf(:B <x:C)", "X3 at byte 14"),
    ("SubClassOf(:B ^:C)", "X1 at byte 14"),
    ("SubClassOf(:B :C", "P2 at byte 16"),
    ("SubClassOf(:B :C))", "P1 at byte 17"),
    ("SubClassOf(:A :B) SubClassOf(q:B :C)", "P3 at byte 29"),
    // Prefixes are declared by the document alone.
    ("Prefix(q:=<y:>)", "P1 at byte 7"),
    ("Ontology(SubClassOf(:B :C))", "F3 at byte 0"),
    (":A", "F3 at byte 0"),
    ("Frobnicate()", "F2 at byte 0: Frobnicate"),
    // Every fault is told, and nothing of the text is added.
    (
        "SubClassOf(:B owl:real) SubClassOf(:B ObjectUnionOf(:B :C))",
        "F5 at byte 14\nF1 at byte 38: ObjectUnionOf",
    ),
];

#[test]
fn texts_are_refused(rt: HostRuntime) -> Result<(), Fail> {
    let differing = differing_of(
        rt.alloc(),
        random(&rt)?,
        DOCUMENT,
        Reading::Statements(Version::Two),
        REFUSED,
    )?;
    assert!(rt; differing.is_empty(), "{differing}");
    Ok(())
}

/// Expressions over the names of the document, each with its number and the counts of the ontology that has it, or its fault
/// by place in the text.
const EXPRESSIONS: &[(&str, &str)] = &[
    ("ObjectIntersectionOf(:A :B)", "4 [4, 0, 0, 5, 1]"),
    (":B # there", "3 [4, 0, 0, 4, 1]"),
    ("owl:Nothing", "1 [4, 0, 0, 4, 1]"),
    (":A ^", "X1 at byte 3"),
    ("", "P2 at byte 0"),
    (":A :B", "P1 at byte 3"),
    ("q:A", "P3 at byte 0"),
    ("ObjectUnionOf(:A :B)", "F1 at byte 0: ObjectUnionOf"),
    ("SubClassOf(:A :B)", "F3 at byte 0"),
    ("SameIndividual(:A :B)", "F3 at byte 0"),
    ("ObjectSomeValuesFrom(:r :A)", "F8 at byte 21"),
    (
        "ObjectIntersectionOf(:C owl:real)",
        "F8 at byte 21\nF5 at byte 24",
    ),
];

#[test]
fn expressions_are_read(rt: HostRuntime) -> Result<(), Fail> {
    let differing = differing_of(
        rt.alloc(),
        random(&rt)?,
        DOCUMENT,
        Reading::Expression(Version::Two),
        EXPRESSIONS,
    )?;
    assert!(rt; differing.is_empty(), "{differing}");
    Ok(())
}

/// What the first version adds to a document, and what it refuses.
const ADDED_BY_THE_FIRST: &[(&str, &str)] = &[
    ("ClassAssertion(:B :a)", "[4, 0, 1, 4, 2]"),
    ("SameIndividual(:a :b)", "F1 at byte 0: SameIndividual"),
    (
        "SubClassOf(:B :C) DifferentIndividuals(:a :b) NegativeObjectPropertyAssertion(:r :a)",
        "F1 at byte 18: DifferentIndividuals\nF1 at byte 46: NegativeObjectPropertyAssertion",
    ),
];

/// What the first version reads as an expression, and what it refuses.
const EXPRESSIONS_OF_THE_FIRST: &[(&str, &str)] = &[
    ("ObjectIntersectionOf(:A :B)", "4 [4, 0, 0, 5, 1]"),
    ("SameIndividual(:A :B)", "F1 at byte 0: SameIndividual"),
];

#[test]
fn texts_are_read_in_a_version(rt: HostRuntime) -> Result<(), Fail> {
    let state = random(&rt)?;
    let added = differing_of(
        rt.alloc(),
        state,
        DOCUMENT,
        Reading::Statements(Version::One),
        ADDED_BY_THE_FIRST,
    )?;
    assert!(rt; added.is_empty(), "{added}");
    let read = differing_of(
        rt.alloc(),
        state,
        DOCUMENT,
        Reading::Expression(Version::One),
        EXPRESSIONS_OF_THE_FIRST,
    )?;
    assert!(rt; read.is_empty(), "{read}");
    Ok(())
}

const TWO_PREFIXES: &[(&str, &str)] = &[
    ("SubClassOf(q:A <x:B>)", "[4, 0, 0, 4, 2]"),
    ("SubClassOf(:A p:B)", "P3 at byte 11"),
];

const NO_PREFIX: &[(&str, &str)] = &[
    ("SubClassOf(<x:A> owl:Nothing)", "[4, 0, 0, 4, 2]"),
    ("SubClassOf(:A <x:B>)", "P3 at byte 11"),
];

/// Names are expanded with what the document declares and the standard prefixes, and nothing else.
#[test]
fn prefixes_are_those_of_the_document(rt: HostRuntime) -> Result<(), Fail> {
    let state = random(&rt)?;
    let two = differing_of(
        rt.alloc(),
        state,
        "Prefix(p:=<x:>) Prefix(q:=<x:>) Ontology(p:o SubClassOf(p:A p:B))",
        Reading::Statements(Version::Two),
        TWO_PREFIXES,
    )?;
    assert!(rt; two.is_empty(), "{two}");
    let none = differing_of(
        rt.alloc(),
        state,
        "Ontology(SubClassOf(<x:A> <x:B>))",
        Reading::Statements(Version::Two),
        NO_PREFIX,
    )?;
    assert!(rt; none.is_empty(), "{none}");
    Ok(())
}

/// What is shown when a statement with so many class expressions, each inside of the one before it, was added.
fn added_depth(alloc: Global, state: RandomState, opened: &Opened, levels: usize) -> Shown
    requires { IsTaken opened.now.ontology }
{
    let expression = nested(alloc, levels)?;
    let statement = format!(in alloc; "SubClassOf(<x:A> {expression})")?;
    added(alloc, state, opened, Version::Two, statement.as_str())
}

fn shown_depth(alloc: Global, state: RandomState, levels: usize) -> Shown {
    match opened(alloc, state, DOCUMENT) {
        Some(opened) => added_depth(alloc, state, &opened, levels),
        None => Err(AllocError),
    }
}

/// Statements as deep as may be, and one that is deeper.
#[test]
fn deepest_additions(rt: HostRuntime) -> Result<(), Fail> {
    let state = random(&rt)?;
    let deepest = shown_depth(rt.alloc(), state, 63)?;
    assert!(rt; deepest.as_str() == "[4, 1, 0, 67, 2]", "{deepest}");
    let deeper = shown_depth(rt.alloc(), state, 64)?;
    assert!(rt; deeper.as_str() == "P6 at byte 1738", "{deeper}");
    Ok(())
}

/// The counts behind two additions, one to what the other has made, and a refused one between them.
fn added_twice(alloc: Global, state: RandomState, opened: Opened) -> Shown
    requires { IsTaken opened.ontology }
{
    let Opened {
        mut ontology,
        prefixes,
        bytes: _,
        version,
    } = opened;
    let first = "SubClassOf(:B :C)";
    let refused = "SubClassOf(:E :F) SubClassOf(:F owl:real)";
    let last = "SubClassOf(:C :D)";
    match read_addition(alloc, &mut ontology, &prefixes, version, first, state) {
        Ok(()) => {}
        Err(fault) => return format!(in alloc; "{fault}"),
    }
    match read_addition(alloc, &mut ontology, &prefixes, version, refused, state) {
        Ok(()) => return String::from_str(alloc, "a fault was added"),
        Err(fault) => drop(fault),
    }
    let answer = read_addition(alloc, &mut ontology, &prefixes, version, last, state);
    shown(alloc, &ontology, &answer)
}

#[test]
fn additions_follow_additions(rt: HostRuntime) -> Result<(), Fail> {
    let state = random(&rt)?;
    let found = match opened(rt.alloc(), state, DOCUMENT) {
        Some(opened) => added_twice(rt.alloc(), state, opened),
        None => Err(AllocError),
    }?;
    assert!(rt; found.as_str() == "[6, 0, 0, 6, 3]", "{found}");
    Ok(())
}

/// How many bytes the document has that is opened where so many are allowed, or the fault.
fn bytes_within(alloc: Global, state: RandomState, max_bytes: u64) -> Shown {
    match opened_within(alloc, state, DOCUMENT, max_bytes) {
        Some(Ok(opened)) => {
            let bytes = opened.bytes;
            format!(in alloc; "{bytes}")
        }
        Some(Err(fault)) => format!(in alloc; "{fault}"),
        None => Err(AllocError),
    }
}

#[test]
fn bytes_are_counted(rt: HostRuntime) -> Result<(), Fail> {
    let state = random(&rt)?;
    let exactly = bytes_within(rt.alloc(), state, 42)?;
    assert!(rt; exactly.as_str() == "42", "{exactly}");
    let fewer = bytes_within(rt.alloc(), state, 41)?;
    assert!(rt; fewer.as_str() == "U2", "{fewer}");
    Ok(())
}
