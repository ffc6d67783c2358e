//! What is answered about documents, as texts that a table can show.

use axioms::{ExprId, Ontology};
use fs_lexer::{Token, tokens};
use fs_parser::{Document, forms};
use profile::{Fault, Refusal, Version, accept};
use std::alloc::{AllocError, Global};
use std::hash::RandomState;
use std::process::Abort;
use std::random::RandomSource;
use std::test::Fail;

/// What is shown, or that memory was refused.
pub type Shown = Result<String, AllocError>;

/// What stands in a document, and what is shown of it.
pub type Row = (&'static str, &'static str);

/// How many classes, properties, individuals, expressions and axioms the ontology has.
pub(crate) fn counts(ontology: &Ontology) -> [usize; 5] {
    [
        ontology.classes().len(),
        ontology.properties().len(),
        ontology.individuals().len(),
        ontology.expression_count(),
        ontology.axioms().len(),
    ]
}

fn shown_counts(alloc: Global, ontology: &Ontology) -> Shown {
    let counts = counts(ontology);
    format!(in alloc; "{counts:?}")
}

/// Each fault as a line.
pub(crate) fn lines(alloc: Global, faults: &[Fault]) -> Shown {
    let mut out = String::new(alloc);
    for fault in faults {
        let line = format!(in alloc; "{fault}\n")?;
        out.push_str(line.as_str())?;
    }
    Ok(out)
}

/// The faults, each as a line, or that there are too many names.
pub(crate) fn told(alloc: Global, refusal: &Refusal) -> Shown {
    match refusal {
        Refusal::Faults(faults) => lines(alloc, faults),
        Refusal::TooManyNames => String::from_str(alloc, "too many names"),
        Refusal::Memory => Err(AllocError),
    }
}

fn push_names(out: &mut String, kind: &str, names: &[String]) -> Result<(), AllocError> {
    out.push_str(kind)?;
    for name in names {
        out.push_str(" ")?;
        out.push_str(name.as_str())?;
    }
    Ok(())
}

/// The names but for `owl:Thing` and `owl:Nothing`, in the order of their numbers.
fn shown_names(alloc: Global, ontology: &Ontology) -> Shown {
    let mut out = String::from_str(alloc, "classes")?;
    for name in ontology.classes().iter().skip(2) {
        out.push_str(" ")?;
        out.push_str(name.as_str())?;
    }
    push_names(&mut out, "; properties", ontology.properties())?;
    push_names(&mut out, "; individuals", ontology.individuals())?;
    Ok(out)
}

/// The expressions but for `owl:Thing` and `owl:Nothing`, in the order of their numbers.
fn shown_expressions(alloc: Global, ontology: &Ontology) -> Shown {
    let mut out = String::new(alloc);
    ontology.bounded();
    for number in 2..ontology.expression_count() {
        if let Some(expression) = ontology.expr(ExprId(number as u32)) {
            let shown = format!(in alloc; "{expression:?}\n")?;
            out.push_str(shown.as_str())?;
        }
    }
    Ok(out)
}

/// The axioms in their order.
fn shown_axioms(alloc: Global, ontology: &Ontology) -> Shown {
    let mut out = String::new(alloc);
    for axiom in ontology.axioms() {
        let shown = format!(in alloc; "{axiom:?}\n")?;
        out.push_str(shown.as_str())?;
    }
    Ok(out)
}

/// The names on one line, then each expression and each axiom on its own.
fn numbers(alloc: Global, ontology: &Ontology) -> Shown {
    let names = shown_names(alloc, ontology)?;
    let expressions = shown_expressions(alloc, ontology)?;
    let axioms = shown_axioms(alloc, ontology)?;
    format!(in alloc; "{names}\n{expressions}{axioms}")
}

/// What is shown of an ontology.
#[derive(Clone, Copy)]
pub enum Part {
    Counts,
    Numbers,
    /// Nothing, where only its document's faults are of interest.
    Faults,
}

fn shown_part(alloc: Global, ontology: &Ontology, part: Part) -> Shown {
    match part {
        Part::Counts => shown_counts(alloc, ontology),
        Part::Numbers => numbers(alloc, ontology),
        Part::Faults => Ok(String::new(alloc)),
    }
}

fn shown_of_document(
    alloc: Global,
    document: &Document<'_>,
    part: Part,
    version: Version,
    state: RandomState,
) -> Shown {
    match accept(alloc, document, version, state) {
        Ok(ontology) => shown_part(alloc, &ontology, part),
        Err(refusal) => told(alloc, &refusal),
    }
}

fn shown_of_tokens(
    alloc: Global,
    tokens: &[Token<'_>],
    part: Part,
    version: Version,
    state: RandomState,
) -> Shown {
    match forms(alloc, tokens) {
        Ok(document) => shown_of_document(alloc, &document, part, version, state),
        Err(fault) => format!(in alloc; "{fault}"),
    }
}

/// That part of the ontology that the text states in the version, or its faults, each as a line, or why it is no document.
pub(crate) fn shown(
    alloc: Global,
    text: &str,
    part: Part,
    version: Version,
    state: RandomState,
) -> Shown {
    match tokens(alloc, text) {
        Ok(tokens) => shown_of_tokens(alloc, tokens.as_slice(), part, version, state),
        Err(fault) => format!(in alloc; "{fault}"),
    }
}

pub(crate) fn random<R: RandomSource>(rt: &R) -> Result<RandomState, AllocError> {
    RandomState::new(rt).map_err(|_| AllocError)
}

/// Of each text this is shown: the counts of its ontology, its faults, or why it is no document.
pub(crate) fn assert_texts<R: AllocGlobal + RandomSource + Abort>(
    rt: &R,
    rows: &[Row],
) -> Result<(), Fail> {
    let state = random(rt)?;
    for row in rows {
        let (text, expected) = *row;
        let found = shown(rt.alloc(), text, Part::Counts, Version::Two, state)?;
        assert!(rt; found.as_str() == expected, "{text}: {found}");
    }
    Ok(())
}

/// Of each document with the prefix `:` for `x:`, and with this in it, this is shown.
pub(crate) fn assert_documents<R: AllocGlobal + RandomSource + Abort>(
    rt: &R,
    part: Part,
    rows: &[Row],
) -> Result<(), Fail> {
    assert_documents_in(rt, Version::Two, part, rows)
}

/// .. in that version.
pub(crate) fn assert_documents_in<R: AllocGlobal + RandomSource + Abort>(
    rt: &R,
    version: Version,
    part: Part,
    rows: &[Row],
) -> Result<(), Fail> {
    let state = random(rt)?;
    for row in rows {
        let (inside, expected) = *row;
        let text = format!(in rt.alloc(); "Prefix(:=<x:>) Ontology({inside})")?;
        let found = shown(rt.alloc(), text.as_str(), part, version, state)?;
        assert!(rt; found.as_str() == expected, "{inside}: {found}");
    }
    Ok(())
}
