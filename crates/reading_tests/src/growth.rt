//! An ontology that grows by statements, and by an expression over its names.

use crate::tables::{Shown, counts, random, told};
use axioms::{ExprId, Ontology};
use fs_lexer::{Token, tokens};
use fs_parser::{Document, Tree, forms};
use profile::{Refusal, Version, accept, accept_expression, accept_statements};
use std::alloc::{AllocError, Global};
use std::hash::RandomState;
use std::test::Fail;

/// The document with the classes `x:A` and `x:B`, which are the expressions 2 and 3, and the property `x:r`.
const SMALL: &str =
    "Ontology(Declaration(Class(<x:A>)) Declaration(Class(<x:B>)) Declaration(ObjectProperty(<x:r>)))";

/// The counts of the grown ontology, or the faults.
fn shown(alloc: Global, ontology: &Ontology, answer: &Result<(), Refusal>) -> Shown {
    match answer {
        Ok(()) => {
            let counts = counts(ontology);
            format!(in alloc; "{counts:?}")
        }
        Err(refusal) => told(alloc, refusal),
    }
}

/// The number of the expression and the counts of the ontology that has it, or the faults.
fn shown_expression(alloc: Global, grown: &Result<(Ontology, ExprId), Refusal>) -> Shown {
    match grown {
        Ok((ontology, expression)) => {
            let counts = counts(ontology);
            let number = expression.index();
            format!(in alloc; "{number} {counts:?}")
        }
        Err(refusal) => told(alloc, refusal),
    }
}

/// By what an ontology is to grow.
#[derive(Clone, Copy)]
enum Growth {
    Statements,
    Expression,
}

/// What is shown of a copy of the ontology that has grown by the trees.
fn grown_by_statements(
    alloc: Global,
    state: RandomState,
    ontology: &Ontology,
    trees: &[Tree<'_>],
) -> Shown {
    let Ok(mut grown) = ontology.copy() else {
        return Err(AllocError);
    };
    let answer = accept_statements(alloc, &mut grown, trees, Version::Two, state);
    shown(alloc, &grown, &answer)
}

/// What is shown of the ontology that has grown by the class expression.
fn grown_by_expression(
    alloc: Global,
    state: RandomState,
    ontology: &Ontology,
    tree: &Tree<'_>,
) -> Shown {
    let grown = accept_expression(alloc, ontology, tree, Version::Two, state);
    shown_expression(alloc, &grown)
}

/// What is shown of the ontology that has grown by the trees of the document, or by the first.
fn grown_by_document(
    alloc: Global,
    state: RandomState,
    ontology: &Ontology,
    growth: Growth,
    document: &Document<'_>,
) -> Shown {
    let trees = &document.trees;
    match (growth, trees.first()) {
        (Growth::Expression, Some(tree)) => grown_by_expression(alloc, state, ontology, tree),
        _ => grown_by_statements(alloc, state, ontology, trees),
    }
}

fn grown_by_tokens(
    alloc: Global,
    state: RandomState,
    ontology: &Ontology,
    growth: Growth,
    tokens: &[Token<'_>],
) -> Shown {
    match forms(alloc, tokens) {
        Ok(document) => grown_by_document(alloc, state, ontology, growth, &document),
        Err(fault) => format!(in alloc; "{fault}"),
    }
}

fn grown_by(
    alloc: Global,
    state: RandomState,
    ontology: &Ontology,
    growth: Growth,
    text: &str,
) -> Shown {
    match tokens(alloc, text) {
        Ok(tokens) => grown_by_tokens(alloc, state, ontology, growth, tokens.as_slice()),
        Err(fault) => format!(in alloc; "{fault}"),
    }
}

/// The small document's ontology.
fn small(alloc: Global, state: RandomState) -> Option<Ontology> {
    let tokens = tokens(alloc, SMALL).ok()?;
    let document = forms(alloc, &tokens).ok()?;
    accept(alloc, &document, Version::Two, state).ok()
}

/// The answers for the rows that differ from what is expected, one behind the other.
fn differing(
    alloc: Global,
    state: RandomState,
    ontology: &Ontology,
    rows: &[(Growth, &str, &str)],
) -> Shown {
    let mut out = String::new(alloc);
    for row in rows {
        let (growth, text, expected) = *row;
        let found = grown_by(alloc, state, ontology, growth, text)?;
        if found.as_str() != expected {
            out.push_str(text)?;
            out.push_str(": ")?;
            out.push_str(found.as_str())?;
        }
    }
    Ok(out)
}

/// What is shown of the small ontology when it has grown by the text's trees.
const ROWS: &[(Growth, &str, &str)] = &[
    // One class, one individual and an expression are new.
    (
        Growth::Statements,
        "Ontology(SubClassOf(<x:C> ObjectSomeValuesFrom(<x:r> <x:A>)) ClassAssertion(<x:B> <x:a>))",
        "[5, 1, 1, 6, 2]",
    ),
    // Names of an ontology and annotations are no statements.
    (
        Growth::Statements,
        "Ontology(<x:o> Annotation(<x:p> \"t\") EquivalentClasses(<x:A> <x:A>))",
        "F3 at byte 9\nF3 at byte 15\nF4 at byte 61\n",
    ),
    (
        Growth::Expression,
        "Ontology(ObjectSomeValuesFrom(<x:r> ObjectIntersectionOf(<x:A> <x:B>)))",
        "5 [4, 1, 0, 6, 0]",
    ),
    (Growth::Expression, "Ontology(<x:B>)", "3 [4, 1, 0, 4, 0]"),
    // A name is looked up among those of its kind.
    (
        Growth::Expression,
        "Ontology(ObjectSomeValuesFrom(<x:A> <x:r>))",
        "F8 at byte 30\nF8 at byte 36\n",
    ),
    (
        Growth::Expression,
        "Ontology(ObjectIntersectionOf(<x:C> owl:real <x:C>))",
        "F8 at byte 30\nF5 at byte 36\nF4 at byte 45\n",
    ),
];

fn differing_rows(alloc: Global, state: RandomState) -> Shown {
    match small(alloc, state) {
        Some(ontology) => differing(alloc, state, &ontology, ROWS),
        None => Err(AllocError),
    }
}

#[test]
fn statements_and_expressions_are_added(rt: HostRuntime) -> Result<(), Fail> {
    let differing = differing_rows(rt.alloc(), random(&rt)?)?;
    assert!(rt; differing.is_empty(), "{differing}");
    Ok(())
}
