//! Statements and expressions by the prefixes of a document.

use crate::tree_texts::push_tree;
use fs_lexer::{Token, tokens};
use fs_parser::{ParseFault, Prefixes, expression, forms, statements, tokens_are_one_document};
use std::alloc::{AllocError, Global};
use std::test::Fail;

/// The prefixes of a document.
fn declared(alloc: Global, tokens: &[Token<'_>]) -> Result<Prefixes, ParseFault> {
    tokens_are_one_document();
    let document = forms(alloc, tokens)?;
    Ok(Prefixes::of(alloc, &document.prefixes)?)
}

/// Those of a document that declares the empty prefix, whose text is gone.
fn one_prefix(alloc: Global) -> Option<Prefixes> {
    match tokens(
        alloc,
        "Prefix(:=<x:>) Prefix(owl:=<http://www.w3.org/2002/07/owl#>) Ontology(:q)",
    ) {
        Ok(tokens) => declared(alloc, &tokens).ok(),
        Err(_) => None,
    }
}

/// What tokens are as statements: the trees, each with a space behind it, or the fault.
fn shown_statements(
    alloc: Global,
    tokens: &[Token<'_>],
    prefixes: &Prefixes,
) -> Result<String, AllocError> {
    match statements(alloc, tokens, prefixes) {
        Ok(trees) => {
            let mut out = String::new(alloc);
            for tree in &trees {
                push_tree(alloc, &mut out, tree)?;
            }
            Ok(out)
        }
        Err(fault) => format!(in alloc; "{fault}"),
    }
}

/// What they are as an expression.
fn shown_expression(
    alloc: Global,
    tokens: &[Token<'_>],
    prefixes: &Prefixes,
) -> Result<String, AllocError> {
    match expression(alloc, tokens, prefixes) {
        Ok(tree) => {
            let mut out = String::new(alloc);
            push_tree(alloc, &mut out, &tree)?;
            Ok(out)
        }
        Err(fault) => format!(in alloc; "{fault}"),
    }
}

fn are_statements(
    alloc: Global,
    prefixes: &Prefixes,
    text: &str,
    expected: &str,
) -> Result<bool, AllocError> {
    let Ok(tokens) = tokens(alloc, text) else {
        return Ok(false);
    };
    let found = shown_statements(alloc, &tokens, prefixes)?;
    Ok(found.as_str() == expected)
}

fn is_expression(
    alloc: Global,
    prefixes: &Prefixes,
    text: &str,
    expected: &str,
) -> Result<bool, AllocError> {
    let Ok(tokens) = tokens(alloc, text) else {
        return Ok(false);
    };
    let found = shown_expression(alloc, &tokens, prefixes)?;
    Ok(found.as_str() == expected)
}

/// Statements, each with what they are.
const STATEMENTS: &[(&str, &str)] = &[
    ("", ""),
    ("SubClassOf(:A :B)", "SubClassOf(<x:A> <x:B> ) "),
    ("SubClassOf(:A :B) <x:C>", "SubClassOf(<x:A> <x:B> ) <x:C> "),
    ("SubClassOf(:A", "P2 at byte 13"),
    ("SubClassOf", "P2 at byte 10"),
    ("Frobnicate()", "Frobnicate() "),
    ("owl:Thing q:A", "P3 at byte 10"),
    (":A )", "P1 at byte 3"),
    ("\"a\" \"b\"@en", "\"a\" \"b\"@en "),
    ("\"a\"^^:A \"b\"", "\"a\"^^<x:A> \"b\" "),
    ("Prefix(:=<x:>)", "P1 at byte 7"),
];

/// Expressions, each with what it is.
const EXPRESSIONS: &[(&str, &str)] = &[
    ("", "P2 at byte 0"),
    (":A", "<x:A> "),
    (":A :B", "P1 at byte 3"),
    (":A :B )", "P1 at byte 3"),
    (":A (((", "P1 at byte 3"),
    (":A SubClassOf", "P1 at byte 3"),
    (":A)", "P1 at byte 2"),
    ("q:A", "P3 at byte 0"),
    ("\"a\"", "\"a\" "),
    ("\"a\"@en", "\"a\"@en "),
    ("\"a\" \"b\"", "P1 at byte 4"),
    (
        "ObjectSomeValuesFrom(:r :A)",
        "ObjectSomeValuesFrom(<x:r> <x:A> ) ",
    ),
    ("ObjectSomeValuesFrom(:r :A))", "P1 at byte 27"),
    ("ObjectSomeValuesFrom(:r :A", "P2 at byte 26"),
];

#[test]
fn prefixes_of_an_opened_document(rt: HostRuntime) {
    let alloc = rt.alloc();
    let prefixes = one_prefix(alloc);
    assert!(rt; prefixes.is_some());
    if let Some(prefixes) = prefixes {
        prefixes.stand_for_one();
        for row in STATEMENTS {
            let (text, expected) = *row;
            assert!(rt;
                are_statements(alloc, &prefixes, text, expected) == Ok(true),
                "{text}"
            );
        }
        for row in EXPRESSIONS {
            let (text, expected) = *row;
            assert!(rt;
                is_expression(alloc, &prefixes, text, expected) == Ok(true),
                "{text}"
            );
        }
    }
}

/// A chain of so many class expressions, each inside of the one before it.
pub(crate) fn nested(alloc: Global, levels: usize) -> Result<String, AllocError> {
    let mut text = String::new(alloc);
    for _ in 0..levels {
        text.push_str("ObjectSomeValuesFrom(<x:r> ")?;
    }
    text.push_str("<x:B>")?;
    for _ in 0..levels {
        text.push_str(")")?;
    }
    Ok(text)
}

/// Whether the text is one expression of the prefixes.
fn is_read(alloc: Global, prefixes: &Prefixes, text: &str) -> bool {
    match tokens(alloc, text) {
        Ok(tokens) => expression(alloc, &tokens, prefixes).is_ok(),
        Err(_) => false,
    }
}

/// Whether it is statements.
fn are_read(alloc: Global, prefixes: &Prefixes, text: &str) -> bool {
    match tokens(alloc, text) {
        Ok(tokens) => statements(alloc, &tokens, prefixes).is_ok(),
        Err(_) => false,
    }
}

/// Whether an expression and a statement of it are read as deep as may be, and no deeper.
fn have_depths(alloc: Global, prefixes: &Prefixes) -> Result<bool, AllocError> {
    let deepest = nested(alloc, 63)?;
    let deeper = nested(alloc, 64)?;
    let statement = format!(in alloc; "SubClassOf(<x:A> {deepest})")?;
    let deeper_statement = format!(in alloc; "SubClassOf(<x:A> {deeper})")?;
    Ok(
        is_read(alloc, prefixes, deepest.as_str())
            && is_expression(alloc, prefixes, deeper.as_str(), "P6 at byte 1721")?
            && are_read(alloc, prefixes, statement.as_str())
            && are_statements(
                alloc,
                prefixes,
                deeper_statement.as_str(),
                "P6 at byte 1738",
            )?,
    )
}

#[test]
fn deepest_parts(rt: HostRuntime) -> Result<(), Fail> {
    let alloc = rt.alloc();
    if let Some(prefixes) = one_prefix(alloc) {
        assert!(rt; have_depths(alloc, &prefixes)?);
    }
    Ok(())
}
