//! Documents that are read token by token, and trees one by one.

use crate::tree_texts::push_tree;
use fs_lexer::{next_token, only_separators};
use fs_parser::{Stopped, TreeReader, streamed_forms};
use std::alloc::{AllocError, Global};
use std::test::Fail;

/// The trees of a document that is read token by token, each with a space behind it; nothing where it is none.
fn shown(alloc: Global, text: &str) -> Result<String, AllocError> {
    let mut out = String::new(alloc);
    if let Some(document) = streamed_forms(alloc, text) {
        for tree in &document.trees {
            push_tree(alloc, &mut out, tree)?;
        }
    }
    Ok(out)
}

fn is_shown(alloc: Global, text: &str, expected: &str) -> Result<bool, AllocError> {
    let found = shown(alloc, text)?;
    Ok(found.as_str() == expected)
}

/// Texts, each with the trees of the document that it is, if any.
const TEXTS: &[(&str, &str)] = &[
    ("Ontology(<x:o>)", "<x:o> "),
    (
        "Prefix(:=<x:>) # a comment\nOntology(SubClassOf(:A owl:Thing) (\"a\"@en 1)) # end",
        "SubClassOf(<x:A> <http://www.w3.org/2002/07/owl#Thing> ) (\"a\"@en 1 ) ",
    ),
    ("Ontology(\"a\")", "\"a\" "),
    ("Ontology(<x:o>) <x:o>", ""),
    ("Ontology(<x:o>", ""),
    ("Ontology(q:A)", ""),
    ("Prefix(:=<x:>) Prefix(:=<x:>) Ontology(<x:o>)", ""),
    ("SubClassOf(<x:A> <x:B>)", ""),
];

#[test]
fn documents_token_by_token(rt: HostRuntime) {
    for row in TEXTS {
        let (text, expected) = *row;
        assert!(rt; is_shown(rt.alloc(), text, expected) == Ok(true), "{text}");
    }
}

/// The trees that the reader gives, each with a space behind it, and how they end.
fn shown_one_by_one(alloc: Global, text: &str) -> Result<String, AllocError> {
    let Some(mut reader) = TreeReader::start(alloc, text) else {
        return String::from_str(alloc, "no header");
    };
    let mut out = String::new(alloc);
    for _ in 0..text.len() {
        match reader.next() {
            Ok(Some(tree)) => push_tree(alloc, &mut out, &tree)?,
            Ok(None) => {
                out.push_str("end")?;
                return Ok(out);
            }
            Err(Stopped) => {
                out.push_str("stopped")?;
                return Ok(out);
            }
        }
    }
    Ok(out)
}

/// Texts, each with the trees that are read of it, and how they end.
const TREES: &[(&str, &str)] = &[
    ("Ontology()", "end"),
    (
        "Prefix(:=<x:>) Ontology(:o SubClassOf(:A (:B 1))) # end",
        "<x:o> SubClassOf(<x:A> (<x:B> 1 ) ) end",
    ),
    // What follows a string outside of all forms shows whether it is whole.
    (
        "Ontology(\"a\" \"b\"@en \"c\"^^<x:t> \"d\" 1 _:e)",
        "\"a\" \"b\"@en \"c\"^^<x:t> \"d\" 1 _:e end",
    ),
    (
        "Ontology(SubClassOf(<x:A> <x:B>) SubClassOf(<x:A>",
        "SubClassOf(<x:A> <x:B> ) stopped",
    ),
    ("Ontology(<x:o>) <x:o>", "<x:o> stopped"),
    ("Ontology(<x:o> q:A)", "<x:o> stopped"),
    ("SubClassOf(<x:A> <x:B>)", "no header"),
];

#[test]
fn trees_one_by_one(rt: HostRuntime) -> Result<(), Fail> {
    for row in TREES {
        let (text, expected) = *row;
        let found = shown_one_by_one(rt.alloc(), text)?;
        assert!(rt; found.as_str() == expected, "{text}: {found}");
    }
    Ok(())
}

#[test]
fn one_token(rt: HostRuntime) {
    let text = " ( # a\n";
    let mut found = false;
    if let Some((token, behind)) = next_token(text, 0) {
        found = token.at == 1 && token.text == "(" && behind == 2;
    }
    assert!(rt; found);
    assert!(rt; next_token(text, 2).is_none());
    assert!(rt; only_separators(text, 2));
    assert!(rt; !only_separators(text, 0));
}
