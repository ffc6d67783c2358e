//! Texts and the trees of the documents that they are.

use crate::deep_documents::deep;
use crate::tree_texts::is_shown;
use fs_lexer::tokens;
use fs_parser::{Document, Iri, ParseFault, forms, tokens_are_one_document};
use std::alloc::{AllocError, Global};
use std::test::Fail;

/// Documents, each with its name and what it is.
const ROWS: &[(&str, &str, &str)] = &[
    ("empty_ontology", "Ontology()", ""),
    (
        "one_subclass",
        "Ontology(SubClassOf(<x:A> <x:B>))",
        "SubClassOf(<x:A> <x:B> ) ",
    ),
    (
        "one_subclass",
        "Ontology(SubClassOf(<x:A><x:B>))",
        "SubClassOf(<x:A> <x:B> ) ",
    ),
    (
        "two_spellings_in_a_cycle",
        "Prefix(:=<x:>) Ontology(SubClassOf(:A :B) SubClassOf(<x:B> <x:A>))",
        "SubClassOf(<x:A> <x:B> ) SubClassOf(<x:B> <x:A> ) ",
    ),
    (
        "contradiction_without_individual",
        "Ontology(SubClassOf(owl:Thing owl:Nothing))",
        "SubClassOf(<http://www.w3.org/2002/07/owl#Thing> <http://www.w3.org/2002/07/owl#Nothing> ) ",
    ),
    ("truncated_document", "Ontology(", "P2 at byte 9"),
    ("truncated_document", "", "P2 at byte 0"),
    (
        "class_equal_to_top",
        "Prefix(:=<x:>) Ontology(SubClassOf(owl:Thing :A))",
        "SubClassOf(<http://www.w3.org/2002/07/owl#Thing> <x:A> ) ",
    ),
    (
        "hash_in_iri_and_comment_at_end",
        "Ontology(SubClassOf(<x:A#b> <x:B>)) # end",
        "SubClassOf(<x:A#b> <x:B> ) ",
    ),
    (
        "touching_words_and_unknown_prefix",
        "Ontology(SubClassOf(owl:Thing:A <x:B>))",
        "X4 at byte 20",
    ),
    (
        "touching_words_and_unknown_prefix",
        "Ontology(SubClassOf(q:A <x:B>))",
        "P3 at byte 20",
    ),
];

/// Texts, each with what it is.
const TEXTS: &[(&str, &str)] = &[
    // What ends too early stands where its last token ends.
    (" # Ontology()\n", "P2 at byte 0"),
    ("Ontology", "P2 at byte 8"),
    ("Ontology( ", "P2 at byte 9"),
    ("Ontology(<x:A>", "P2 at byte 14"),
    ("Ontology(SubClassOf", "P2 at byte 19"),
    ("Ontology(\"a\"", "P2 at byte 12"),
    ("Ontology(\"a\"^^", "P2 at byte 14"),
    ("Ontology(()", "P2 at byte 11"),
    ("Prefix", "P2 at byte 6"),
    ("Prefix(a:=", "P2 at byte 10"),
    ("Prefix(a:=<x:>", "P2 at byte 14"),
    ("Prefix(a:=<x:>)", "P2 at byte 15"),
    // Faults of tokens come first.
    ("Ontology(<x:", "X3 at byte 9"),
    ("Ontology(Annotation(<x:l> \"a", "X2 at byte 26"),
    (") @1", "X1 at byte 2"),
    ("Ontology(\"a\"@)", "X1 at byte 12"),
    ("Ontology(\"a\"@en_US)", "X1 at byte 12"),
    ("Ontology(<>)", "X3 at byte 9"),
    // Characters that IRIs and strings may hold.
    ("Ontology(<x:\u{7f}\u{9f}>)", "<x:\u{7f}\u{9f}> "),
    ("Ontology(\"\n\0\")", "\"\n\0\" "),
    // A document is declarations, then Ontology, then the end.
    ("()", "P1 at byte 0"),
    ("<x:A>", "P1 at byte 0"),
    ("ontology()", "P1 at byte 0"),
    ("SubClassOf(<x:A> <x:B>)", "P1 at byte 0"),
    ("(Ontology())", "P1 at byte 0"),
    ("Ontology<x:o>()", "P1 at byte 8"),
    ("Ontology Ontology()", "P1 at byte 9"),
    ("Ontology())", "P1 at byte 10"),
    ("Ontology() Ontology()", "P1 at byte 11"),
    ("Ontology()Prefix(a:=<x:>)", "P1 at byte 10"),
    ("Prefix(a:=<x:>)SubClassOf()", "P1 at byte 15"),
    ("prefix(a:=<x:>)Ontology()", "P1 at byte 0"),
    ("Prefix a:=<x:>)Ontology()", "P1 at byte 7"),
    ("Prefix(=<x:>)Ontology()", "P1 at byte 7"),
    ("Prefix(a=<x:>)Ontology()", "P1 at byte 7"),
    ("Prefix(a:b=<x:>)Ontology()", "P1 at byte 7"),
    ("Prefix(a:<x:>)Ontology()", "P1 at byte 9"),
    ("Prefix(a:=b:)Ontology()", "P1 at byte 10"),
    ("Prefix(a:=<x:> Ontology()", "P1 at byte 15"),
    // Names are expanded by the prefixes of the document and the standard ones.
    ("Prefix(a-b:=<x:>)Ontology(a-b:c)", "<x:c> "),
    ("Prefix(:=<x:>)Ontology(:1.2)", "<x:1.2> "),
    (
        "Prefix(a:=<x:>)Prefix(A:=<y:>)Ontology(a:c A:c)",
        "<x:c> <y:c> ",
    ),
    (
        "Prefix(a:=<x:>)Prefix(b:=<x:>)Ontology(a:c b:c)",
        "<x:c> <x:c> ",
    ),
    (
        "Ontology(rdf:a rdfs:b xsd:c)",
        "<http://www.w3.org/1999/02/22-rdf-syntax-ns#a> <http://www.w3.org/2000/01/rdf-schema#b> <http://www.w3.org/2001/XMLSchema#c> ",
    ),
    ("Ontology(:A)", "P3 at byte 9"),
    ("Ontology(OWL:Thing)", "P3 at byte 9"),
    ("Ontology(\"a\"^^q:A)", "P3 at byte 14"),
    ("Prefix(:=<x:>)Ontology(:A q:A)", "P3 at byte 26"),
    // Every declared prefix is known, wherever the document fails.
    (
        "Prefix(a:=<x:>)Prefix(b:=<y:>)Ontology(a:A b:B c:C)",
        "P3 at byte 47",
    ),
    (
        "Prefix(a:=<x:>)Prefix(b:=<y:>)Ontology(a:A b:B K)",
        "P1 at byte 48",
    ),
    (
        "Prefix(a:=<x:>)Prefix(b:=<y:>)Ontology(a:A b:B",
        "P2 at byte 46",
    ),
    // A prefix that is declared again is told at its name, as soon as the name is read.
    ("Prefix(:=<x:>)Prefix(:=<x:>) Ontology()", "P4 at byte 21"),
    ("Prefix(:=<x:>)Prefix(:=<y:>)Ontology()", "P4 at byte 21"),
    ("Prefix(:=<x:>)Prefix(:", "P4 at byte 21"),
    ("Prefix(:=<x:>)Prefix(: <x:>", "P4 at byte 21"),
    (
        "Prefix(a:=<x:>)Prefix(b:=<y:>)Prefix(a:=<x:>)Ontology()",
        "P4 at byte 37",
    ),
    // A standard prefix that is changed is told at its name, as soon as its IRI is read.
    ("Prefix(owl:=<x:>) Ontology()", "P5 at byte 7"),
    ("Prefix(owl:=<x:>", "P5 at byte 7"),
    ("Prefix(rdf:=<x:>=)Ontology()", "P5 at byte 7"),
    (
        "Prefix(xsd:=<http://www.w3.org/2001/XMLSchema>)Ontology()",
        "P5 at byte 7",
    ),
    ("Prefix(owl:=", "P2 at byte 12"),
    ("Prefix(owl: <x:>)Ontology()", "P1 at byte 12"),
    // It may be declared any number of times as what it is.
    (
        "Prefix(owl:=<http://www.w3.org/2002/07/owl#>)Prefix(owl:=<http://www.w3.org/2002/07/owl#>)Ontology(owl:Thing)",
        "<http://www.w3.org/2002/07/owl#Thing> ",
    ),
    // A keyword begins a form.
    ("Ontology(K())", "K() "),
    ("Ontology(K #(\n (<x:A>)<x:B>)", "K(<x:A> ) <x:B> "),
    (
        "Ontology(Prefix()Ontology(K()))",
        "Prefix() Ontology(K() ) ",
    ),
    ("Ontology(K)", "P1 at byte 10"),
    ("Ontology(K <x:A>)", "P1 at byte 11"),
    ("Ontology(K K())", "P1 at byte 11"),
    ("Ontology(K\"a\")", "P1 at byte 10"),
    // A prefix name, a tag, an equals sign and carets begin no tree.
    ("Ontology(a:)", "P1 at byte 9"),
    ("Ontology(@en)", "P1 at byte 9"),
    ("Ontology(=)", "P1 at byte 9"),
    ("Ontology(^^<x:A>)", "P1 at byte 9"),
    ("Ontology(<x:A>@en)", "P1 at byte 14"),
    ("Ontology(12^^<x:A>)", "P1 at byte 11"),
    ("Ontology(K(_:n =))", "P1 at byte 15"),
    // Separators may stand between the parts of a literal.
    ("Ontology(\"a\"\"b\")", "\"a\" \"b\" "),
    ("Ontology(\"a\" #b\n@en-1)", "\"a\"@en-1 "),
    ("Ontology(\"a\" ^^ #b\r <x:A>)", "\"a\"^^<x:A> "),
    (
        "Ontology(\"a\"^^xsd:c\"b\")",
        "\"a\"^^<http://www.w3.org/2001/XMLSchema#c> \"b\" ",
    ),
    ("Ontology(\"a\"@en @en)", "P1 at byte 16"),
    ("Ontology(\"a\"@en^^<x:A>)", "P1 at byte 15"),
    ("Ontology(\"a\"^^<x:A>@en)", "P1 at byte 19"),
    ("Ontology(\"a\"^^^^<x:A>)", "P1 at byte 14"),
    ("Ontology(\"a\"^^\"b\")", "P1 at byte 14"),
    ("Ontology(\"a\"^^a:)", "P1 at byte 14"),
    ("Ontology(\"a\"^^)", "P1 at byte 14"),
    // Other trees.
    ("Ontology(_:n 12 012)", "_:n 12 012 "),
    ("Ontology(<y:z>())", "<y:z> () "),
    ("Ontology((()())(K(\"a\")))", "(() () ) (K(\"a\" ) ) "),
    // A parenthesis that fits nowhere is no more than that.
    ("Prefix((a:=<x:>))Ontology()", "P1 at byte 7"),
    ("Prefix(a:=(<x:>))Ontology()", "P1 at byte 10"),
    ("Ontology(\"a\"^^(<x:A>))", "P1 at byte 14"),
    ("Ontology(K()))", "P1 at byte 13"),
];

/// Texts behind 64 open parentheses of `Ontology( .. )`, which end at byte 73, each with what the whole is. One more
/// parenthesis that fits is one too many.
const IN_GROUPS: &[(&str, &str)] = &[
    ("", "P2 at byte 73"),
    ("(", "P6 at byte 73"),
    ("K(", "P6 at byte 74"),
    ("\"a\"(", "P6 at byte 76"),
    ("\"a\"^^(", "P1 at byte 78"),
    ("K K(", "P1 at byte 75"),
    (")(", "P2 at byte 75"),
    (")((", "P6 at byte 75"),
    (")K(K(", "P6 at byte 77"),
];

#[test]
fn rows(rt: HostRuntime) {
    for row in ROWS {
        let (name, text, expected) = *row;
        assert!(rt; is_shown(rt.alloc(), text, expected) == Ok(true), "{name}");
    }
}

fn is_shown_in_groups(alloc: Global, inside: &str, expected: &str) -> Result<bool, AllocError> {
    let mut text = String::from_str(alloc, "Ontology(")?;
    for _ in 0..64 {
        text.push_str("(")?;
    }
    text.push_str(inside)?;
    is_shown(alloc, text.as_str(), expected)
}

#[test]
fn table_of_texts(rt: HostRuntime) {
    for row in TEXTS {
        let (text, expected) = *row;
        assert!(rt; is_shown(rt.alloc(), text, expected) == Ok(true), "{text}");
    }
    for row in IN_GROUPS {
        let (inside, expected) = *row;
        assert!(rt;
            is_shown_in_groups(rt.alloc(), inside, expected) == Ok(true),
            "{inside}"
        );
    }
}

#[test]
fn places_of_trees(rt: HostRuntime) {
    let alloc = rt.alloc();
    let mut found = false;
    if let Ok(tokens) = tokens(alloc, "Ontology(<x:o> SubClassOf(<x:A> <x:B>))") {
        if let Ok(Document { trees, .. }) = forms(alloc, tokens.as_slice()) {
            if let [name, form] = trees.as_slice() {
                found = name.at() == 9 && form.at() == 15;
            }
        }
    }
    assert!(rt; found);
}

const ONE_SUBCLASS: &str = "Ontology(SubClassOf(<x:A> <x:B>))";

/// Whether the document of one subclass axiom is that, cut after each number of bytes from the first to the last.
fn is_cut(alloc: Global, first: usize, last: usize, expected: &str) -> Result<bool, AllocError> {
    let mut fits = true;
    for k in first..last.saturating_add(1) {
        if let Some(cut) = ONE_SUBCLASS.get(..k) {
            fits = fits && is_shown(alloc, cut, expected)?;
        }
    }
    Ok(fits)
}

/// The same of a cut inside of the document, behind a token.
fn is_cut_behind_a_token(alloc: Global, k: usize) -> Result<bool, AllocError> {
    let expected = format!(in alloc; "P2 at byte {k}")?;
    is_cut(alloc, k, k, expected.as_str())
}

/// The least and the greatest number of bytes that are left, and what the document is then.
const CUTS: &[(usize, usize, &str)] = &[
    (0, 0, "P2 at byte 0"),
    (1, 7, "P1 at byte 0"),
    (21, 24, "X3 at byte 20"),
    (25, 26, "P2 at byte 25"),
    (27, 30, "X3 at byte 26"),
    (31, 31, "P2 at byte 31"),
    (32, 32, "P2 at byte 32"),
];

#[test]
fn cut_documents(rt: HostRuntime) -> Result<(), Fail> {
    for row in CUTS {
        let (first, last, expected) = *row;
        assert!(rt; is_cut(rt.alloc(), first, last, expected)?, "{expected}");
    }
    for k in 8..21 {
        assert!(rt; is_cut_behind_a_token(rt.alloc(), k)?, "{k}");
    }
    Ok(())
}

/// Whether a document with 63 levels is read.
fn is_deepest_read(alloc: Global) -> Result<bool, AllocError> {
    let text = deep(alloc, "", 63, "<x:B>")?;
    match tokens(alloc, text.as_str()) {
        Ok(tokens) => Ok(forms(alloc, tokens.as_slice()).is_ok()),
        Err(_) => Ok(false),
    }
}

/// Whether one with 64 that begins so is that.
fn is_deeper(alloc: Global, front: &str, expected: &str) -> Result<bool, AllocError> {
    let text = deep(alloc, front, 64, "<x:B>")?;
    is_shown(alloc, text.as_str(), expected)
}

#[test]
fn deepest_expression(rt: HostRuntime) -> Result<(), Fail> {
    let alloc = rt.alloc();
    assert!(rt; is_deepest_read(alloc)?);
    assert!(rt; is_deeper(alloc, "", "P6 at byte 1747")?);
    // A declaration closes its parenthesis.
    assert!(rt; is_deeper(alloc, "Prefix(:=<x:>)", "P6 at byte 1761")?);
    Ok(())
}

#[test]
fn faults_compare(rt: HostRuntime) {
    assert!(rt; ParseFault::Memory == ParseFault::Memory);
    assert!(rt; ParseFault::Unexpected { at: 1 } != ParseFault::Unexpected { at: 2 });
}

#[test]
fn iris(rt: HostRuntime) {
    let iri = Iri {
        base: "x:",
        local: "A",
    };
    assert!(rt; iri.is_text("x:A"));
    assert!(rt; !iri.is_text("x:"));
    assert!(rt; !iri.is_text("x:AB"));
}

#[test]
fn laws() {
    tokens_are_one_document();
}
