//! Texts and their tokens, each as its kind, its place and its text.

use fs_lexer::{Kind, LexFault, Token, texts_have_one_fault, texts_spell_one_list, tokens};
use std::alloc::{AllocError, Global};
use std::process::Abort;

/// The tokens, each as its kind, its place and its text, or the fault.
fn shown(alloc: Global, text: &str) -> Result<String, AllocError> {
    match tokens(alloc, text) {
        Ok(tokens) => listed(alloc, tokens.as_slice()),
        Err(fault) => format!(in alloc; "{fault}"),
    }
}

fn listed(alloc: Global, tokens: &[Token<'_>]) -> Result<String, AllocError> {
    let mut out = String::new(alloc);
    for token in tokens {
        let Token { kind, text, at } = *token;
        let one = format!(in alloc; "{kind:?}@{at} {text} ")?;
        out.push_str(&one)?;
    }
    Ok(out)
}

fn is_shown(alloc: Global, text: &str, expected: &str) -> Result<bool, AllocError> {
    let found = shown(alloc, text)?;
    Ok(found.as_str() == expected)
}

/// Whole documents and parts of them, each with its tokens or its fault.
const DOCUMENTS: &[(&str, &str)] = &[
    // Every kind of token.
    (
        "Prefix(:=<x:a#b>) #c\n\"a\\\"b\\\\\"@en-1^^x:A _:b.c 12 a-b:",
        "Keyword@0 Prefix Opening@6 ( PrefixName@7 : Equals@8 = FullIri@9 <x:a#b> Closing@16 ) Quoted@21 \"a\\\"b\\\\\" LanguageTag@29 @en-1 Carets@34 ^^ ShortName@36 x:A NodeLabel@40 _:b.c Integer@46 12 PrefixName@49 a-b: ",
    ),
    // A hash in an IRI, and a comment at the end.
    (
        "Ontology(SubClassOf(<x:A#b> <x:B>)) # end",
        "Keyword@0 Ontology Opening@8 ( Keyword@9 SubClassOf Opening@19 ( FullIri@20 <x:A#b> FullIri@28 <x:B> Closing@33 ) Closing@34 ) ",
    ),
    // Names may touch signs.
    (
        "SubClassOf(<x:A><x:B>)",
        "Keyword@0 SubClassOf Opening@10 ( FullIri@11 <x:A> FullIri@16 <x:B> Closing@21 ) ",
    ),
    // Nothing to read.
    ("", ""),
    (" \t\r\n", ""),
    ("# \"", ""),
    // Characters that begin nothing, a byte order mark among them.
    ("a ^b", "X1 at byte 2"),
    ("\u{feff}Ontology()", "X1 at byte 0"),
    ("\"a\"@1", "X1 at byte 3"),
    ("\"a\"@en_US", "X1 at byte 3"),
    // Strings and IRIs that do not end.
    ("Ontology(Annotation(<x:l> \"a", "X2 at byte 26"),
    ("a \"b\\c\"", "X2 at byte 2"),
    ("Ontology(<x:", "X3 at byte 9"),
    (" <a b>", "X3 at byte 1"),
    ("<>", "X3 at byte 0"),
    // Runs of word characters that are no word.
    ("(a1)", "X4 at byte 1"),
    ("a:b.", "X4 at byte 0"),
    // Words that touch.
    ("Ontology(SubClassOf(owl:Thing:A <x:B>))", "X4 at byte 20"),
    // Documents that are cut.
    ("Ontology(SubClassOf(<", "X3 at byte 20"),
    ("Ontology(SubClassOf(<x:A", "X3 at byte 20"),
    ("Ontology(SubClassOf(<x:A> <", "X3 at byte 26"),
    ("Ontology(SubClassOf(<x:A> <x:B", "X3 at byte 26"),
];

#[test]
fn kinds_and_faults_compare(rt: HostRuntime) {
    assert!(rt; Kind::Opening == Kind::Opening);
    assert!(rt; Kind::Opening != Kind::Closing);
    assert!(rt; LexFault::BadByte { at: 1 } != LexFault::BadByte { at: 2 });
    assert!(rt; LexFault::Memory == LexFault::Memory);
}

/// Texts, each with its tokens or its fault.
const TEXTS: &[(&str, &str)] = &[
    ("", ""),
    (" \t\r\n", ""),
    ("#", ""),
    ("# \"", ""),
    ("#a\nb", "Keyword@3 b "),
    ("#a\rb", "Keyword@3 b "),
    ("#a\r\nb", "Keyword@4 b "),
    ("a#b", "Keyword@0 a "),
    ("a #b\n c", "Keyword@0 a Keyword@6 c "),
    ("(", "Opening@0 ( "),
    (")", "Closing@0 ) "),
    ("=", "Equals@0 = "),
    ("()=", "Opening@0 ( Closing@1 ) Equals@2 = "),
    ("^^", "Carets@0 ^^ "),
    ("^", "X1 at byte 0"),
    ("^^^", "X1 at byte 2"),
    ("#^\n ^", "X1 at byte 4"),
    ("a^ 1a", "X1 at byte 1"),
    ("^^^^", "Carets@0 ^^ Carets@2 ^^ "),
    ("<x:A>", "FullIri@0 <x:A> "),
    ("<x:A><x:B>", "FullIri@0 <x:A> FullIri@5 <x:B> "),
    ("<>", "X3 at byte 0"),
    ("<", "X3 at byte 0"),
    ("<x", "X3 at byte 0"),
    ("<a b>", "X3 at byte 0"),
    ("<a\"b>", "X3 at byte 0"),
    ("<a<b>", "X3 at byte 0"),
    ("<a{b>", "X3 at byte 0"),
    ("<x:#>", "FullIri@0 <x:#> "),
    ("<x:\u{7f}>", "FullIri@0 <x:\u{7f}> "),
    ("<x:\u{9f}>", "FullIri@0 <x:\u{9f}> "),
    ("<x:\u{e9}>", "FullIri@0 <x:\u{e9}> "),
    ("<x:\n>", "X3 at byte 0"),
    ("\"\"", "Quoted@0 \"\" "),
    ("\"a\\\"b\"", "Quoted@0 \"a\\\"b\" "),
    ("\"a\\\\\"", "Quoted@0 \"a\\\\\" "),
    ("\"a\\b\"", "X2 at byte 0"),
    ("\"a", "X2 at byte 0"),
    ("\"a\\\"", "X2 at byte 0"),
    ("\"a\nb\"", "Quoted@0 \"a\nb\" "),
    ("\"\0\"", "Quoted@0 \"\0\" "),
    ("\"#\"", "Quoted@0 \"#\" "),
    ("\"a\"\"b\"", "Quoted@0 \"a\" Quoted@3 \"b\" "),
    ("\"a\"@en", "Quoted@0 \"a\" LanguageTag@3 @en "),
    ("\"a\" @en-GB-1", "Quoted@0 \"a\" LanguageTag@4 @en-GB-1 "),
    (
        "\"a\"#\n^^ #\n:b",
        "Quoted@0 \"a\" Carets@5 ^^ ShortName@10 :b ",
    ),
    ("@", "X1 at byte 0"),
    ("@1", "X1 at byte 0"),
    ("@en_US", "X1 at byte 0"),
    ("@en.b", "X1 at byte 0"),
    ("aB", "Keyword@0 aB "),
    ("012", "Integer@0 012 "),
    ("a1", "X4 at byte 0"),
    ("1a", "X4 at byte 0"),
    (":", "PrefixName@0 : "),
    ("a:", "PrefixName@0 a: "),
    ("a-b_1:", "PrefixName@0 a-b_1: "),
    ("1:", "X4 at byte 0"),
    ("a.b:", "X4 at byte 0"),
    (":a", "ShortName@0 :a "),
    ("x:1", "ShortName@0 x:1 "),
    ("x:_a", "ShortName@0 x:_a "),
    ("x:a.b-c", "ShortName@0 x:a.b-c "),
    ("x:a.", "X4 at byte 0"),
    ("x:-a", "X4 at byte 0"),
    ("x:a:b", "X4 at byte 0"),
    ("_:b", "NodeLabel@0 _:b "),
    ("_:", "X4 at byte 0"),
    ("_:b.", "X4 at byte 0"),
    ("_a", "X4 at byte 0"),
    (".", "X4 at byte 0"),
    ("-", "X4 at byte 0"),
    ("a b", "Keyword@0 a Keyword@2 b "),
    ("a(b", "Keyword@0 a Opening@1 ( Keyword@2 b "),
    ("a<x:b>", "Keyword@0 a FullIri@1 <x:b> "),
    ("<x:b>a", "FullIri@0 <x:b> Keyword@5 a "),
    ("\"a\"b", "Quoted@0 \"a\" Keyword@3 b "),
    ("+", "X1 at byte 0"),
    ("a +b", "X1 at byte 2"),
    ("\u{feff}a", "X1 at byte 0"),
    ("\u{e9}", "X1 at byte 0"),
    ("a\u{a0}b", "X1 at byte 1"),
    ("a\u{c}b", "X1 at byte 1"),
    ("a\0", "X1 at byte 1"),
];

/// Each of the texts is shown so.
fn assert_shown<R: AllocGlobal + Abort>(rt: &R, rows: &[(&str, &str)]) {
    for row in rows {
        let (text, expected) = *row;
        assert!(rt; is_shown(rt.alloc(), text, expected) == Ok(true), "{text}");
    }
}

#[test]
fn documents(rt: HostRuntime) {
    assert_shown(&rt, DOCUMENTS);
}

#[test]
fn table_of_texts(rt: HostRuntime) {
    assert_shown(&rt, TEXTS);
}

#[test]
fn laws() {
    texts_spell_one_list();
    texts_have_one_fault();
}
