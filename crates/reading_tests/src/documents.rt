//! Documents and the ontologies that they state.
//!
//! A row is what stands in a document that declares the prefix `:` for `x:`, and how many classes, properties, individuals,
//! expressions and axioms its ontology has. `owl:Thing` and `owl:Nothing` are classes, and expressions, of each.

mod classes;
mod names;
mod numbers;
mod properties;

use crate::tables::{Part, Row, assert_documents, assert_texts};
use std::test::Fail;

const NO_AXIOMS: &[Row] = &[
    ("", "[2, 0, 0, 2, 0]"),
    (":o", "[2, 0, 0, 2, 0]"),
    (":o :v Annotation(:p :q)", "[2, 0, 0, 2, 0]"),
    (
        "Annotation(rdfs:comment \"x\") Annotation(Annotation(:p \"z\") :p \"y\")",
        "[2, 0, 0, 2, 0]",
    ),
    (
        "Declaration(Class(owl:Thing)) Declaration(Class(owl:Nothing))",
        "[2, 0, 0, 2, 0]",
    ),
    (
        "Declaration(AnnotationProperty(:p)) Declaration(AnnotationProperty(rdfs:label))",
        "[2, 0, 0, 2, 0]",
    ),
];

#[test]
fn no_axioms(rt: HostRuntime) -> Result<(), Fail> {
    assert_documents(&rt, Part::Counts, NO_AXIOMS)
}

/// Whole texts, with the counts of their ontologies, or their faults.
const WHOLE_TEXTS: &[Row] = &[
    ("Ontology()", "[2, 0, 0, 2, 0]"),
    ("Ontology(SubClassOf(<x:A><x:B>))", "[4, 0, 0, 4, 1]"),
    (
        "Ontology(SubClassOf(<x:A#b> <x:B>)) # end",
        "[4, 0, 0, 4, 1]",
    ),
    // Two prefixes for one IRI, and a class that is spelled in three ways.
    (
        "Prefix(p:=<x:>)\nPrefix(q:=<x:>)\nOntology(<x:o>\n  SubClassOf(p:A q:A) # one name\n  Declaration(Class(<x:A>))\n)\n",
        "[3, 0, 0, 3, 1]",
    ),
    (
        "Prefix(owl:=<http://www.w3.org/2002/07/owl#>) Prefix(t:=<http://www.w3.org/2002/07/owl#Th>) Ontology(SubClassOf(t:ing owl:Nothing))",
        "[2, 0, 0, 2, 1]",
    ),
    (
        "Ontology(HasKey(<x:A> (<x:p>) ()) SubClassOf(_:b <x:B>) Frobnicate() )",
        "F1 at byte 9: HasKey\nF6 at byte 45\nF2 at byte 56: Frobnicate\n",
    ),
    (
        "Ontology(SubClassOf(ObjectUnionOf(<x:A> <x:B>) <x:C>))",
        "F1 at byte 20: ObjectUnionOf\n",
    ),
    ("Ontology(", "P2 at byte 9"),
    ("Ontology(SubClassOf(owl:Thing:A <x:B>))", "X4 at byte 20"),
];

#[test]
fn whole_texts(rt: HostRuntime) -> Result<(), Fail> {
    assert_texts(&rt, WHOLE_TEXTS)
}
