//! Faults of annotations, and of what stands in front of the axioms.

use crate::tables::{Part, Row, assert_documents};
use std::test::Fail;

const ANNOTATION_AXIOMS: &[Row] = &[
    (
        "AnnotationAssertion(rdfs:label owl:Thing \"a\"^^xsd:string)",
        "",
    ),
    ("AnnotationAssertion(rdfs:label :A :B)", ""),
    (
        "AnnotationAssertion(:p _:a _:b)",
        "F6 at byte 47\nF6 at byte 51\n",
    ),
    (
        "AnnotationAssertion(\"p\" \"a\" (:A))",
        "F3 at byte 44\nF3 at byte 48\nF3 at byte 52\n",
    ),
    ("AnnotationAssertion(:p :A)", "F3 at byte 24\n"),
    ("AnnotationAssertion(:p :A Class(:A))", "F3 at byte 50\n"),
    ("SubAnnotationPropertyOf(:p \"q\")", "F3 at byte 51\n"),
    ("SubAnnotationPropertyOf(:p)", "F3 at byte 24\n"),
    ("AnnotationPropertyDomain(:p xsd:string)", ""),
    (
        "AnnotationPropertyDomain(:p ObjectSomeValuesFrom(:r :A))",
        "F3 at byte 52\n",
    ),
    ("AnnotationPropertyRange(:p :A)", ""),
    ("AnnotationPropertyRange(:p :A :B)", "F3 at byte 24\n"),
    ("AnnotationAssertion(_:p :A \"x\")", "F6 at byte 44\n"),
    ("SubAnnotationPropertyOf(Class(:p) :q)", "F3 at byte 48\n"),
    ("AnnotationPropertyDomain(:p _:A)", "F6 at byte 52\n"),
    ("AnnotationPropertyRange(1 :A)", "F3 at byte 48\n"),
];

#[test]
fn annotation_axioms(rt: HostRuntime) -> Result<(), Fail> {
    assert_documents(&rt, Part::Faults, ANNOTATION_AXIOMS)
}

const ANNOTATIONS: &[Row] = &[
    (
        "Annotation(rdfs:comment \"x\") Annotation(:p :a) SubClassOf(:A :B)",
        "",
    ),
    (
        "Annotation(Annotation(Annotation(:p \"z\") :p \"y\") :p \"x\")",
        "",
    ),
    ("Annotation(:p)", "F3 at byte 24\n"),
    ("Annotation(\"p\" 1)", "F3 at byte 35\nF3 at byte 39\n"),
    ("Annotation(:p _:a)", "F6 at byte 38\n"),
    ("SubClassOf(:A :B) Annotation(:p \"x\")", "F3 at byte 42\n"),
    ("SubClassOf(Annotation(:p) :A :B)", "F3 at byte 35\n"),
    ("Annotation(:p Class(:A))", "F3 at byte 38\n"),
    // A faulty annotation still is one, so that others may follow it.
    (
        "Annotation(:p) Annotation(1 :q) SubClassOf(:A owl:A)",
        "F3 at byte 24\nF3 at byte 50\nF5 at byte 70\n",
    ),
];

#[test]
fn annotations(rt: HostRuntime) -> Result<(), Fail> {
    assert_documents(&rt, Part::Faults, ANNOTATIONS)
}

const NAMES_AND_ANNOTATIONS_OF_AN_ONTOLOGY: &[Row] = &[
    (":o :v", ""),
    (":o :v :w SubClassOf(:A :B)", "F3 at byte 30\n"),
    (
        ":o :v :w Annotation(:p \"x\") Annotation(:p)",
        "F3 at byte 30\nF3 at byte 52\n",
    ),
    (":o \"v\"", "F3 at byte 27\n"),
    (
        "owl:o owl:v Annotation(:p \"x\") :w Annotation(:p \"x\") SubClassOf(:A :B) :o",
        "F3 at byte 55\nF3 at byte 95\n",
    ),
    (
        "Annotation(\"p\" \"x\") :o SubClassOf(:A :B) Annotation(:p)",
        "F3 at byte 35\nF3 at byte 44\nF3 at byte 65\n",
    ),
    (
        "SubClassOf(:A :B) :o Annotation(:p \"x\") \"x\"",
        "F3 at byte 42\nF3 at byte 45\nF3 at byte 64\n",
    ),
    (
        "\"x\" :o Annotation(:p \"x\")",
        "F3 at byte 24\nF3 at byte 28\nF3 at byte 31\n",
    ),
    // A faulty annotation still is one, so that no name may follow it.
    (
        "Annotation() :o SubClassOf(:A :B)",
        "F3 at byte 24\nF3 at byte 37\n",
    ),
    // Two names too many change nothing else.
    (
        ":o :v :w :u Annotation(:p \"x\") SubClassOf(:A :B)",
        "F3 at byte 30\nF3 at byte 33\n",
    ),
    // Behind a tree that is neither name nor annotation axioms are expected.
    (":o (:v) :w", "F3 at byte 27\nF3 at byte 32\n"),
    ("Annotation(:p :q) _:o :v", "F6 at byte 42\nF3 at byte 46\n"),
];

#[test]
fn names_and_annotations_of_an_ontology(rt: HostRuntime) -> Result<(), Fail> {
    assert_documents(&rt, Part::Faults, NAMES_AND_ANNOTATIONS_OF_AN_ONTOLOGY)
}
