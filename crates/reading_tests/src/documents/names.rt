//! Assertions, declarations and annotations.

use crate::tables::{Part, Row, assert_documents};
use std::test::Fail;

const ASSERTIONS: &[Row] = &[
    ("ClassAssertion(:A :a)", "[3, 0, 1, 3, 1]"),
    ("ClassAssertion(owl:Thing :a)", "[2, 0, 1, 2, 1]"),
    (
        "ClassAssertion(ObjectSomeValuesFrom(:r :A) :a)",
        "[3, 1, 1, 4, 1]",
    ),
    (
        "DisjointClasses(:A :B) ClassAssertion(:A :a) ClassAssertion(:B :a)",
        "[4, 0, 1, 4, 3]",
    ),
    ("ObjectPropertyAssertion(:r :a :b)", "[2, 1, 2, 2, 1]"),
    ("ObjectPropertyAssertion(:r :a :a)", "[2, 1, 1, 2, 1]"),
    (
        "ObjectPropertyAssertion(Annotation(:p :q) :r :b :a) ClassAssertion(Annotation(:p :q) :A :a)",
        "[3, 1, 2, 3, 2]",
    ),
    (
        "SubClassOf(:A :B) ClassAssertion(:A :a) ObjectPropertyAssertion(:r :a :b) ObjectPropertyDomain(:r :C) Declaration(NamedIndividual(:c))",
        "[5, 1, 3, 5, 4]",
    ),
];

#[test]
fn assertions(rt: HostRuntime) -> Result<(), Fail> {
    assert_documents(&rt, Part::Counts, ASSERTIONS)
}

const SAME_DIFFERENT_AND_DENIED: &[Row] = &[
    ("SameIndividual(:a :b)", "[2, 0, 2, 2, 1]"),
    (
        "SameIndividual(:a :b) SameIndividual(:b :a)",
        "[2, 0, 2, 2, 2]",
    ),
    ("DifferentIndividuals(:a :b :c)", "[2, 0, 3, 2, 1]"),
    (
        "DifferentIndividuals(Annotation(:p :q) :b :a) ClassAssertion(:A :b)",
        "[3, 0, 2, 3, 2]",
    ),
    (
        "NegativeObjectPropertyAssertion(:r :a :a)",
        "[2, 1, 1, 2, 1]",
    ),
    (
        "SameIndividual(:b :c) ObjectPropertyAssertion(:r :a :b) SubObjectPropertyOf(:r :s) NegativeObjectPropertyAssertion(:s :a :c)",
        "[2, 2, 3, 2, 4]",
    ),
];

#[test]
fn same_different_and_denied(rt: HostRuntime) -> Result<(), Fail> {
    assert_documents(&rt, Part::Counts, SAME_DIFFERENT_AND_DENIED)
}

const DECLARATIONS: &[Row] = &[
    ("Declaration(Class(:A))", "[3, 0, 0, 3, 0]"),
    (
        "Declaration(Class(:A)) Declaration(Class(<x:A>))",
        "[3, 0, 0, 3, 0]",
    ),
    (
        "Declaration(Annotation(rdfs:comment \"x\") Class(:A))",
        "[3, 0, 0, 3, 0]",
    ),
    (
        "SubClassOf(:A :B) Declaration(Class(:A)) Declaration(Class(:C))",
        "[5, 0, 0, 5, 1]",
    ),
    (
        "Declaration(Class(owl:Thing)) SubClassOf(:A owl:Thing)",
        "[3, 0, 0, 3, 1]",
    ),
    ("Declaration(ObjectProperty(:r))", "[2, 1, 0, 2, 0]"),
    (
        "Declaration(ObjectProperty(:r)) TransitiveObjectProperty(:s) Declaration(ObjectProperty(:s))",
        "[2, 2, 0, 2, 1]",
    ),
    ("Declaration(NamedIndividual(:a))", "[2, 0, 1, 2, 0]"),
    (
        "Declaration(NamedIndividual(:a)) Declaration(NamedIndividual(:b)) Declaration(NamedIndividual(:a))",
        "[2, 0, 2, 2, 0]",
    ),
    // An annotation property is a name of none of the three kinds.
    (
        "Declaration(AnnotationProperty(:A)) Declaration(Class(:A))",
        "[3, 0, 0, 3, 0]",
    ),
];

#[test]
fn declarations(rt: HostRuntime) -> Result<(), Fail> {
    assert_documents(&rt, Part::Counts, DECLARATIONS)
}

const ONE_IRI_AS_SEVERAL_NAMES: &[Row] = &[
    (
        "Declaration(Class(:A)) Declaration(NamedIndividual(:A)) ClassAssertion(:A :A)",
        "[3, 0, 1, 3, 1]",
    ),
    (
        "Declaration(Class(:A)) Declaration(ObjectProperty(:A)) Declaration(NamedIndividual(:A))",
        "[3, 1, 1, 3, 0]",
    ),
    // Two, x, the restriction.
    (
        "SubClassOf(:x ObjectSomeValuesFrom(:x :x)) ClassAssertion(:x :x)",
        "[3, 1, 1, 4, 2]",
    ),
    ("ObjectPropertyAssertion(:a :a :a)", "[2, 1, 1, 2, 1]"),
    (
        "Declaration(AnnotationProperty(:a)) AnnotationAssertion(:a :a :a) ObjectPropertyAssertion(:a :a :b)",
        "[2, 1, 2, 2, 1]",
    ),
];

#[test]
fn one_iri_as_several_names(rt: HostRuntime) -> Result<(), Fail> {
    assert_documents(&rt, Part::Counts, ONE_IRI_AS_SEVERAL_NAMES)
}

const ANNOTATION_AXIOMS_STATE_NOTHING: &[Row] = &[
    (
        "AnnotationAssertion(rdfs:label :A \"a\"@en)",
        "[2, 0, 0, 2, 0]",
    ),
    (
        "AnnotationAssertion(:p :A \"1\"^^xsd:integer) SubClassOf(:A :B) AnnotationAssertion(Annotation(:p :B) :p :C :D)",
        "[4, 0, 0, 4, 1]",
    ),
    (
        "SubAnnotationPropertyOf(:p rdfs:comment)",
        "[2, 0, 0, 2, 0]",
    ),
    (
        "SubAnnotationPropertyOf(Annotation(:p :q) :p :p) Declaration(Class(:p))",
        "[3, 0, 0, 3, 0]",
    ),
    ("AnnotationPropertyDomain(:p :A)", "[2, 0, 0, 2, 0]"),
    (
        "AnnotationPropertyDomain(owl:p owl:Thing) AnnotationPropertyDomain(:p :A)",
        "[2, 0, 0, 2, 0]",
    ),
    ("AnnotationPropertyRange(:p xsd:string)", "[2, 0, 0, 2, 0]"),
    (
        "AnnotationPropertyRange(Annotation(:p \"x\") :p :A) TransitiveObjectProperty(:p)",
        "[2, 1, 0, 2, 1]",
    ),
];

#[test]
fn annotation_axioms_state_nothing(rt: HostRuntime) -> Result<(), Fail> {
    assert_documents(&rt, Part::Counts, ANNOTATION_AXIOMS_STATE_NOTHING)
}

const NAMES_AND_ANNOTATIONS_IN_FRONT: &[Row] = &[
    (":o SubClassOf(:A :B)", "[4, 0, 0, 4, 1]"),
    // The names of an ontology and of its version are no names in it.
    (":o :v SubClassOf(:A :B)", "[4, 0, 0, 4, 1]"),
    (
        "owl:o owl:v Annotation(:p \"x\") SubClassOf(:o :v)",
        "[4, 0, 0, 4, 1]",
    ),
    (
        "Annotation(Annotation(:q \"y\") rdfs:comment \"x\") Annotation(:p :A) Declaration(Class(:B))",
        "[3, 0, 0, 3, 0]",
    ),
];

#[test]
fn names_and_annotations_in_front(rt: HostRuntime) -> Result<(), Fail> {
    assert_documents(&rt, Part::Counts, NAMES_AND_ANNOTATIONS_IN_FRONT)
}
