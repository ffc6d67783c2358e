//! Faults of assertions and declarations.

use crate::tables::{Part, Row, assert_documents, assert_documents_in};
use profile::Version;
use std::test::Fail;

const ASSERTIONS: &[Row] = &[
    ("ClassAssertion(:A _:a)", "F6 at byte 42\n"),
    ("ClassAssertion(owl:Thing owl:Thing)", "F5 at byte 49\n"),
    ("ClassAssertion(:a)", "F3 at byte 24\n"),
    (
        "ObjectPropertyAssertion(owl:r xsd:a \"b\")",
        "F5 at byte 48\nF5 at byte 54\nF3 at byte 60\n",
    ),
    ("ObjectPropertyAssertion(:r :a)", "F3 at byte 24\n"),
    (
        "ClassAssertion(rdfs:Class _:a)",
        "F5 at byte 39\nF6 at byte 50\n",
    ),
    (
        "ClassAssertion(:A ObjectSomeValuesFrom(:r :A))",
        "F3 at byte 42\n",
    ),
    ("ObjectPropertyAssertion(:r :a 1)", "F3 at byte 54\n"),
    (
        "ObjectPropertyAssertion(Annotation(:p :q) :r :a)",
        "F3 at byte 24\n",
    ),
];

#[test]
fn assertions(rt: HostRuntime) -> Result<(), Fail> {
    assert_documents(&rt, Part::Faults, ASSERTIONS)
}

const SAME_AND_DIFFERENT: &[Row] = &[
    ("SameIndividual(:a :b :c)", ""),
    ("SameIndividual(:a)", "F3 at byte 24\n"),
    ("DifferentIndividuals()", "F3 at byte 24\n"),
    ("SameIndividual(Annotation(:p :q) :a)", "F3 at byte 24\n"),
    ("SameIndividual(:a :b <x:a>)", "F4 at byte 45\n"),
    (
        "DifferentIndividuals(:a :a :b :a)",
        "F4 at byte 48\nF4 at byte 54\n",
    ),
    (
        "SameIndividual(_:a :a _:a)",
        "F6 at byte 39\nF4 at byte 46\n",
    ),
    (
        "DifferentIndividuals(owl:Thing :a \"a\" ObjectIntersectionOf(:A :B))",
        "F5 at byte 45\nF3 at byte 58\nF3 at byte 62\n",
    ),
];

#[test]
fn same_and_different(rt: HostRuntime) -> Result<(), Fail> {
    assert_documents(&rt, Part::Faults, SAME_AND_DIFFERENT)
}

const DENIED_PAIRS: &[Row] = &[
    ("NegativeObjectPropertyAssertion(:r :a :a)", ""),
    ("NegativeObjectPropertyAssertion(:r :a)", "F3 at byte 24\n"),
    (
        "NegativeObjectPropertyAssertion(:r :a :b :c)",
        "F3 at byte 24\n",
    ),
    (
        "NegativeObjectPropertyAssertion(owl:topObjectProperty _:a 1)",
        "F5 at byte 56\nF6 at byte 78\nF3 at byte 82\n",
    ),
    (
        "NegativeObjectPropertyAssertion(ObjectInverseOf(:r) :a :b)",
        "F1 at byte 56: ObjectInverseOf\n",
    ),
    (
        "NegativeObjectPropertyAssertion(ObjectPropertyChain(:r :s) :a :b)",
        "F3 at byte 56\n",
    ),
];

#[test]
fn denied_pairs(rt: HostRuntime) -> Result<(), Fail> {
    assert_documents(&rt, Part::Faults, DENIED_PAIRS)
}

/// Where no axiom is expected, forms of the second version are as out of place as others.
const OUT_OF_PLACE: &[Row] = &[
    (
        "SubClassOf(SameIndividual(:a :b) DifferentIndividuals(:a))",
        "F3 at byte 35\nF3 at byte 57\n",
    ),
    (
        "Annotation(:p NegativeObjectPropertyAssertion(:r :a :b))",
        "F3 at byte 38\n",
    ),
    ("Declaration(SameIndividual(:a :b))", "F3 at byte 36\n"),
    (
        "ClassAssertion(:A SameIndividual(:a :b))",
        "F3 at byte 42\n",
    ),
];

#[test]
fn out_of_place(rt: HostRuntime) -> Result<(), Fail> {
    assert_documents(&rt, Part::Faults, OUT_OF_PLACE)
}

/// What the first version refuses is told as that wherever it stands, and nothing from inside of it.
const REFUSED_BY_THE_FIRST: &[Row] = &[
    (
        "DifferentIndividuals(:a :b) NegativeObjectPropertyAssertion(:r :a :b)",
        "F1 at byte 24: DifferentIndividuals\nF1 at byte 52: NegativeObjectPropertyAssertion\n",
    ),
    (
        "SameIndividual(_:a _:a) SubClassOf(owl:A SameIndividual(:a :b))",
        "F1 at byte 24: SameIndividual\nF5 at byte 59\nF1 at byte 65: SameIndividual\n",
    ),
    (
        "ClassAssertion(:A :a) ObjectPropertyAssertion(:r :a _:b)",
        "F6 at byte 76\n",
    ),
];

#[test]
fn refused_by_the_first(rt: HostRuntime) -> Result<(), Fail> {
    assert_documents_in(&rt, Version::One, Part::Faults, REFUSED_BY_THE_FIRST)
}

const DECLARATIONS_OF_CLASSES: &[Row] = &[
    ("Declaration(Class(owl:real))", "F5 at byte 42\n"),
    (
        "Declaration(Class(ObjectSomeValuesFrom(:r :A)))",
        "F3 at byte 42\n",
    ),
    (
        "Declaration(Class(Annotation(rdfs:comment \"x\") :A))",
        "F3 at byte 36\n",
    ),
    ("Declaration(:A)", "F3 at byte 36\n"),
    ("Declaration(Class(:A) Class(:B))", "F3 at byte 24\n"),
    ("Declaration()", "F3 at byte 24\n"),
    ("Class(:A)", "F3 at byte 24\n"),
    ("Declaration(Class())", "F3 at byte 36\n"),
];

#[test]
fn declarations_of_classes(rt: HostRuntime) -> Result<(), Fail> {
    assert_documents(&rt, Part::Faults, DECLARATIONS_OF_CLASSES)
}

const DECLARATIONS: &[Row] = &[
    (
        "Declaration(ObjectProperty(owl:topObjectProperty))",
        "F5 at byte 51\n",
    ),
    ("Declaration(ObjectProperty(:r :s))", "F3 at byte 36\n"),
    ("Declaration(NamedIndividual(owl:Thing))", "F5 at byte 52\n"),
    ("Declaration(NamedIndividual(_:a))", "F6 at byte 52\n"),
    ("Declaration(AnnotationProperty(:p))", ""),
    ("Declaration(AnnotationProperty(rdfs:comment))", ""),
    ("Declaration(AnnotationProperty(\"p\"))", "F3 at byte 55\n"),
    ("Declaration(Datatype(:t))", "F1 at byte 36: Datatype\n"),
    (
        "Declaration(DataProperty(xsd:string))",
        "F1 at byte 36: DataProperty\n",
    ),
    // What is declared is a name.
    (
        "Declaration(Class(ObjectIntersectionOf(:A :B)))",
        "F3 at byte 42\n",
    ),
    (
        "Declaration(ObjectProperty(ObjectPropertyChain(:r :s)))",
        "F3 at byte 51\n",
    ),
    ("Declaration(NamedIndividual(\"a\"))", "F3 at byte 52\n"),
    // What is declared takes no annotations, so that it has one operand too many here.
    (
        "Declaration(NamedIndividual(Annotation(:p \"x\") :a))",
        "F3 at byte 36\n",
    ),
    ("Declaration(AnnotationProperty(_:p))", "F6 at byte 55\n"),
    (
        "Declaration(AnnotationProperty(Annotation(:p :q) :p))",
        "F3 at byte 36\n",
    ),
    (
        "Declaration(ObjectProperty(Annotation(:p :q) :r))",
        "F3 at byte 36\n",
    ),
    ("Declaration(SubClassOf(:A :B))", "F3 at byte 36\n"),
];

#[test]
fn declarations(rt: HostRuntime) -> Result<(), Fail> {
    assert_documents(&rt, Part::Faults, DECLARATIONS)
}
