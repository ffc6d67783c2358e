//! Faults of axioms of classes, and operands that are equal.

use crate::tables::{Part, Row, assert_documents};
use std::test::Fail;

const SUBCLASS_AXIOMS: &[Row] = &[
    ("SubClassOf(:A :B :C)", "F3 at byte 24\n"),
    ("SubClassOf(_:a _:a)", "F6 at byte 35\nF6 at byte 39\n"),
    ("SubClassOf(\"A\" 1)", "F3 at byte 35\nF3 at byte 39\n"),
    ("SubClassOf((:A) :B)", "F3 at byte 35\n"),
    (
        "SubClassOf(Annotation(\"x\" \"x\") :A owl:topObjectProperty)",
        "F3 at byte 46\nF5 at byte 58\n",
    ),
    (
        "SubClassOf(SubClassOf(:A :B) Class(:A))",
        "F3 at byte 35\nF3 at byte 53\n",
    ),
    (
        "SubClassOf(Ontology() Prefix())",
        "F3 at byte 35\nF3 at byte 46\n",
    ),
    ("SubClassOf(:A)", "F3 at byte 24\n"),
    ("SubClassOf(owl:real :A)", "F5 at byte 35\n"),
    (
        "SubClassOf(:A :B Annotation(rdfs:comment \"x\"))",
        "F3 at byte 24\n",
    ),
    (
        "SubClassOf(:A TransitiveObjectProperty(:r))",
        "F3 at byte 38\n",
    ),
    // Of a form with too many operands nothing else is told.
    ("SubClassOf(_:a owl:A Frobnicate())", "F3 at byte 24\n"),
    // Nor of its annotations, where it has too few.
    ("SubClassOf(Annotation(\"p\" \"q\") :A)", "F3 at byte 24\n"),
];

#[test]
fn subclass_axioms(rt: HostRuntime) -> Result<(), Fail> {
    assert_documents(&rt, Part::Faults, SUBCLASS_AXIOMS)
}

const EQUIVALENT_CLASSES: &[Row] = &[
    ("EquivalentClasses(:A owl:Thing :B)", ""),
    ("EquivalentClasses(:A <x:A>)", "F4 at byte 45\n"),
    (
        "EquivalentClasses(:A :B :A :B :A)",
        "F4 at byte 48\nF4 at byte 51\nF4 at byte 54\n",
    ),
    ("EquivalentClasses(:A)", "F3 at byte 24\n"),
    (
        "EquivalentClasses(_:a _:a)",
        "F6 at byte 42\nF4 at byte 46\n",
    ),
    (
        "EquivalentClasses(_:a _:b)",
        "F6 at byte 42\nF6 at byte 46\n",
    ),
    ("EquivalentClasses(:A :A)", "F4 at byte 45\n"),
];

#[test]
fn equivalent_classes(rt: HostRuntime) -> Result<(), Fail> {
    assert_documents(&rt, Part::Faults, EQUIVALENT_CLASSES)
}

const EQUAL_OPERANDS: &[Row] = &[
    ("EquivalentClasses(1 01)", "F3 at byte 42\nF3 at byte 44\n"),
    ("EquivalentClasses(1 1)", "F3 at byte 42\nF4 at byte 44\n"),
    (
        "EquivalentClasses(\"a\" \"a\"@en \"a\"@EN \"a\"@en \"b\" \"a\")",
        "F3 at byte 42\nF3 at byte 46\nF3 at byte 53\nF4 at byte 60\nF3 at byte 67\nF4 at byte 71\n",
    ),
    (
        "EquivalentClasses(\"a\"^^:t \"a\"^^<x:t> \"a\"^^:u \"a\")",
        "F3 at byte 42\nF4 at byte 50\nF3 at byte 61\nF3 at byte 69\n",
    ),
    (
        "EquivalentClasses((:A :B) (:A <x:B>) (:A) (:B :A))",
        "F3 at byte 42\nF4 at byte 50\nF3 at byte 61\nF3 at byte 66\n",
    ),
    (
        "EquivalentClasses(Annotation(:p :a) Annotation(:p :a) :A :B)",
        "",
    ),
    (
        "EquivalentClasses(ObjectUnionOf(:A :B) ObjectUnionOf(:A :B) ObjectUnionOf(:B :A))",
        "F1 at byte 42: ObjectUnionOf\nF4 at byte 63\nF1 at byte 84: ObjectUnionOf\n",
    ),
    (
        "EquivalentClasses(ObjectSomeValuesFrom(:r :A) ObjectSomeValuesFrom(:r <x:A>) ObjectSomeValuesFrom(:s :A))",
        "F4 at byte 70\n",
    ),
    (
        "EquivalentClasses(ObjectIntersectionOf(:A owl:real) ObjectIntersectionOf(:A owl:real))",
        "F5 at byte 66\nF4 at byte 76\n",
    ),
    // An annotation behind an operand stands where one is expected.
    (
        "EquivalentClasses(Annotation(:p \"x\") :A :B Annotation(:p \"x\") :B)",
        "F3 at byte 67\nF4 at byte 86\n",
    ),
    (
        "EquivalentClasses(_:a :A <x:A>)",
        "F6 at byte 42\nF4 at byte 49\n",
    ),
    (
        "DisjointClasses(ObjectSomeValuesFrom(:r :A) :A ObjectSomeValuesFrom(<x:r> :A))",
        "F4 at byte 71\n",
    ),
    // An operand that equals an earlier one is that alone, also where it is faulty itself.
    (
        "DisjointClasses(_:a _:a _:b)",
        "F6 at byte 40\nF4 at byte 44\nF6 at byte 48\n",
    ),
    // Operands are equal where their texts are.
    (
        "DisjointClasses(1 01 1)",
        "F3 at byte 40\nF3 at byte 42\nF4 at byte 45\n",
    ),
];

#[test]
fn equal_operands(rt: HostRuntime) -> Result<(), Fail> {
    assert_documents(&rt, Part::Faults, EQUAL_OPERANDS)
}

const DISJOINT_CLASSES: &[Row] = &[
    ("DisjointClasses(:A ObjectSomeValuesFrom(:r :B) :B)", ""),
    (
        "DisjointClasses(:A xsd:string xsd:string)",
        "F5 at byte 43\nF4 at byte 54\n",
    ),
    ("DisjointClasses()", "F3 at byte 24\n"),
    ("DisjointClasses(Annotation(:p :a) :A)", "F3 at byte 24\n"),
];

#[test]
fn disjoint_classes(rt: HostRuntime) -> Result<(), Fail> {
    assert_documents(&rt, Part::Faults, DISJOINT_CLASSES)
}

const MANY_OPERANDS: &[Row] = &[
    // Ten operands are looked up in a table, which knows a name wherever its prefix ends.
    ("DisjointClasses(:A :B :C :D :E :F :G :H :I :J)", ""),
    (
        "DisjointClasses(:A :B :C _:a :E :F <x:A> _:a owl:real :J)",
        "F6 at byte 49\nF4 at byte 59\nF4 at byte 65\nF5 at byte 69\n",
    ),
    (
        "EquivalentClasses(\"a\" \"a\"@en \"a\"^^:t 1 () (:A) F() F(:A) :A \"a\"@en (<x:A>))",
        "F3 at byte 42\nF3 at byte 46\nF3 at byte 53\nF3 at byte 61\nF3 at byte 63\nF3 at byte 66\nF2 at byte 71: F\nF2 at byte 75: F\nF4 at byte 84\nF4 at byte 91\n",
    ),
];

#[test]
fn many_operands(rt: HostRuntime) -> Result<(), Fail> {
    assert_documents(&rt, Part::Faults, MANY_OPERANDS)
}
