//! Axioms of classes.

use crate::tables::{Part, Row, assert_documents};
use std::test::Fail;

const SUBCLASS_AXIOMS: &[Row] = &[
    ("SubClassOf(:A :B)", "[4, 0, 0, 4, 1]"),
    ("SubClassOf(:A :A)", "[3, 0, 0, 3, 1]"),
    ("SubClassOf(owl:Thing owl:Nothing)", "[2, 0, 0, 2, 1]"),
    ("SubClassOf(owl:Thing :A)", "[3, 0, 0, 3, 1]"),
    (
        "SubClassOf(:A :B) SubClassOf(<x:B> <x:A>)",
        "[4, 0, 0, 4, 2]",
    ),
    // Names and expressions are kept once, axioms as often as they stand there.
    ("SubClassOf(:A :B) SubClassOf(:A :B)", "[4, 0, 0, 4, 2]"),
    (
        "SubClassOf(:A :B) SubClassOf(:A :C) DisjointClasses(:B :C)",
        "[5, 0, 0, 5, 3]",
    ),
    (
        "SubClassOf(Annotation(rdfs:comment \"x\") :A :B)",
        "[4, 0, 0, 4, 1]",
    ),
    // An annotation's names are none of the ontology.
    (
        "SubClassOf(Annotation(Annotation(:p \"y\") :q \"x\") Annotation(:p :C) :A :B)",
        "[4, 0, 0, 4, 1]",
    ),
    (
        "SubClassOf(:A ObjectSomeValuesFrom(:r owl:Nothing))",
        "[3, 1, 0, 4, 1]",
    ),
];

#[test]
fn subclass_axioms(rt: HostRuntime) -> Result<(), Fail> {
    assert_documents(&rt, Part::Counts, SUBCLASS_AXIOMS)
}

const EQUIVALENT_AND_DISJOINT_CLASSES: &[Row] = &[
    ("EquivalentClasses(:A :B)", "[4, 0, 0, 4, 1]"),
    (
        "EquivalentClasses(:A :B) EquivalentClasses(:B :A)",
        "[4, 0, 0, 4, 2]",
    ),
    (
        "EquivalentClasses(:A owl:Thing :B owl:Nothing)",
        "[4, 0, 0, 4, 1]",
    ),
    // The two differ in the order of their operands.
    (
        "EquivalentClasses(ObjectIntersectionOf(:A :B) ObjectIntersectionOf(:B :A))",
        "[4, 0, 0, 6, 1]",
    ),
    // Two, D, A, B, C, the intersection, E.
    (
        "EquivalentClasses(:D ObjectIntersectionOf(:A :B :C)) SubClassOf(:E :A) SubClassOf(:E :B) SubClassOf(:E :C)",
        "[7, 0, 0, 8, 4]",
    ),
    ("DisjointClasses(:A :B)", "[4, 0, 0, 4, 1]"),
    // Two, A, B, the intersection, C.
    (
        "DisjointClasses(:A ObjectIntersectionOf(:A :B)) SubClassOf(:C :A) SubClassOf(:C :B)",
        "[5, 0, 0, 6, 3]",
    ),
    (
        "DisjointClasses(Annotation(:p \"x\") owl:Nothing owl:Thing)",
        "[2, 0, 0, 2, 1]",
    ),
];

#[test]
fn equivalent_and_disjoint_classes(rt: HostRuntime) -> Result<(), Fail> {
    assert_documents(&rt, Part::Counts, EQUIVALENT_AND_DISJOINT_CLASSES)
}

const INTERSECTIONS: &[Row] = &[
    (
        "SubClassOf(ObjectIntersectionOf(:A :B) :C)",
        "[5, 0, 0, 6, 1]",
    ),
    // The two are one.
    (
        "SubClassOf(ObjectIntersectionOf(:A :B) ObjectIntersectionOf(:A <x:B>))",
        "[4, 0, 0, 5, 1]",
    ),
    // Two, A, B, C, of B and C, of A and that, of all three.
    (
        "SubClassOf(ObjectIntersectionOf(:A ObjectIntersectionOf(:B :C)) ObjectIntersectionOf(:A :B :C))",
        "[5, 0, 0, 8, 1]",
    ),
    // An intersection's prefix is a part of it only where it stands there.
    (
        "SubClassOf(ObjectIntersectionOf(:A :B :C) ObjectIntersectionOf(:A :B))",
        "[5, 0, 0, 7, 1]",
    ),
    (
        "ClassAssertion(ObjectIntersectionOf(owl:Thing owl:Nothing) :a)",
        "[2, 0, 1, 3, 1]",
    ),
    // Two, A, B, the intersection, C.
    (
        "ObjectPropertyDomain(:r ObjectIntersectionOf(:A :B)) SubClassOf(:C ObjectIntersectionOf(:A :B))",
        "[5, 1, 0, 6, 2]",
    ),
];

#[test]
fn intersections(rt: HostRuntime) -> Result<(), Fail> {
    assert_documents(&rt, Part::Counts, INTERSECTIONS)
}

const EXISTENTIALS: &[Row] = &[
    (
        "SubClassOf(ObjectSomeValuesFrom(:r :A) ObjectSomeValuesFrom(:s :A))",
        "[3, 2, 0, 5, 1]",
    ),
    (
        "SubClassOf(:A ObjectSomeValuesFrom(:r ObjectSomeValuesFrom(:r ObjectSomeValuesFrom(:r :A))))",
        "[3, 1, 0, 6, 1]",
    ),
    // The right side is a part of the left one.
    (
        "SubClassOf(ObjectSomeValuesFrom(:r ObjectSomeValuesFrom(:s :A)) ObjectSomeValuesFrom(:s :A))",
        "[3, 2, 0, 5, 1]",
    ),
    // Two, A, B, the intersection, the restriction.
    (
        "SubClassOf(ObjectSomeValuesFrom(:r ObjectIntersectionOf(:A :B)) ObjectIntersectionOf(:A :B))",
        "[4, 1, 0, 6, 1]",
    ),
    // Two, A, B, the restriction, C.
    (
        "EquivalentClasses(:A ObjectSomeValuesFrom(:r :B)) SubClassOf(ObjectSomeValuesFrom(<x:r> :B) :C)",
        "[5, 1, 0, 6, 2]",
    ),
    (
        "DisjointClasses(ObjectSomeValuesFrom(:r owl:Thing) ObjectSomeValuesFrom(:s owl:Thing) owl:Nothing)",
        "[2, 2, 0, 4, 1]",
    ),
];

#[test]
fn existentials(rt: HostRuntime) -> Result<(), Fail> {
    assert_documents(&rt, Part::Counts, EXISTENTIALS)
}
