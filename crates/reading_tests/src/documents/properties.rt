//! Axioms and chains of properties.

use crate::tables::{Part, Row, assert_documents};
use std::test::Fail;

const SUBPROPERTIES: &[Row] = &[
    ("SubObjectPropertyOf(:r :s)", "[2, 2, 0, 2, 1]"),
    ("SubObjectPropertyOf(:r :r)", "[2, 1, 0, 2, 1]"),
    (
        "SubObjectPropertyOf(Annotation(:p \"x\") :r :s)",
        "[2, 2, 0, 2, 1]",
    ),
    (
        "SubObjectPropertyOf(ObjectPropertyChain(:r :s :t) :u)",
        "[2, 4, 0, 2, 1]",
    ),
    (
        "SubObjectPropertyOf(ObjectPropertyChain(:r :r) :r)",
        "[2, 1, 0, 2, 1]",
    ),
    (
        "SubObjectPropertyOf(Annotation(:p :q) ObjectPropertyChain(:s :r :s) :r) SubObjectPropertyOf(:r :s)",
        "[2, 2, 0, 2, 2]",
    ),
    ("EquivalentObjectProperties(:r :s :t)", "[2, 3, 0, 2, 1]"),
    (
        "EquivalentObjectProperties(:r :s) EquivalentObjectProperties(Annotation(:p :q) :s :r)",
        "[2, 2, 0, 2, 2]",
    ),
];

#[test]
fn subproperties(rt: HostRuntime) -> Result<(), Fail> {
    assert_documents(&rt, Part::Counts, SUBPROPERTIES)
}

const PROPERTIES: &[Row] = &[
    ("TransitiveObjectProperty(:r)", "[2, 1, 0, 2, 1]"),
    (
        "TransitiveObjectProperty(:r) TransitiveObjectProperty(Annotation(:p :q) <x:r>)",
        "[2, 1, 0, 2, 2]",
    ),
    ("ReflexiveObjectProperty(:r)", "[2, 1, 0, 2, 1]"),
    (
        "ReflexiveObjectProperty(:r) ReflexiveObjectProperty(:s) TransitiveObjectProperty(:r)",
        "[2, 2, 0, 2, 3]",
    ),
    // Two, B, A, the restriction.
    (
        "ReflexiveObjectProperty(:q) SubObjectPropertyOf(:q :p) EquivalentClasses(:B ObjectSomeValuesFrom(:p :A))",
        "[4, 2, 0, 5, 3]",
    ),
    ("ObjectPropertyDomain(:r :A)", "[3, 1, 0, 3, 1]"),
    (
        "ObjectPropertyDomain(:r ObjectSomeValuesFrom(:r :A))",
        "[3, 1, 0, 4, 1]",
    ),
    (
        "ObjectPropertyDomain(Annotation(:p :q) :r ObjectSomeValuesFrom(:s owl:Thing))",
        "[2, 2, 0, 3, 1]",
    ),
    // Two, B, A, C, the restriction.
    (
        "ObjectPropertyDomain(:r :B) SubClassOf(:A ObjectSomeValuesFrom(:r :C))",
        "[5, 1, 0, 6, 2]",
    ),
];

#[test]
fn properties(rt: HostRuntime) -> Result<(), Fail> {
    assert_documents(&rt, Part::Counts, PROPERTIES)
}

const CHAINS_AND_DEFINITIONS: &[Row] = &[
    // Two, E, W, some loc W, H, some part H, D, some loc H.
    (
        "SubClassOf(:E ObjectSomeValuesFrom(:loc :W)) SubClassOf(:W ObjectSomeValuesFrom(:part :H)) SubObjectPropertyOf(ObjectPropertyChain(:loc :part) :loc) EquivalentClasses(:D ObjectSomeValuesFrom(:loc :H))",
        "[6, 2, 0, 9, 4]",
    ),
    // Two, A, B, some r B, C, some s C, D, some r C.
    (
        "SubObjectPropertyOf(ObjectPropertyChain(:r :s) :r) SubObjectPropertyOf(ObjectPropertyChain(:s :r) :s) SubClassOf(:A ObjectSomeValuesFrom(:r :B)) SubClassOf(:B ObjectSomeValuesFrom(:s :C)) EquivalentClasses(:D ObjectSomeValuesFrom(:r :C))",
        "[6, 2, 0, 9, 5]",
    ),
    // Seven classes and four restrictions.
    (
        "SubObjectPropertyOf(ObjectPropertyChain(:r :s :t) :u) SubClassOf(:A ObjectSomeValuesFrom(:r :B)) SubClassOf(:B ObjectSomeValuesFrom(:s :C)) SubClassOf(:C ObjectSomeValuesFrom(:t :D)) SubClassOf(ObjectSomeValuesFrom(:u :D) :E)",
        "[7, 4, 0, 11, 5]",
    ),
    // Five classes and two restrictions.
    (
        "ReflexiveObjectProperty(:q) SubObjectPropertyOf(ObjectPropertyChain(:r :q) :s) SubClassOf(:A ObjectSomeValuesFrom(:r :B)) SubClassOf(ObjectSomeValuesFrom(:s :B) :C)",
        "[5, 3, 0, 7, 4]",
    ),
];

#[test]
fn chains_and_definitions(rt: HostRuntime) -> Result<(), Fail> {
    assert_documents(&rt, Part::Counts, CHAINS_AND_DEFINITIONS)
}
