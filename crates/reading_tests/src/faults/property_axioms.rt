//! Faults of axioms and chains of properties.

use crate::tables::{Part, Row, assert_documents};
use std::test::Fail;

const SUBPROPERTIES: &[Row] = &[
    ("SubObjectPropertyOf(ObjectPropertyChain(:r :s) :t)", ""),
    (
        "SubObjectPropertyOf(owl:topObjectProperty owl:bottomObjectProperty)",
        "F5 at byte 44\nF5 at byte 66\n",
    ),
    (
        "SubObjectPropertyOf(:r ObjectPropertyChain(:r :s))",
        "F3 at byte 47\n",
    ),
    (
        "SubObjectPropertyOf(ObjectInverseOf(:r) ObjectInverseOf(:r))",
        "F1 at byte 44: ObjectInverseOf\nF1 at byte 64: ObjectInverseOf\n",
    ),
    ("SubObjectPropertyOf(:r)", "F3 at byte 24\n"),
    (
        "SubObjectPropertyOf(ObjectSomeValuesFrom(:r :A) _:s)",
        "F3 at byte 44\nF6 at byte 72\n",
    ),
    (
        "SubObjectPropertyOf(ObjectPropertyChain(_:a :r owl:topObjectProperty) :r)",
        "F6 at byte 64\nF5 at byte 71\n",
    ),
];

#[test]
fn subproperties(rt: HostRuntime) -> Result<(), Fail> {
    assert_documents(&rt, Part::Faults, SUBPROPERTIES)
}

const CHAINS: &[Row] = &[
    (
        "SubObjectPropertyOf(ObjectPropertyChain(:r owl:s _:t) :r)",
        "F5 at byte 67\nF6 at byte 73\n",
    ),
    (
        "SubObjectPropertyOf(ObjectPropertyChain(:r) :r)",
        "F3 at byte 44\n",
    ),
    (
        "SubObjectPropertyOf(ObjectPropertyChain(Annotation(:p \"x\") :r) :r)",
        "F3 at byte 64\n",
    ),
    (
        "SubObjectPropertyOf(ObjectPropertyChain(:r ObjectPropertyChain(:r :s)) :r)",
        "F3 at byte 67\n",
    ),
    (
        "SubObjectPropertyOf(ObjectPropertyChain(Annotation(:p :q) :r :s) :t)",
        "F3 at byte 64\n",
    ),
    (
        "SubObjectPropertyOf(ObjectPropertyChain() :t)",
        "F3 at byte 44\n",
    ),
];

#[test]
fn chains(rt: HostRuntime) -> Result<(), Fail> {
    assert_documents(&rt, Part::Faults, CHAINS)
}

const PROPERTY_AXIOMS: &[Row] = &[
    ("EquivalentObjectProperties(:r :r)", "F4 at byte 54\n"),
    (
        "EquivalentObjectProperties(ObjectPropertyChain(:r :s) :t)",
        "F3 at byte 51\n",
    ),
    ("EquivalentObjectProperties(:r)", "F3 at byte 24\n"),
    ("ObjectPropertyDomain(:r ObjectIntersectionOf(:A :B))", ""),
    (
        "ObjectPropertyDomain(owl:topObjectProperty :A)",
        "F5 at byte 45\n",
    ),
    ("ObjectPropertyDomain(:r rdfs:Literal)", "F5 at byte 48\n"),
    ("ObjectPropertyDomain(:r :A :B)", "F3 at byte 24\n"),
    ("TransitiveObjectProperty(rdf:type)", "F5 at byte 49\n"),
    ("TransitiveObjectProperty(:r :r)", "F3 at byte 24\n"),
    (
        "ReflexiveObjectProperty(ObjectPropertyChain(:r :r))",
        "F3 at byte 48\n",
    ),
    ("ReflexiveObjectProperty()", "F3 at byte 24\n"),
    (
        "EquivalentObjectProperties(:r owl:bottomObjectProperty :r)",
        "F5 at byte 54\nF4 at byte 79\n",
    ),
    (
        "EquivalentObjectProperties(\"a\"@en \"a\"@EN \"a\"@en)",
        "F3 at byte 51\nF3 at byte 58\nF4 at byte 65\n",
    ),
    (
        "ObjectPropertyDomain(ObjectPropertyChain(:r :s) \"x\")",
        "F3 at byte 45\nF3 at byte 72\n",
    ),
    ("TransitiveObjectProperty(_:r)", "F6 at byte 49\n"),
    (
        "ReflexiveObjectProperty(Annotation(\"p\" :q) owl:topObjectProperty)",
        "F3 at byte 59\nF5 at byte 67\n",
    ),
];

#[test]
fn property_axioms(rt: HostRuntime) -> Result<(), Fail> {
    assert_documents(&rt, Part::Faults, PROPERTY_AXIOMS)
}
