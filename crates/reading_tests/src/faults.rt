//! What is wrong in small documents, with every fault in the order of the text. Each row is what stands in a document behind
//! its first 24 bytes, which declare the prefix `:` for `x:`, and the lines of its faults. A document without faults whose
//! ontology is counted stands in `documents` alone.

mod annotations;
mod assertions_and_declarations;
mod class_axioms;
mod expressions;
mod keywords;
mod property_axioms;

use crate::tables::{Part, Row, assert_documents};
use std::test::Fail;

const NO_AXIOMS: &[Row] = &[
    ("_:o", "F6 at byte 24\n"),
    ("1", "F3 at byte 24\n"),
    ("()", "F3 at byte 24\n"),
    ("\"x\"", "F3 at byte 24\n"),
    ("(SubClassOf(:A :B))", "F3 at byte 24\n"),
    ("ObjectSomeValuesFrom(:r :A)", "F3 at byte 24\n"),
];

#[test]
fn no_axioms(rt: HostRuntime) -> Result<(), Fail> {
    assert_documents(&rt, Part::Faults, NO_AXIOMS)
}

const RESERVED_NAMES: &[Row] = &[
    ("ClassAssertion(:A <http://www.w3.org/2002/07/owl>)", ""),
    (
        "ClassAssertion(:A <http://www.w3.org/2002/07/owl#>)",
        "F5 at byte 42\n",
    ),
    ("ClassAssertion(:A <http://www.w3.org/2002/07/ow>)", ""),
    ("ClassAssertion(:A <http://www.w3.org/2001/XMLSchema>)", ""),
    (
        "ClassAssertion(:A <http://www.w3.org/2000/01/rdf-schema#x>)",
        "F5 at byte 42\n",
    ),
    (
        "ClassAssertion(<http://www.w3.org/2002/07/owl#Things> :a)",
        "F5 at byte 39\n",
    ),
    (
        "ClassAssertion(<http://www.w3.org/2002/07/owl#Thing> <http://www.w3.org/1999/02/22-rdf-syntax-ns#x>)",
        "F5 at byte 77\n",
    ),
];

#[test]
fn reserved_names(rt: HostRuntime) -> Result<(), Fail> {
    assert_documents(&rt, Part::Faults, RESERVED_NAMES)
}

const ORDER_OF_FAULTS: &[Row] = &[
    (
        "SubClassOf(owl:A _:b) HasKey(_:a) ClassAssertion(Foo(_:c) xsd:a) Class(owl:A) DisjointClasses(:A :A)",
        "F5 at byte 35\nF6 at byte 41\nF1 at byte 46: HasKey\nF2 at byte 73: Foo\nF5 at byte 82\nF3 at byte 89\nF4 at byte 121\n",
    ),
    (
        "SubClassOf(Annotation(Annotation(\"p\" :q) :p _:a) owl:A :B)",
        "F3 at byte 57\nF6 at byte 68\nF5 at byte 73\n",
    ),
    (
        "SubClassOf(ObjectSomeValuesFrom(owl:r ObjectIntersectionOf(owl:A Foo() Foo())) ObjectUnionOf(_:a)) Bar()",
        "F5 at byte 56\nF5 at byte 83\nF2 at byte 89: Foo\nF4 at byte 95\nF1 at byte 103: ObjectUnionOf\nF2 at byte 123: Bar\n",
    ),
    (
        "Declaration(Annotation(:p _:a) Class(owl:real)) Declaration(Datatype(:t)) Declaration(Annotation(\"p\" :q))",
        "F6 at byte 50\nF5 at byte 61\nF1 at byte 84: Datatype\nF3 at byte 98\n",
    ),
];

#[test]
fn order_of_faults(rt: HostRuntime) -> Result<(), Fail> {
    assert_documents(&rt, Part::Faults, ORDER_OF_FAULTS)
}
