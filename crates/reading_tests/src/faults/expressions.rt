//! Faults of class expressions, at most 64 deep in a document.

use crate::deep_documents::deep;
use crate::tables::{Part, Row, assert_documents, random, shown};
use profile::Version;
use std::test::Fail;

const INTERSECTIONS: &[Row] = &[
    ("SubClassOf(ObjectIntersectionOf(:A :B :C) :D)", ""),
    (
        "SubClassOf(ObjectIntersectionOf(:A :A) :B)",
        "F4 at byte 59\n",
    ),
    ("SubClassOf(ObjectIntersectionOf(:A) :B)", "F3 at byte 35\n"),
    (
        "SubClassOf(ObjectIntersectionOf(Annotation(:p \"x\") :A) :B)",
        "F3 at byte 56\n",
    ),
    (
        "SubClassOf(:A ObjectIntersectionOf(:B ObjectIntersectionOf(:C _:d :C)))",
        "F6 at byte 86\nF4 at byte 90\n",
    ),
    (
        "SubClassOf(ObjectIntersectionOf(:A) ObjectIntersectionOf())",
        "F3 at byte 35\nF3 at byte 60\n",
    ),
    (
        "SubClassOf(:A ObjectIntersectionOf(:A ObjectIntersectionOf(:B <x:B>)))",
        "F4 at byte 86\n",
    ),
    // Expressions and chains take no annotations.
    (
        "SubClassOf(ObjectIntersectionOf(Annotation(:p \"x\") :A :B) :C)",
        "F3 at byte 56\n",
    ),
];

#[test]
fn intersections(rt: HostRuntime) -> Result<(), Fail> {
    assert_documents(&rt, Part::Faults, INTERSECTIONS)
}

const EXISTENTIALS: &[Row] = &[
    (
        "SubClassOf(:A ObjectSomeValuesFrom(owl:r owl:A))",
        "F5 at byte 59\nF5 at byte 65\n",
    ),
    ("SubClassOf(:A ObjectSomeValuesFrom(:r))", "F3 at byte 38\n"),
    (
        "SubClassOf(:A ObjectSomeValuesFrom(Annotation(:p \"x\") :r :B))",
        "F3 at byte 38\n",
    ),
    (
        "SubClassOf(:A ObjectSomeValuesFrom(:r ObjectComplementOf()))",
        "F1 at byte 62: ObjectComplementOf\n",
    ),
    (
        "SubClassOf(:A ObjectSomeValuesFrom(ObjectPropertyChain(:r :s) ObjectIntersectionOf(:A :A)))",
        "F3 at byte 59\nF4 at byte 110\n",
    ),
    // With it there is one operand too many.
    (
        "SubClassOf(:A ObjectSomeValuesFrom(Annotation(:p :q) :r :A))",
        "F3 at byte 38\n",
    ),
];

#[test]
fn existentials(rt: HostRuntime) -> Result<(), Fail> {
    assert_documents(&rt, Part::Faults, EXISTENTIALS)
}

/// So many levels, what is inmost, and the faults, each as a line, or why the text is no document.
const DEEP: &[(usize, &str, &str)] = &[
    (63, "<x:B>", ""),
    // The inmost name stands behind 26 bytes and 63 times 27.
    (63, "owl:real", "F5 at byte 1727\n"),
    (64, "<x:B>", "P6 at byte 1747"),
];

#[test]
fn deepest_expression(rt: HostRuntime) -> Result<(), Fail> {
    for row in DEEP {
        let (levels, inmost, expected) = *row;
        let text = deep(rt.alloc(), "", levels, inmost)?;
        let found = shown(
            rt.alloc(),
            text.as_str(),
            Part::Faults,
            Version::Two,
            random(&rt)?,
        )?;
        assert!(rt; found.as_str() == expected, "{levels}: {found}");
    }
    Ok(())
}
