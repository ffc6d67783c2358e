//! Keywords that are unknown, and those that the profile refuses.

use crate::tables::{Part, Row, Shown, assert_documents, random, shown};
use profile::Version;
use std::alloc::{AllocError, Global};
use std::hash::RandomState;
use std::random::RandomSource;
use std::test::Fail;

const UNKNOWN_KEYWORDS: &[Row] = &[
    ("subClassOf(:A)", "F2 at byte 24: subClassOf\n"),
    (
        "Frobnicate(_:a) SubClassOf(Foo() HasKey(_:a))",
        "F2 at byte 24: Frobnicate\nF2 at byte 51: Foo\nF1 at byte 57: HasKey\n",
    ),
    ("Prefix() Ontology(_:a)", "F3 at byte 24\nF3 at byte 33\n"),
    (
        "SubClassOf(_:a owl:A) DisjointUnion() EquivalentClasses(:A :A Some()) SubClassOf()",
        "F6 at byte 35\nF5 at byte 39\nF1 at byte 46: DisjointUnion\nF4 at byte 83\nF2 at byte 86: Some\nF3 at byte 94\n",
    ),
];

#[test]
fn unknown_keywords(rt: HostRuntime) -> Result<(), Fail> {
    assert_documents(&rt, Part::Faults, UNKNOWN_KEYWORDS)
}

/// The keywords of OWL 2 that each version refuses, by the chapters of its structural specification.
const REFUSED: &[&str] = &[
    // ontologies (3) and entities (5)
    "Import Datatype DataProperty",
    // object property expressions (6) and data ranges (7)
    "ObjectInverseOf DataIntersectionOf DataUnionOf DataComplementOf DataOneOf DatatypeRestriction",
    // class expressions (8), over object properties
    "ObjectUnionOf ObjectComplementOf ObjectOneOf ObjectAllValuesFrom ObjectHasValue ObjectHasSelf",
    "ObjectMinCardinality ObjectMaxCardinality ObjectExactCardinality",
    // and over data properties
    "DataSomeValuesFrom DataAllValuesFrom DataHasValue",
    "DataMinCardinality DataMaxCardinality DataExactCardinality",
    // axioms (9) of classes
    "DisjointUnion",
    // of object properties
    "DisjointObjectProperties InverseObjectProperties ObjectPropertyRange",
    "FunctionalObjectProperty InverseFunctionalObjectProperty IrreflexiveObjectProperty",
    "SymmetricObjectProperty AsymmetricObjectProperty",
    // of data properties, and of datatypes and keys
    "SubDataPropertyOf EquivalentDataProperties DisjointDataProperties",
    "DataPropertyDomain DataPropertyRange FunctionalDataProperty DatatypeDefinition HasKey",
    // of individuals
    "DataPropertyAssertion NegativeDataPropertyAssertion",
];

/// Those that the first version refuses, and the second does not.
const REFUSED_BY_THE_FIRST: &[&str] = &[
    "SameIndividual",
    "DifferentIndividuals",
    "NegativeObjectPropertyAssertion",
];

/// The faults of a document with this keyword as a statement's and as an operand's.
fn told_of_keyword(alloc: Global, version: Version, state: RandomState, keyword: &str) -> Shown {
    let text = format!(in alloc; "Ontology({keyword}() SubClassOf({keyword}(<x:A>) <x:B>))")?;
    shown(alloc, text.as_str(), Part::Faults, version, state)
}

/// Whether the version refuses the keyword as a statement's and as an operand's.
fn is_refused_everywhere<R: AllocGlobal + RandomSource>(
    rt: &R,
    version: Version,
    keyword: &str,
) -> Result<bool, AllocError> {
    // The second one stands behind 23 bytes and the first.
    let second = keyword.len().saturating_add(23);
    let found = told_of_keyword(rt.alloc(), version, random(rt)?, keyword)?;
    let expected = format!(in rt.alloc();
        "F1 at byte 9: {keyword}\nF1 at byte {second}: {keyword}\n"
    )?;
    Ok(found.as_str() == expected.as_str())
}

/// Whether the version knows the keyword, so that it is out of place as an operand's, and wants operands as a statement's.
fn is_known<R: AllocGlobal + RandomSource>(
    rt: &R,
    version: Version,
    keyword: &str,
) -> Result<bool, AllocError> {
    let second = keyword.len().saturating_add(23);
    let found = told_of_keyword(rt.alloc(), version, random(rt)?, keyword)?;
    let expected = format!(in rt.alloc(); "F3 at byte 9\nF3 at byte {second}\n")?;
    Ok(found.as_str() == expected.as_str())
}

#[test]
fn refused_keywords(rt: HostRuntime) {
    for keywords in REFUSED {
        for keyword in keywords.split(' ') {
            for version in [Version::One, Version::Two] {
                assert!(rt;
                    is_refused_everywhere(&rt, version, keyword) == Ok(true),
                    "{version:?} {keyword}"
                );
            }
        }
    }
}

#[test]
fn keywords_of_the_second_version(rt: HostRuntime) {
    for keyword in REFUSED_BY_THE_FIRST {
        assert!(rt;
            is_refused_everywhere(&rt, Version::One, keyword) == Ok(true)
                && is_known(&rt, Version::Two, keyword) == Ok(true),
            "{keyword}"
        );
    }
}
