//! What of documents is of the profile, as documents.

use crate::tables::{Shown, random};
use profile::{DocumentFault, Version};
use statements_text::{Restriction, restricted};
use std::alloc::Global;
use std::hash::RandomState;
use std::str::from_utf8;
use std::test::Fail;

/// A document, and what is shown of its restriction: the report, and behind it the text.
type Row = (&'static str, &'static str);

fn shown_restriction(alloc: Global, restriction: &Restriction) -> Shown {
    let report = restriction.report.as_str();
    match from_utf8(&restriction.text) {
        Ok(text) => format!(in alloc; "{report}{text}"),
        Err(_) => String::from_str(alloc, "no text"),
    }
}

/// The report and the text, or why there is none.
fn shown(alloc: Global, bytes: &[u8], version: Version, state: RandomState) -> Shown {
    match restricted(alloc, bytes, version, state) {
        Ok(restriction) => shown_restriction(alloc, &restriction),
        Err(fault) => format!(in alloc; "{fault}"),
    }
}

/// With names of all kinds, and all of the profile.
const WHOLE: &str =
    "Prefix(:=<x:>) Ontology(SubClassOf(:A :B) SubClassOf(:B :A) SubClassOf(:A :C) SubClassOf(owl:Thing :T) SubClassOf(:U owl:Nothing) ClassAssertion(:A :a) ObjectPropertyAssertion(:r :a :b))";

/// With an import, data properties, annotations and others that are not of the profile.
const ORDINARY: &str =
    "Prefix(:=<x:>) Ontology(<x:o> Import(<x:p>) Declaration(DataProperty(:d)) SubClassOf(:A ObjectUnionOf(:B :C)) SubClassOf(Annotation(rdfs:comment \"k\") :A ObjectSomeValuesFrom(:r ObjectIntersectionOf(:B :C))) AnnotationAssertion(rdfs:label :A \"a\"@en) EquivalentClasses(:A :A) ObjectPropertyRange(:r :B) Declaration(Class(:Z)) ClassAssertion(:A _:x) TransitiveObjectProperty(:r) SubObjectPropertyOf(ObjectPropertyChain(:r :s) :s))";

const ROWS: &[Row] = &[
    (
        WHOLE,
        "kept 7 left out 0\nOntology(\nSubClassOf(<x:A> <x:B>)\nSubClassOf(<x:B> <x:A>)\nSubClassOf(<x:A> <x:C>)\nSubClassOf(<http://www.w3.org/2002/07/owl#Thing> <x:T>)\nSubClassOf(<x:U> <http://www.w3.org/2002/07/owl#Nothing>)\nClassAssertion(<x:A> <x:a>)\nObjectPropertyAssertion(<x:r> <x:a> <x:b>)\n)\n",
    ),
    (
        ORDINARY,
        "F1 at byte 30: Import\nF1 at byte 56: DataProperty\nF1 at byte 88: ObjectUnionOf\nF4 at byte 270\nF1 at byte 274: ObjectPropertyRange\nF6 at byte 342\nkept 4 left out 6\nOntology(\nSubClassOf(<x:A> ObjectSomeValuesFrom(<x:r> ObjectIntersectionOf(<x:B> <x:C>)))\nDeclaration(Class(<x:Z>))\nTransitiveObjectProperty(<x:r>)\nSubObjectPropertyOf(ObjectPropertyChain(<x:r> <x:s>) <x:s>)\n)\n",
    ),
    ("Ontology()", "kept 0 left out 0\nOntology(\n)\n"),
    ("Ontology(", "P2 at byte 9"),
    (
        "Ontology(<x:a> <x:b> <x:c>)",
        "F3 at byte 21\nkept 0 left out 1\nOntology(\n)\n",
    ),
    (
        "Prefix(:=<x:>) Ontology(SameIndividual(:a :b))",
        "kept 1 left out 0\nOntology(\nSameIndividual(<x:a> <x:b>)\n)\n",
    ),
];

#[test]
fn what_is_of_the_profile_is_kept(rt: HostRuntime) -> Result<(), Fail> {
    let state = random(&rt)?;
    for row in ROWS {
        let (text, expected) = *row;
        let found = shown(rt.alloc(), text.as_bytes(), Version::Two, state)?;
        assert!(rt; found.as_str() == expected, "{text}: {found}");
    }
    Ok(())
}

#[test]
fn the_first_version_keeps_less(rt: HostRuntime) -> Result<(), Fail> {
    let state = random(&rt)?;
    let text = "Prefix(:=<x:>) Ontology(SameIndividual(:a :b))";
    let found = shown(rt.alloc(), text.as_bytes(), Version::One, state)?;
    let expected = "F1 at byte 24: SameIndividual\nkept 0 left out 1\nOntology(\n)\n";
    assert!(rt; found.as_str() == expected, "{found}");
    Ok(())
}

#[test]
fn what_is_no_text_is_not_restricted(rt: HostRuntime) -> Result<(), Fail> {
    let state = random(&rt)?;
    let found = restricted(rt.alloc(), b"Ontology(\xff)", Version::Two, state);
    let told = matches!(found, Err(DocumentFault::NotUtf8 { at: 9 }));
    assert!(rt; told);
    Ok(())
}
