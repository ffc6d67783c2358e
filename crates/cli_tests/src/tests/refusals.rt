//! Documents with faults, all of which are told, at the deepest expression and beyond, and what states no axiom.

use super::*;

/// Whether `classify` writes nothing and tells this, and `check` tells it too, though there are no texts to check.
fn is_told_by_both<R: AllocGlobal + RandomSource>(
    rt: &R,
    document: &[u8],
    told: &str,
) -> Result<bool, Fail> {
    let is_refused = refuses(rt, CLASSIFY, document, 3, told)?;
    let check = alone(rt, CHECK, document)?;
    Ok(is_refused && is_run(&check, 3, "", told))
}

/// What the row shows, the document, and what is told of it.
const REFUSED: &[(&str, &[u8], &str)] = &[
    (
        "refused_construct",
        b"Ontology(SubClassOf(ObjectUnionOf(<x:A> <x:B>) <x:C>))",
        "F1 at byte 20: ObjectUnionOf\n",
    ),
    ("truncated_document", b"Ontology(", "P2 at byte 9\n"),
    ("document of no bytes", b"", "P2 at byte 0\n"),
    (
        "repeated_operand",
        b"Prefix(:=<x:>) Ontology(EquivalentClasses(:A :A))",
        "F4 at byte 45\n",
    ),
    (
        "touching_words",
        b"Ontology(SubClassOf(owl:Thing:A <x:B>))",
        "X4 at byte 20\n",
    ),
    (
        "unknown_prefix",
        b"Ontology(SubClassOf(q:A <x:B>))",
        "P3 at byte 20\n",
    ),
    (
        "every_fault_listed",
        b"Ontology(HasKey(<x:A> (<x:p>) ()) SubClassOf(_:b <x:B>) Frobnicate() )",
        "F1 at byte 9: HasKey\nF6 at byte 45\nF2 at byte 56: Frobnicate\n",
    ),
    ("not_utf8", b"Ontology(\xff", "U1 at byte 9\n"),
    (
        "unknown_keyword",
        b"Ontology(Frobnicate())",
        "F2 at byte 9: Frobnicate\n",
    ),
    (
        "one_operand",
        b"Ontology(SubClassOf(<x:A>))",
        "F3 at byte 9\n",
    ),
    (
        "reserved_name",
        b"Ontology(SubClassOf(<x:A> owl:real))",
        "F5 at byte 26\n",
    ),
    (
        "anonymous_individual",
        b"Ontology(SubClassOf(_:b <x:B>))",
        "F6 at byte 20\n",
    ),
    (
        "two_faults_of_an_axiom",
        b"Ontology(SubClassOf(owl:real ObjectUnionOf(<x:A> <x:B>)))",
        "F5 at byte 20\nF1 at byte 29: ObjectUnionOf\n",
    ),
    (
        "repeated_full_iri",
        b"Ontology(EquivalentClasses(<x:A> <x:A>))",
        "F4 at byte 33\n",
    ),
    (
        "unclosed_ontology",
        b"Ontology(SubClassOf(<x:A> <x:B>)",
        "P2 at byte 32\n",
    ),
];

#[test]
fn refused_documents(rt: HostRuntime) -> Result<(), Fail> {
    for row in REFUSED {
        let (name, document, told) = *row;
        assert!(rt; is_told_by_both(&rt, document, told)?, "{name}");
    }
    Ok(())
}

/// A subclass axiom whose superclass has so many restrictions, each inside of the one before it, around a class.
fn deep(alloc: Global, levels: usize) -> Result<String, AllocError> {
    let mut text = String::from_str(alloc, "Ontology(SubClassOf(<x:A> ")?;
    for _ in 0..levels {
        text.push_str("ObjectSomeValuesFrom(<x:r> ")?;
    }
    text.push_str("<x:B>")?;
    for _ in 0..levels {
        text.push_str(")")?;
    }
    text.push_str("))")?;
    Ok(text)
}

#[test]
fn deepest_expression(rt: HostRuntime) -> Result<(), Fail> {
    let deepest = deep(rt.alloc(), 63)?;
    assert!(rt; status(&rt, CLASSIFY, deepest.as_bytes())? == 0);
    let deeper = deep(rt.alloc(), 64)?;
    assert!(rt; is_told_by_both(&rt, deeper.as_bytes(), "P6 at byte 1747\n")?);
    Ok(())
}

/// Documents of one subclass axiom and what states no axiom.
const WITHOUT_AXIOMS: &[&str] = &[
    "Ontology(Declaration(ObjectProperty(<x:p>)) SubClassOf(<x:A> <x:B>))",
    "Ontology(Declaration(Class(<x:A>)) SubClassOf(<x:A> <x:B>))",
    "Ontology(<x:o> SubClassOf(Annotation(rdfs:label \"l\") <x:A> <x:B>))",
];

#[test]
fn what_states_no_axiom(rt: HostRuntime) -> Result<(), Fail> {
    let counts = "consistent classes 4 individuals 0 facts 8\n";
    for document in WITHOUT_AXIOMS {
        assert!(rt;
            gives(&rt, document.as_bytes(), ONE, NO_INSTANCES, counts)?,
            "{document}"
        );
    }
    Ok(())
}
