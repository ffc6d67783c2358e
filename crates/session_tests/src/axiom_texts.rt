//! The text of each kind of axiom, that it reads as the axiom that it was written of, and that explanations cite it by its number.

use crate::documents::session_of;
use answer_texts::axiom_bytes;
use axioms::{Memory, Ontology};
use profile::read_bytes;
use session::{Asked, Explanation, Limits, Line, Session, Version};
use std::alloc::Global;
use std::hash::RandomState;
use std::test::Fail;

/// An axiom as a document states it, with `x:` as its prefix, and its line.
struct Row {
    stated: &'static str,
    line: &'static str,
}

const ROWS: &[Row] = &[
    Row {
        stated: "SubClassOf(:A ObjectSomeValuesFrom(:r :B))",
        line: "SubClassOf(<x:A> ObjectSomeValuesFrom(<x:r> <x:B>))\n",
    },
    Row {
        stated: "SubClassOf( Annotation(:source \"a book\")\n  ObjectIntersectionOf( :A ObjectSomeValuesFrom( :r :B ) owl:Thing ) :C )",
        line: "SubClassOf(ObjectIntersectionOf(<x:A> ObjectSomeValuesFrom(<x:r> <x:B>) <http://www.w3.org/2002/07/owl#Thing>) <x:C>)\n",
    },
    Row {
        stated: "SubClassOf(:B <x:Knöchel>)",
        line: "SubClassOf(<x:B> <x:Knöchel>)\n",
    },
    Row {
        stated: "EquivalentClasses(:A :B)",
        line: "EquivalentClasses(<x:A> <x:B>)\n",
    },
    Row {
        stated: "EquivalentClasses(:C ObjectIntersectionOf(:B :A) :A)",
        line: "EquivalentClasses(<x:C> ObjectIntersectionOf(<x:B> <x:A>) <x:A>)\n",
    },
    Row {
        stated: "DisjointClasses(:A :B :C)",
        line: "DisjointClasses(<x:A> <x:B> <x:C>)\n",
    },
    Row {
        stated: "SubObjectPropertyOf(:r :s)",
        line: "SubObjectPropertyOf(<x:r> <x:s>)\n",
    },
    Row {
        stated: "SubObjectPropertyOf(ObjectPropertyChain(:r :s :r) :t)",
        line: "SubObjectPropertyOf(ObjectPropertyChain(<x:r> <x:s> <x:r>) <x:t>)\n",
    },
    Row {
        stated: "EquivalentObjectProperties(:r :s :t)",
        line: "EquivalentObjectProperties(<x:r> <x:s> <x:t>)\n",
    },
    Row {
        stated: "ObjectPropertyDomain(:r ObjectSomeValuesFrom(:s :A))",
        line: "ObjectPropertyDomain(<x:r> ObjectSomeValuesFrom(<x:s> <x:A>))\n",
    },
    Row {
        stated: "TransitiveObjectProperty(:r)",
        line: "TransitiveObjectProperty(<x:r>)\n",
    },
    Row {
        stated: "ReflexiveObjectProperty(:r)",
        line: "ReflexiveObjectProperty(<x:r>)\n",
    },
    Row {
        stated: "ClassAssertion(ObjectSomeValuesFrom(:r :A) :a)",
        line: "ClassAssertion(ObjectSomeValuesFrom(<x:r> <x:A>) <x:a>)\n",
    },
    Row {
        stated: "ObjectPropertyAssertion(:r :a :b)",
        line: "ObjectPropertyAssertion(<x:r> <x:a> <x:b>)\n",
    },
    Row {
        stated: "SameIndividual(:a :b)",
        line: "SameIndividual(<x:a> <x:b>)\n",
    },
    Row {
        stated: "DifferentIndividuals(:c :a :b)",
        line: "DifferentIndividuals(<x:c> <x:a> <x:b>)\n",
    },
    Row {
        stated: "NegativeObjectPropertyAssertion(:r :b :a)",
        line: "NegativeObjectPropertyAssertion(<x:r> <x:b> <x:a>)\n",
    },
];

/// A document of one axiom.
fn document(alloc: Global, stated: &str) -> Result<String, Memory> {
    let mut document = String::new(alloc);
    document.push_str("Prefix(:=<x:>) Ontology(")?;
    document.push_str(stated)?;
    document.push_str(")")?;
    Ok(document)
}

/// Whether the answer is the line.
fn is_line(answer: &Result<Option<Vec<u8>>, Memory>, line: &str) -> bool {
    match answer {
        Ok(Some(written)) => written.as_slice() == line.as_bytes(),
        _ => false,
    }
}

/// Whether the answer is that there is no such axiom.
fn is_none(answer: &Result<Option<Vec<u8>>, Memory>) -> bool {
    matches!(answer, Ok(None))
}

/// Whether the session has one axiom, of this line.
fn has_one(session: &Session, line: &str) -> bool {
    is_none(&session.axiom(0)) && is_line(&session.axiom(1), line) && is_none(&session.axiom(2))
}

/// Whether the names and the axioms are the same.
fn are_same(ontology: &Ontology, other: &Ontology) -> bool {
    ontology.classes() == other.classes()
        && ontology.properties() == other.properties()
        && ontology.individuals() == other.individuals()
        && ontology.axioms() == other.axioms()
}

/// Whether the line reads as the one axiom of the ontology, and is written of that again.
fn reads_back(alloc: Global, state: RandomState, ontology: &Ontology, line: &str) -> bool {
    let Ok(document) = document(alloc, line) else {
        return false;
    };
    let Ok(read) = read_bytes(alloc, document.as_bytes(), Version::Two, state) else {
        return false;
    };
    let right = are_same(ontology, &read) && is_line(&axiom_bytes(alloc, &read, 1), line);
    drop(read);
    right
}

/// Whether a session over the axiom writes it so, and that reads as the axiom.
fn is_row(alloc: Global, state: RandomState, limits: &Limits, row: &Row) -> bool {
    let Ok(document) = document(alloc, row.stated) else {
        return false;
    };
    let Some(session) = session_of(alloc, state, limits, &document) else {
        return false;
    };
    let right = has_one(&session, row.line)
        && reads_back(alloc, state, session.ontology(), row.line);
    drop(session);
    right
}

#[test]
fn text_of_each_kind_of_axiom(rt: HostRuntime) -> Result<(), Fail> {
    let limits = Limits::new(1000, 1, Version::Two).ok_or("limits")?;
    let state = RandomState::new(&rt)?;
    for row in ROWS {
        assert!(rt; is_row(rt.alloc(), state, &limits, row), "{}", row.stated);
    }
    Ok(())
}

// ---- numbers

/// Whether the session writes the axiom of the number that the line cites so.
fn cites(session: &Session, line: &Line, axiom: &str) -> bool {
    match line.axiom {
        Some(number) => is_line(&session.axiom(number), axiom),
        None => false,
    }
}

/// Whether the session, of which nothing was run, tells an axiom of the document and one that is added, and an explanation cites
/// each by its number.
fn tells_what_is_cited(session: &mut Session) -> bool {
    let added = session.add("SubClassOf(:B :C)").is_ok();
    let pending = is_none(&session.axiom(3))
        && is_line(&session.axiom(2), "SubClassOf(<x:B> <x:C>)\n");
    if !added || !pending || session.resume(1000).is_err() {
        return false;
    }
    match session.explain(Asked::Class("x:A"), "x:C") {
        Ok(Explanation::Yes(lines)) => {
            lines.len() == 3
                && cites(session, &lines[1], "SubClassOf(<x:A> <x:B>)\n")
                && cites(session, &lines[2], "SubClassOf(<x:B> <x:C>)\n")
        }
        _ => false,
    }
}

#[test]
fn axioms_that_an_explanation_cites(rt: HostRuntime) -> Result<(), Fail> {
    let limits = Limits::new(1000, 1000, Version::Two).ok_or("limits")?;
    let state = RandomState::new(&rt)?;
    let mut session = session_of(
        rt.alloc(),
        state,
        &limits,
        "Prefix(:=<x:>) Ontology(SubClassOf(:A :B))",
    )
    .ok_or("the document is not read")?;
    let right = tells_what_is_cited(&mut session);
    drop(session);
    assert!(rt; right, "cited axioms");
    Ok(())
}
