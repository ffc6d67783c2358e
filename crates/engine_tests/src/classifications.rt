//! Small ontologies of subclass axioms, worked out by hand.

use crate::ontologies::finished;
use axioms::{ClassId, ExprId, IndId, Ontology};
use cert_check::{Format, Verdict, check};
use classification::{Classification, Summary, class_pair, type_pair};
use engine::Stop;
use facts::{Context, Fact, StoredFact};
use normal_forms::Class2;
use profile::{Version, read_bytes};
use std::alloc::Global;
use std::hash::RandomState;
use std::random::RandomSource;
use std::test::Fail;

/// The classification of the ontology within so many facts.
fn classification_of(
    alloc: Global,
    state: RandomState,
    ontology: &Ontology,
    max_facts: u32,
) -> Result<Classification, Stop> {
    let finished = finished(alloc, state, ontology, max_facts)?;
    let made = classification::classified(&finished.closed(ontology), Format::One);
    drop(finished);
    Ok(made?)
}

/// The ontology of the document, and its classification within so many facts.
pub(crate) fn classified<R: AllocGlobal + RandomSource>(
    rt: &R,
    document: &str,
    max_facts: u32,
) -> Result<(Ontology, Result<Classification, Stop>), Fail> {
    let state = RandomState::new(rt)?;
    let ontology = read_bytes(rt.alloc(), document.as_bytes(), Version::Two, state)?;
    let made = classification_of(rt.alloc(), state, &ontology, max_facts);
    Ok((ontology, made))
}

/// How many facts there are, or why that is not known.
fn facts<R: AllocGlobal + RandomSource>(
    rt: &R,
    document: &str,
    max_facts: u32,
) -> Result<Result<u64, Stop>, Fail> {
    let (_ontology, made) = classified(rt, document, max_facts)?;
    Ok(made.map(|it| it.summary.facts))
}

const ONE_SUBCLASS: &str = "Ontology(SubClassOf(<x:A> <x:B>))";

/// Documents, and how many facts they lead to.
const COUNTED: &[(&str, u64)] = &[
    ("Ontology()", 3),
    (ONE_SUBCLASS, 8),
    (
        "Ontology(SubClassOf(<x:A> <x:B>) SubClassOf(<x:A> <x:B>))",
        8,
    ),
    ("Ontology(SubClassOf(<x:A> <x:A>))", 5),
    (
        "Ontology(SubClassOf(<x:A> <x:B>) SubClassOf(<x:B> <x:A>))",
        9,
    ),
    (
        "Ontology(SubClassOf(owl:Thing <x:A>) SubClassOf(<x:B> <x:B>))",
        10,
    ),
    ("Ontology(SubClassOf(<x:A> owl:Nothing))", 6),
    (
        "Prefix(:=<x:>) Ontology(SubClassOf(:A :B) SubClassOf(:A :C) SubClassOf(:B :D) SubClassOf(:C :D))",
        16,
    ),
];

#[test]
fn counts_facts(rt: HostRuntime) -> Result<(), Fail> {
    for row in COUNTED {
        let (document, expected) = *row;
        assert!(rt; facts(&rt, document, 1000)? == Ok(expected), "{document}");
    }
    Ok(())
}

/// A limit of facts, and how many there are of one subclass axiom within it.
const LIMITS: &[(u32, Result<u64, Stop>)] = &[
    (8, Ok(8)),
    (7, Err(Stop::Limit)),
    (0, Err(Stop::Limit)),
];

#[test]
fn stops_at_the_limit_of_facts(rt: HostRuntime) -> Result<(), Fail> {
    for row in LIMITS {
        let (limit, expected) = *row;
        assert!(rt; facts(&rt, ONE_SUBCLASS, limit)? == expected, "{limit}");
    }
    Ok(())
}

/// Whether the checker accepts the texts of the ontology.
pub(crate) fn are_accepted(alloc: Global, ontology: &Ontology, made: &Classification) -> bool {
    let verdict = check(
        alloc,
        ontology,
        &made.taxonomy,
        &made.instances,
        &made.certificate,
    );
    verdict == Ok(Verdict::Accepted)
}

/// Whether this is the classification of one subclass axiom.
fn is_one_subclass(alloc: Global, ontology: &Ontology, made: &Classification) -> bool {
    let summary = Summary {
        consistent: true,
        classes: 4,
        individuals: 0,
        facts: 8,
    };
    let taxonomy = b"eltax 1 consistent
<http://www.w3.org/2002/07/owl#Thing>
<x:A> < <x:B>
<x:B> < <http://www.w3.org/2002/07/owl#Thing>
bottom <http://www.w3.org/2002/07/owl#Nothing>
";
    made.summary == summary
        && made.taxonomy.as_slice() == taxonomy.as_slice()
        && made.instances.as_slice() == b"elinst 1 consistent\n".as_slice()
        && are_accepted(alloc, ontology, made)
}

/// Whether one subclass axiom is classified as it is by hand.
fn one_subclass_is_classified<R: AllocGlobal + RandomSource>(rt: &R) -> Result<bool, Fail> {
    let (ontology, made) = classified(rt, ONE_SUBCLASS, 8)?;
    let is_expected = match &made {
        Ok(made) => is_one_subclass(rt.alloc(), &ontology, made),
        Err(_) => false,
    };
    drop(made);
    drop(ontology);
    Ok(is_expected)
}

#[test]
fn classifies_one_subclass(rt: HostRuntime) -> Result<(), Fail> {
    let is_expected = one_subclass_is_classified(&rt)?;
    assert!(rt; is_expected);
    Ok(())
}

/// A fact that puts the second class of one subclass axiom above a context.
fn in_second(context: Context) -> StoredFact {
    StoredFact::new(Fact::In(Class2::Expr(ExprId(3)), context))
}

/// Whether facts say of the classes of one subclass axiom what they say by hand.
fn speak_of_named_classes<R: AllocGlobal + RandomSource>(rt: &R) -> Result<bool, Fail> {
    let state = RandomState::new(rt)?;
    let ontology = read_bytes(rt.alloc(), ONE_SUBCLASS.as_bytes(), Version::Two, state)?;
    let below = in_second(Context::Expr(ExprId(2)));
    let member = in_second(Context::Individual(IndId(0)));
    Ok(
        class_pair(&ontology, &below) == Some((ClassId(2), ClassId(3)))
            && type_pair(&ontology, &below).is_none()
            && type_pair(&ontology, &member) == Some((IndId(0), ClassId(3)))
            && class_pair(&ontology, &member).is_none(),
    )
}

#[test]
fn facts_speak_of_named_classes(rt: HostRuntime) -> Result<(), Fail> {
    assert!(rt; speak_of_named_classes(&rt)?);
    Ok(())
}
