//! Facts that are found, and those of a context, once none is pending.

ghost use Rattle.engine.specs.Saturations.{IsSound};

use crate::ontologies::saturated;
use axioms::{ExprId, Ontology};
use engine::{Indexed, Saturation};
use facts::{Context, Fact, FactId};
use normal_forms::Class2;
use profile::{Version, read_bytes};
use std::alloc::Global;
use std::hash::RandomState;
use std::test::Fail;

/// It leads to 8 facts, of which three are of A: that it is below itself, B and owl:Thing.
const DOCUMENT: &str = "Ontology(SubClassOf(<x:A> <x:B>))";

const CLASSES_IN_A: usize = 3;

/// The first class of the document behind `owl:Thing` and `owl:Nothing`.
const A: Context = Context::Expr(ExprId(2));

/// Whether the fact is found at its number.
fn is_found(indexed: &Indexed<'_>, number: usize, fact: Fact) -> bool {
    match u32::try_from(number) {
        Ok(number) => indexed.find(fact) == Some(FactId(number)),
        Err(_) => false,
    }
}

/// Whether each fact is found at its number, and one that is not there is not found.
fn finds_all(indexed: &Indexed<'_>) -> bool {
    for (number, fact) in indexed.closed().facts().iter().enumerate() {
        if !is_found(indexed, number, fact.get()) {
            return false;
        }
    }
    let absent = Fact::In(Class2::Expr(ExprId::NOTHING), A);
    indexed.find(absent).is_none()
}

/// Whether the fact of that number puts a class into A.
fn is_in_a(indexed: &Indexed<'_>, number: u32) -> bool {
    match indexed.closed().facts().get(number as usize) {
        Some(fact) => matches!(fact.get(), Fact::In(_, context) if context == A),
        None => false,
    }
}

/// How many facts are listed as those of A, where all are.
fn listed_in_a(indexed: &Indexed<'_>) -> Option<usize> {
    let numbers = indexed.classes_in(A);
    for number in numbers {
        if !is_in_a(indexed, *number) {
            return None;
        }
    }
    Some(numbers.len())
}

/// Whether the saturation, if none of its facts is pending, finds and lists them.
fn finds_and_lists(saturation: &Saturation, ontology: &Ontology) -> bool
    requires { IsSound ontology.now saturation.now }
{
    match saturation.indexed(ontology) {
        Some(indexed) => listed_in_a(&indexed) == Some(CLASSES_IN_A) && finds_all(&indexed),
        None => false,
    }
}

/// Whether the facts of the ontology are found and listed once they are served, and nothing is to be found before.
fn are_found(alloc: Global, state: RandomState, ontology: &Ontology) -> bool {
    let Ok(mut saturation) = Saturation::start(alloc, state, ontology) else {
        return false;
    };
    let is_pending = saturation.indexed(ontology).is_none();
    let has_run = saturation.resume(u32::MAX) == Ok(());
    let are_found = finds_and_lists(&saturation, ontology);
    drop(saturation);
    is_pending && has_run && are_found
}

#[test]
fn facts_are_found_and_listed(rt: HostRuntime) -> Result<(), Fail> {
    let state = RandomState::new(&rt)?;
    let ontology = read_bytes(rt.alloc(), DOCUMENT.as_bytes(), Version::One, state)?;
    let are_found = are_found(rt.alloc(), state, &ontology);
    drop(ontology);
    assert!(rt; are_found);
    Ok(())
}

/// Of A there is one edge, which leads to B.
const WITH_EDGE: &str = "Ontology(SubClassOf(<x:A> ObjectSomeValuesFrom(<x:r> <x:B>)))";

/// Whether the fact of that number is an edge from A.
fn is_from_a(indexed: &Indexed<'_>, number: u32) -> bool {
    match indexed.closed().facts().get(number as usize) {
        Some(fact) => matches!(fact.get(), Fact::Edge(source, _, _) if source == A),
        None => false,
    }
}

/// Whether one fact is listed as an edge from A, and is one.
fn has_one_edge(indexed: &Indexed<'_>) -> bool {
    let numbers = indexed.edges_from(A);
    numbers.len() == 1 && is_from_a(indexed, numbers[0])
}

/// Whether the edge is listed once all facts are served.
fn is_edge_listed(alloc: Global, state: RandomState, ontology: &Ontology) -> bool {
    let Ok(saturation) = saturated(alloc, state, ontology, u32::MAX) else {
        return false;
    };
    let is_listed = match saturation.indexed(ontology) {
        Some(indexed) => has_one_edge(&indexed),
        None => false,
    };
    drop(saturation);
    is_listed
}

#[test]
fn edges_are_listed(rt: HostRuntime) -> Result<(), Fail> {
    let state = RandomState::new(&rt)?;
    let ontology = read_bytes(rt.alloc(), WITH_EDGE.as_bytes(), Version::One, state)?;
    let is_listed = is_edge_listed(rt.alloc(), state, &ontology);
    drop(ontology);
    assert!(rt; is_listed);
    Ok(())
}
