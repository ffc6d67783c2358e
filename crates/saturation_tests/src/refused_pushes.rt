//! Documents whose facts a list of work leads to that hands one item back: they are those of one run.
ghost use Rattle.std.specs.Prelude.{◌≡◌, []};

use crate::adding::add_with_lists;
use crate::lists::Refusing;
use axioms::Ontology;
use facts::{Context, StoredFact};
use normalise::{Normal, normalise, roots};
use profile::{Version, read_bytes};
use saturate::{State, Stop};
use std::alloc::Global;
use std::hash::RandomState;
use std::test::Fail;
use work_list::{Fifo, WorkList};

/// A document, and how many facts it leads to.
const ROWS: &[(&str, &str, u32)] = &[
    (
        "contradiction_by_individual",
        "Prefix(:=<x:>) Ontology(DisjointClasses(:A :B) ClassAssertion(:A :a) ClassAssertion(:B :a))",
        11,
    ),
    (
        "chain_into_a_definition",
        "Prefix(:=<x:>) Ontology(SubClassOf(:E ObjectSomeValuesFrom(:loc :W)) SubClassOf(:W ObjectSomeValuesFrom(:part :H)) SubObjectPropertyOf(ObjectPropertyChain(:loc :part) :loc) EquivalentClasses(:D ObjectSomeValuesFrom(:loc :H)))",
        20,
    ),
    (
        "individuals_and_domain",
        "Prefix(:=<x:>) Ontology(SubClassOf(:A :B) ClassAssertion(:A :a) ObjectPropertyAssertion(:r :a :b) ObjectPropertyDomain(:r :C) Declaration(NamedIndividual(:c)))",
        17,
    ),
    (
        "same_individuals",
        "Prefix(:=<x:>) Ontology(SameIndividual(:a :b) ClassAssertion(:A :a) ClassAssertion(:B :b))",
        13,
    ),
    (
        "denied_by_way_of_same",
        "Prefix(:=<x:>) Ontology(SameIndividual(:b :c) ObjectPropertyAssertion(:r :a :b) SubObjectPropertyOf(:r :s) NegativeObjectPropertyAssertion(:s :a :c))",
        9,
    ),
    (
        "chain_through_a_group",
        "Prefix(:=<x:>) Ontology(SameIndividual(:b :c) ObjectPropertyAssertion(:r :a :b) ObjectPropertyAssertion(:s :c :d) SubObjectPropertyOf(ObjectPropertyChain(:r :s) :t) ObjectPropertyDomain(:t :A))",
        15,
    ),
    (
        "different_by_way_of_a_third",
        "Prefix(:=<x:>) Ontology(SameIndividual(:a :b) SameIndividual(:b :c) DifferentIndividuals(:d :a :c))",
        10,
    ),
    (
        "in_two_of_eight_disjoint_classes",
        "Prefix(:=<x:>) Ontology(DisjointClasses(:A :B :C :D :E :F :G :H) ClassAssertion(:C :a) ClassAssertion(:B :a))",
        23,
    ),
];

/// Adds the forms, the lists of what is apart, and the contexts.
fn is_added<W: WorkList>(
    state: &mut State<W>,
    alloc: Global,
    normal: &Normal,
    contexts: &[Context],
) -> bool {
    add_with_lists(state, alloc, normal.forms(), normal.apart(), contexts).is_ok()
}

/// Adds all, once more where it was refused, and says how often it was.
fn added<W: WorkList>(
    state: &mut State<W>,
    alloc: Global,
    normal: &Normal,
    contexts: &[Context],
) -> Option<u32> {
    if is_added(state, alloc, normal, contexts) {
        return Some(0);
    }
    is_added(state, alloc, normal, contexts).then_some(1)
}

/// Runs to the end, once more where that was refused, and says how often it was.
fn ran<W: WorkList>(state: &mut State<W>, facts: u32) -> Option<u32> {
    match state.run(facts) {
        Ok(()) => Some(0),
        Err(Stop::Limit) => None,
        Err(Stop::Memory) => (state.run(facts) == Ok(())).then_some(1),
    }
}

/// Whether each of the facts is among the others.
fn are_among(facts: &[StoredFact], others: &[StoredFact]) -> bool {
    for fact in facts {
        if !others.iter().any(|other| other.get() == fact.get()) {
            return false;
        }
    }
    true
}

/// Whether the state has these facts and no others, all of them served.
fn has_ended<W: WorkList>(state: &State<W>, facts: &[StoredFact]) -> bool {
    state.facts().len() == facts.len()
        && state.served() == facts.len()
        && are_among(state.facts(), facts)
        && are_among(facts, state.facts())
}

/// How many calls were refused, where the list leads to these facts.
fn ends<W: WorkList + Drop>(
    alloc: Global,
    seed: RandomState,
    normal: &Normal,
    contexts: &[Context],
    facts: &[StoredFact],
    list: W,
) -> Option<u32>
    requires { W.pending list ≡ [] }
{
    let most = u32::try_from(facts.len()).ok()?;
    let Ok(mut state) = State::new(alloc, seed, list) else {
        return None;
    };
    let adding = added(&mut state, alloc, normal, contexts);
    let running = ran(&mut state, most);
    let right = has_ended(&state, facts);
    drop(state);
    match (adding, running) {
        (Some(adding), Some(running)) if right => Some(adding.saturating_add(running)),
        _ => None,
    }
}

/// Whether these facts are led to whichever one push hands its item back: for each push until none does, of which there are as many
/// as facts.
fn with_each_push_refused(
    alloc: Global,
    seed: RandomState,
    normal: &Normal,
    contexts: &[Context],
    facts: &[StoredFact],
) -> bool {
    for push in 1..200 {
        let list = Refusing::new(alloc, push);
        match ends(alloc, seed, normal, contexts, facts, list) {
            Some(1) => {}
            Some(0) => return push as usize > facts.len(),
            _ => return false,
        }
    }
    false
}

/// Whether so many facts are led to by one run, and the same whichever push is refused.
fn leads_to(
    alloc: Global,
    seed: RandomState,
    normal: &Normal,
    contexts: &[Context],
    facts: u32,
) -> bool {
    let Ok(mut whole) = State::new(alloc, seed, Fifo::new(alloc)) else {
        return false;
    };
    let right = is_added(&mut whole, alloc, normal, contexts)
        && whole.run(facts) == Ok(())
        && whole.facts().len() == facts as usize
        && with_each_push_refused(alloc, seed, normal, contexts, whole.facts());
    drop(whole);
    right
}

/// Whether the ontology leads to so many facts, whichever push is refused.
fn fits(alloc: Global, seed: RandomState, ontology: &Ontology, facts: u32) -> bool {
    let Ok(normal) = normalise(alloc, seed, ontology) else {
        return false;
    };
    let Ok(contexts) = roots(alloc, ontology, &[]) else {
        return false;
    };
    let right = leads_to(alloc, seed, &normal, &contexts, facts);
    drop(normal);
    right
}

#[test]
fn each_document_with_each_push_refused(rt: HostRuntime) -> Result<(), Fail> {
    let seed = RandomState::new(&rt)?;
    for row in ROWS {
        let (case, document, facts) = *row;
        let ontology = read_bytes(rt.alloc(), document.as_bytes(), Version::Two, seed)?;
        let right = fits(rt.alloc(), seed, &ontology, facts);
        drop(ontology);
        assert!(rt; right, "{case}");
    }
    Ok(())
}
