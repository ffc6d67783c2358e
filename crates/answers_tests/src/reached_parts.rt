//! The members of what is reached from a context.

use crate::documents::saturated;
use axioms::{ExprId, Ontology, PropId};
use certificate::Listed;
use classification::is_consistent;
use countermodel::{Elements, reached_part};
use engine::Indexed;
use facts::Context;
use profile::{Version, read_bytes};
use std::alloc::Global;
use std::hash::RandomState;
use std::test::Fail;

/// The classes E, W and H are the expressions 2, 3 and 5; loc and part are the properties 0 and 1.
const DOCUMENT: &str =
    "Prefix(:=<x:>) Ontology(SubClassOf(:E ObjectSomeValuesFrom(:loc :W)) SubClassOf(:W ObjectSomeValuesFrom(:part :H)))";

const W: Context = Context::Expr(ExprId(3));

/// The elements of W and of H.
const FIRST: &[u32] = &[0];

const SECOND: &[u32] = &[1];

/// Whether W and H alone are elements, in this order, each in its own class, and part leads from the one to the other.
fn is_part_from_w(members: &Listed) -> bool {
    members.domain == 2
        && members.classes.len() == 2
        && members.classes[0].class == ExprId(3)
        && members.classes[0].elements.as_slice() == FIRST
        && members.classes[1].class == ExprId(5)
        && members.classes[1].elements.as_slice() == SECOND
        && members.pairs.len() == 1
        && members.pairs[0].property == PropId(1)
        && members.pairs[0].source == 0
        && members.pairs[0].targets.as_slice() == SECOND
        && members.individuals.is_empty()
}

/// Whether these are the members of what is reached from W, and W is the first of them, behind owl:Thing and E in the whole.
fn lists_the_part(indexed: &Indexed<'_>) -> bool {
    if !is_consistent(indexed) {
        return false;
    }
    let Ok(elements) = Elements::of(indexed.closed()) else {
        return false;
    };
    let Some(place) = elements.element(W) else {
        return false;
    };
    match reached_part(indexed, W) {
        Ok((members, element)) => place == 2 && element == 0 && is_part_from_w(&members),
        Err(_) => false,
    }
}

/// Whether they are listed once all facts are served.
fn is_listed(alloc: Global, state: RandomState, ontology: &Ontology) -> bool {
    let Ok(saturation) = saturated(alloc, state, ontology) else {
        return false;
    };
    let is_so = match saturation.indexed(ontology) {
        Some(indexed) => lists_the_part(&indexed),
        None => false,
    };
    drop(saturation);
    is_so
}

#[test]
fn what_is_reached_is_listed(rt: HostRuntime) -> Result<(), Fail> {
    let state = RandomState::new(&rt)?;
    let ontology = read_bytes(rt.alloc(), DOCUMENT.as_bytes(), Version::One, state)?;
    let is_listed = is_listed(rt.alloc(), state, &ontology);
    drop(ontology);
    assert!(rt; is_listed);
    Ok(())
}
