//! Forms that are found by two keys.

use crate::numbered::{C1, C2, C3, EDGES_P, EDGES_R, EDGES_S, EDGES_T, R, S, T};
use axioms::IndId;
use indexes::IndexedProblem;
use normal_forms::{ApartLists, Class2, Form, FormList};
use std::alloc::{AllocError, Global};
use std::test::Fail;

const A: IndId = IndId(0);

const B: IndId = IndId(1);

const C: IndId = IndId(2);

/// Restrictions of two fillers, chains of three properties and a prefix, and pairs that are denied, those of one first key not in the order of
/// the second.
fn with_pairs(alloc: Global) -> Result<IndexedProblem, AllocError> {
    let forms = [
        Form::N4(T, C1, C2),
        Form::N4(R, C1, C2),
        Form::N4(R, C3, C2),
        Form::N4(S, C1, C2),
        Form::N4(R, C1, C3),
        Form::N6(EDGES_R, EDGES_P, EDGES_T),
        Form::N6(EDGES_R, EDGES_S, EDGES_P),
        Form::N6(EDGES_S, EDGES_R, EDGES_T),
        Form::N6(EDGES_R, EDGES_R, EDGES_T),
        Form::N12(A, S, C),
        Form::N12(A, S, B),
        Form::N12(B, S, C),
        Form::N12(A, R, C),
    ];
    let forms = FormList::of(alloc, &forms)?;
    IndexedProblem::new(alloc, forms, ApartLists::new(alloc), Vec::new(alloc))
}

/// Those of a filler are told by their properties.
#[test]
fn restrictions_by_property_and_filler(rt: HostRuntime) -> Result<(), Fail> {
    let problem = with_pairs(rt.alloc())?;
    assert!(rt; problem.restrictions(EDGES_T, C1) == [0].as_slice());
    assert!(rt; problem.restrictions(EDGES_S, C1) == [3].as_slice());
    assert!(rt; problem.restrictions(EDGES_R, C3) == [2].as_slice());
    let both = problem.restrictions(EDGES_R, C1);
    assert!(rt; both.len() == 2 && both.contains(&1) && both.contains(&4));
    assert!(rt; problem.restrictions(EDGES_S, C3).is_empty());
    assert!(rt; problem.restrictions(EDGES_R, Class2::Partial(1)).is_empty());
    Ok(())
}

/// Those that begin with a property are told by the second one.
#[test]
fn chains_by_both_properties(rt: HostRuntime) -> Result<(), Fail> {
    let problem = with_pairs(rt.alloc())?;
    assert!(rt; problem.chains(EDGES_R, EDGES_P) == [5].as_slice());
    assert!(rt; problem.chains(EDGES_R, EDGES_S) == [6].as_slice());
    assert!(rt; problem.chains(EDGES_R, EDGES_R) == [8].as_slice());
    assert!(rt; problem.chains(EDGES_S, EDGES_R) == [7].as_slice());
    assert!(rt; problem.chains(EDGES_R, EDGES_T).is_empty());
    assert!(rt; problem.chains(EDGES_P, EDGES_R).is_empty());
    Ok(())
}

/// Those of a source are told by their targets.
#[test]
fn denied_pairs_by_both_ends(rt: HostRuntime) -> Result<(), Fail> {
    let problem = with_pairs(rt.alloc())?;
    assert!(rt; problem.denied_between(A, B) == [10].as_slice());
    assert!(rt; problem.denied_between(B, C) == [11].as_slice());
    let both = problem.denied_between(A, C);
    assert!(rt; both.len() == 2 && both.contains(&9) && both.contains(&12));
    assert!(rt; problem.denied_between(C, A).is_empty());
    Ok(())
}

/// Forms are there by both of their keys, and others of the same two are not.
#[test]
fn forms_of_two_keys_are_there(rt: HostRuntime) -> Result<(), Fail> {
    let problem = with_pairs(rt.alloc())?;
    assert!(rt; problem.has(Form::N4(R, C1, C3)) && !problem.has(Form::N4(S, C1, C3)));
    assert!(rt;
        problem.has(Form::N6(EDGES_R, EDGES_R, EDGES_T))
            && !problem.has(Form::N6(EDGES_R, EDGES_R, EDGES_S))
    );
    assert!(rt; problem.has(Form::N12(A, R, C)) && !problem.has(Form::N12(A, R, B)));
    Ok(())
}
