//! Facts of a class and of a property, which are listed from the last to the first.

use crate::adding::add;
use axioms::{ExprId, Memory, PropId};
use facts::Context;
use inference::{KnownFacts, Predicate};
use normal_forms::{Class2, Form, FormList, PropId2};
use saturate::State;
use std::alloc::Global;
use std::hash::RandomState;
use std::test::Fail;
use work_list::Fifo;

/// The class below the others.
const BELOW: u32 = 2;

/// The classes above it, far apart.
const ABOVE: &[u32] = &[7, 263, 65_543];

/// The number of a class, and how many facts are of it.
const LISTED: &[(u32, usize)] = &[
    // owl:Thing has each of the six contexts, and owl:Nothing itself alone.
    (0, 6),
    (1, 1),
    // The lowest class has itself, and each class above it itself and the lowest.
    (2, 1),
    (7, 2),
    (263, 2),
    (65_543, 2),
    // No fact is of these, which stand before the others, between and behind them.
    (3, 0),
    (256, 0),
    (70_000, 0),
];

/// That the class is below those above it, and each of its elements has a property.
fn all_forms(alloc: Global) -> Result<FormList, Memory> {
    let below = Class2::Expr(ExprId(BELOW));
    let mut forms = FormList::new(alloc);
    for above in ABOVE {
        forms.push(Form::N1(below, Class2::Expr(ExprId(*above))))?;
    }
    forms.push(Form::N3(below, PropId(0), ExprId::THING))?;
    Ok(forms)
}

/// `owl:Thing`, `owl:Nothing` and the classes.
fn all_roots(alloc: Global) -> Result<Vec<Context>, Memory> {
    let mut roots = Vec::new(alloc);
    for class in [ExprId::THING, ExprId::NOTHING, ExprId(BELOW)] {
        roots.push(Context::Expr(class))?;
    }
    for above in ABOVE {
        roots.push(Context::Expr(ExprId(*above)))?;
    }
    Ok(roots)
}

/// Adds the forms and contexts.
fn add_all(state: &mut State<Fifo>, alloc: Global) -> Result<(), Memory> {
    let forms = all_forms(alloc)?;
    let roots = all_roots(alloc)?;
    add(state, alloc, &forms, &roots)
}

/// How many facts are listed under the predicate; 0 where one of them says something else.
fn listed(state: &State<Fifo>, predicate: Predicate) -> usize {
    let mut many: usize = 0;
    let mut next = state.last_of(predicate);
    for _ in 0..state.facts().len() {
        let Some(number) = next else {
            break;
        };
        let says = match state.facts().get(number as usize) {
            Some(fact) => Predicate::of(fact.get()) == predicate,
            None => false,
        };
        if !says {
            return 0;
        }
        many = many.saturating_add(1);
        next = state.before(number);
    }
    many
}

/// Whether so many facts are listed under each class, one under the property, and none under others.
fn are_listed(state: &State<Fifo>) -> bool {
    for (number, facts) in LISTED {
        if listed(state, Predicate::Class(Class2::Expr(ExprId(*number)))) != *facts {
            return false;
        }
    }
    listed(state, Predicate::Property(PropId2::Property(PropId(0)))) == 1
        && listed(state, Predicate::Property(PropId2::Property(PropId(1)))) == 0
        && listed(state, Predicate::Property(PropId2::Partial(0))) == 0
        && listed(state, Predicate::Class(Class2::Partial(0))) == 0
}

/// Whether it is so in a state. It is made and dropped here alone.
fn are_listed_in_a_state(alloc: Global, seed: RandomState) -> bool {
    let Ok(mut state) = State::new(alloc, seed, Fifo::new(alloc)) else {
        return false;
    };
    let right = add_all(&mut state, alloc).is_ok()
        && state.run(u32::MAX) == Ok(())
        && are_listed(&state);
    drop(state);
    right
}

#[test]
fn facts_are_listed_by_class_and_by_property(rt: HostRuntime) -> Result<(), Fail> {
    let seed = RandomState::new(&rt)?;
    assert!(rt; are_listed_in_a_state(rt.alloc(), seed));
    Ok(())
}

#[test]
fn no_facts_are_listed_at_first(rt: HostRuntime) -> Result<(), Fail> {
    let facts = KnownFacts::new(rt.alloc(), RandomState::new(&rt)?);
    assert!(rt;
        facts
            .last_of(Predicate::Class(Class2::Expr(ExprId::THING)))
            .is_none()
    );
    assert!(rt; facts.before(0).is_none());
    Ok(())
}
