//! States with many facts: one that grows, and one that has its axioms at once.

use crate::adding::{add, add_lists};
use axioms::{ExprId, IndId, Memory};
use facts::Context;
use normal_forms::{ApartLists, Class2, Form, FormList};
use saturate::State;
use std::alloc::Global;
use std::hash::RandomState;
use std::test::Fail;
use work_list::{ByContext, Fifo, WorkList};

/// The expression behind `owl:Thing`, `owl:Nothing` and so many others.
fn after(others: u32) -> ExprId {
    ExprId(others.saturating_add(2))
}

/// The form that puts the first class of the pair of that number below the second, and both as contexts.
fn add_pair(forms: &mut FormList, roots: &mut Vec<Context>, pair: u32) -> Result<(), Memory> {
    let first = after(pair.saturating_mul(2));
    let second = after(pair.saturating_mul(2).saturating_add(1));
    forms.push(Form::N1(Class2::Expr(first), Class2::Expr(second)))?;
    roots.push(Context::Expr(first))?;
    roots.push(Context::Expr(second))?;
    Ok(())
}

/// Adds the pairs of classes of these numbers, each with the first below the second.
fn extend<W: WorkList>(
    state: &mut State<W>,
    alloc: Global,
    from: u32,
    to: u32,
) -> Result<(), Memory> {
    let mut forms = FormList::new(alloc);
    let mut roots = Vec::new(alloc);
    for pair in from..to {
        add_pair(&mut forms, &mut roots, pair)?;
    }
    add(state, alloc, &forms, &roots)
}

/// How many facts there are once these pairs are added, and the state has run.
fn facts_with<W: WorkList>(
    state: &mut State<W>,
    alloc: Global,
    from: u32,
    to: u32,
) -> Option<usize> {
    let Ok(()) = extend(state, alloc, from, to) else {
        return None;
    };
    let Ok(()) = state.run(2_000_000) else {
        return None;
    };
    Some(state.facts().len())
}

/// Adds `owl:Thing` and `owl:Nothing` as contexts.
fn add_ends<W: WorkList>(state: &mut State<W>, alloc: Global) -> Result<(), Memory> {
    let ends = [Context::Expr(ExprId::THING), Context::Expr(ExprId::NOTHING)];
    add(state, alloc, &FormList::new(alloc), &ends)
}

/// Whether 100,000 pairs lead to as many facts as they should, and 10,000 more to theirs: three facts in the context of each first
/// class, two in that of each second, and three in those of `owl:Thing` and `owl:Nothing`.
fn grows(state: &mut State<Fifo>, alloc: Global) -> bool {
    add_ends(state, alloc).is_ok()
        && facts_with(state, alloc, 0, 100_000) == Some(500_003)
        && facts_with(state, alloc, 100_000, 110_000) == Some(550_003)
        && state.served() == 550_003
}

/// Whether a state does. It is made and dropped here alone.
fn a_state_grows(alloc: Global, seed: RandomState) -> bool {
    let Ok(mut state) = State::new(alloc, seed, Fifo::new(alloc)) else {
        return false;
    };
    let right = grows(&mut state, alloc);
    drop(state);
    right
}

#[test]
fn hundred_thousand_subclasses(rt: HostRuntime) -> Result<(), Fail> {
    let seed = RandomState::new(&rt)?;
    assert!(rt; a_state_grows(rt.alloc(), seed));
    Ok(())
}

/// Whether 200,000 pairs lead to as many facts as they should.
fn has_a_million(state: &mut State<ByContext>, alloc: Global) -> bool {
    add_ends(state, alloc).is_ok()
        && facts_with(state, alloc, 0, 200_000) == Some(1_000_003)
        && state.served() == 1_000_003
}

/// Whether a state does. It is made and dropped here alone.
fn a_state_has_a_million(alloc: Global, seed: RandomState) -> bool {
    let Ok(mut state) = State::new(alloc, seed, ByContext::new(alloc)) else {
        return false;
    };
    let right = has_a_million(&mut state, alloc);
    drop(state);
    right
}

#[test]
fn two_hundred_thousand_subclasses(rt: HostRuntime) -> Result<(), Fail> {
    let seed = RandomState::new(&rt)?;
    assert!(rt; a_state_has_a_million(rt.alloc(), seed));
    Ok(())
}

/// How many individuals are in one group.
const IN_ONE_GROUP: u32 = 100_000;

/// The forms that make the individuals one, each with the next, and put one of them into a class.
fn group_forms(alloc: Global) -> Result<FormList, Memory> {
    let mut forms = FormList::new(alloc);
    for number in 1..IN_ONE_GROUP {
        forms.push(Form::N10(IndId(number - 1), IndId(number)))?;
    }
    forms.push(Form::N8(IndId(IN_ONE_GROUP / 2), Class2::Expr(after(0))))?;
    Ok(forms)
}

/// The forms that put each of the individuals into that class.
fn class_forms(alloc: Global) -> Result<FormList, Memory> {
    let mut forms = FormList::new(alloc);
    for number in 0..IN_ONE_GROUP {
        forms.push(Form::N8(IndId(number), Class2::Expr(after(0))))?;
    }
    Ok(forms)
}

/// The class, `owl:Thing`, `owl:Nothing` and the individuals.
fn group_roots(alloc: Global) -> Result<Vec<Context>, Memory> {
    let mut roots = Vec::new(alloc);
    for number in 0..3 {
        roots.push(Context::Expr(ExprId(number)))?;
    }
    for number in 0..IN_ONE_GROUP {
        roots.push(Context::Individual(IndId(number)))?;
    }
    Ok(roots)
}

/// Adds the forms and contexts and runs to the end.
fn is_added_and_run<W: WorkList>(
    state: &mut State<W>,
    alloc: Global,
    forms: Result<FormList, Memory>,
    roots: Result<Vec<Context>, Memory>,
) -> bool {
    match (forms, roots) {
        (Ok(forms), Ok(roots)) => {
            add(state, alloc, &forms, &roots).is_ok() && state.run(2_000_000) == Ok(())
        }
        _ => false,
    }
}

/// Whether the group has two facts for each individual, and five for the classes; and no more where the class is asserted of each.
fn has_a_group<W: WorkList>(state: &mut State<W>, alloc: Global) -> bool {
    is_added_and_run(state, alloc, group_forms(alloc), group_roots(alloc))
        && state.served() == 200_005
        && is_added_and_run(state, alloc, class_forms(alloc), Ok(Vec::new(alloc)))
        && state.served() == 200_005
}

/// Whether a state does. It is made and dropped here alone.
fn a_state_has_a_group(alloc: Global, seed: RandomState) -> bool {
    let Ok(mut state) = State::new(alloc, seed, ByContext::new(alloc)) else {
        return false;
    };
    let right = has_a_group(&mut state, alloc);
    drop(state);
    right
}

#[test]
fn hundred_thousand_in_one_group(rt: HostRuntime) -> Result<(), Fail> {
    let seed = RandomState::new(&rt)?;
    assert!(rt; a_state_has_a_group(rt.alloc(), seed));
    Ok(())
}

/// The form that makes the first and the last of the individuals one.
fn link_forms(alloc: Global) -> Result<FormList, Memory> {
    let link = Form::N10(IndId(0), IndId(IN_ONE_GROUP - 1));
    Ok(FormList::of(alloc, &[link])?)
}

/// The list of all individuals, of which each two differ.
fn all_different(alloc: Global) -> Result<ApartLists, Memory> {
    let mut individuals = Vec::new(alloc);
    for number in 0..IN_ONE_GROUP {
        individuals.push(IndId(number))?;
    }
    let mut lists = ApartLists::new(alloc);
    lists.individuals.push_list(&individuals)?;
    Ok(lists)
}

/// Whether there is one fact for each individual, and five for the classes; and once all individuals differ, two more, of those that are one.
fn has_two_that_differ<W: WorkList>(
    state: &mut State<W>,
    alloc: Global,
    lists: &ApartLists,
) -> bool {
    is_added_and_run(state, alloc, link_forms(alloc), group_roots(alloc))
        && state.served() == 100_005
        && add_lists(state, alloc, lists).is_ok()
        && state.run(2_000_000) == Ok(())
        && state.served() == 100_007
}

/// Whether a state does. It is made and dropped here alone.
fn a_state_has_two_that_differ(alloc: Global, seed: RandomState) -> bool {
    let Ok(lists) = all_different(alloc) else {
        return false;
    };
    let Ok(mut state) = State::new(alloc, seed, ByContext::new(alloc)) else {
        return false;
    };
    let right = has_two_that_differ(&mut state, alloc, &lists);
    drop(state);
    right
}

#[test]
fn hundred_thousand_that_differ(rt: HostRuntime) -> Result<(), Fail> {
    let seed = RandomState::new(&rt)?;
    assert!(rt; a_state_has_two_that_differ(rt.alloc(), seed));
    Ok(())
}
