//! Edges that a chain gave are no second premises where what each chain that they could end gives comes of the older two, one after the other.
ghost use Rattle.std.specs.Prelude.{◌≡◌, []};

use crate::adding::add;
use crate::problems::{ALL_GO_ON, ONE_ENDS, Problem};
use facts::{FactId, Older};
use normal_forms::FormList;
use saturate::{State, Stop};
use std::alloc::Global;
use std::hash::RandomState;
use std::test::Fail;
use work_list::{Fifo, Lifo, WorkList};

/// Whether the fact of that number was stated: no older facts gave it.
fn is_stated<W: WorkList>(state: &State<W>, fact: FactId) -> bool {
    match state.born(fact) {
        Some(birth) => matches!(birth.older(), Older::None),
        None => false,
    }
}

/// Whether the fact of that number is no edge that two edges gave, or one of which the second was stated.
fn has_a_stated_second<W: WorkList>(state: &State<W>, fact: FactId) -> bool {
    match state.born(fact) {
        Some(birth) => match birth.older() {
            Older::Two(_, second) => is_stated(state, second),
            _ => true,
        },
        None => false,
    }
}

/// Whether no edge that others gave stood second where one was given.
fn have_stated_seconds<W: WorkList>(state: &State<W>, facts: u32) -> bool {
    for number in 0..facts {
        if !has_a_stated_second(state, FactId(number)) {
            return false;
        }
    }
    true
}

/// Runs over the problem's first forms, and then over all.
fn run_in_two_parts<W: WorkList>(
    state: &mut State<W>,
    alloc: Global,
    problem: &Problem,
    first: usize,
) -> Result<(), Stop> {
    let (first, rest) = problem.forms.split_at(first.min(problem.forms.len()));
    let (Ok(first), Ok(rest)) = (FormList::of(alloc, first), FormList::of(alloc, rest)) else {
        return Err(Stop::Memory);
    };
    let Ok(()) = add(state, alloc, &first, problem.roots) else {
        return Err(Stop::Memory);
    };
    state.run(problem.facts)?;
    let Ok(()) = add(state, alloc, &rest, &[]) else {
        return Err(Stop::Memory);
    };
    state.run(problem.facts)
}

/// Whether there are exactly the facts of the problem, and whether edges that were given stood second is as it says. A state is made
/// and dropped here alone.
fn has<W: WorkList + Drop>(
    alloc: Global,
    seed: RandomState,
    problem: &Problem,
    first: usize,
    stated: bool,
    list: W,
) -> bool
    requires { W.pending list ≡ [] }
{
    let Ok(mut state) = State::new(alloc, seed, list) else {
        return false;
    };
    let right = run_in_two_parts(&mut state, alloc, problem, first) == Ok(())
        && state.facts().len() == problem.facts as usize
        && have_stated_seconds(&state, problem.facts) == stated;
    drop(state);
    right
}

/// The same by two lists of work, with the first form alone to begin with, and with all but the last.
fn fits(alloc: Global, seed: RandomState, problem: &Problem, stated: bool) -> bool {
    let most = problem.forms.len().saturating_sub(1);
    has(alloc, seed, problem, 1, stated, Fifo::new(alloc))
        && has(alloc, seed, problem, 1, stated, Lifo::new(alloc))
        && has(alloc, seed, problem, most, stated, Fifo::new(alloc))
        && has(alloc, seed, problem, most, stated, Lifo::new(alloc))
}

#[test]
fn edges_that_do_not_stand_second(rt: HostRuntime) -> Result<(), Fail> {
    let seed = RandomState::new(&rt)?;
    for problem in ALL_GO_ON {
        assert!(rt; fits(rt.alloc(), seed, problem, true), "{}", problem.name);
    }
    Ok(())
}

#[test]
fn edges_that_do(rt: HostRuntime) -> Result<(), Fail> {
    let seed = RandomState::new(&rt)?;
    for problem in ONE_ENDS {
        assert!(rt; fits(rt.alloc(), seed, problem, false), "{}", problem.name);
    }
    Ok(())
}
