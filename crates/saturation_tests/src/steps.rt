//! A run from the start takes as many steps as there are facts, whatever the list of work.
ghost use Rattle.std.specs.Prelude.{◌≡◌, []};

use crate::adding::add;
use crate::lists::Scripted;
use crate::problems::{ALL_GO_ON, ONE_ENDS, PROBLEMS, Problem};
use axioms::Memory;
use normal_forms::FormList;
use saturate::State;
use std::alloc::Global;
use std::hash::RandomState;
use std::test::Fail;
use work_list::{ByContext, Fifo, Lifo, WorkList};

/// Where lists that pop by a script do so.
const SCRIPTS: &[&[usize]] = &[
    &[2, 0, 1, 5, 3, 0, 7, 1, 1, 4, 0, 9],
    &[1, 1, 1, 1, 1, 1, 1, 1, 1, 1, 1, 1, 1, 1, 1, 1, 1, 1, 1, 1],
    &[9, 8, 7, 6, 5, 4, 3, 2, 1, 0, 1, 2, 3, 4, 5, 6, 7, 8, 9],
];

/// How many steps the state takes until nothing is pending, where none is refused.
fn steps<W: WorkList>(state: &mut State<W>, facts: u32) -> Option<u32> {
    for taken in 0..=facts {
        match state.step(facts) {
            Ok(true) => {}
            Ok(false) => return Some(taken),
            Err(_) => return None,
        }
    }
    None
}

/// Adds all that the problem has.
fn add_all<W: WorkList>(
    state: &mut State<W>,
    alloc: Global,
    problem: &Problem,
) -> Result<(), Memory> {
    let forms = FormList::of(alloc, problem.forms)?;
    add(state, alloc, &forms, problem.roots)
}

/// Whether the state has the facts of the problem after as many steps.
fn ends<W: WorkList>(state: &mut State<W>, alloc: Global, problem: &Problem) -> bool {
    add_all(state, alloc, problem).is_ok()
        && steps(state, problem.facts) == Some(problem.facts)
        && state.facts().len() == problem.facts as usize
        && state.served() == problem.facts as usize
}

/// Whether a state with this list of work does. It is made and dropped here alone.
fn does<W: WorkList + Drop>(alloc: Global, seed: RandomState, problem: &Problem, list: W) -> bool
    requires { W.pending list ≡ [] }
{
    let Ok(mut state) = State::new(alloc, seed, list) else {
        return false;
    };
    let right = ends(&mut state, alloc, problem);
    drop(state);
    right
}

/// Whether those of each script do.
fn by_each_script(alloc: Global, seed: RandomState, problem: &Problem) -> bool {
    for script in SCRIPTS {
        if !does(alloc, seed, problem, Scripted::new(alloc, script)) {
            return false;
        }
    }
    true
}

/// Whether those of each list do.
fn by_each_list(alloc: Global, seed: RandomState, problem: &Problem) -> bool {
    does(alloc, seed, problem, Fifo::new(alloc))
        && does(alloc, seed, problem, Lifo::new(alloc))
        && does(alloc, seed, problem, ByContext::new(alloc))
        && by_each_script(alloc, seed, problem)
}

#[test]
fn as_many_steps_as_facts(rt: HostRuntime) -> Result<(), Fail> {
    let seed = RandomState::new(&rt)?;
    for problems in [PROBLEMS, ALL_GO_ON, ONE_ENDS] {
        for problem in problems {
            assert!(rt; by_each_list(rt.alloc(), seed, problem), "{}", problem.name);
        }
    }
    Ok(())
}
