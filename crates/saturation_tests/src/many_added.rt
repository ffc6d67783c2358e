//! Additions of many forms at once, of which most were there before.

use crate::adding::add;
use crate::problems::{PROBLEMS, Problem};
use axioms::Memory;
use normal_forms::{Form, FormList};
use saturate::State;
use std::alloc::Global;
use std::hash::RandomState;
use std::test::Fail;
use work_list::Fifo;

/// More forms than are looked up one by one.
const MANY: usize = 100;

/// The forms over and over, so many in all.
fn over_and_over(alloc: Global, forms: &[Form]) -> Result<FormList, Memory> {
    let mut list = FormList::new(alloc);
    if forms.is_empty() {
        return Ok(list);
    }
    for number in 0..MANY {
        list.push(forms[number % forms.len()])?;
    }
    Ok(list)
}

/// Whether all facts of the problem are there and served after a run to which these forms are added.
fn ends(state: &mut State<Fifo>, alloc: Global, problem: &Problem, forms: &FormList) -> bool {
    add(state, alloc, forms, &[]).is_ok()
        && state.run(problem.facts) == Ok(())
        && state.served() == problem.facts as usize
}

/// Whether the first half of the forms, and then all of them many times, lead to the facts of the problem, and the same once more asks for
/// none of them.
fn fits(state: &mut State<Fifo>, alloc: Global, problem: &Problem) -> bool {
    let half = &problem.forms[..problem.forms.len() / 2];
    let (Ok(half), Ok(many)) = (
        FormList::of(alloc, half),
        over_and_over(alloc, problem.forms),
    ) else {
        return false;
    };
    add(state, alloc, &half, problem.roots).is_ok()
        && state.run(problem.facts) == Ok(())
        && ends(state, alloc, problem, &many)
        && add(state, alloc, &many, &[]).is_ok()
        && state.served() == problem.facts as usize
}

/// Whether the problem fits a new state, which is made and dropped here alone.
fn fits_a_new_state(alloc: Global, seed: RandomState, problem: &Problem) -> bool {
    let Ok(mut state) = State::new(alloc, seed, Fifo::new(alloc)) else {
        return false;
    };
    let right = fits(&mut state, alloc, problem);
    drop(state);
    right
}

#[test]
fn many_forms_that_were_there_ask_for_nothing(rt: HostRuntime) -> Result<(), Fail> {
    let seed = RandomState::new(&rt)?;
    for problem in PROBLEMS {
        assert!(rt;
            fits_a_new_state(rt.alloc(), seed, problem),
            "{}",
            problem.name
        );
    }
    Ok(())
}
