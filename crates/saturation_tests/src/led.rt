//! A list of work that is led to any context of which an item waits, as often as it is asked: the facts are those of a list that is led
//! nowhere.
ghost use Rattle.std.specs.Prelude.{◌≡◌, []};

use crate::adding::add;
use crate::lists::Led;
use crate::problems::{ALL_GO_ON, ONE_ENDS, PROBLEMS, Problem};
use facts::StoredFact;
use normal_forms::FormList;
use saturate::State;
use std::alloc::Global;
use std::hash::RandomState;
use std::test::Fail;
use work_list::{Fifo, Item, WorkList};

/// Adds all that the problem has, and serves all facts.
fn is_run<W: WorkList>(state: &mut State<W>, alloc: Global, problem: &Problem) -> bool {
    let Ok(forms) = FormList::of(alloc, problem.forms) else {
        return false;
    };
    add(state, alloc, &forms, problem.roots) == Ok(()) && state.run(problem.facts) == Ok(())
}

/// Whether the state has these facts and no others, all of them served.
fn has<W: WorkList>(state: &State<W>, facts: &[StoredFact]) -> bool {
    for fact in facts {
        if state.find(fact.get()).is_none() {
            return false;
        }
    }
    state.facts().len() == facts.len() && state.served() == facts.len()
}

/// Whether the list leads to these facts.
fn leads_to<W: WorkList + Drop>(
    alloc: Global,
    seed: RandomState,
    problem: &Problem,
    facts: &[StoredFact],
    list: W,
) -> bool
    requires { W.pending list ≡ [] }
{
    let Ok(mut state) = State::new(alloc, seed, list) else {
        return false;
    };
    let right = is_run(&mut state, alloc, problem) && has(&state, facts);
    drop(state);
    right
}

/// Whether both lists lead to the same facts, of which the problem says how many there are.
fn both_lead_there(alloc: Global, seed: RandomState, problem: &Problem) -> bool {
    let Ok(mut state) = State::new(alloc, seed, Fifo::new(alloc)) else {
        return false;
    };
    let right = is_run(&mut state, alloc, problem)
        && state.facts().len() == problem.facts as usize
        && leads_to(alloc, seed, problem, state.facts(), Led::new(alloc));
    drop(state);
    right
}

#[test]
fn a_list_that_is_led_anywhere(rt: HostRuntime) -> Result<(), Fail> {
    let seed = RandomState::new(&rt)?;
    for problems in [PROBLEMS, ALL_GO_ON, ONE_ENDS] {
        for problem in problems {
            assert!(rt;
                both_lead_there(rt.alloc(), seed, problem),
                "{}",
                problem.name
            );
        }
    }
    Ok(())
}

/// Whether the next item has that fact.
fn pops(list: &mut Led, fact: u32) -> bool {
    list.pop().is_some_and(|item| item.fact == fact)
}

#[test]
fn it_is_led_again(rt: HostRuntime) -> Result<(), Fail> {
    let mut list = Led::new(rt.alloc());
    for item in [(0, 1), (1, 2), (2, 1), (3, 2)] {
        let (fact, context) = item;
        list.push(Item { fact, context }).map_err(|_| "memory")?;
    }
    let is_led = list.lead_to(1);
    let comes_first = pops(&mut list, 0);
    let is_led_again = list.lead_to(1);
    let comes_next = pops(&mut list, 2);
    let is_led_to_none = list.lead_to(1);
    assert!(rt; is_led && comes_first && is_led_again && comes_next && !is_led_to_none);
    assert!(rt; pops(&mut list, 3) && pops(&mut list, 1));
    Ok(())
}
