//! Loops of reflexive properties come as contexts are served, and not at once.
ghost use Rattle.std.specs.Prelude.{◌≡◌, []};

use crate::adding::add;
use crate::numbered::{IN0, IN1, IN2, IN3, R, S, T, U};
use axioms::Memory;
use facts::Context;
use normal_forms::{Form, FormList};
use saturate::{State, Stop};
use std::alloc::Global;
use std::hash::RandomState;
use std::test::Fail;
use work_list::{Fifo, WorkList};

const REFLEXIVE: &[Form] = &[Form::N7(R), Form::N7(S), Form::N7(T)];

/// `owl:Thing`, `owl:Nothing` and two classes.
const ROOTS: &[Context] = &[IN0, IN1, IN2, IN3];

/// Each is in itself and in `owl:Thing`, which for that is one fact.
const AT_ONCE: usize = 7;

/// Three loops at each of the four.
const WITH_LOOPS: usize = 19;

/// How many facts there are after these forms and contexts were added, and then after a run with that limit, where it ends so.
fn many<W: WorkList>(
    state: &mut State<W>,
    alloc: Global,
    forms: &[Form],
    roots: &[Context],
    limit: u32,
    ends: Result<(), Stop>,
) -> Result<Option<(usize, usize)>, Memory> {
    let forms = FormList::of(alloc, forms)?;
    add(state, alloc, &forms, roots)?;
    let at_once = state.facts().len();
    if state.run(limit) == ends {
        Ok(Some((at_once, state.facts().len())))
    } else {
        Ok(None)
    }
}

/// Whether a run stops at a limit that leaves no room for all loops, goes on to the end from there, and again with another reflexive property.
fn waits<W: WorkList>(state: &mut State<W>, alloc: Global) -> Result<bool, Memory> {
    let stopped = many(state, alloc, REFLEXIVE, ROOTS, 8, Err(Stop::Limit))?;
    let ended = many(state, alloc, &[], &[], 100, Ok(()))?;
    let more = many(state, alloc, &[Form::N7(U)], &[], 100, Ok(()))?;
    Ok(
        stopped == Some((AT_ONCE, AT_ONCE + 1))
            && ended == Some((AT_ONCE + 1, WITH_LOOPS))
            && more == Some((WITH_LOOPS, WITH_LOOPS + ROOTS.len())),
    )
}

/// Whether a state does. It is made and dropped here alone.
fn does<W: WorkList + Drop>(alloc: Global, seed: RandomState, list: W) -> bool
    requires { W.pending list ≡ [] }
{
    let Ok(mut state) = State::new(alloc, seed, list) else {
        return false;
    };
    let right = waits(&mut state, alloc) == Ok(true);
    drop(state);
    right
}

#[test]
fn loops_come_when_contexts_are_served(rt: HostRuntime) -> Result<(), Fail> {
    let seed = RandomState::new(&rt)?;
    let alloc = rt.alloc();
    assert!(rt; does(alloc, seed, Fifo::new(alloc)));
    Ok(())
}
