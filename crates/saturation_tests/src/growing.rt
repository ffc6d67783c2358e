//! States that grow: whatever the list of work and the script, the facts at the end are those of one run over all forms.

mod acts;
mod individuals;

ghost use Rattle.std.specs.Prelude.{◌≡◌, []};

use crate::adding::{add, add_lists, add_with_lists, different};
use crate::lists::{Refusing, Scripted};
use crate::problems::{
    ALL_GO_ON, Born, CLASSES_MADE_DISJOINT, FRESH_SUBPROPERTIES_COME_LAST, ONE_ENDS, PROBLEMS,
    Problem, SUBCLASS_STATED_AGAIN, SUBCLASSES_IN_A_CIRCLE, SUBPROPERTY_COMES_LAST, TWO_SUBCLASSES,
};
use acts::{ALL, ALL_LISTS, Act, SCRIPTS};
use axioms::Memory;
use facts::{FactId, Older, StoredFact};
use normal_forms::FormList;
use saturate::{State, Stop};
use std::alloc::Global;
use std::hash::RandomState;
use std::test::Fail;
use work_list::{ByContext, Fifo, Lifo, WorkList};

/// How much of a problem a state has by now, and how many calls were refused.
#[derive(Drop)]
struct Progress {
    alloc: Global,
    forms: usize,
    lists: usize,
    roots: usize,
    refused: u32,
}

/// So many of the list, from a place on, or those that are left.
fn next<T>(all: &[T], from: usize, many: usize) -> &[T] {
    let from = from.min(all.len());
    let to = from.saturating_add(many).min(all.len());
    &all[from..to]
}

/// Adds the next forms and contexts.
fn extend<W: WorkList>(
    state: &mut State<W>,
    problem: &Problem,
    progress: &mut Progress,
    forms: usize,
    roots: usize,
) -> Result<bool, Stop> {
    let more = next(problem.forms, progress.forms, forms);
    let Ok(more) = FormList::of(progress.alloc, more) else {
        return Err(Stop::Memory);
    };
    let contexts = next(problem.roots, progress.roots, roots);
    let added = add(state, progress.alloc, &more, contexts);
    if added.is_err() {
        return Err(Stop::Memory);
    }
    progress.forms = progress.forms.saturating_add(forms);
    progress.roots = progress.roots.saturating_add(roots);
    Ok(true)
}

/// Adds the next lists.
fn extend_lists<W: WorkList>(
    state: &mut State<W>,
    problem: &Problem,
    progress: &mut Progress,
    lists: usize,
) -> Result<bool, Stop> {
    let more = next(problem.different, progress.lists, lists);
    let Ok(more) = different(progress.alloc, more) else {
        return Err(Stop::Memory);
    };
    let added = add_lists(state, progress.alloc, &more);
    if added.is_err() {
        return Err(Stop::Memory);
    }
    progress.lists = progress.lists.saturating_add(lists);
    Ok(true)
}

/// Does it, and says whether what was looked at is so.
fn perform<W: WorkList>(
    state: &mut State<W>,
    problem: &Problem,
    progress: &mut Progress,
    act: Act,
) -> Result<bool, Stop> {
    match act {
        Act::Extend(forms, roots) => extend(state, problem, progress, forms, roots),
        Act::Differ(lists) => extend_lists(state, problem, progress, lists),
        Act::Step => state.step(problem.facts).map(|_| true),
        Act::Run => state.run(problem.facts).map(|_| true),
        Act::Stop => state.run(problem.facts.saturating_sub(1)).map(|_| true),
        Act::Serves(facts) => Ok(state.served() == facts),
        Act::Has(facts) => Ok(state.facts().len() == facts),
    }
}

/// Does it, once more where it was refused, and says whether what was looked at is so.
fn tried<W: WorkList>(
    state: &mut State<W>,
    problem: &Problem,
    progress: &mut Progress,
    act: Act,
) -> bool {
    match perform(state, problem, progress, act) {
        Ok(so) => so,
        Err(Stop::Limit) => matches!(act, Act::Stop),
        Err(Stop::Memory) => {
            progress.refused = progress.refused.saturating_add(1);
            matches!(
                perform(state, problem, progress, act),
                Ok(true) | Err(Stop::Limit)
            )
        }
    }
}

/// Does all of it, adds what is left and runs to the end.
fn follows<W: WorkList>(
    state: &mut State<W>,
    problem: &Problem,
    progress: &mut Progress,
    script: &[Act],
) -> bool {
    for act in script {
        if !tried(state, problem, progress, *act) {
            return false;
        }
    }
    tried(state, problem, progress, ALL)
        && tried(state, problem, progress, ALL_LISTS)
        && tried(state, problem, progress, Act::Run)
}

/// How many older facts there are.
fn count(older: Older) -> usize {
    match older {
        Older::None => 0,
        Older::One(_) => 1,
        Older::Two(_, _) => 2,
    }
}

/// Whether so many older facts gave the fact so.
fn is_born<W: WorkList>(state: &State<W>, born: &Born) -> bool {
    let Born(fact, condition, form, older) = born;
    let Some(place) = state.facts().iter().position(|known| known.get() == *fact) else {
        return false;
    };
    let Ok(number) = u32::try_from(place) else {
        return false;
    };
    match state.born(FactId(number)) {
        Some(birth) => {
            birth.condition() == *condition
                && birth.form() == Some(*form)
                && count(birth.older()) == *older
        }
        None => false,
    }
}

/// Whether the state has just the forms of the problem.
fn has_forms<W: WorkList>(state: &State<W>, problem: &Problem) -> bool {
    let forms = state.normal();
    for (number, form) in problem.forms.iter().enumerate() {
        if forms.get(number) != Some(*form) {
            return false;
        }
    }
    forms.len() == problem.forms.len()
}

/// Whether the state has just the lists of the problem.
fn has_lists<W: WorkList>(state: &State<W>, problem: &Problem) -> bool {
    let lists = &state.apart().individuals;
    for (number, list) in problem.different.iter().enumerate() {
        if lists.at(number) != *list {
            return false;
        }
    }
    lists.len() == problem.different.len()
}

/// Whether the state has the forms, the lists and the facts of the problem, all served, and each of these.
fn has_ended<W: WorkList>(state: &State<W>, problem: &Problem, facts: &[StoredFact]) -> bool {
    for fact in facts {
        if !state.facts().iter().any(|known| known.get() == fact.get()) {
            return false;
        }
    }
    has_forms(state, problem)
        && has_lists(state, problem)
        && state.facts().len() == problem.facts as usize
        && state.births().len() == problem.facts as usize
        && state.served() == problem.facts as usize
        && problem
            .born
            .as_ref()
            .is_none_or(|born| is_born(state, born))
}

/// How many calls were refused, where the script leads to the facts of the problem, and these are among them. A state is made and
/// dropped here alone, but for that of `fits`.
fn grows<W: WorkList + Drop>(
    alloc: Global,
    seed: RandomState,
    problem: &Problem,
    facts: &[StoredFact],
    script: &[Act],
    list: W,
) -> Option<u32>
    requires { W.pending list ≡ [] }
{
    let Ok(mut state) = State::new(alloc, seed, list) else {
        return None;
    };
    let mut progress = Progress {
        alloc,
        forms: 0,
        lists: 0,
        roots: 0,
        refused: 0,
    };
    let right = follows(&mut state, problem, &mut progress, script)
        && has_ended(&state, problem, facts);
    drop(state);
    right.then_some(progress.refused)
}

/// Whether the script leads there by each list of work.
fn in_any_order(
    alloc: Global,
    seed: RandomState,
    problem: &Problem,
    facts: &[StoredFact],
    script: &[Act],
) -> bool {
    let backwards = Scripted::new(alloc, &[2, 0, 1, 5, 3, 0, 7, 1, 1, 4, 0, 9]);
    grows(alloc, seed, problem, facts, script, Fifo::new(alloc)) == Some(0)
        && grows(alloc, seed, problem, facts, script, Lifo::new(alloc)) == Some(0)
        && grows(alloc, seed, problem, facts, script, ByContext::new(alloc)) == Some(0)
        && grows(alloc, seed, problem, facts, script, backwards) == Some(0)
}

/// Whether the script leads there whichever one push hands its item back: for each push until none does, of which there are as many
/// as facts.
fn with_each_push_refused(
    alloc: Global,
    seed: RandomState,
    problem: &Problem,
    facts: &[StoredFact],
    script: &[Act],
) -> bool {
    for push in 1..200 {
        match grows(
            alloc,
            seed,
            problem,
            facts,
            script,
            Refusing::new(alloc, push),
        ) {
            Some(1) => {}
            Some(0) => return push > problem.facts,
            _ => return false,
        }
    }
    false
}

/// Whether every script leads to these facts, by each list of work and with each push refused.
fn by_each_script(
    alloc: Global,
    seed: RandomState,
    problem: &Problem,
    facts: &[StoredFact],
) -> bool {
    for script in SCRIPTS {
        if !in_any_order(alloc, seed, problem, facts, script)
            || !with_each_push_refused(alloc, seed, problem, facts, script)
        {
            return false;
        }
    }
    true
}

/// Adds all of the problem and runs to the end.
fn run_whole(state: &mut State<Fifo>, alloc: Global, problem: &Problem) -> Result<(), Stop> {
    let (Ok(forms), Ok(lists)) = (
        FormList::of(alloc, problem.forms),
        different(alloc, problem.different),
    ) else {
        return Err(Stop::Memory);
    };
    let Ok(()) = add_with_lists(state, alloc, &forms, &lists, problem.roots) else {
        return Err(Stop::Memory);
    };
    state.run(problem.facts)
}

/// Whether every script leads to the facts of one run over all forms.
fn fits(alloc: Global, seed: RandomState, problem: &Problem) -> bool {
    let Ok(mut whole) = State::new(alloc, seed, Fifo::new(alloc)) else {
        return false;
    };
    let right = run_whole(&mut whole, alloc, problem) == Ok(())
        && by_each_script(alloc, seed, problem, whole.facts());
    drop(whole);
    right
}

#[test]
fn each_problem_by_each_script(rt: HostRuntime) -> Result<(), Fail> {
    let seed = RandomState::new(&rt)?;
    for problem in PROBLEMS {
        assert!(rt; fits(rt.alloc(), seed, problem), "{}", problem.name);
    }
    Ok(())
}

#[test]
fn each_problem_of_seconds_by_each_script(rt: HostRuntime) -> Result<(), Fail> {
    let seed = RandomState::new(&rt)?;
    for problems in [ALL_GO_ON, ONE_ENDS] {
        for problem in problems {
            assert!(rt; fits(rt.alloc(), seed, problem), "{}", problem.name);
        }
    }
    Ok(())
}

/// The classes of the first addition are run to the end; then those of the second are added, and make no other fact wait again.
const APART: &[Act] = &[
    Act::Extend(1, 4),
    Act::Run,
    Act::Serves(8),
    Act::Extend(1, 2),
    Act::Serves(8),
    Act::Run,
    Act::Serves(13),
];

/// The second addition names a class of the first, which two contexts have: both facts wait again.
const TOGETHER: &[Act] = &[
    Act::Extend(1, 4),
    Act::Run,
    Act::Serves(8),
    Act::Extend(1, 0),
    Act::Serves(6),
    Act::Run,
    Act::Serves(9),
];

/// The second addition makes a fact of its first class wait again, and no fact of its second.
const DISJOINT: &[Act] = &[
    Act::Extend(1, 4),
    Act::Run,
    Act::Serves(8),
    Act::Extend(1, 0),
    Act::Serves(7),
    Act::Run,
    Act::Serves(9),
];

/// The second addition is the first once more: no fact waits again.
const AGAIN: &[Act] = &[
    Act::Extend(1, 4),
    Act::Run,
    Act::Serves(8),
    Act::Extend(1, 0),
    Act::Serves(8),
    Act::Run,
    Act::Serves(8),
];

/// The chain comes last: the edge that it begins with waits again, and those by the transitive property that it ends with do not.
const BEHIND: &[Act] = &[
    Act::Extend(5, 1),
    Act::Run,
    Act::Serves(12),
    Act::Extend(1, 0),
    Act::Serves(11),
    Act::Run,
    Act::Serves(15),
];

/// A property is put below another last: the edges by it wait again, and no other fact.
const BELOW: &[Act] = &[
    Act::Extend(4, 3),
    Act::Run,
    Act::Serves(10),
    Act::Extend(1, 0),
    Act::Serves(7),
    Act::Run,
    Act::Serves(13),
];

#[test]
fn edges_wait_for_a_property_above(rt: HostRuntime) -> Result<(), Fail> {
    let alloc = rt.alloc();
    let seed = RandomState::new(&rt)?;
    assert!(rt; fits(alloc, seed, &SUBPROPERTY_COMES_LAST));
    assert!(rt; in_any_order(alloc, seed, &SUBPROPERTY_COMES_LAST, &[], BELOW));
    assert!(rt; with_each_push_refused(alloc, seed, &SUBPROPERTY_COMES_LAST, &[], BELOW));
    Ok(())
}

/// Two properties that no form spoke of are put below another one: no edge waits again. Then comes an edge by the lower one.
const FRESH_BELOW: &[Act] = &[
    Act::Extend(3, 3),
    Act::Run,
    Act::Serves(9),
    Act::Extend(2, 0),
    Act::Serves(9),
    Act::Run,
    Act::Serves(9),
    Act::Extend(1, 0),
    Act::Serves(9),
    Act::Run,
    Act::Serves(13),
];

#[test]
fn no_edge_waits_for_a_fresh_property_below(rt: HostRuntime) -> Result<(), Fail> {
    let alloc = rt.alloc();
    let seed = RandomState::new(&rt)?;
    assert!(rt; fits(alloc, seed, &FRESH_SUBPROPERTIES_COME_LAST));
    assert!(rt;
        in_any_order(
            alloc,
            seed,
            &FRESH_SUBPROPERTIES_COME_LAST,
            &[],
            FRESH_BELOW
        )
    );
    assert!(rt;
        with_each_push_refused(
            alloc,
            seed,
            &FRESH_SUBPROPERTIES_COME_LAST,
            &[],
            FRESH_BELOW
        )
    );
    Ok(())
}

#[test]
fn edges_become_seconds(rt: HostRuntime) -> Result<(), Fail> {
    let seed = RandomState::new(&rt)?;
    let Some(problem) = ONE_ENDS.first() else {
        return Ok(());
    };
    assert!(rt; in_any_order(rt.alloc(), seed, problem, &[], BEHIND));
    assert!(rt; with_each_push_refused(rt.alloc(), seed, problem, &[], BEHIND));
    Ok(())
}

#[test]
fn what_waits_again(rt: HostRuntime) -> Result<(), Fail> {
    let alloc = rt.alloc();
    let seed = RandomState::new(&rt)?;
    assert!(rt; in_any_order(alloc, seed, &TWO_SUBCLASSES, &[], APART));
    assert!(rt; in_any_order(alloc, seed, &SUBCLASSES_IN_A_CIRCLE, &[], TOGETHER));
    assert!(rt; in_any_order(alloc, seed, &CLASSES_MADE_DISJOINT, &[], DISJOINT));
    assert!(rt; in_any_order(alloc, seed, &SUBCLASS_STATED_AGAIN, &[], AGAIN));
    assert!(rt; with_each_push_refused(alloc, seed, &TWO_SUBCLASSES, &[], APART));
    assert!(rt; with_each_push_refused(alloc, seed, &SUBCLASSES_IN_A_CIRCLE, &[], TOGETHER));
    Ok(())
}
