//! What is below two classes of a list of disjoint classes.

use crate::adding::{add, add_lists, add_with_lists};
use crate::numbered::{C1 as NOTHING, C2, C3, C4, C5 as BELOW, C6, IN5 as IN_BELOW};
use axioms::ExprId;
use facts::Fact;
use normal_forms::{ApartLists, Class2, Form, FormList};
use saturate::State;
use std::alloc::{AllocError, Global};
use std::hash::RandomState;
use std::test::Fail;
use work_list::Fifo;

/// A list of disjoint classes, the two classes that something is below, and how many facts there are of it.
#[derive(Clone, Copy)]
struct Row {
    name: &'static str,
    list: &'static [ExprId],
    first: Class2,
    second: Class2,
    facts: usize,
}

/// No more classes than what is below two of them is in.
const SHORT: &[ExprId] = &[ExprId(2), ExprId(3), ExprId(4)];

/// More of them.
const LONG: &[ExprId] = &[
    ExprId(2),
    ExprId(7),
    ExprId(8),
    ExprId(3),
    ExprId(9),
    ExprId(10),
    ExprId(11),
    ExprId(4),
    ExprId(12),
];

/// One class at two places.
const TWICE: &[ExprId] = &[ExprId(2), ExprId(3), ExprId(2)];

const ROWS: &[Row] = &[
    Row {
        name: "in the order of a short list",
        list: SHORT,
        first: C2,
        second: C4,
        facts: 5,
    },
    Row {
        name: "in the other order",
        list: SHORT,
        first: C4,
        second: C2,
        facts: 5,
    },
    Row {
        name: "one behind the other",
        list: SHORT,
        first: C2,
        second: C3,
        facts: 5,
    },
    Row {
        name: "in the order of a long list",
        list: LONG,
        first: C3,
        second: C4,
        facts: 5,
    },
    Row {
        name: "in the other order of a long list",
        list: LONG,
        first: C4,
        second: C3,
        facts: 5,
    },
    Row {
        name: "one of the list",
        list: LONG,
        first: C4,
        second: C6,
        facts: 4,
    },
    Row {
        name: "one that is disjoint with itself",
        list: TWICE,
        first: C2,
        second: C2,
        facts: 4,
    },
];

/// The list of disjoint classes.
fn list_of(alloc: Global, row: Row) -> Result<ApartLists, AllocError> {
    let mut lists = ApartLists::new(alloc);
    lists.classes.push_list(row.list)?;
    Ok(lists)
}

/// The forms that put something below the two classes of the row.
fn forms_of(alloc: Global, row: Row) -> Result<FormList, AllocError> {
    FormList::of(
        alloc,
        &[Form::N1(BELOW, row.first), Form::N1(BELOW, row.second)],
    )
}

/// Whether what is below the two classes is in `owl:Nothing` where it should be, and there are as many facts as there should be.
fn is_right(state: &State<Fifo>, row: Row) -> bool {
    let is_nothing = state.find(Fact::In(NOTHING, IN_BELOW)).is_some();
    is_nothing == (row.second != C6) && state.facts().len() == row.facts
}

/// Whether it is so, with the list there at once.
fn is_right_at_once(
    state: &mut State<Fifo>,
    alloc: Global,
    forms: &FormList,
    lists: &ApartLists,
    row: Row,
) -> bool {
    add_with_lists(state, alloc, forms, lists, &[IN_BELOW]).is_ok()
        && state.run(100).is_ok()
        && is_right(state, row)
}

/// Whether a state has the facts of the row. It is made and dropped here alone.
fn a_state_is_right(alloc: Global, seed: RandomState, row: Row) -> bool {
    let (Ok(forms), Ok(lists)) = (forms_of(alloc, row), list_of(alloc, row)) else {
        return false;
    };
    let Ok(mut state) = State::new(alloc, seed, Fifo::new(alloc)) else {
        return false;
    };
    let right = is_right_at_once(&mut state, alloc, &forms, &lists, row);
    drop(state);
    right
}

#[test]
fn what_is_below_disjoint_classes_is_nothing(rt: HostRuntime) -> Result<(), Fail> {
    for row in ROWS {
        let seed = RandomState::new(&rt)?;
        assert!(rt; a_state_is_right(rt.alloc(), seed, *row), "{}", row.name);
    }
    Ok(())
}

/// What a list leads to that comes later.
const LATER: Row = Row {
    name: "a list that comes later",
    list: LONG,
    first: C4,
    second: C3,
    facts: 5,
};

/// Whether the facts that something is in the two classes wait again where a list comes that has both, and no fact where the same list comes
/// once more.
fn waits_again(
    state: &mut State<Fifo>,
    alloc: Global,
    forms: &FormList,
    lists: &ApartLists,
) -> bool {
    add(state, alloc, forms, &[IN_BELOW]).is_ok()
        && state.run(100).is_ok()
        && state.served() == 4
        && add_lists(state, alloc, lists).is_ok()
        && state.served() == 2
        && state.run(100).is_ok()
        && is_right(state, LATER)
        && add_lists(state, alloc, lists).is_ok()
        && state.served() == 5
}

/// Whether they do in a state. It is made and dropped here alone.
fn a_state_waits_again(alloc: Global, seed: RandomState) -> bool {
    let (Ok(forms), Ok(lists)) = (forms_of(alloc, LATER), list_of(alloc, LATER)) else {
        return false;
    };
    let Ok(mut state) = State::new(alloc, seed, Fifo::new(alloc)) else {
        return false;
    };
    let right = waits_again(&mut state, alloc, &forms, &lists);
    drop(state);
    right
}

#[test]
fn a_list_that_comes_later(rt: HostRuntime) -> Result<(), Fail> {
    let seed = RandomState::new(&rt)?;
    assert!(rt; a_state_waits_again(rt.alloc(), seed));
    Ok(())
}
