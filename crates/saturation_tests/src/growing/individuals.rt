//! States that grow by forms of individuals that are one, by lists of such that differ, and by pairs that are denied.

use super::acts::Act;
use super::{fits, in_any_order, with_each_push_refused};
use crate::adding::add;
use crate::individuals::{
    DENIED_BY_WAY_OF_SAME, DENIED_FROM_BELOW, DIFFERENT_ADDED, DIFFERENT_MADE_SAME,
    EDGE_IN_A_NEW_GROUP, GROUPS_JOINED, INDIVIDUALS, SAME_ADDED, SAME_STATED_AGAIN,
};
use crate::problems::Problem;
use axioms::Memory;
use normal_forms::{Form, FormList};
use saturate::State;
use std::alloc::Global;
use std::hash::RandomState;
use std::test::Fail;
use work_list::{ByContext, WorkList};

#[test]
fn each_problem_of_individuals_by_each_script(rt: HostRuntime) -> Result<(), Fail> {
    let seed = RandomState::new(&rt)?;
    for problem in INDIVIDUALS {
        assert!(rt; fits(rt.alloc(), seed, problem), "{}", problem.name);
    }
    Ok(())
}

/// What is added last, and what waits again then.
const ADDITIONS: &[(&Problem, &[Act])] = &[
    // The two facts of either of the two.
    (
        &SAME_ADDED,
        &[
            Act::Extend(2, 6),
            Act::Run,
            Act::Serves(11),
            Act::Extend(1, 0),
            Act::Has(11),
            Act::Serves(7),
            Act::Run,
            Act::Serves(13),
        ],
    ),
    // The three facts of the two that are named, and none of the others of their groups.
    (
        &GROUPS_JOINED,
        &[
            Act::Extend(3, 7),
            Act::Run,
            Act::Serves(11),
            Act::Extend(1, 0),
            Act::Serves(8),
            Act::Run,
            Act::Serves(13),
        ],
    ),
    // The facts of the two, and the edge between them.
    (
        &EDGE_IN_A_NEW_GROUP,
        &[
            Act::Extend(1, 4),
            Act::Run,
            Act::Serves(6),
            Act::Extend(1, 0),
            Act::Serves(3),
            Act::Run,
            Act::Serves(9),
        ],
    ),
    // Nothing, as nothing is new.
    (
        &SAME_STATED_AGAIN,
        &[
            Act::Extend(2, 5),
            Act::Run,
            Act::Serves(9),
            Act::Extend(1, 0),
            Act::Serves(9),
            Act::Run,
            Act::Serves(9),
        ],
    ),
    // Nothing, but `owl:Nothing` in the first of the two is there at once.
    (
        &DIFFERENT_ADDED,
        &[
            Act::Extend(3, 6),
            Act::Run,
            Act::Serves(11),
            Act::Has(11),
            Act::Differ(1),
            Act::Serves(11),
            Act::Has(12),
            Act::Run,
            Act::Serves(14),
        ],
    ),
    // The facts of the two that become one; `owl:Nothing` is in another at once.
    (
        &DIFFERENT_MADE_SAME,
        &[
            Act::Extend(1, 5),
            Act::Differ(1),
            Act::Run,
            Act::Serves(6),
            Act::Extend(1, 0),
            Act::Serves(4),
            Act::Has(7),
            Act::Run,
            Act::Serves(9),
        ],
    ),
    // The edge that is denied by way of the one above it.
    (
        &DENIED_BY_WAY_OF_SAME,
        &[
            Act::Extend(3, 5),
            Act::Run,
            Act::Serves(8),
            Act::Extend(1, 0),
            Act::Serves(7),
            Act::Run,
            Act::Serves(9),
        ],
    ),
    // All edges of the lower property.
    (
        &DENIED_FROM_BELOW,
        &[
            Act::Extend(3, 5),
            Act::Run,
            Act::Serves(8),
            Act::Extend(1, 0),
            Act::Serves(6),
            Act::Run,
            Act::Serves(9),
        ],
    ),
];

#[test]
fn what_waits_again_of_individuals(rt: HostRuntime) -> Result<(), Fail> {
    let seed = RandomState::new(&rt)?;
    for row in ADDITIONS {
        let (problem, script) = *row;
        assert!(rt;
            in_any_order(rt.alloc(), seed, problem, &[], script),
            "{}",
            problem.name
        );
        assert!(rt;
            with_each_push_refused(rt.alloc(), seed, problem, &[], script),
            "{}",
            problem.name
        );
    }
    Ok(())
}

/// Moves one of the forms that are left behind the others, that at the place that the number says, and gives what is left of the number.
fn take_next(left: &mut Vec<Form>, taken: &mut Vec<Form>, number: usize) -> Result<usize, Memory> {
    let many = left.len();
    if many == 0 {
        return Ok(number);
    }
    taken.push(left.remove(number % many))?;
    Ok(number / many)
}

/// The forms in the order of that number.
fn in_order(alloc: Global, forms: &[Form], order: usize) -> Result<Vec<Form>, Memory> {
    let mut left = Vec::new(alloc);
    left.extend_from_slice(forms)?;
    let mut taken = Vec::new(alloc);
    let mut number = order;
    for _ in 0..forms.len() {
        number = take_next(&mut left, &mut taken, number)?;
    }
    Ok(taken)
}

/// Adds the form and runs to the end.
fn adds<W: WorkList>(state: &mut State<W>, alloc: Global, form: Form, facts: u32) -> bool {
    let Ok(one) = FormList::of(alloc, &[form]) else {
        return false;
    };
    add(state, alloc, &one, &[]).is_ok() && state.run(facts) == Ok(())
}

/// Adds the contexts, and then each of the forms, with a run behind each.
fn adds_each<W: WorkList>(
    state: &mut State<W>,
    alloc: Global,
    problem: &Problem,
    forms: &[Form],
) -> bool {
    if add(state, alloc, &FormList::new(alloc), problem.roots).is_err() {
        return false;
    }
    for form in forms {
        if !adds(state, alloc, *form, problem.facts) {
            return false;
        }
    }
    state.served() == problem.facts as usize
}

/// Whether the forms lead to the facts in the order of that number. The state is made and dropped here alone.
fn fits_in_order(alloc: Global, seed: RandomState, problem: &Problem, order: usize) -> bool {
    let Ok(forms) = in_order(alloc, problem.forms, order) else {
        return false;
    };
    let Ok(mut state) = State::new(alloc, seed, ByContext::new(alloc)) else {
        return false;
    };
    let right = adds_each(&mut state, alloc, problem, &forms);
    drop(state);
    right
}

/// Whether the forms lead to the facts in each order.
fn fits_in_each_order(alloc: Global, seed: RandomState, problem: &Problem) -> bool {
    let mut orders = 1_usize;
    for many in 2..problem.forms.len().saturating_add(1) {
        orders = orders.saturating_mul(many);
    }
    for order in 0..orders {
        if !fits_in_order(alloc, seed, problem, order) {
            return false;
        }
    }
    true
}

/// The problems that are few enough to be tried in each order of their forms.
const IN_EACH_ORDER: &[&str] = &[
    "same_individuals",
    "three_in_one_axiom",
    "two_axioms_join",
    "chain_through_a_group",
];

#[test]
fn forms_of_individuals_in_each_order(rt: HostRuntime) -> Result<(), Fail> {
    let seed = RandomState::new(&rt)?;
    for problem in INDIVIDUALS {
        let is_tried = IN_EACH_ORDER.contains(&problem.name);
        assert!(rt;
            !is_tried || fits_in_each_order(rt.alloc(), seed, problem),
            "{}",
            problem.name
        );
    }
    Ok(())
}
