//! The served facts of contexts, by number: as facts are served, after steps that were refused, and where forms are added.

use crate::adding::add;
use crate::problems::{PROBLEMS, Problem};
use axioms::{ExprId, IndId, PropId};
use facts::{Context, Fact};
use normal_forms::{Class2, Form, FormList};
use saturate::{State, Stop};
use std::alloc::Global;
use std::hash::RandomState;
use std::test::Fail;
use work_list::{Fifo, WorkList};

/// How often the number stands in the list.
fn times(list: &[u32], number: usize) -> usize {
    list.iter()
        .filter(|listed| **listed as usize == number)
        .count()
}

/// How often the fact of that number is listed: an edge as often at its source as at its target.
fn times_listed<W: WorkList>(state: &State<W>, number: usize, fact: Fact) -> Option<usize> {
    match fact {
        Fact::In(_, context) => Some(times(state.classes_in(context), number)),
        Fact::Edge(source, _, target) => {
            let from = times(state.edges_from(source), number);
            let into = times(state.edges_into(target), number);
            (from == into).then_some(from)
        }
    }
}

/// Whether no fact is listed twice, and as many are listed as are served.
fn lists_served<W: WorkList>(state: &State<W>) -> bool {
    let mut many: usize = 0;
    for (number, fact) in state.facts().iter().enumerate() {
        match times_listed(state, number, fact.get()) {
            Some(0) => {}
            Some(1) => many = many.saturating_add(1),
            _ => return false,
        }
    }
    many == state.served()
}

/// Whether the lists are right while so many facts are served. A step that gives a fact is refused first; these are counted.
fn serves<W: WorkList>(state: &mut State<W>, facts: u32, refused: &mut u32) -> bool {
    for _ in 0..facts {
        if state.step(0) == Err(Stop::Limit) {
            *refused = refused.saturating_add(1);
            if !lists_served(state) || state.step(facts).is_err() {
                return false;
            }
        }
        if !lists_served(state) {
            return false;
        }
    }
    true
}

/// Whether the lists are right from these forms and contexts on.
fn extends<W: WorkList>(
    state: &mut State<W>,
    alloc: Global,
    forms: &[Form],
    roots: &[Context],
    facts: u32,
    refused: &mut u32,
) -> bool {
    let Ok(forms) = FormList::of(alloc, forms) else {
        return false;
    };
    add(state, alloc, &forms, roots).is_ok() && lists_served(state) && serves(state, facts, refused)
}

/// Whether the lists are right throughout, with half of the forms first and then the others.
fn in_two_parts<W: WorkList>(state: &mut State<W>, alloc: Global, problem: &Problem) -> bool {
    let (first, rest) = problem.forms.split_at(problem.forms.len() / 2);
    let mut refused = 0;
    extends(
        state,
        alloc,
        first,
        problem.roots,
        problem.facts,
        &mut refused,
    ) && extends(state, alloc, rest, &[], problem.facts, &mut refused)
        && refused > 0
        && state.served() == problem.facts as usize
}

/// A context, and how many classes are in it, edges lead from it and edges lead into it.
#[derive(Drop)]
struct Row {
    context: Context,
    classes: usize,
    from: usize,
    into: usize,
}

/// Whether the lists of each context have that many.
fn has_rows<W: WorkList>(state: &State<W>, rows: &[Row]) -> bool {
    for row in rows {
        if state.classes_in(row.context).len() != row.classes
            || state.edges_from(row.context).len() != row.from
            || state.edges_into(row.context).len() != row.into
        {
            return false;
        }
    }
    true
}

/// Whether the lists are right throughout, and these at the end. A state is made and dropped here alone.
fn lists(alloc: Global, seed: RandomState, problem: &Problem, rows: &[Row]) -> bool {
    let Ok(mut state) = State::new(alloc, seed, Fifo::new(alloc)) else {
        return false;
    };
    let right = in_two_parts(&mut state, alloc, problem) && has_rows(&state, rows);
    drop(state);
    right
}

#[test]
fn lists_of_each_problem(rt: HostRuntime) -> Result<(), Fail> {
    let seed = RandomState::new(&rt)?;
    for problem in PROBLEMS {
        assert!(rt; lists(rt.alloc(), seed, problem, &[]), "{}", problem.name);
    }
    Ok(())
}

const THING: Class2 = Class2::Expr(ExprId(0));

const A: Class2 = Class2::Expr(ExprId(2));

const B: Class2 = Class2::Expr(ExprId(3));

const C: Class2 = Class2::Expr(ExprId(4));

const IN_A: Context = Context::Expr(ExprId(2));

const FIRST: Context = Context::Individual(IndId(0));

const SECOND: Context = Context::Individual(IndId(1));

/// A below B, a in A, a r b, the domain of r is C.
const AN_EDGE: Problem = Problem {
    name: "an_edge",
    forms: &[
        Form::N1(A, B),
        Form::N8(IndId(0), A),
        Form::N9(IndId(0), PropId(0), IndId(1)),
        Form::N4(PropId(0), THING, C),
    ],
    different: &[],
    roots: &[IN_A, FIRST, SECOND],
    facts: 9,
    born: None,
};

/// A has `owl:Thing`, A and B; a has C too, and the edge to b; b has `owl:Thing`.
const ROWS: &[Row] = &[
    Row {
        context: IN_A,
        classes: 3,
        from: 0,
        into: 0,
    },
    Row {
        context: FIRST,
        classes: 4,
        from: 1,
        into: 0,
    },
    Row {
        context: SECOND,
        classes: 1,
        from: 0,
        into: 1,
    },
];

#[test]
fn lists_of_an_edge(rt: HostRuntime) -> Result<(), Fail> {
    let seed = RandomState::new(&rt)?;
    assert!(rt; lists(rt.alloc(), seed, &AN_EDGE, ROWS));
    Ok(())
}
