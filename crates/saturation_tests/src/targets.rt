//! A list that goes by contexts serves what is known of an edge's target before the edge.
ghost use Rattle.std.specs.Prelude.{◌≡◌, []};

use crate::adding::add;
use crate::numbered::{C2, C3, C4, IN0, IN1, IN2, IN3, IN4, IND0, IND1, IND2, R};
use axioms::{ExprId, IndId, Memory};
use facts::Context;
use normal_forms::{Form, FormList};
use saturate::State;
use std::alloc::Global;
use std::hash::RandomState;
use std::test::Fail;
use work_list::{ByContext, Lifo, WorkList};

/// Forms and contexts, of which the source comes later than the target, and an edge leads from the one to the other.
#[derive(Drop)]
struct Row {
    name: &'static str,
    forms: &'static [Form],
    roots: &'static [Context],
    source: Context,
    target: Context,
}

const ROWS: &[Row] = &[
    // A below B, C below some r A.
    Row {
        name: "a_class",
        forms: &[Form::N1(C2, C3), Form::N3(C4, R, ExprId(2))],
        roots: &[IN0, IN1, IN2, IN3, IN4],
        source: IN4,
        target: IN2,
    },
    // a in A, which is below B; c r b, b r a.
    Row {
        name: "an_individual",
        forms: &[
            Form::N1(C2, C3),
            Form::N8(IndId(0), C2),
            Form::N9(IndId(2), R, IndId(1)),
            Form::N9(IndId(1), R, IndId(0)),
        ],
        roots: &[IN0, IN1, IN2, IN3, IND0, IND1, IND2],
        source: IND1,
        target: IND0,
    },
];

/// More facts than there are in any of them.
const MOST: u32 = 100;

/// Adds all that the row has.
fn add_all<W: WorkList>(state: &mut State<W>, alloc: Global, row: &Row) -> Result<(), Memory> {
    let forms = FormList::of(alloc, row.forms)?;
    add(state, alloc, &forms, row.roots)
}

/// Whether all classes that are ever in the target are served before the first edge from the source.
fn waits<W: WorkList>(state: &mut State<W>, row: &Row) -> bool {
    for _ in 0..MOST {
        if !state.edges_from(row.source).is_empty() {
            let many = state.classes_in(row.target).len();
            return state.run(MOST) == Ok(()) && state.classes_in(row.target).len() == many;
        }
        if state.step(MOST) != Ok(true) {
            return false;
        }
    }
    false
}

/// Whether they are by that list of work. A state is made and dropped here alone.
fn does<W: WorkList + Drop>(alloc: Global, seed: RandomState, row: &Row, list: W) -> bool
    requires { W.pending list ≡ [] }
{
    let Ok(mut state) = State::new(alloc, seed, list) else {
        return false;
    };
    let right = add_all(&mut state, alloc, row).is_ok() && waits(&mut state, row);
    drop(state);
    right
}

#[test]
fn a_target_comes_first(rt: HostRuntime) -> Result<(), Fail> {
    let seed = RandomState::new(&rt)?;
    let alloc = rt.alloc();
    for row in ROWS {
        assert!(rt;
            does(alloc, seed, row, ByContext::new(alloc)),
            "{}",
            row.name
        );
        assert!(rt; !does(alloc, seed, row, Lifo::new(alloc)), "{}", row.name);
    }
    Ok(())
}
