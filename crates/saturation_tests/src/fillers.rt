//! Classes that restrictions need at the target of an edge.

use crate::numbered::{C1, C2, C4, R, S};
use indexes::IndexedProblem;
use normal_forms::{ApartLists, Class2, Form, FormList};
use std::test::Fail;

/// Of fillers that are expressions and one that is a prefix, the end is above the greatest expression.
#[test]
fn fillers_end_above_the_greatest(rt: HostRuntime) -> Result<(), Fail> {
    let forms = [
        Form::N4(R, C4, C1),
        Form::N4(S, C2, C1),
        Form::N4(R, Class2::Partial(9), C1),
    ];
    let forms = FormList::of(rt.alloc(), &forms)?;
    let apart = ApartLists::new(rt.alloc());
    let problem = IndexedProblem::new(rt.alloc(), forms, apart, Vec::new(rt.alloc()))?;
    assert!(rt; problem.fillers_end() == 5);
    Ok(())
}
