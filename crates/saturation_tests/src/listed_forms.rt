//! Forms that are listed by a class, with what they lead to.

use crate::numbered::{C1, C2, C3, C4, R, S};
use axioms::ExprId;
use indexes::IndexedProblem;
use normal_forms::{ApartLists, Class2, Form, FormList};
use std::alloc::{AllocError, Global};
use std::test::Fail;

/// Forms of one class alone, and restrictions, those of one filler not in the order of their properties.
fn with_some(alloc: Global) -> Result<IndexedProblem, AllocError> {
    let forms = [
        Form::N1(C1, Class2::Partial(7)),
        Form::N4(S, C1, C4),
        Form::N3(C1, S, ExprId(3)),
        Form::N4(R, C1, C2),
        Form::N1(C2, C3),
    ];
    let forms = FormList::of(alloc, &forms)?;
    IndexedProblem::new(alloc, forms, ApartLists::new(alloc), Vec::new(alloc))
}

/// The same forms, of which those from the third on were put into the lists of the first two.
fn with_some_more(alloc: Global) -> Result<IndexedProblem, AllocError> {
    let first = [Form::N1(C1, Class2::Partial(7)), Form::N4(S, C1, C4)];
    let all = [
        Form::N1(C1, Class2::Partial(7)),
        Form::N4(S, C1, C4),
        Form::N3(C1, S, ExprId(3)),
        Form::N4(R, C1, C2),
        Form::N1(C2, C3),
    ];
    let first = FormList::of(alloc, &first)?;
    let all = FormList::of(alloc, &all)?;
    let none = ApartLists::new(alloc);
    let problem = IndexedProblem::new(alloc, first, ApartLists::new(alloc), Vec::new(alloc))?;
    let continued = problem.continued(&all, &none, &[]);
    drop(problem);
    continued
}

/// Those of a class alone lead to a class, or by a property to its filler.
#[test]
fn alone_with_what_they_lead_to(rt: HostRuntime) -> Result<(), Fail> {
    let problem = with_some(rt.alloc())?;
    let listed = problem.led_alone(C1);
    assert!(rt; listed.len() == 2);
    let (first, second) = (listed[0], listed[1]);
    assert!(rt;
        first.number == 0 && first.property() == None && first.class() == Class2::Partial(7)
    );
    assert!(rt; second.number == 2 && second.property() == Some(S) && second.class() == C3);
    assert!(rt; problem.led_alone(C4).is_empty());
    Ok(())
}

/// Restrictions lead from their property to a class, and stand in the order of their properties.
#[test]
fn restrictions_with_what_they_lead_to(rt: HostRuntime) -> Result<(), Fail> {
    let problem = with_some(rt.alloc())?;
    let listed = problem.led_by_filler(C1);
    assert!(rt; listed.len() == 2);
    let (first, second) = (listed[0], listed[1]);
    assert!(rt; first.number == 3 && first.property() == Some(R) && first.class() == C2);
    assert!(rt; second.number == 1 && second.property() == Some(S) && second.class() == C4);
    assert!(rt; problem.led_by_filler(C2).is_empty());
    Ok(())
}

/// Further forms stand behind those of their class, and at their places in the order of properties.
#[test]
fn further_forms_with_what_they_lead_to(rt: HostRuntime) -> Result<(), Fail> {
    let problem = with_some_more(rt.alloc())?;
    let listed = problem.led_alone(C1);
    assert!(rt; listed.len() == 2 && listed[0].number == 0 && listed[1].number == 2);
    assert!(rt; listed[1].property() == Some(S) && listed[1].class() == C3);
    let listed = problem.led_by_filler(C1);
    assert!(rt; listed.len() == 2 && listed[0].number == 3 && listed[1].number == 1);
    assert!(rt; listed[0].property() == Some(R) && listed[0].class() == C2);
    assert!(rt; problem.led_alone(C2).len() == 1 && problem.led_alone(C3).is_empty());
    Ok(())
}
