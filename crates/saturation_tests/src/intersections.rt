//! Intersections of two classes, by the forms that each has, and lists of disjoint classes that have both.

use crate::numbered::{C1, C2, C3, C4, C5, C6, C7, P};
use axioms::ExprId;
use indexes::IndexedProblem;
use normal_forms::{ApartLists, Class2, Form, FormList};
use std::alloc::{AllocError, Global};
use std::test::Fail;

/// Of three disjoint classes each has a form with each later one, and none with itself or an earlier one.
#[test]
fn disjoint_classes_meet_in_order(rt: HostRuntime) -> Result<(), Fail> {
    let forms = [
        Form::N2(C2, C3, C1),
        Form::N2(C2, C4, C1),
        Form::N2(C3, C4, C1),
    ];
    let forms = FormList::of(rt.alloc(), &forms)?;
    let apart = ApartLists::new(rt.alloc());
    let problem = IndexedProblem::new(rt.alloc(), forms, apart, Vec::new(rt.alloc()))?;
    assert!(rt; problem.intersections(C2, C3) == [0].as_slice());
    assert!(rt; problem.intersections(C2, C4).contains(&1));
    assert!(rt; problem.intersections(C3, C4) == [2].as_slice());
    for (first, second) in [(C2, C2), (C3, C3), (C4, C4), (C3, C2), (C4, C2), (C4, C3)] {
        let is_empty = problem.intersections(first, second).is_empty();
        assert!(rt; is_empty);
    }
    Ok(())
}

/// Classes of which each two have nothing in common.
const CLASSES: &[ExprId] = &[ExprId(2), ExprId(3), ExprId(4)];

/// One class at two places.
const TWICE: &[ExprId] = &[ExprId(5), ExprId(6), ExprId(5)];

/// A form, and lists of disjoint classes, of which the first stands once more behind the other.
fn with_lists(alloc: Global) -> Result<IndexedProblem, AllocError> {
    let forms = FormList::of(alloc, &[Form::N2(C3, C4, C5)])?;
    let mut apart = ApartLists::new(alloc);
    for list in [CLASSES, TWICE, CLASSES] {
        apart.classes.push_list(list)?;
    }
    IndexedProblem::new(alloc, forms, apart, Vec::new(alloc))
}

/// Whether a list of classes that is found has the first class before the second.
fn is_found(problem: &IndexedProblem, first: Class2, second: Class2) -> bool {
    match problem.disjoint_list(first, second) {
        Some(list) => stands_before(problem.apart().classes.at(list as usize), first, second),
        None => false,
    }
}

/// Whether the first class stands before the second in the list.
fn stands_before(list: &[ExprId], first: Class2, second: Class2) -> bool {
    let mut is_behind = false;
    for class in list {
        if is_behind && Class2::Expr(*class) == second {
            return true;
        }
        is_behind = is_behind || Class2::Expr(*class) == first;
    }
    false
}

/// Of two classes in the order of a list a list is found that has them, in the other order none, and none of one class, but where it stands
/// at two places.
#[test]
fn a_list_of_two_classes_is_found(rt: HostRuntime) -> Result<(), Fail> {
    let problem = with_lists(rt.alloc())?;
    for (first, second) in [(C2, C3), (C2, C4), (C3, C4), (C5, C6), (C6, C5), (C5, C5)] {
        let is_found = is_found(&problem, first, second);
        assert!(rt; is_found);
    }
    for (first, second) in [
        (C3, C2),
        (C4, C2),
        (C4, C3),
        (C4, C5),
        (C2, C2),
        (C6, C6),
        (C2, P),
    ] {
        let is_none = problem.disjoint_list(first, second).is_none();
        assert!(rt; is_none);
    }
    Ok(())
}

/// Which classes are in a list.
#[test]
fn classes_of_lists(rt: HostRuntime) -> Result<(), Fail> {
    let problem = with_lists(rt.alloc())?;
    for (class, is_listed) in [
        (C1, false),
        (C2, true),
        (C3, true),
        (C4, true),
        (C5, true),
        (C6, true),
        (C7, false),
        (P, false),
    ] {
        let is_in_list = problem.is_in_list(class);
        assert!(rt; is_in_list == is_listed);
    }
    Ok(())
}

/// Intersections are those of the forms alone.
#[test]
fn lists_are_no_intersections(rt: HostRuntime) -> Result<(), Fail> {
    let problem = with_lists(rt.alloc())?;
    assert!(rt; problem.intersections(C3, C4) == [0].as_slice());
    for (first, second) in [(C2, C3), (C4, C3), (C5, C6)] {
        let is_empty = problem.intersections(first, second).is_empty();
        assert!(rt; is_empty);
    }
    for (class, begins, ends) in [(C2, false, false), (C3, true, false), (C4, false, true)] {
        let begun = problem.begins_intersection(class);
        assert!(rt; begun == begins);
        let ended = problem.ends_intersection(class);
        assert!(rt; ended == ends);
    }
    let nothing = Class2::Expr(ExprId::NOTHING);
    let is_form = problem.has(Form::N2(C2, C4, nothing));
    assert!(rt; !is_form);
    Ok(())
}

/// Whether lists put the second class apart from the first, which has one intersection at most.
fn is_apart(problem: &IndexedProblem, class: Class2, other: Class2) -> bool {
    match problem.few_intersections(class, 1) {
        Some(few) => few.apart.has(other),
        None => false,
    }
}

/// Whether lists put no class apart from that one.
fn is_alone(problem: &IndexedProblem, class: Class2) -> bool {
    match problem.few_intersections(class, 1) {
        Some(few) => few.apart.is_empty(),
        None => false,
    }
}

/// The other classes of lists are apart from a class, those before it and those behind it.
#[test]
fn classes_of_lists_are_apart(rt: HostRuntime) -> Result<(), Fail> {
    let problem = with_lists(rt.alloc())?;
    for class in [C2, C3, C4] {
        for other in [C2, C3, C4, C5] {
            let is_apart = is_apart(&problem, class, other);
            assert!(rt; is_apart == (other != class && other != C5));
        }
        let is_alone = is_alone(&problem, class);
        assert!(rt; !is_alone);
    }
    let is_apart = is_apart(&problem, C5, C5);
    assert!(rt; is_apart);
    let is_alone = is_alone(&problem, C7);
    assert!(rt; is_alone);
    Ok(())
}
