//! Lists of what is apart, as they are kept.

use axioms::{ExprId, IndId};
use normal_forms::ApartLists;
use number_sets::PackedLists;
use std::alloc::{AllocError, Global};
use std::test::Fail;

const CLASSES: &[ExprId] = &[ExprId(2), ExprId(4), ExprId(3)];

const PAIR: &[IndId] = &[IndId(7), IndId(0)];

const THREE: &[IndId] = &[IndId(0), IndId(1), IndId(0)];

/// A list of classes, and two of individuals.
fn made(alloc: Global) -> Result<ApartLists, AllocError> {
    let mut lists = ApartLists::new(alloc);
    lists.classes.push_list(CLASSES)?;
    lists.individuals.push_list(PAIR)?;
    lists.individuals.push_list(THREE)?;
    Ok(lists)
}

/// Whether the lists of classes are these, and there is none behind them.
fn has_classes(lists: &PackedLists<ExprId>, expected: &[&[ExprId]]) -> bool {
    for (number, list) in expected.iter().enumerate() {
        if lists.at(number) != *list {
            return false;
        }
    }
    lists.len() == expected.len() && lists.at(expected.len()).is_empty()
}

/// Whether the lists of individuals are these, and there is none behind them.
fn has_individuals(lists: &PackedLists<IndId>, expected: &[&[IndId]]) -> bool {
    for (number, list) in expected.iter().enumerate() {
        if lists.at(number) != *list {
            return false;
        }
    }
    lists.len() == expected.len() && lists.at(expected.len()).is_empty()
}

/// Whether there are these lists of either kind.
fn has(lists: &ApartLists, classes: &[&[ExprId]], individuals: &[&[IndId]]) -> bool {
    has_classes(&lists.classes, classes) && has_individuals(&lists.individuals, individuals)
}

/// Whether there are none at first.
fn are_none(alloc: Global) -> bool {
    has(&ApartLists::new(alloc), &[], &[])
}

/// Whether a copy has the same lists, and one more that is added to it alone.
fn are_copied(alloc: Global, lists: &ApartLists) -> Result<bool, AllocError> {
    let mut copy = lists.copy(alloc)?;
    let is_same = has(&copy, &[CLASSES], &[PAIR, THREE]);
    copy.classes.push_list(&[])?;
    Ok(is_same && has(&copy, &[CLASSES, &[]], &[PAIR, THREE]))
}

/// Whether the lists are joined to others, which come behind them.
fn are_joined(alloc: Global, lists: &ApartLists) -> Result<bool, AllocError> {
    let mut more = ApartLists::new(alloc);
    more.individuals.push_list(PAIR)?;
    let all = lists.joined(alloc, &more)?;
    Ok(has(&all, &[CLASSES], &[PAIR, THREE, PAIR]))
}

#[test]
fn lists_of_either_kind(rt: HostRuntime) -> Result<(), Fail> {
    let lists = made(rt.alloc())?;
    let are_copied = are_copied(rt.alloc(), &lists);
    let are_joined = are_joined(rt.alloc(), &lists);
    let is_left = has(&lists, &[CLASSES], &[PAIR, THREE]);
    drop(lists);
    assert!(rt; are_none(rt.alloc()), "none");
    assert!(rt; are_copied?, "a copy");
    assert!(rt; are_joined?, "joined");
    assert!(rt; is_left, "left as they were");
    Ok(())
}
