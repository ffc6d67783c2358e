//! A table of facts: what is there is found and not added again, whichever context owns the table.

use axioms::{ExprId, IndId, Memory, PropId};
use facts::{Context, Fact, FactTable};
use normal_forms::{Class2, PropId2};
use std::hash::RandomState;
use std::test::Fail;

const FIRST: Context = Context::Expr(ExprId(0));

const SECOND: Context = Context::Individual(IndId(0));

const THIRD: Context = Context::Expr(ExprId(7));

/// How many facts of a context are many: so many that it gets slots where it is sought.
const MANY: u32 = 300;

/// A class in the context for an even number, else an edge from it.
fn fact_of(context: Context, number: u32) -> Fact {
    if number % 2 == 0 {
        return Fact::In(Class2::Expr(ExprId(number)), context);
    }
    let property = PropId2::Property(PropId(number % 7));
    Fact::Edge(context, property, Context::Expr(ExprId(number)))
}

/// Adds the fact, and says whether it was new.
fn add(table: &mut FactTable, fact: Fact) -> Result<bool, Memory> {
    if table.len() >= u32::MAX as usize {
        return Err(Memory);
    }
    table.insert(fact)
}

/// How many of the first facts of the context are added.
fn added(table: &mut FactTable, context: Context, count: u32) -> Result<usize, Memory> {
    let mut new: usize = 0;
    for number in 0..count {
        if add(table, fact_of(context, number))? {
            new = new.saturating_add(1);
        }
    }
    Ok(new)
}

/// Whether the fact is found where it stands.
fn is_found(table: &FactTable, fact: Fact) -> bool {
    let Some(place) = table.find(fact) else {
        return false;
    };
    match table.as_slice().get(place as usize) {
        Some(stored) => stored.get() == fact,
        None => false,
    }
}

/// How many of the first facts of the context are found, each where it stands.
fn found(table: &FactTable, context: Context, count: u32) -> usize {
    let mut there: usize = 0;
    for number in 0..count {
        if is_found(table, fact_of(context, number)) {
            there = there.saturating_add(1);
        }
    }
    there
}

#[test]
fn facts_are_found_before_and_after_a_change_of_owner(rt: HostRuntime) -> Result<(), Fail> {
    let state = RandomState::new(&rt)?;
    let mut table = FactTable::new(rt.alloc(), state);
    assert!(rt; added(&mut table, FIRST, 20)? == 20);
    table.own(FIRST);
    assert!(rt; found(&table, FIRST, 30) == 20);
    assert!(rt; added(&mut table, FIRST, 30)? == 10);
    assert!(rt; added(&mut table, SECOND, 10)? == 10);
    table.own(SECOND);
    assert!(rt; added(&mut table, SECOND, 12)? == 2);
    table.own(THIRD);
    assert!(rt; added(&mut table, THIRD, 5)? == 5);
    assert!(rt; added(&mut table, FIRST, 31)? == 1);
    assert!(rt; found(&table, FIRST, 40) == 31);
    assert!(rt; found(&table, SECOND, 40) == 12);
    assert!(rt; found(&table, THIRD, 40) == 5);
    Ok(())
}

#[test]
fn what_is_cut_off_is_added_again(rt: HostRuntime) -> Result<(), Fail> {
    let state = RandomState::new(&rt)?;
    let mut table = FactTable::new(rt.alloc(), state);
    table.own(FIRST);
    assert!(rt; added(&mut table, FIRST, 20)? == 20);
    assert!(rt; added(&mut table, THIRD, 20)? == 20);
    table.truncate(15);
    assert!(rt; found(&table, FIRST, 20) == 15);
    assert!(rt; found(&table, THIRD, 20) == 0);
    assert!(rt; added(&mut table, THIRD, 3)? == 3);
    assert!(rt; added(&mut table, FIRST, 20)? == 5);
    assert!(rt; table.len() == 23);
    Ok(())
}

#[test]
fn a_context_with_many_facts_is_sought_from_elsewhere(rt: HostRuntime) -> Result<(), Fail> {
    let state = RandomState::new(&rt)?;
    let mut table = FactTable::new(rt.alloc(), state);
    table.own(FIRST);
    assert!(rt; added(&mut table, FIRST, MANY)? == 300);
    table.own(THIRD);
    assert!(rt; added(&mut table, FIRST, MANY)? == 0);
    assert!(rt; table.seek(fact_of(FIRST, MANY)).is_none());
    assert!(rt; add(&mut table, fact_of(FIRST, MANY))?);
    assert!(rt; table.seek(fact_of(FIRST, MANY)) == Some(MANY));
    let copy = table.copy()?;
    assert!(rt; found(&copy, FIRST, 400) == 301);
    assert!(rt; found(&table, FIRST, 400) == 301);
    Ok(())
}
