//! Each list in its own order, through what all lists promise.
use crate::lists::{Refusing, Scripted};
use std::alloc::Global;
use std::test::Fail;
use work_list::{ByContext, Fifo, Item, Lifo, WorkList, drain};

/// Pushes the facts, each with its context.
fn push_all<W: WorkList>(list: &mut W, items: &[(u32, u32)]) -> Result<(), Fail> {
    for item in items {
        let (fact, context) = *item;
        list.push(Item { fact, context }).map_err(|_| "memory")?;
    }
    Ok(())
}

/// Five facts, and the context of each.
const FIVE: &[(u32, u32)] = &[(0, 1), (1, 2), (2, 1), (3, 2), (4, 1)];

/// Whether the fact and then the items have these facts.
fn are_facts(first: Option<Item>, rest: &[Item], facts: &[u32]) -> bool {
    match facts.split_first() {
        Some((fact, others)) => {
            first.is_some_and(|item| item.fact == *fact)
                && rest.iter().map(|item| item.fact).eq(others.iter().copied())
        }
        None => false,
    }
}

/// Whether the list pops the five in this order, one and then all others.
fn pops<W: WorkList + Drop>(mut list: W, alloc: Global, facts: &[u32]) -> Result<bool, Fail> {
    push_all(&mut list, FIVE)?;
    let first = list.pop();
    let rest = drain(&mut list, alloc);
    drop(list);
    Ok(are_facts(first, &rest?, facts))
}

#[test]
fn each_list_has_its_order(rt: HostRuntime) -> Result<(), Fail> {
    let alloc = rt.alloc();
    assert!(rt;
        pops(Fifo::new(alloc), alloc, &[0, 1, 2, 3, 4])?,
        "first in, first out"
    );
    assert!(rt;
        pops(Lifo::new(alloc), alloc, &[4, 3, 2, 1, 0])?,
        "last in, first out"
    );
    assert!(rt;
        pops(ByContext::new(alloc), alloc, &[3, 1, 4, 2, 0])?,
        "by context"
    );
    let scripted = Scripted::new(alloc, &[2, 0, 1]);
    assert!(rt; pops(scripted, alloc, &[2, 0, 3, 1, 4])?, "by a script");
    Ok(())
}

/// Whether the list pops facts of one context as long as there are some.
fn goes_on<W: WorkList>(list: &mut W) -> Result<bool, Fail> {
    push_all(list, &[(0, 1), (1, 2)])?;
    let first = list.pop();
    push_all(list, &[(2, 2), (3, 1)])?;
    let second = list.pop();
    let third = list.pop();
    Ok(
        first.is_some_and(|item| (item.fact, item.context) == (1, 2))
            && second.is_some_and(|item| (item.fact, item.context) == (2, 2))
            && third.is_some_and(|item| (item.fact, item.context) == (3, 1))
            && list.len() == 1,
    )
}

#[test]
fn a_context_goes_on(rt: HostRuntime) -> Result<(), Fail> {
    assert!(rt; goes_on(&mut ByContext::new(rt.alloc()))?);
    Ok(())
}

/// Whether the list goes to a context that it is led to, and comes back, and is led to none of which nothing waits.
fn is_led<W: WorkList>(list: &mut W, alloc: Global) -> Result<bool, Fail> {
    push_all(list, &[(0, 1), (1, 2), (2, 1), (3, 3), (4, 3)])?;
    let first = list.pop();
    let is_led = list.lead_to(1);
    let is_led_to_none = list.lead_to(4);
    let rest = drain(list, alloc)?;
    Ok(is_led && !is_led_to_none && are_facts(first, &rest, &[4, 2, 0, 3, 1]))
}

#[test]
fn a_list_is_led_to_a_context(rt: HostRuntime) -> Result<(), Fail> {
    let alloc = rt.alloc();
    assert!(rt; is_led(&mut ByContext::new(alloc), alloc)?);
    assert!(rt; !is_led(&mut Fifo::new(alloc), alloc)?);
    assert!(rt; !is_led(&mut Lifo::new(alloc), alloc)?);
    Ok(())
}

fn item(fact: u32) -> Item {
    Item { fact, context: 0 }
}

/// Whether the list takes two items, hands the third back, and then has the two and no more.
fn hands_back<W: WorkList>(list: &mut W, alloc: Global) -> Result<bool, Fail> {
    let are_taken = list.push(item(0)).is_ok() && list.push(item(1)).is_ok();
    let is_refused = list.push(item(2)) == Err(item(2));
    let many = list.len();
    let items = drain(list, alloc)?;
    Ok(
        are_taken
            && is_refused
            && many == 2
            && items.as_slice() == [item(0), item(1)].as_slice()
            && list.pop().is_none()
            && list.len() == 0,
    )
}

#[test]
fn a_refused_item_leaves_the_others(rt: HostRuntime) -> Result<(), Fail> {
    let alloc = rt.alloc();
    assert!(rt; hands_back(&mut Refusing::new(alloc, 3), alloc)?);
    Ok(())
}
