//! Lists of numbers, short and long, and by key, worked out by hand.

use indexes::Table;
use number_sets::NumberList;
use std::alloc::{AllocError, Global};
use std::mem::size_of;
use std::test::Fail;

/// The numbers from 0 on, so many of them.
fn counted(alloc: Global, many: u32) -> Result<NumberList, AllocError> {
    let mut list = NumberList::new();
    for number in 0..many {
        list.push(alloc, number)?;
    }
    Ok(list)
}

/// Whether the list has the numbers from 0 on, so many of them, and another in place of the second then.
fn is_counted(list: &mut NumberList, many: u32) -> bool {
    let right = list.len() == many as usize && list.as_slice().iter().copied().eq(0..many);
    if many < 2 || list.len() < 2 {
        return right;
    }
    list.set(1, 7);
    right && list.as_slice()[..2] == [0, 7]
}

#[test]
fn short_and_long_lists(rt: HostRuntime) -> Result<(), Fail> {
    assert!(rt; size_of::<NumberList>() == 16);
    for many in [0, 1, 2, 3, 4, 6, 7, 100] {
        let mut list = counted(rt.alloc(), many)?;
        let is_counted = is_counted(&mut list, many);
        drop(list);
        assert!(rt; is_counted, "{many}");
    }
    Ok(())
}

#[test]
fn lists_of_given_numbers(rt: HostRuntime) -> Result<(), Fail> {
    let numbers = [5, 7, 7, 1, 0, 9];
    for many in [0, 1, 3, 4, 6] {
        let mut list = NumberList::of(rt.alloc(), &numbers[..many])?;
        let is_same = list.as_slice() == &numbers[..many];
        list.push(rt.alloc(), 3)?;
        let has_more = list.len() == many + 1 && list.as_slice()[many] == 3;
        drop(list);
        assert!(rt; is_same && has_more, "{many}");
    }
    Ok(())
}

#[test]
fn numbers_come_back(rt: HostRuntime) -> Result<(), Fail> {
    let mut list = counted(rt.alloc(), 5)?;
    for number in [4, 3, 2, 1, 0] {
        assert!(rt; list.pop() == Some(number), "{number}");
    }
    assert!(rt; list.pop().is_none());
    list.push(rt.alloc(), 9)?;
    assert!(rt; list.as_slice() == [9].as_slice());
    Ok(())
}

/// Keys, and a number that is added to the list of each.
const ADDED: &[(usize, u32)] = &[(3, 1), (0, 2), (3, 4), (3, 8), (3, 16)];

/// Adds the numbers, with room for more keys before and behind them.
fn add_all(table: &mut Table, before: usize, behind: usize) -> Result<(), AllocError> {
    table.reserve(before)?;
    for row in ADDED {
        let (key, number) = *row;
        table.add(key, number)?;
    }
    table.reserve(behind)
}

/// Whether each key has its list.
fn has_lists(table: &Table) -> bool {
    table.of(3) == [1, 4, 8, 16].as_slice()
        && table.of(0) == [2].as_slice()
        && table.of(1).is_empty()
        && table.of(4).is_empty()
}

/// Whether each key has its list, with so much more room behind them.
fn keeps_lists(alloc: Global, behind: usize) -> Result<bool, AllocError> {
    let mut table = Table::new(alloc);
    add_all(&mut table, 2, behind)?;
    Ok(has_lists(&table))
}

/// Whether a copy has the same lists, and each goes its own way from there.
fn copy_has_lists(alloc: Global) -> Result<bool, AllocError> {
    let mut table = Table::new(alloc);
    add_all(&mut table, 0, 0)?;
    let mut copy = table.copy()?;
    let is_same = has_lists(&copy);
    copy.add(3, 32)?;
    Ok(is_same && has_lists(&table) && copy.of(3) == [1, 4, 8, 16, 32].as_slice())
}

#[test]
fn copied_table_has_the_same_lists(rt: HostRuntime) -> Result<(), Fail> {
    assert!(rt; copy_has_lists(rt.alloc())?);
    Ok(())
}

#[test]
fn each_key_has_its_list(rt: HostRuntime) -> Result<(), Fail> {
    assert!(rt; keeps_lists(rt.alloc(), 0)?);
    assert!(rt; keeps_lists(rt.alloc(), 100)?, "with more room");
    Ok(())
}

/// Whether the list of key 3 is this one, once that number was taken out of it.
fn leaves(alloc: Global, number: u32, left: &[u32]) -> Result<bool, AllocError> {
    let mut table = Table::new(alloc);
    add_all(&mut table, 0, 0)?;
    table.add(3, 4)?;
    table.remove(3, number);
    Ok(table.of(3) == left && table.of(0) == [2].as_slice())
}

#[test]
fn numbers_are_taken_out(rt: HostRuntime) -> Result<(), Fail> {
    assert!(rt; leaves(rt.alloc(), 1, &[4, 8, 16, 4])?, "the first");
    assert!(rt; leaves(rt.alloc(), 4, &[1, 8, 16])?, "twice in the list");
    assert!(rt;
        leaves(rt.alloc(), 2, &[1, 4, 8, 16, 4])?,
        "in another list alone"
    );
    Ok(())
}
