//! Sets and lists of a few numbers, worked out by hand.
ghost use Rattle.std.specs.Prelude.{◌<◌, ◌≡◌, ◌∷◌, [], IfOk, OnOk, length};

use number_sets::{EpochSet, NumberSearch, OpenLists, PackedLists, sort_ascending};
use std::alloc::{AllocError, Global};
use std::test::Fail;

/// Whether the number can be put into the empty set of numbers below `n`, and is a member then.
fn is_taken(alloc: Global, n: usize, number: usize) -> Result<bool, AllocError> {
    let mut set = EpochSet::new(alloc, n)?;
    Ok(set.put(number) && set.contains(number))
}

/// Whether numbers can be put into the set of numbers below `n` just where they are below it.
fn takes_what_is_below(alloc: Global, n: usize) -> Result<bool, AllocError> {
    Ok(
        EpochSet::new(alloc, n)?.len() == n
            && is_taken(alloc, n, 0)? == (n > 0)
            && is_taken(alloc, n, 62)? == (n > 62)
            && is_taken(alloc, n, 63)? == (n > 63)
            && is_taken(alloc, n, 64)? == (n > 64)
            && !is_taken(alloc, n, n)?,
    )
}

#[test]
fn numbers_in_range(rt: HostRuntime) -> Result<(), Fail> {
    for n in [0, 1, 63, 64, 65] {
        assert!(rt; takes_what_is_below(rt.alloc(), n)?, "{n}");
    }
    Ok(())
}

/// Whether the set of numbers below 65 takes two of them, and no others are in it.
fn takes_two(set: &mut EpochSet) -> bool {
    set.put(0)
        && set.put(64)
        && !set.put(65)
        && set.contains(0)
        && set.contains(64)
        && !set.contains(1)
        && !set.contains(65)
}

#[test]
fn other_numbers_stay_out(rt: HostRuntime) -> Result<(), Fail> {
    let mut set = EpochSet::new(rt.alloc(), 65)?;
    let takes_two = takes_two(&mut set);
    drop(set);
    assert!(rt; takes_two);
    Ok(())
}

/// Whether the number is put into the empty set, which is emptied again.
fn is_put_and_gone(set: &mut EpochSet, number: usize) -> bool {
    let is_put = !set.contains(number) && set.put(number) && set.contains(number);
    set.clear();
    is_put && !set.contains(number)
}

/// Whether so many numbers are put into the set, one after another, each into the empty one.
fn goes_through(set: &mut EpochSet, epochs: usize) -> bool {
    for epoch in 0..epochs {
        if !is_put_and_gone(set, epoch % 65) {
            return false;
        }
    }
    set.len() == 65
}

#[test]
fn many_epochs(rt: HostRuntime) -> Result<(), Fail> {
    let mut set = EpochSet::new(rt.alloc(), 65)?;
    let goes_through = goes_through(&mut set, 1000);
    drop(set);
    assert!(rt; goes_through);
    Ok(())
}

/// The lists 5 7, none, and 5.
fn three_lists(alloc: Global) -> Result<PackedLists, AllocError>
    ensures { IfOk result (λ l. length l ≡ 3) }
{
    let mut lists = PackedLists::new(alloc);
    lists.push_list(&[5, 7])?;
    lists.push_list(&[])?;
    lists.push_list(&[5])?;
    Ok(lists)
}

/// Whether the lists are these, and there is none behind them.
fn are_lists(lists: &PackedLists, expected: &[&[u32]]) -> bool {
    for (number, list) in expected.iter().enumerate() {
        if lists.at(number) != *list {
            return false;
        }
    }
    lists.len() == expected.len() && lists.at(expected.len()).is_empty()
}

const THREE: &[&[u32]] = &[&[5, 7], &[], &[5]];

#[test]
fn lists_by_number(rt: HostRuntime) -> Result<(), Fail> {
    let lists = three_lists(rt.alloc())?;
    let are_three = are_lists(&lists, THREE);
    drop(lists);
    assert!(rt; are_three);
    Ok(())
}

/// Whether the lists have these lengths.
fn have_lengths(lists: &PackedLists, lengths: &[usize]) -> bool {
    for (number, length) in lengths.iter().enumerate() {
        if lists.len_at(number) != *length {
            return false;
        }
    }
    true
}

#[test]
fn lengths_by_number(rt: HostRuntime) -> Result<(), Fail> {
    let lists = three_lists(rt.alloc())?;
    let have_lengths = have_lengths(&lists, &[2, 0, 1, 0]);
    drop(lists);
    assert!(rt; have_lengths);
    Ok(())
}

#[test]
fn no_lists(rt: HostRuntime) {
    assert!(rt; are_lists(&PackedLists::new(rt.alloc()), &[]));
}

/// Adds to two lists, of which the second is not there.
fn push_three(lists: &mut OpenLists<(u32, bool)>) -> Result<(), AllocError> {
    lists.push(1, (5, true))?;
    lists.push(2, (6, true))?;
    lists.push(1, (4, false))
}

const GROWN: &[(u32, bool)] = &[(5, true), (4, false)];

/// Whether the second of two lists has grown.
fn has_grown(lists: &OpenLists<(u32, bool)>) -> bool {
    lists.len() == 2 && lists.at(0).is_empty() && lists.at(1) == GROWN && lists.at(2).is_empty()
}

/// Whether it is packed so.
fn is_packed(alloc: Global, lists: &OpenLists<(u32, bool)>) -> Result<bool, AllocError> {
    Ok(lists.packed(alloc)?.at(1) == GROWN)
}

#[test]
fn lists_that_grow(rt: HostRuntime) -> Result<(), Fail> {
    let mut lists: OpenLists<(u32, bool)> = OpenLists::new(rt.alloc(), 2)?;
    let pushed = push_three(&mut lists);
    let has_grown = has_grown(&lists);
    let is_packed = is_packed(rt.alloc(), &lists);
    drop(lists);
    pushed?;
    assert!(rt; has_grown);
    assert!(rt; is_packed?);
    Ok(())
}

#[test]
fn lists_with_room_grow_past_it(rt: HostRuntime) -> Result<(), Fail> {
    let mut lists: OpenLists<(u32, bool)> = OpenLists::with_room(rt.alloc(), &[0, 1])?;
    let pushed = push_three(&mut lists);
    let has_grown = has_grown(&lists);
    drop(lists);
    pushed?;
    assert!(rt; has_grown);
    Ok(())
}

/// Whether the list has these numbers once it is sorted.
fn is_sorted_to(list: &mut Vec<u32>, numbers: &[u32]) -> bool {
    sort_ascending(list);
    list.as_slice() == numbers
}

#[test]
fn sorting_leaves_equal_numbers_once(rt: HostRuntime) -> Result<(), Fail> {
    let mut list = Vec::new(rt.alloc());
    list.extend_from_slice(&[3, 1, 3, 2, 1])?;
    let is_sorted = is_sorted_to(&mut list, &[1, 2, 3]);
    drop(list);
    assert!(rt; is_sorted);
    Ok(())
}

/// The lists of a circle of three numbers.
fn circle(alloc: Global) -> Result<PackedLists, AllocError>
    ensures { IfOk result (λ l. l ≡ (1 ∷ []) ∷ (2 ∷ []) ∷ (0 ∷ []) ∷ []) }
{
    let mut lists = PackedLists::new(alloc);
    lists.push_list(&[1])?;
    lists.push_list(&[2])?;
    lists.push_list(&[0])?;
    Ok(lists)
}

/// Whether the search around the circle finds these numbers, in this order.
fn finds(
    search: &mut NumberSearch<u32>,
    lists: &PackedLists,
    start: u32,
    numbers: &[u32],
) -> Result<bool, AllocError>
    requires circle { lists.now ≡ (1 ∷ []) ∷ (2 ∷ []) ∷ (0 ∷ []) ∷ [] }
    requires start { start < 3 }
    requires wide { length search.old.seen ≡ 3 }
    ensures wide { OnOk result (length search.new.seen ≡ 3) }
{
    search.run(lists, &[start])?;
    Ok(search.found.as_slice() == numbers)
}

/// Whether one search after another goes all around the circle.
fn goes_around(alloc: Global) -> Result<bool, AllocError> {
    let lists = circle(alloc)?;
    let mut search = NumberSearch::new(alloc, 3)?;
    Ok(finds(&mut search, &lists, 0, &[0, 1, 2])? && finds(&mut search, &lists, 2, &[2, 0, 1])?)
}

#[test]
fn search_around_a_circle(rt: HostRuntime) -> Result<(), Fail> {
    assert!(rt; goes_around(rt.alloc())?);
    Ok(())
}
