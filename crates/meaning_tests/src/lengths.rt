//! Rows of every length around their words, beside plain lists.

use axioms::Memory;
use interpretation_spec::Row;
use std::alloc::Global;
use std::test::Fail;

/// Which of the numbers below a length are in a set.
#[derive(Clone, Copy)]
enum Members {
    All,
    AllButTheLast,
    TheLast,
    EveryThirdAndTheLast,
    EverySecondButNotTheLast,
}

const KINDS: [Members; 5] = [
    Members::All,
    Members::AllButTheLast,
    Members::TheLast,
    Members::EveryThirdAndTheLast,
    Members::EverySecondButNotTheLast,
];

/// Whether `k` of the numbers up to `last` is in the set.
fn is_member(members: Members, k: usize, last: usize) -> bool {
    match members {
        Members::All => true,
        Members::AllButTheLast => k != last,
        Members::TheLast => k == last,
        Members::EveryThirdAndTheLast => k % 3 == 0 || k == last,
        Members::EverySecondButNotTheLast => k % 2 == 0 && k != last,
    }
}

/// The set as a list of truth values.
fn listed(alloc: Global, n: usize, members: Members) -> Result<Vec<bool>, Memory> {
    let mut list = Vec::new(alloc);
    for k in 0..n {
        list.push(is_member(members, k, n - 1))?;
    }
    Ok(list)
}

/// The row of the list.
fn row_of(alloc: Global, list: &[bool]) -> Result<Row, Memory> {
    let mut row = Row::new(alloc, list.len())?;
    for (k, is_in) in list.iter().enumerate() {
        if *is_in {
            row.put(k);
        }
    }
    Ok(row)
}

/// Whether the bits are those of the list, in as many words as it needs.
fn are_bits_of(words: &[u64], list: &[bool]) -> bool {
    for (k, is_in) in list.iter().enumerate() {
        let Some(word) = words.get(k / 64) else {
            return false;
        };
        if (word >> (k % 64) & 1 == 1) != *is_in {
            return false;
        }
    }
    words.len() == list.len().div_ceil(64)
}

/// Whether the row has the members of the list, and as many.
fn is_list(row: &Row, list: &[bool]) -> bool {
    for (k, is_in) in list.iter().enumerate() {
        if row.contains(k) != *is_in {
            return false;
        }
    }
    let count = list.iter().filter(|is_in| **is_in).count();
    row.len() == list.len() && row.count() == count && !row.contains(list.len())
}

/// What becomes of two sets.
#[derive(Clone, Copy)]
enum Change {
    Union,
    Minus,
    Intersect,
}

/// What two lists become.
fn changed_list(
    alloc: Global,
    these: &[bool],
    those: &[bool],
    change: Change,
) -> Result<Vec<bool>, Memory> {
    let mut list = Vec::new(alloc);
    for (this, that) in these.iter().zip(those) {
        list.push(match change {
            Change::Union => *this || *that,
            Change::Minus => *this && !*that,
            Change::Intersect => *this && *that,
        })?;
    }
    Ok(list)
}

/// Changes the row, where the other is as long.
fn change_row(row: &mut Row, other: &Row, change: Change) -> bool {
    if row.len() != other.len() {
        return false;
    }
    match change {
        Change::Union => row.union(other),
        Change::Minus => row.minus(other),
        Change::Intersect => row.intersect(other),
    }
    true
}

/// Whether the changed row is the changed list, word by word too.
fn changes_alike(
    alloc: Global,
    these: &[bool],
    those: &[bool],
    change: Change,
) -> Result<bool, Memory> {
    let list = changed_list(alloc, these, those, change)?;
    let other = row_of(alloc, those)?;
    let mut row = row_of(alloc, these)?;
    Ok(
        change_row(&mut row, &other, change)
            && is_list(&row, &list)
            && are_bits_of(row.words(), &list),
    )
}

/// Whether the rows are compared as the lists are.
fn compares_alike(alloc: Global, these: &[bool], those: &[bool]) -> Result<bool, Memory> {
    let row = row_of(alloc, these)?;
    let other = row_of(alloc, those)?;
    if row.len() != other.len() {
        return Ok(false);
    }
    let within = these.iter().zip(those).all(|(this, that)| !*this || *that);
    let apart = these.iter().zip(those).all(|(this, that)| !*this || !*that);
    Ok(row.is_subset(&other) == within && row.is_disjoint(&other) == apart)
}

/// Whether two sets below `n` meet as lists do.
fn meet_alike(alloc: Global, n: usize, this: Members, that: Members) -> Result<bool, Memory> {
    let these = listed(alloc, n, this)?;
    let those = listed(alloc, n, that)?;
    Ok(
        changes_alike(alloc, &these, &those, Change::Union)?
            && changes_alike(alloc, &these, &those, Change::Minus)?
            && changes_alike(alloc, &these, &those, Change::Intersect)?
            && compares_alike(alloc, &these, &those)?,
    )
}

/// Whether a set below `n` meets all the others as lists do.
fn meets_all(alloc: Global, n: usize, this: Members) -> Result<bool, Memory> {
    for that in KINDS {
        if !meet_alike(alloc, n, this, that)? {
            return Ok(false);
        }
    }
    Ok(true)
}

/// Whether all numbers below `n` are in the full row, and no others.
fn is_full(alloc: Global, n: usize) -> Result<bool, Memory> {
    let list = listed(alloc, n, Members::All)?;
    let row = Row::full(alloc, n)?;
    Ok(is_list(&row, &list) && are_bits_of(row.words(), &list))
}

const LENGTHS: [usize; 9] = [0, 1, 63, 64, 65, 255, 256, 257, 1000];

#[test]
fn rows_beside_lists(rt: HostRuntime) -> Result<(), Fail> {
    for n in LENGTHS {
        for this in KINDS {
            assert!(rt; meets_all(rt.alloc(), n, this)?, "{n}");
        }
    }
    Ok(())
}

#[test]
fn full_rows(rt: HostRuntime) -> Result<(), Fail> {
    for n in LENGTHS {
        assert!(rt; is_full(rt.alloc(), n)?, "{n}");
    }
    Ok(())
}
