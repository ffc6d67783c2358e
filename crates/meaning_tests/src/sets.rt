//! Sets of numbered members: of numbers, past several growths, and of texts.

use keyed_hash::{KeyedState, NumberedSet};
use std::alloc::AllocGlobal;
use std::hash::RandomState;
use std::random::RandomSource;
use std::test::Fail;

/// The numbers below a half of this, each put in twice.
fn numbers<R: AllocGlobal + RandomSource>(rt: &R, count: u32) -> Result<NumberedSet<u32>, Fail> {
    let mut set = NumberedSet::new(rt.alloc(), KeyedState::new(&RandomState::new(rt)?));
    for number in 0..count {
        let place = set.insert(number / 2)?;
        if place != (number / 2, number % 2 == 0) {
            return Err(Fail::from("another place"));
        }
    }
    Ok(set)
}

/// Whether the set has just the numbers below that one, each with itself as its number.
fn is_below(set: &NumberedSet<u32>, count: u32) -> bool {
    for number in 0..count {
        if set.find(&number) != Some(number) || set.get(number as usize) != Some(&number) {
            return false;
        }
    }
    set.len() == count as usize && !set.contains(&count)
}

#[test]
fn set_of_numbers(rt: HostRuntime) -> Result<(), Fail> {
    let set = numbers(&rt, 200)?;
    assert!(rt; is_below(&set, 100));
    let copy = set.copy()?;
    assert!(rt; is_below(&copy, 100));
    Ok(())
}

#[test]
fn set_of_texts(rt: HostRuntime) -> Result<(), Fail> {
    let alloc = rt.alloc();
    let mut set = NumberedSet::new(alloc, KeyedState::new(&RandomState::new(&rt)?));
    set.reserve()?;
    assert!(rt; set.push(String::from_str(alloc, "x:A")?) == 0);
    assert!(rt; set.insert(String::from_str(alloc, "x:B")?)? == (1, true));
    assert!(rt; set.insert(String::from_str(alloc, "x:A")?)? == (0, false));
    assert!(rt; set.find("x:B") == Some(1));
    assert!(rt; !set.contains("x:C"));
    assert!(rt; set.as_slice().len() == 2);
    Ok(())
}
