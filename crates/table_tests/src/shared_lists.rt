//! Lists of which copies share what was there before.

use normal_forms::SharedList;
use std::alloc::{AllocError, Global};
use std::test::Fail;

const NUMBERS: &[u32] = &[5, 3, 9, 9, 0, 7, 1, 8, 2, 4, 6, 11, 13];

/// Whether the list has just these numbers.
fn has(list: &SharedList<u32>, numbers: &[u32]) -> bool {
    for (place, number) in numbers.iter().enumerate() {
        if list.get(place) != Some(number) || list.at(place) != number {
            return false;
        }
    }
    list.len() == numbers.len() && list.get(numbers.len()).is_none()
}

/// The first nine, to be shared.
fn nine(alloc: Global) -> Result<SharedList<u32>, AllocError> {
    let mut list = SharedList::new(alloc);
    for number in &NUMBERS[..8] {
        list.push(*number)?;
    }
    list.reserve()?;
    list.push_reserved(NUMBERS[8]);
    Ok(list.share())
}

/// Whether the list with three more, which stand beside it, and with four, which do not, is what it is to be.
fn grows(list: &SharedList<u32>) -> Result<bool, AllocError> {
    let beside = list.with_more(&NUMBERS[9..12])?;
    let whole = beside.with_more(&NUMBERS[12..])?;
    let none = beside.with_more(&[])?;
    Ok(has(&beside, &NUMBERS[..12]) && has(&whole, NUMBERS) && has(&none, &NUMBERS[..12]))
}

/// Whether a copy that grows does so alone.
fn grows_alone(list: &SharedList<u32>) -> Result<bool, AllocError> {
    let mut copy = list.copy()?;
    copy.push(NUMBERS[9])?;
    Ok(has(&copy, &NUMBERS[..10]) && has(list, &NUMBERS[..9]))
}

/// Whether the list is joined with others, shared and not.
fn is_joined(alloc: Global, list: &SharedList<u32>) -> Result<bool, AllocError> {
    let mut rest = SharedList::of(Vec::new(alloc));
    rest.push(NUMBERS[9])?;
    rest.push(NUMBERS[10])?;
    let joined = list.joined(rest.copy()?)?;
    let of_shared = list.joined(rest.share())?;
    let of_none = SharedList::new(alloc).joined(list.copy()?)?;
    Ok(
        has(&joined, &NUMBERS[..11])
            && has(&of_shared, &NUMBERS[..11])
            && has(&of_none, &NUMBERS[..9]),
    )
}

#[test]
fn items_stay_as_they_were_shared(rt: HostRuntime) -> Result<(), Fail> {
    let list = nine(rt.alloc())?;
    let grows = grows(&list);
    let grows_alone = grows_alone(&list);
    let is_joined = is_joined(rt.alloc(), &list);
    drop(list);
    assert!(rt; grows?, "with more");
    assert!(rt; grows_alone?, "the copy grows alone");
    assert!(rt; is_joined?, "joined");
    Ok(())
}
