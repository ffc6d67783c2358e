//! Lists of numbers, which are 0 past their end.
ghost use Rattle.std.specs.Prelude.{◌≡◌, ◌≢◌, ℕ, ◌<◌, length, slice_index, IfOk, OnOk};

use axioms::Memory;

/// The number at the place.
#[inline(always)]
pub(crate) fn at(numbers: &[u32], place: usize) -> u32
    ensures { result ≡ slice_index numbers.now place }
{
    if place < numbers.len() {
        return numbers[place];
    }
    0
}

/// Lengthens the list until it has the place. Fails where memory is refused; each number is what it was.
#[inline(always)]
pub(crate) fn extend(numbers: &mut Vec<u32>, place: usize) -> Result<(), Memory>
    ensures same { (i : ℕ) → slice_index numbers.new.items i ≡ slice_index numbers.old.items i }
    ensures there { OnOk result (place < length numbers.new.items) }
{
    while numbers.len() <= place {
        numbers.push(0)?;
    }
    Ok(())
}

/// Puts the number at the place, where there is one.
#[inline(always)]
pub(crate) fn put(numbers: &mut Vec<u32>, place: usize, number: u32)
    ensures here { place < length numbers.old.items → slice_index numbers.new.items place ≡ number }
    ensures others { (i : ℕ) → i ≢ place → slice_index numbers.new.items i ≡ slice_index numbers.old.items i }
{
    if place < numbers.len() {
        numbers[place] = number;
    }
}

/// The same numbers, with room for as many more.
pub(crate) fn copied(numbers: &Vec<u32>) -> Result<Vec<u32>, Memory>
    ensures { IfOk result (λ copy. copy.items ≡ numbers.now.items) }
{
    let alloc = *numbers.allocator();
    let mut copy = Vec::with_capacity(alloc, numbers.capacity())?;
    copy.extend_from_slice(numbers)?;
    Ok(copy)
}
