//! A list of numbers.
ghost use Rattle.number_sets.specs.Numbers.{items_of};
ghost use Rattle.std.specs.Prelude.{◌≡◌, ◌<◌, ◌++◌, ◌∷◌, [], OnErr, OnOk, IfNone, IfOk, length, slice_set, option_to_list};

use std::alloc::{AllocError, Global};
use std::marker::Model;

/// How many numbers stand in a list itself.
const FEW: usize = 3;

/// How many numbers there is room for at first where they are more than three.
const FIRST_ROOM: usize = 6;

/// Numbers in order: up to three of them here, and more elsewhere.
#[derive(Drop)]
pub(crate) enum Numbers {
    None,
    One([u32; 1]),
    Two([u32; 2]),
    Three([u32; 3]),
    Many(Box<Vec<u32>>),
}

/// Numbers in order, in 16 bytes, and elsewhere only where they were more than three since there last was none.
#[derive(Drop)]
pub struct NumberList {
    numbers: Numbers,
}

impl Model for NumberList {
    ghost use Rattle.std.specs.Prelude.{List, ℕ};
    ghost use Rattle.number_sets.specs.Numbers.{items_of};

    ghost Value = { List ℕ };

    ghost view = { λ l. items_of l.numbers };
}

/// The numbers with one more, where there was no room for it.
fn many(alloc: Global, numbers: &[u32], number: u32) -> Result<Box<Vec<u32>>, AllocError>
    ensures { IfOk result (λ list. list.value.items ≡ numbers.now ++ number ∷ []) }
{
    let mut list = Vec::with_capacity(alloc, FIRST_ROOM)?;
    list.extend_from_slice(numbers)?;
    list.push(number)?;
    let list = Box::new(alloc, list)?;
    Ok(list)
}

/// These numbers, with room for no more.
fn exact(alloc: Global, numbers: &[u32]) -> Result<Box<Vec<u32>>, AllocError>
    ensures { IfOk result (λ list. list.value.items ≡ numbers.now) }
{
    let mut list = Vec::with_capacity(alloc, numbers.len())?;
    list.extend_from_slice(numbers)?;
    let list = Box::new(alloc, list)?;
    Ok(list)
}

/// These few numbers.
fn few(alloc: Global, numbers: &[u32]) -> Result<NumberList, AllocError>
    ensures { IfOk result (λ list. list ≡ numbers.now) }
{
    let mut list = NumberList::new();
    for number in numbers {
        list.push(alloc, *number)?;
    }
    Ok(list)
}

/// Makes room for one number more, and for half as many as there are: twice as many would leave a quarter of an index unused.
fn make_room(list: &mut Vec<u32>) -> Result<(), AllocError>
    ensures { list.new.items ≡ list.old.items }
{
    if list.len() < list.capacity() {
        return Ok(());
    }
    list.reserve_exact(list.len() / 2 + 1)
}

/// Adds a number at the end. Fails where memory is refused; then nothing changes.
fn add(list: &mut Vec<u32>, number: u32) -> Result<(), AllocError>
    ensures ok { OnOk result (list.new.items ≡ list.old.items ++ number ∷ []) }
    ensures err { OnErr result (list.new.items ≡ list.old.items) }
{
    make_room(list)?;
    let Ok(()) = list.push(number) else {
        return Err(AllocError);
    };
    Ok(())
}

/// Adds a number at the end. Fails where memory is refused; then nothing changes.
fn push(numbers: &mut Numbers, alloc: Global, number: u32) -> Result<(), AllocError>
    ensures ok { OnOk result (items_of numbers.new ≡ items_of numbers.old ++ number ∷ []) }
    ensures err { OnErr result (items_of numbers.new ≡ items_of numbers.old) }
{
    *numbers = match numbers {
        Numbers::None => Numbers::One([number]),
        Numbers::One(numbers) => Numbers::Two([numbers[0], number]),
        Numbers::Two(numbers) => Numbers::Three([numbers[0], numbers[1], number]),
        Numbers::Three(numbers) => Numbers::Many(many(alloc, numbers, number)?),
        Numbers::Many(numbers) => return add(numbers, number),
    };
    Ok(())
}

/// Takes the last number out, if there is one. Where none is left there is no memory elsewhere.
fn pop(numbers: &mut Numbers) -> Option<u32>
    ensures last { items_of numbers.old ≡ items_of numbers.new ++ option_to_list result }
    ensures none { IfNone result (items_of numbers.old ≡ []) }
{
    let (fewer, last) = match numbers {
        Numbers::None => return None,
        Numbers::One(numbers) => (Numbers::None, numbers[0]),
        Numbers::Two(numbers) => (Numbers::One([numbers[0]]), numbers[1]),
        Numbers::Three(numbers) => (Numbers::Two([numbers[0], numbers[1]]), numbers[2]),
        Numbers::Many(numbers) => {
            let last = numbers.pop();
            if numbers.len() > 0 {
                return last;
            }
            (Numbers::None, last?)
        }
    };
    *numbers = fewer;
    Some(last)
}

fn write(numbers: &mut [u32], place: usize, number: u32)
    requires { place < length numbers.old }
    ensures { numbers.new ≡ slice_set numbers.old place number }
{
    numbers[place] = number;
}

impl NumberList {
    /// No numbers.
    pub fn new() -> NumberList
        ensures { result ≡ [] }
    {
        NumberList {
            numbers: Numbers::None,
        }
    }

    /// These numbers, in order, with room for no more. Fails where memory is refused.
    pub fn of(alloc: Global, numbers: &[u32]) -> Result<NumberList, AllocError>
        ensures { IfOk result (λ list. list ≡ numbers.now) }
    {
        if numbers.len() <= FEW {
            return few(alloc, numbers);
        }
        let numbers = Numbers::Many(exact(alloc, numbers)?);
        Ok(NumberList { numbers })
    }

    /// The numbers, in order.
    pub fn as_slice(&self) -> &[u32]
        ensures { result.now ≡ self.now }
    {
        match &self.numbers {
            Numbers::None => &[],
            Numbers::One(numbers) => numbers,
            Numbers::Two(numbers) => numbers,
            Numbers::Three(numbers) => numbers,
            Numbers::Many(numbers) => numbers.as_slice(),
        }
    }

    /// How many there are.
    pub fn len(&self) -> usize
        ensures { result ≡ length self.now }
    {
        self.as_slice().len()
    }

    /// Adds a number at the end. Fails where memory is refused; then nothing changes.
    pub fn push(&mut self, alloc: Global, number: u32) -> Result<(), AllocError>
        ensures ok { OnOk result (self.new ≡ self.old ++ number ∷ []) }
        ensures err { OnErr result (self.new ≡ self.old) }
    {
        push(&mut self.numbers, alloc, number)
    }

    /// Takes the last number out, or gives none, exactly where there is none.
    pub fn pop(&mut self) -> Option<u32>
        ensures last { self.old ≡ self.new ++ option_to_list result }
        ensures none { IfNone result (self.old ≡ []) }
    {
        pop(&mut self.numbers)
    }

    /// Writes another number at a place.
    pub fn set(&mut self, place: usize, number: u32)
        requires { place < length self.old }
        ensures { self.new ≡ slice_set self.old place number }
    {
        match &mut self.numbers {
            Numbers::None => {}
            Numbers::One(numbers) => write(numbers, place, number),
            Numbers::Two(numbers) => write(numbers, place, number),
            Numbers::Three(numbers) => write(numbers, place, number),
            Numbers::Many(numbers) => write(numbers, place, number),
        }
    }
}
