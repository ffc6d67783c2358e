//! Lists of numbers by key, all in one piece.
ghost use Rattle.std.specs.Prelude.{◌≡◌, ◌-◌, ◌≤◌, ◌↔◌, ℕ, [], Contains, IfOk, false, length, slice_index, true};
ghost use Rattle.indexes.specs.Seconds.{IsInOrder};
ghost use Rattle.indexes.specs.Lists.{before, list_at, AreAllListed, AreStarts, HasPlace, IsRoomFor, IsWithin, Places};

use crate::seconds::put_in_order;
use normal_forms::FormList;
use std::alloc::{AllocError, Global};

/// A list for each key: 4 bytes for each number, and 4 for each key up to the greatest that has one; no memory where none has.
#[derive(Drop)]
pub(crate) struct Lists {
    /// Where the list of each key starts among the numbers, and behind those where the last list ends.
    pub starts: Vec<u32>,
    pub numbers: Vec<u32>,
    ghost within: { IsWithin starts.items numbers.items },
    ghost listed: { AreAllListed starts.items numbers.items },
}

/// Lists that are filled, of which it is known how many numbers each will have.
#[derive(Drop)]
pub(crate) struct Filling {
    pub starts: Vec<u32>,
    /// Where the next number of each key goes.
    pub next: Vec<u32>,
    pub numbers: Vec<u32>,
}

/// Where the list of each key starts, and the last one ends, where each has so many numbers.
fn starts_of(alloc: Global, counts: &[u32]) -> Result<Vec<u32>, AllocError>
    requires { before (slice_index counts.now) (length counts.now) ≤ u32.MAX }
    ensures { IfOk result (λ starts. AreStarts starts.items counts.now) }
{
    if counts.is_empty() {
        return Ok(Vec::new(alloc));
    }
    let mut starts = Vec::with_capacity(alloc, counts.len() + 1)?;
    let mut end = 0;
    for count in counts {
        starts.push(end)?;
        end += *count;
    }
    starts.push(end)?;
    Ok(starts)
}

/// The last of the numbers, and 0 where there is none.
pub(crate) fn last_of(numbers: &[u32]) -> usize
    ensures { result ≡ slice_index numbers.now (length numbers.now - 1) }
{
    match numbers.last() {
        Some(last) => *last as usize,
        None => 0,
    }
}

/// What the key has of what is listed.
#[inline(always)]
pub(crate) fn part<'a, T>(starts: &[u32], items: &'a [T], key: u32) -> &'a [T]
    requires { IsWithin starts.now items.now }
    ensures { result.now ≡ list_at starts.now items.now key }
{
    let next = key as usize + 1;
    if next >= starts.len() {
        return &[];
    }
    &items[starts[next - 1] as usize..starts[next] as usize]
}

/// Whether there is any number.
pub(crate) fn is_used(list: &[u32]) -> bool
    ensures some { result ≡ true → (n : ℕ) × Contains list.now n }
    ensures none { result ≡ false → (n : ℕ) → Contains list.now n → ⊥ }
{
    !list.is_empty()
}

/// Puts the list of each key into the order of the second keys of the forms.
fn put_all_in_order(forms: &FormList, starts: &[u32], numbers: &mut [u32])
    requires { IsWithin starts.now numbers.old }
    ensures long { length numbers.new ≡ length numbers.old }
    ensures same { (key n : ℕ) → Contains (list_at starts.now numbers.new key) n ↔ Contains (list_at starts.now numbers.old key) n }
    ensures order { (key : ℕ) → IsInOrder forms.now (list_at starts.now numbers.new key) }
{
    for key in 1..starts.len() {
        let start = starts[key - 1] as usize;
        let end = starts[key] as usize;
        put_in_order(forms, &mut numbers[start..end]);
    }
}

impl Filling {
    /// Room for so many numbers of each key. Fails where memory is refused.
    pub(crate) fn new(alloc: Global, counts: &[u32]) -> Result<Self, AllocError>
        requires { before (slice_index counts.now) (length counts.now) ≤ u32.MAX }
        ensures { IfOk result (λ filling. IsRoomFor counts.now filling) }
    {
        let starts = starts_of(alloc, counts)?;
        let mut next = Vec::with_capacity(alloc, starts.len())?;
        next.extend_from_slice(&starts)?;
        let numbers = vec![in alloc; 0; last_of(&starts)]?;
        Ok(Filling {
            starts,
            next,
            numbers,
        })
    }

    /// Puts a number at the end of the list of the key.
    #[inline(always)]
    pub(crate) fn place(&mut self, key: u32, number: u32)
        requires { HasPlace self.old key }
        ensures { Places self.old self.new key number }
    {
        let place = self.next[key as usize];
        self.numbers[place as usize] = number;
        self.next[key as usize] = place + 1;
    }

    /// The lists, when they are full.
    pub(crate) fn filled(self) -> Lists
        requires within { IsWithin self.starts.items self.numbers.items }
        requires listed { AreAllListed self.starts.items self.numbers.items }
        ensures starts { result.starts.items ≡ self.starts.items }
        ensures numbers { result.numbers.items ≡ self.numbers.items }
    {
        let Filling {
            starts,
            next: _,
            numbers,
        } = self;
        Lists { starts, numbers }
    }
}

impl Lists {
    /// Whether no list has a number.
    pub(crate) fn is_empty(&self) -> bool
        ensures { (result ≡ true) ↔ ((key : ℕ) → list_at self.now.starts.items self.now.numbers.items key ≡ []) }
    {
        self.numbers.is_empty()
    }

    /// A number from which on no key has a list with a number.
    pub(crate) fn end(&self) -> usize
        ensures { (key : ℕ) → result ≤ key → list_at self.now.starts.items self.now.numbers.items key ≡ [] }
    {
        self.starts.len().saturating_sub(1)
    }

    /// Puts each list into the order of the second keys of the forms.
    pub(crate) fn put_in_order(&mut self, forms: &FormList)
        ensures starts { self.new.starts.items ≡ self.old.starts.items }
        ensures same { (key n : ℕ) → Contains (list_at self.new.starts.items self.new.numbers.items key) n ↔ Contains (list_at self.old.starts.items self.old.numbers.items key) n }
        ensures order { (key : ℕ) → IsInOrder forms.now (list_at self.new.starts.items self.new.numbers.items key) }
    {
        put_all_in_order(forms, &self.starts, &mut self.numbers);
    }

    /// The list of the key.
    pub(crate) fn of(&self, key: u32) -> &[u32]
        ensures { result.now ≡ list_at self.now.starts.items self.now.numbers.items key }
    {
        part(&self.starts, &self.numbers, key)
    }
}
