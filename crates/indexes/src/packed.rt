//! Lists of numbers in one piece of memory.
ghost use Rattle.indexes.specs.Packed.{standing};
ghost use Rattle.indexes.specs.Tables.{at, without};
ghost use Rattle.std.specs.Prelude.{[], ◌++◌, ◌<◌, ◌≡◌, ◌≤◌, ◌∷◌, IfOk, OnOk, length, slice_set, take};

use std::alloc::{AllocError, Global};
use std::marker::Model;

/// Where a list stands.
#[derive(Clone, Copy)]
pub(crate) struct Span {
    start: usize,
    end: usize,
}

/// Lists by their own numbers from 0, one behind the other. A list may lose numbers, and leaves room behind it then.
#[derive(Drop)]
pub(crate) struct Packed {
    spans: Vec<Span>,
    numbers: Vec<u32>,
}

impl Model for Packed {
    ghost use Rattle.indexes.specs.Packed.{standing, AreApart};
    ghost use Rattle.std.specs.Prelude.{ℕ, List, length, map};

    ghost Value = { List (List ℕ) };

    ghost view = { λ p. map (standing p.numbers.items) p.spans.items };

    ghost invariant = { λ p. AreApart 0 p.spans.items (length p.numbers.items) };
}

/// The numbers that stand there.
#[inline(always)]
fn part(numbers: &[u32], span: Span) -> &[u32]
    requires ordered { span.start ≤ span.end }
    requires within { span.end ≤ length numbers.now }
    ensures { result.now ≡ standing numbers.now span }
{
    &numbers[span.start..span.end]
}

/// Moves the other numbers to the front, in their order, and tells how many there are.
fn gather_others(list: &mut [u32], number: u32) -> usize
    ensures others { take result list.new ≡ without number list.old }
    ensures few { result ≤ length list.old }
{
    let mut others = 0;
    for place in 0..list.len() {
        let other = list[place];
        if other != number {
            list[others] = other;
            others += 1;
        }
    }
    others
}

impl Packed {
    /// No lists.
    pub(crate) fn new(alloc: Global) -> Packed
        ensures { result ≡ [] }
    {
        Packed {
            spans: Vec::new(alloc),
            numbers: Vec::new(alloc),
        }
    }

    /// No lists, and room for so many, which have so many numbers in all. Fails where memory is refused.
    fn with_room(alloc: Global, lists: usize, numbers: usize) -> Result<Packed, AllocError>
        ensures { IfOk result (λ packed. packed ≡ []) }
    {
        let spans = Vec::with_capacity(alloc, lists)?;
        let numbers = Vec::with_capacity(alloc, numbers)?;
        Ok(Packed { spans, numbers })
    }

    /// How many lists there are.
    #[inline(always)]
    pub(crate) fn len(&self) -> usize
        ensures { result ≡ length self.now }
    {
        self.spans.len()
    }

    /// The list of that number.
    #[inline(always)]
    pub(crate) fn of(&self, place: usize) -> &[u32]
        requires { place < length self.now }
        ensures { result.now ≡ at self.now place }
    {
        part(&self.numbers, self.spans[place])
    }

    /// Adds a list behind the others. Fails where memory is refused.
    pub(crate) fn push_list(&mut self, list: &[u32]) -> Result<(), AllocError>
        ensures { OnOk result (self.new ≡ self.old ++ list.now ∷ []) }
    {
        self.spans.reserve(1)?;
        let start = self.numbers.len();
        self.numbers.extend_from_slice(list)?;
        let end = self.numbers.len();
        self.spans.push_reserved(Span { start, end });
        Ok(())
    }

    /// The same lists, with room for so many more, which have so many numbers in all. Fails where memory is refused.
    pub(crate) fn copy_with_room(
        &self,
        alloc: Global,
        lists: usize,
        numbers: usize,
    ) -> Result<Packed, AllocError>
        ensures { IfOk result (λ copy. copy ≡ self.now) }
    {
        let mut copy = Packed::with_room(
            alloc,
            self.spans.len().saturating_add(lists),
            self.numbers.len().saturating_add(numbers),
        )?;
        for place in 0..self.len() {
            copy.push_list(self.of(place))?;
        }
        Ok(copy)
    }

    /// Takes the number out of the list that stands at the place. It takes no memory.
    pub(crate) fn remove(&mut self, place: usize, number: u32)
        requires { place < length self.old }
        ensures { self.new ≡ slice_set self.old place (without number (at self.old place)) }
    {
        let Span { start, end } = self.spans[place];
        let others = gather_others(&mut self.numbers[start..end], number);
        self.spans[place] = Span {
            start,
            end: start + others,
        };
    }
}
