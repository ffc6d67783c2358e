//! A table of lists.
ghost use Rattle.std.specs.Prelude.{◌≡◌, ◌<◌, ◌^◌, ◌≤◌, [], IfOk, OnErr, length, map, option_and_then, option_map, slice_get};
ghost use Rattle.axioms.specs.Growth.{Numbers};
ghost use Rattle.normalise.specs.Lengths.{IsShorter};
ghost use Rattle.normalise.specs.Tables.{key_in};

use crate::member::Member;
use crate::spans::{Span, place};
use crate::start::Start;
use axioms::Memory;
use keyed_hash::{KeyedState, NumberedSet};
use std::alloc::Global;
use std::hash::RandomState;
use std::marker::Model;

/// Lists of two or more members, numbered from 0, no two of them equal. Each is kept as a shorter one and a member more, so that all
/// prefixes of a list take no more room than the list.
#[derive(Drop)]
pub(crate) struct Prefixes<T: Member> {
    table: NumberedSet<(Start, u32)>,
    // where each stands among the members
    spans: Vec<Span>,
    members: Vec<T>,
}

impl<T: Member> Model for Prefixes<T> {
    ghost use Rattle.std.specs.Prelude.{List, ℕ, map};
    ghost use Rattle.normalise.specs.Spans.{list_at};
    ghost use Rattle.normalise.specs.Tables.{IsKept};

    ghost Value = { List (List ℕ) };

    ghost view = { λ b. map (list_at T.number b.members.items) b.spans.items };

    ghost invariant = { λ b. IsKept T.number b.table.keys b.spans.items b.members.items };
}

// The shorter list, or the first member where there is none, and the last member.
fn key_of<T: Member>(shorter: Option<u32>, list: &[T]) -> (Start, u32)
    requires { 2 ≤ length list.now }
    ensures { result ≡ key_in shorter (map T.number list.now) }
{
    let last = list[list.len() - 1].number();
    match shorter {
        Some(number) => (Start::Longer(number), last),
        None => (Start::One(list[0].number()), last),
    }
}

// Where the shorter list stands.
fn span_of(spans: &[Span], shorter: Option<u32>) -> Option<Span>
    ensures { result ≡ option_and_then (slice_get spans.now) shorter }
{
    match shorter {
        Some(number) => spans.get(number as usize).copied(),
        None => None,
    }
}

impl<T: Member> Prefixes<T> {
    /// No lists. They are found by hashes that the state makes.
    pub(crate) fn new(alloc: Global, state: RandomState) -> Prefixes<T>
        ensures { result ≡ [] }
    {
        Prefixes {
            table: NumberedSet::new(alloc, KeyedState::new(&state)),
            spans: Vec::new(alloc),
            members: Vec::new(alloc),
        }
    }

    /// How many lists there are, fewer than 2^32.
    pub(crate) fn len(&self) -> usize
        ensures count { result ≡ length self.now }
        ensures small { result < 2 ^ 32 }
    {
        self.spans.len()
    }

    /// The list of that number.
    pub(crate) fn get(&self, number: usize) -> Option<&[T]>
        ensures { option_map (λ s. map T.number s.now) result ≡ slice_get self.now number }
    {
        let span = self.spans.get(number)?;
        Some(&self.members[span.start..span.end])
    }

    /// The number that the list has, or the next one. The shorter list is the one without its last member, by its number; it is none
    /// where that is one member alone.
    ///
    /// # Errors
    ///
    /// `Memory` where memory was refused, or there are 2^32 - 1 lists. Then nothing changes.
    pub(crate) fn longer(&mut self, shorter: Option<u32>, list: &[T]) -> Result<u32, Memory>
        requires many { 2 ≤ length list.now }
        requires shorter { IsShorter self.old shorter (map T.number list.now) }
        ensures ok { IfOk result (λ n. Numbers self.old (map T.number list.now) self.new n) }
        ensures err { OnErr result (self.new ≡ self.old) }
    {
        if self.table.len() >= u32::MAX as usize {
            return Err(Memory);
        }
        self.spans.reserve(1)?;
        self.members.reserve(list.len())?;
        let before = span_of(&self.spans, shorter);
        let (number, is_new) = self.table.insert(key_of(shorter, list))?;
        if !is_new {
            return Ok(number);
        }
        let span = place(&mut self.members, before, list);
        self.spans.push_reserved(span);
        Ok(number)
    }

    /// The same lists.
    ///
    /// # Errors
    ///
    /// `Memory` where memory was refused.
    pub(crate) fn copy(&self, alloc: Global) -> Result<Prefixes<T>, Memory>
        ensures { IfOk result (λ b. b ≡ self.now) }
    {
        let table = self.table.copy()?;
        let mut spans = Vec::new(alloc);
        spans.extend_from_slice(&self.spans)?;
        let mut members = Vec::new(alloc);
        members.extend_from_slice(&self.members)?;
        Ok(Prefixes {
            table,
            spans,
            members,
        })
    }
}
