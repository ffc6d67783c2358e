//! Whose turn it is.
ghost use Rattle.std.specs.Prelude.{◌≡◌, ◌<◌, ◌≤◌, ◌^◌, ◌+◌, ◌++◌, [], ℕ, None, Some, drop, length, take, vec_capacity, Contains, OnOk, OnErr, IfOk};
ghost use Rattle.saturate.specs.Flags.{asked, kept};
ghost use Rattle.saturate.specs.Turns.{option_list, AreAmong, HasOneMore, HasTurn, IsServedOnce, IsWithoutHand, IsWithoutLast, NameTheirContexts};

use crate::flags::Flags;
use crate::order::{context_of, next};
use crate::settled::Settled;
use axioms::Memory;
use facts::StoredFact;
use std::alloc::Global;
use std::marker::Model;
use std::mem;
use work_list::{Item, WorkList};

/// Numbers from 0 on, each of which has one turn: some wait in a list of work, some are served and settled, in a list that copies share,
/// and some were taken, of which the first are served, behind those that are settled, and the next is in hand.
#[derive(Drop)]
pub(crate) struct Queue<W: WorkList> {
    list: W,
    queued: u32,
    settled: Settled,
    taken: Vec<u32>,
    served: usize,
}

impl<W: WorkList> Model for Queue<W> {
    ghost use Rattle.std.specs.Prelude.{◌+◌, ◌++◌, length, take, slice_get};
    ghost use Rattle.saturate.specs.Turns.{Queued, IsQueue};

    ghost Value = { Queued };

    ghost view = { λ q. record { queued = q.queued; waiting = W.pending q.list; served = q.settled ++ take q.served q.taken.items; hand = slice_get q.taken.items q.served } };

    ghost invariant = { λ q. IsQueue (W.pending q.list) q.queued (q.settled ++ q.taken.items) (length q.settled + q.served) };
}

/// Moves those of the first numbers that are not flagged to the front, in their order, and adds those that are to the list, which is
/// empty and has room for them. Tells how many are not.
fn gather_kept(numbers: &mut [u32], served: usize, again: &mut Vec<u32>, flags: &Flags) -> usize
    requires served { served ≤ length numbers.old }
    requires empty { again.old.items ≡ [] }
    requires room { length (asked flags.now (take served numbers.old)) ≤ vec_capacity again.old }
    ensures kept { take result numbers.new ≡ kept flags.now (take served numbers.old) }
    ensures again { again.new.items ≡ asked flags.now (take served numbers.old) }
    ensures rest { drop served numbers.new ≡ drop served numbers.old }
    ensures long { length numbers.new ≡ length numbers.old }
    ensures few { result ≤ served }
{
    let mut kept = 0;
    for place in 0..served {
        let number = numbers[place];
        if flags.has(number) {
            again.push_reserved(number);
        } else {
            if kept < place {
                numbers[kept] = number;
            }
            kept += 1;
        }
    }
    kept
}

/// Moves those of the first numbers that are flagged behind those that are not, by a list that is empty and has room for them. Tells how
/// many are not.
fn part(numbers: &mut [u32], served: usize, again: Vec<u32>, flags: &Flags) -> usize
    requires served { served ≤ length numbers.old }
    requires empty { again.items ≡ [] }
    requires room { length (asked flags.now (take served numbers.old)) ≤ vec_capacity again }
    ensures parted { numbers.new ≡ kept flags.now (take served numbers.old) ++ asked flags.now (take served numbers.old) ++ drop served numbers.old }
    ensures kept { result ≡ length (kept flags.now (take served numbers.old)) }
{
    let mut again = again;
    let kept = gather_kept(numbers, served, &mut again, flags);
    numbers[kept..served].copy_from_slice(&again);
    kept
}

/// The list without the number, where that is its last.
fn without_last(list: &[u32], number: u32) -> &[u32]
    ensures { IsWithoutLast number list.now result.now }
{
    list.strip_suffix(&[number]).unwrap_or(list)
}

/// The same numbers, with room for as many more.
fn copied(numbers: &Vec<u32>) -> Result<Vec<u32>, Memory>
    ensures { IfOk result (λ copy. copy.items ≡ numbers.now.items) }
{
    let mut copy = Vec::with_capacity(*numbers.allocator(), numbers.capacity())?;
    copy.extend_from_slice(numbers)?;
    Ok(copy)
}

impl<W: WorkList> Queue<W> {
    /// Nothing has had its turn.
    pub(crate) fn new(alloc: Global, list: W) -> Result<Self, Memory>
    where
        W: Drop,
        requires { W.pending list ≡ [] }
        ensures queued { IfOk result (λ q. q.queued ≡ 0) }
        ensures waiting { IfOk result (λ q. q.waiting ≡ []) }
        ensures served { IfOk result (λ q. q.served ≡ []) }
        ensures hand { IfOk result (λ q. q.hand ≡ None) }
    {
        let settled = Settled::new(alloc)?;
        Ok(Queue {
            list,
            queued: 0,
            settled,
            taken: Vec::new(alloc),
            served: 0,
        })
    }

    /// The same turns, over a list of work that is empty, as this one's is: as many numbers were served as were queued. Numbers that are
    /// settled are not copied.
    pub(crate) fn copy(&self, list: W) -> Result<Queue<W>, Memory>
    where
        W: Drop,
        requires list { W.pending list ≡ [] }
        requires finished { self.now.queued ≤ length self.now.served }
        ensures { IfOk result (λ q. q ≡ self.now) }
    {
        let settled = self.settled.copy(*self.taken.allocator())?;
        let taken = copied(&self.taken)?;
        Ok(Queue {
            list,
            queued: self.queued,
            settled,
            taken,
            served: self.served,
        })
    }

    /// How many numbers were queued.
    fn queued(&self) -> u32
        ensures { result ≡ self.now.queued }
    {
        self.queued
    }

    /// Queues the next number.
    fn wait(&mut self, context: u32) -> Result<(), Memory>
        requires { self.old.queued < u32.MAX }
        ensures ok { OnOk result (HasOneMore context self.old self.new) }
        ensures err { OnErr result (self.new ≡ self.old) }
    {
        let item = Item {
            fact: self.queued,
            context,
        };
        match self.list.push(item) {
            Ok(()) => {
                self.queued += 1;
                Ok(())
            }
            Err(_) => Err(Memory),
        }
    }

    /// How many numbers were served.
    pub(crate) fn served(&self) -> usize
        ensures value { result ≡ length self.now.served }
        ensures few { result ≤ self.now.queued }
    {
        let _queued = self.queued;
        self.settled.len() + self.served
    }

    /// No number was served twice; and where as many were served as were queued, each of them was.
    pub(crate) fn all_served(&self)
        ensures once { IsServedOnce self.now }
        ensures few { length self.now.served ≤ self.now.queued }
        ensures all { self.now.queued ≤ length self.now.served → (n : ℕ) → n < self.now.queued → Contains self.now.served n }
    {
        let _ = &self.list;
    }

    /// Queues the numbers of all facts.
    fn fill(&mut self, facts: &[StoredFact]) -> Result<(), Memory>
        requires few { length facts.now < 2 ^ 32 }
        requires least { self.old.queued ≤ length facts.now }
        requires named { NameTheirContexts facts.now self.old.waiting }
        ensures most { self.new.queued ≤ length facts.now }
        ensures named { NameTheirContexts facts.now self.new.waiting }
        ensures least { self.old.queued ≤ self.new.queued }
        ensures served { self.new.served ≡ self.old.served }
        ensures hand { self.new.hand ≡ self.old.hand }
        ensures ok { OnOk result (self.new.queued ≡ length facts.now) }
        ensures err { OnErr result (self.old.queued < length facts.now) }
    {
        while (self.queued() as usize) < facts.len() {
            self.wait(context_of(&facts[self.queued() as usize]))?;
        }
        Ok(())
    }

    /// Takes a number that waits in hand.
    fn take(&mut self, facts: &[StoredFact]) -> Result<(), Memory>
        requires hand { self.old.hand ≡ None }
        requires named { NameTheirContexts facts.now self.old.waiting }
        ensures queued { self.new.queued ≡ self.old.queued }
        ensures waiting { AreAmong self.new.waiting self.old.waiting }
        ensures served { self.new.served ≡ self.old.served }
        ensures ok { OnOk result (HasTurn self.old.queued self.old.served self.new.hand) }
        ensures err { OnErr result (self.new.hand ≡ None) }
        ensures some { OnErr result (length self.old.served < self.old.queued) }
    {
        if self.list.len() == 0 {
            return Ok(());
        }
        self.taken.reserve(1)?;
        if let Some(item) = next(&mut self.list, facts) {
            self.taken.push_reserved(item.fact);
        }
        Ok(())
    }

    /// The number in hand, if there is one.
    pub(crate) fn hand(&self) -> Option<u32>
        ensures value { result ≡ self.now.hand }
        ensures some { (n : ℕ) → result ≡ Some n → (n < self.now.queued) × (length self.now.served < self.now.queued) }
        ensures once { IsServedOnce self.now }
    {
        if self.served < self.taken.len() {
            Some(self.taken[self.served])
        } else {
            None
        }
    }

    /// The list without the number in hand, where that is its last. No number was served twice, and the one in hand was not.
    pub(crate) fn without_hand<'a>(&self, list: &'a [u32]) -> &'a [u32]
        ensures without { IsWithoutHand self.now.hand list.now result.now }
        ensures once { IsServedOnce self.now }
    {
        match self.hand() {
            Some(hand) => without_last(list, hand),
            None => list,
        }
    }

    /// Takes a number in hand, unless one is there.
    pub(crate) fn turn(&mut self, facts: &[StoredFact]) -> Result<Option<u32>, Memory>
        requires few { length facts.now < 2 ^ 32 }
        requires least { self.old.queued ≤ length facts.now }
        requires named { NameTheirContexts facts.now self.old.waiting }
        ensures queued { self.new.queued ≤ length facts.now }
        ensures named { NameTheirContexts facts.now self.new.waiting }
        ensures served { self.new.served ≡ self.old.served }
        ensures hand { IfOk result (λ hand. hand ≡ self.new.hand) }
        ensures ok { OnOk result (HasTurn (length facts.now) self.old.served self.new.hand) }
        ensures once { OnOk result (IsServedOnce self.new) }
        ensures some { OnErr result (length self.old.served < length facts.now) }
        ensures kept { (n : ℕ) → self.old.hand ≡ Some n → self.new.hand ≡ Some n }
    {
        self.all_served();
        if let Some(hand) = self.hand() {
            return Ok(Some(hand));
        }
        self.fill(facts)?;
        self.take(facts)?;
        let hand = self.hand();
        if hand.is_none() {
            self.settle();
        }
        Ok(hand)
    }

    /// The number in hand is served.
    pub(crate) fn finish(&mut self)
        requires { self.old.hand ≡ None → ⊥ }
        ensures queued { self.new.queued ≡ self.old.queued }
        ensures waiting { self.new.waiting ≡ self.old.waiting }
        ensures served { self.new.served ≡ self.old.served ++ option_list self.old.hand }
    {
        self.served += 1;
    }

    /// Where every number that was queued is served, and more of them were taken than are settled, all are settled, in their order. That
    /// changes nothing but what a copy and `unserve` take. Nothing is settled where memory is refused.
    fn settle(&mut self)
        ensures { self.new ≡ self.old }
    {
        if self.served() < self.queued as usize || self.taken.len() <= self.settled.len() {
            return;
        }
        let alloc = *self.taken.allocator();
        let taken = mem::replace(&mut self.taken, Vec::new(alloc));
        match self.settled.with(alloc, taken) {
            Ok(settled) => {
                self.settled = settled;
                self.served = 0;
            }
            Err(taken) => self.taken = taken,
        }
    }

    /// A list of the numbers that were served, in order.
    pub(crate) fn numbers(&self, alloc: Global) -> Result<Vec<u32>, Memory>
        ensures { IfOk result (λ numbers. numbers.items ≡ self.now.served) }
    {
        self.settled.followed_by(alloc, &self.taken[..self.served])
    }

    /// Makes room for so many turns more at once, where memory is to be had; else room is made as they come.
    pub(crate) fn expect(&mut self, more: usize)
        ensures { self.new ≡ self.old }
    {
        if self.taken.reserve(more).is_ok() {
            return;
        }
    }

    /// Numbers that were served and are flagged wait again. Those that are settled are not gone through.
    pub(crate) fn unserve(&mut self, alloc: Global, flags: &Flags) -> Result<(), Memory>
        ensures queued { self.new.queued ≡ self.old.queued }
        ensures waiting { self.new.waiting ≡ self.old.waiting }
        ensures ok { OnOk result (self.new.served ≡ kept flags.now self.old.served) }
        ensures err { OnErr result (self.new ≡ self.old) }
    {
        if flags.are_none() {
            return Ok(());
        }
        let again = Vec::with_capacity(alloc, flags.numbers().len())?;
        let (settled, unsettled) = self.settled.parted(alloc, flags)?;
        self.taken.extend_from_slice(&unsettled)?;
        self.settled = settled;
        self.served = part(&mut self.taken, self.served, again, flags);
        Ok(())
    }
}
