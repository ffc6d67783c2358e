//! Slots for facts, by their hashes.
//!
//! A slot holds a number, which is one more than the place of a fact, or 0, and then it is free. A fact falls into a bucket, which
//! is the number of a slot, and its number stands there or behind, with no free slot between: so who looks from the bucket on finds
//! it, or a free slot where it is not there. Numbers that lead nowhere, since facts were taken away, do no harm. The slots of few facts
//! stand where those of more have the address of theirs, and have one bucket.
ghost use Rattle.facts.specs.Slots.{bucket_of, buckets_of, CanHold, count_of, HasRoom, HasSlots, Holds, HoldsNot, IfAt, IfFree, IsFirstFree, numbers_of, Stands, StandsIn, StandsNowhere, StillHolds, StillStand};
ghost use Rattle.facts.specs.declared.contexts.Fact.{Fact as AFact};
ghost use Rattle.std.specs.Prelude.{◌≡◌, ◌↔◌, ◌⊎◌, ℕ, suc, ◌<◌, ◌≤◌, length, slice_get, slice_index, IfOk, IsTrue, OnOk, Some, false};

use crate::contexts::Fact;
use crate::seeds::{Seeds, hash};
use crate::stored::StoredFact;
use axioms::Memory;
use std::alloc::{AllocError, Global};

/// How many facts are few.
const FEW: usize = 7;

/// The size of the first slots for more than few.
const FIRST_SIZE: u8 = 4;

/// How many slots more than buckets there is room for, where there are many.
const MOST_SPARE: usize = 4;

/// Slots for the facts that share them.
#[derive(Drop)]
pub(crate) enum Slots {
    /// The numbers of few facts, in the order in which they came, and free slots behind them. They have one bucket.
    Few([u32; FEW]),
    /// Slots by hash.
    Many {
        /// The power of 2 that is the number of buckets. As a byte it leaves the whole no larger than the few are.
        size: u8,
        /// How many numbers were put.
        used: u32,
        /// What the slots hold. There are as many as buckets, and those that were put behind the last.
        numbers: Vec<u32>,
    },
}

const _: () = prove!(size_of::<Slots>() == 32);

/// What a search for a fact comes to.
#[derive(Clone, Copy, PartialEq, Eq, Drop)]
pub(crate) enum Found {
    /// The fact, at this place.
    At(u32),
    /// This slot, which is free for the fact.
    Free(usize),
}

/// How many buckets slots of that size have.
#[inline(always)]
fn count(size: u8) -> usize
    ensures { result ≡ count_of size }
{
    1 << (size % 64)
}

/// The bucket of the fact, of so many. Where they are a power of 2, it takes the lowest bits of the hash.
#[inline(always)]
fn bucket(seeds: &Seeds, count: usize, fact: Fact) -> usize
    ensures value { result ≡ bucket_of seeds.now count fact }
    ensures within { result ≤ count }
{
    hash(seeds, fact) as usize & count.saturating_sub(1)
}

/// Whether the fact stands at the place, which may be past the last.
#[inline(always)]
pub(crate) fn is_at(facts: &[StoredFact], place: u32, fact: Fact) -> bool
    ensures { IsTrue result ↔ (slice_get facts.now place ≡ Some fact) }
{
    let place = place as usize;
    if place < facts.len() {
        return facts[place].is(fact);
    }
    false
}

/// The place of the fact, where its number stands from the bucket on with no free slot before it, or else the first free slot.
#[inline(always)]
fn search(facts: &[StoredFact], numbers: &[u32], bucket: usize, fact: Fact) -> Found
    requires { bucket ≤ length numbers.now }
    ensures there { IfAt result (λ place. slice_get facts.now place ≡ Some fact) }
    ensures free { IfFree result (IsFirstFree numbers.now bucket) }
    ensures absent { IfFree result (λ _. StandsNowhere facts.now numbers.now bucket fact) }
{
    let mut slot = bucket;
    while slot < numbers.len() && numbers[slot] != 0 {
        let place = numbers[slot] - 1;
        if is_at(facts, place, fact) {
            return Found::At(place);
        }
        slot += 1;
    }
    Found::Free(slot)
}

/// The first free slot from the bucket on.
#[inline(always)]
fn first_free(numbers: &[u32], bucket: usize) -> usize
    requires { bucket ≤ length numbers.now }
    ensures { IsFirstFree numbers.now bucket result }
{
    let mut free = bucket;
    while free < numbers.len() && numbers[free] != 0 {
        free += 1;
    }
    free
}

/// Puts the number into a free slot of few.
#[inline(always)]
fn fill(numbers: &mut [u32; FEW], slot: usize, number: u32)
    requires within { slot < FEW }
    requires free { slice_index numbers.old slot ≡ 0 }
    requires number { 0 < number }
    ensures stands { StandsIn numbers.old numbers.new slot number }
    ensures others { StillStand numbers.old numbers.new }
    ensures room { length numbers.new ≡ length numbers.old }
{
    numbers[slot] = number;
}

/// Puts the number into a free slot. Fails where memory is refused; then nothing changes.
#[inline(always)]
fn occupy(numbers: &mut Vec<u32>, slot: usize, number: u32) -> Result<(), Memory>
    requires within { slot ≤ length numbers.old.items }
    requires free { slice_index numbers.old.items slot ≡ 0 }
    requires number { 0 < number }
    ensures stands { OnOk result (StandsIn numbers.old.items numbers.new.items slot number) }
    ensures others { StillStand numbers.old.items numbers.new.items }
    ensures room { length numbers.old.items ≤ length numbers.new.items }
{
    if slot < numbers.len() {
        numbers[slot] = number;
        return Ok(());
    }
    numbers.push(number)?;
    Ok(())
}

/// Puts a number into its slot among so many buckets, if it leads to a fact. Fails where memory is refused; then nothing changes.
fn carry(
    seeds: &Seeds,
    facts: &[StoredFact],
    wider: &mut Vec<u32>,
    buckets: usize,
    number: u32,
) -> Result<(), Memory>
    requires { buckets ≤ length wider.old.items }
    ensures stands { OnOk result ((place : ℕ) (fact : AFact) → number ≡ suc place → slice_get facts.now place ≡ Some fact →
        Stands wider.new.items (bucket_of seeds.now buckets fact) number) }
    ensures others { StillStand wider.old.items wider.new.items }
    ensures room { length wider.old.items ≤ length wider.new.items }
{
    if number == 0 || facts.len() < number as usize {
        return Ok(());
    }
    let fact = facts[number as usize - 1].get();
    let slot = first_free(wider, bucket(seeds, buckets, fact));
    occupy(wider, slot, number)
}

/// The numbers in their slots among so many buckets.
fn spread(
    alloc: Global,
    seeds: &Seeds,
    facts: &[StoredFact],
    numbers: &[u32],
    buckets: usize,
) -> Result<Vec<u32>, Memory>
    ensures stands { IfOk result (λ v. (slot place : ℕ) (fact : AFact) → slice_index numbers.now slot ≡ suc place →
        slice_get facts.now place ≡ Some fact → Stands v.items (bucket_of seeds.now buckets fact) (suc place)) }
    ensures room { IfOk result (λ v. buckets ≤ length v.items) }
{
    let spare = MOST_SPARE.min(buckets / 2);
    let mut wider = Vec::with_capacity(alloc, buckets.saturating_add(spare))?;
    wider.resize(buckets, 0)?;
    for slot in 0..numbers.len() {
        carry(seeds, facts, &mut wider, buckets, numbers[slot])?;
    }
    Ok(wider)
}

/// Slots of that size, with these numbers, so many of which were put.
fn many(
    alloc: Global,
    seeds: &Seeds,
    facts: &[StoredFact],
    numbers: &[u32],
    size: u8,
    used: u32,
) -> Result<Slots, Memory>
    ensures holds { IfOk result (λ slots. (slot place : ℕ) (fact : AFact) → slice_index numbers.now slot ≡ suc place →
        slice_get facts.now place ≡ Some fact → Holds seeds.now slots fact place) }
    ensures slots { IfOk result HasSlots }
    ensures room { IfOk result HasRoom }
{
    let numbers = spread(alloc, seeds, facts, numbers, count(size))?;
    Ok(Slots::Many {
        size,
        used,
        numbers,
    })
}

/// The same numbers, with room for as many more.
fn copied(numbers: &Vec<u32>) -> Result<Vec<u32>, AllocError>
    ensures { IfOk result (λ copy. copy.items ≡ numbers.now.items) }
{
    let alloc = *numbers.allocator();
    let mut copy = Vec::with_capacity(alloc, numbers.capacity())?;
    copy.extend_from_slice(numbers)?;
    Ok(copy)
}

impl Clone for Slots {
    ghost use Rattle.facts.specs.Slots.{AreSame};

    ghost is_clone = { AreSame };

    fn clone(&self) -> Result<Slots, AllocError> {
        match self {
            Slots::Few(numbers) => Ok(Slots::Few(*numbers)),
            Slots::Many {
                size,
                used,
                numbers,
            } => Ok(Slots::Many {
                size: *size,
                used: *used,
                numbers: copied(numbers)?,
            }),
        }
    }
}

impl Slots {
    /// No fact.
    pub(crate) fn new() -> Slots
        ensures { HasSlots result }
    {
        Slots::Few([0; FEW])
    }

    /// What the slots hold.
    #[inline(always)]
    fn numbers(&self) -> &[u32]
        ensures { result.now ≡ numbers_of self.now }
    {
        match self {
            Slots::Few(numbers) => numbers,
            Slots::Many { numbers, .. } => numbers.as_slice(),
        }
    }

    #[inline(always)]
    fn bucket(&self, seeds: &Seeds, fact: Fact) -> usize
        ensures value { result ≡ bucket_of seeds.now (buckets_of self.now) fact }
        ensures within { result ≤ buckets_of self.now }
    {
        match self {
            Slots::Few(_) => 0,
            Slots::Many { size, .. } => bucket(seeds, count(*size), fact),
        }
    }

    /// Whether there is no room for one fact more: of few no slot is free, or of many half as many numbers were put as there are buckets,
    /// so that a search passes few.
    #[inline(always)]
    fn is_full(&self) -> bool
        ensures { IsTrue result ⊎ HasRoom self.now }
    {
        match self {
            Slots::Few(numbers) => numbers[FEW - 1] != 0,
            Slots::Many { size, used, .. } => count(*size) / 2 <= *used as usize,
        }
    }

    /// Makes room for the fact, and tells the slot that it goes into: this one, the first that is free for it, where there was room.
    /// Fails where memory is refused; then nothing changes.
    #[inline(always)]
    pub(crate) fn make_room(
        &mut self,
        alloc: Global,
        seeds: &Seeds,
        facts: &[StoredFact],
        fact: Fact,
        slot: usize,
    ) -> Result<usize, Memory>
        requires slots { HasSlots self.old }
        requires free { IsFirstFree (numbers_of self.old) (bucket_of seeds.now (buckets_of self.old) fact) slot }
        ensures holds { StillHolds seeds.now facts.now self.old self.new }
        ensures slots { HasSlots self.new }
        ensures free { IfOk result (λ slot. IsFirstFree (numbers_of self.new) (bucket_of seeds.now (buckets_of self.new) fact) slot) }
        ensures room { IfOk result (λ slot. CanHold self.new slot) }
    {
        if !self.is_full() {
            return Ok(slot);
        }
        self.grow(alloc, seeds, facts)?;
        Ok(first_free(self.numbers(), self.bucket(seeds, fact)))
    }

    /// Makes slots for many, or for twice as many. Fails where memory is refused; then nothing changes.
    fn grow(&mut self, alloc: Global, seeds: &Seeds, facts: &[StoredFact]) -> Result<(), Memory>
        requires { HasSlots self.old }
        ensures holds { StillHolds seeds.now facts.now self.old self.new }
        ensures slots { HasSlots self.new }
        ensures room { OnOk result (HasRoom self.new) }
    {
        *self = match self {
            Slots::Few(numbers) => many(alloc, seeds, facts, numbers, FIRST_SIZE, FEW as u32)?,
            Slots::Many {
                size,
                used,
                numbers,
            } => many(
                alloc,
                seeds,
                facts,
                numbers.as_slice(),
                size.saturating_add(1),
                *used,
            )?,
        };
        Ok(())
    }

    /// The place of the fact, where it stands in its slots, or else the slot that it goes into.
    #[inline(always)]
    pub(crate) fn search(&self, seeds: &Seeds, facts: &[StoredFact], fact: Fact) -> Found
        requires { HasSlots self.now }
        ensures there { IfAt result (λ place. slice_get facts.now place ≡ Some fact) }
        ensures free { IfFree result (IsFirstFree (numbers_of self.now) (bucket_of seeds.now (buckets_of self.now) fact)) }
        ensures absent { IfFree result (λ _. HoldsNot seeds.now facts.now self.now fact) }
    {
        let bucket = self.bucket(seeds, fact);
        search(facts, self.numbers(), bucket, fact)
    }

    /// Puts a number into a free slot. Fails where memory is refused; then nothing changes.
    #[inline(always)]
    pub(crate) fn put(&mut self, slot: usize, number: u32) -> Result<(), Memory>
        requires within { CanHold self.old slot }
        requires free { slice_index (numbers_of self.old) slot ≡ 0 }
        requires number { 0 < number }
        ensures stands { OnOk result (StandsIn (numbers_of self.old) (numbers_of self.new) slot number) }
        ensures others { StillStand (numbers_of self.old) (numbers_of self.new) }
        ensures buckets { buckets_of self.new ≡ buckets_of self.old }
        ensures slots { HasSlots self.old → HasSlots self.new }
    {
        match self {
            Slots::Few(few) => {
                fill(few, slot, number);
                Ok(())
            }
            Slots::Many { used, numbers, .. } => {
                *used = used.saturating_add(1);
                occupy(numbers, slot, number)
            }
        }
    }

    /// Puts the number of the fact into the first slot that is free for it, where there is room for more, too. Fails where memory is
    /// refused; each fact is found as before.
    pub(crate) fn insert(
        &mut self,
        alloc: Global,
        seeds: &Seeds,
        facts: &[StoredFact],
        fact: Fact,
        number: u32,
    ) -> Result<(), Memory>
        requires slots { HasSlots self.old }
        requires number { 0 < number }
        ensures holds { StillHolds seeds.now facts.now self.old self.new }
        ensures slots { HasSlots self.new }
        ensures stands { OnOk result (Stands (numbers_of self.new) (bucket_of seeds.now (buckets_of self.new) fact) number) }
    {
        let slot = first_free(self.numbers(), self.bucket(seeds, fact));
        let slot = self.make_room(alloc, seeds, facts, fact, slot)?;
        self.put(slot, number)
    }
}
