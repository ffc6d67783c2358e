//! Slots of the homes that are sought often.
ghost use Rattle.facts.specs.Chains.{home_of};
ghost use Rattle.facts.specs.Slots.{AreSame, HasSlots};
ghost use Rattle.facts.specs.Tables.{AreLinked, HoldHome};
ghost use Rattle.facts.specs.declared.contexts.Fact.{Fact as AFact};
ghost use Rattle.facts.specs.declared.homes.Key.TheVariants as keys;
ghost use Rattle.facts.specs.declared.seeds.Seeds.{Seeds as TheSeeds};
ghost use Rattle.std.specs.List.{AllZip};
ghost use Rattle.std.specs.Prelude.{◌≡◌, ◌↔◌, ◌+◌, ◌<◌, ◌≤◌, ◌++◌, ◌∷◌, [], List, length, slice_get, slice_index, Contains, IfOk, IfSome, IsNone, IsTrue, OnOk, Some};

use crate::chained::ChainedFacts;
use crate::contexts::Fact;
use crate::homes::home_of;
use crate::numbers::{at, copied, extend, put};
use crate::seeds::Seeds;
use crate::slots::{Found, Slots};
use crate::stored::StoredFact;
use axioms::Memory;
use std::alloc::Global;

/// A home in which walks have passed so many facts gets slots.
pub(crate) const MANY: u32 = 128;

/// Slots of some homes, by which their facts are found, and how far others were walked.
#[derive(Drop)]
pub(crate) struct Links {
    // by home how many facts walks have passed there, fewer than MANY, or MANY more than the place of its slots
    numbers: Vec<u32>,
    slots: Vec<Slots>,
}

/// The same slots, with room for as many more.
fn copied_slots(slots: &Vec<Slots>) -> Result<Vec<Slots>, Memory>
    ensures { IfOk result (λ copy. AllZip AreSame slots.now.items copy.items) }
{
    let alloc = *slots.allocator();
    let mut copy = Vec::with_capacity(alloc, slots.capacity())?;
    copy.extend_with_clones(slots)?;
    Ok(copy)
}

/// Slots of the facts of the home. Fails where memory is refused.
fn gather(alloc: Global, seeds: &Seeds, facts: &ChainedFacts, home: usize) -> Result<Slots, Memory>
    requires { facts.now.by ≡ keys.Home }
    ensures slots { IfOk result HasSlots }
    ensures holds { IfOk result (HoldHome seeds.now facts.now.facts home) }
{
    let mut slots = Slots::new();
    let mut number = facts.newest(home);
    while number != 0 {
        let place = number - 1;
        let fact = facts.get(place);
        slots.insert(alloc, seeds, facts.as_slice(), fact, number)?;
        number = facts.before(place);
    }
    Ok(slots)
}

impl Links {
    /// No slots.
    pub(crate) fn new(alloc: Global) -> Links
        ensures { (seeds : TheSeeds) (facts : List AFact) → AreLinked seeds facts result }
    {
        Links {
            numbers: Vec::new(alloc),
            slots: Vec::new(alloc),
        }
    }

    /// The same slots, with room for as many more. Fails where memory is refused.
    pub(crate) fn copy(&self) -> Result<Links, Memory>
        ensures { IfOk result (λ copy. (seeds : TheSeeds) (facts : List AFact) → AreLinked seeds facts self.now → AreLinked seeds facts copy) }
    {
        let slots = copied_slots(&self.slots)?;
        let numbers = copied(&self.numbers)?;
        Ok(Links { numbers, slots })
    }

    /// `MANY` more than the place of the slots of the home, or how many facts walks have passed there, where it has none.
    #[inline(always)]
    pub(crate) fn of(&self, home: usize) -> u32
        ensures { result ≡ slice_index self.now.numbers.items home }
    {
        at(&self.numbers, home)
    }

    /// The place of the fact, whose home has slots, if it is there.
    #[inline(always)]
    pub(crate) fn find(
        &self,
        seeds: &Seeds,
        facts: &[StoredFact],
        fact: Fact,
        number: u32,
    ) -> Option<u32>
        requires linked { AreLinked seeds.now facts.now self.now }
        requires number { number ≡ slice_index self.now.numbers.items (home_of fact) }
        requires some { MANY ≤ number }
        ensures there { IfSome result (λ place. slice_get facts.now place ≡ Some fact) }
        ensures none { IsNone result → Contains facts.now fact → ⊥ }
    {
        match self.slots[(number - MANY) as usize].search(seeds, facts, fact) {
            Found::At(place) => Some(place),
            Found::Free(_) => None,
        }
    }

    /// Puts a fact that is to be added at the end into the slots of its home, if it has some. Fails where memory is refused; each fact
    /// is found as before.
    #[inline(always)]
    pub(crate) fn add(
        &mut self,
        alloc: Global,
        seeds: &Seeds,
        facts: &[StoredFact],
        fact: Fact,
    ) -> Result<(), Memory>
        requires linked { AreLinked seeds.now facts.now self.old }
        requires few { length facts.now < u32.MAX }
        ensures linked { AreLinked seeds.now facts.now self.new }
        ensures added { OnOk result (AreLinked seeds.now (facts.now ++ fact ∷ []) self.new) }
    {
        let number = self.of(home_of(fact));
        if number < MANY {
            return Ok(());
        }
        let place = (number - MANY) as usize;
        self.slots[place].insert(alloc, seeds, facts, fact, facts.len() as u32 + 1)
    }

    /// Counts facts that a walk passed in the home, which has no slots, and says whether walks have passed many there with them. Then, and
    /// where memory is refused, they are not counted.
    pub(crate) fn pass(&mut self, home: usize, steps: u32) -> bool
        ensures linked { (seeds : TheSeeds) (facts : List AFact) → AreLinked seeds facts self.old → AreLinked seeds facts self.new }
        ensures many { IsTrue result ↔ (MANY ≤ slice_index self.old.numbers.items home + steps) }
    {
        let passed = self.of(home).saturating_add(steps);
        if MANY <= passed {
            return true;
        }
        let Ok(()) = extend(&mut self.numbers, home) else {
            return false;
        };
        put(&mut self.numbers, home, passed);
        false
    }

    /// Makes slots of the home. Fails where memory is refused; each fact is found as before.
    pub(crate) fn link(
        &mut self,
        alloc: Global,
        seeds: &Seeds,
        facts: &ChainedFacts,
        home: usize,
    ) -> Result<(), Memory>
        requires linked { AreLinked seeds.now facts.now.facts self.old }
        requires home { facts.now.by ≡ keys.Home }
        ensures { AreLinked seeds.now facts.now.facts self.new }
    {
        let slots = gather(alloc, seeds, facts, home)?;
        let number = self.slots.len();
        let most = (u32::MAX - MANY) as usize;
        if most < number {
            return Err(Memory);
        }
        extend(&mut self.numbers, home)?;
        self.slots.push(slots)?;
        put(&mut self.numbers, home, number as u32 + MANY);
        Ok(())
    }
}
