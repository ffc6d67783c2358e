//! The facts of one home, found by their ends.
ghost use Rattle.facts.specs.Chains.{home_of};
ghost use Rattle.facts.specs.Tables.{AreMarked};
ghost use Rattle.facts.specs.declared.contexts.Fact.{Fact as AFact};
ghost use Rattle.facts.specs.declared.homes.Key.TheVariants as keys;
ghost use Rattle.std.specs.Prelude.{◌≡◌, ◌↔◌, ◌<◌, ◌++◌, ◌∷◌, [], List, length, slice_get, Contains, IfSome, IsNone, IsTrue, None, OnOk, Some};

use crate::chained::ChainedFacts;
use crate::contexts::Fact;
use crate::homes::{Key, home_of};
use crate::numbers::at;
use axioms::Memory;
use std::alloc::Global;

/// The facts of one home, its owner, each with its place in a table: so they are found without a look at the table.
#[derive(Drop)]
pub(crate) struct Marks {
    owner: Option<usize>,
    facts: ChainedFacts,
    // of each of the facts the place in the table
    places: Vec<u32>,
}

impl Marks {
    /// No marks.
    pub(crate) fn new(alloc: Global) -> Marks
        ensures { (table : List AFact) → AreMarked table result }
    {
        Marks {
            owner: None,
            facts: ChainedFacts::new(alloc, Key::End),
            places: Vec::new(alloc),
        }
    }

    /// Whether the home is the owner.
    #[inline(always)]
    pub(crate) fn owns(&self, home: usize) -> bool
        ensures { IsTrue result ↔ (self.now.owner ≡ Some home) }
    {
        self.owner == Some(home)
    }

    /// The place of the fact, which is of the owner, if it is there.
    #[inline(always)]
    pub(crate) fn find(&self, fact: Fact) -> Option<u32>
        ensures there { IfSome result (λ place. (table : List AFact) → AreMarked table self.now → slice_get table place ≡ Some fact) }
        ensures none { IsNone result → (table : List AFact) → AreMarked table self.now → self.now.owner ≡ Some (home_of fact) →
            Contains table fact → ⊥ }
    {
        match self.facts.walk(fact).place {
            Some(place) => Some(at(&self.places, place as usize)),
            None => None,
        }
    }

    /// Takes all marks away; there is no owner.
    #[inline(never)]
    pub(crate) fn clear(&mut self)
        ensures owner { self.new.owner ≡ None }
        ensures marked { (table : List AFact) → AreMarked table self.new }
    {
        self.owner = None;
        self.facts.truncate(0);
        self.places.clear();
    }

    /// Marks a fact at its place. Fails where memory is refused; then nothing changes.
    #[inline(always)]
    fn mark(&mut self, fact: Fact, place: u32) -> Result<(), Memory>
        ensures owner { self.new.owner ≡ self.old.owner }
        ensures facts { OnOk result (self.new.facts.facts ≡ self.old.facts.facts ++ fact ∷ []) }
        ensures places { OnOk result (self.new.places.items ≡ self.old.places.items ++ place ∷ []) }
    {
        if self.facts.len() >= u32::MAX as usize {
            return Err(Memory);
        }
        self.places.reserve(1)?;
        self.facts.push(fact)?;
        self.places.push_reserved(place);
        Ok(())
    }

    /// Marks the fact that was added to the table at the place, where it is of the owner. Where memory is refused there is no owner.
    #[inline(always)]
    pub(crate) fn add(&mut self, fact: Fact, place: u32)
        ensures { (table : List AFact) → AreMarked table self.old → place ≡ length table → AreMarked (table ++ fact ∷ []) self.new }
    {
        if !self.owns(home_of(fact)) {
            return;
        }
        let Ok(()) = self.mark(fact, place) else {
            return self.clear();
        };
    }

    /// Marks the facts of the home in the table. Fails where memory is refused.
    #[inline(never)]
    fn fill(&mut self, table: &ChainedFacts, home: usize) -> Result<(), Memory>
        requires marked { AreMarked table.now.facts self.old }
        requires home { table.now.by ≡ keys.Home }
        requires none { self.old.owner ≡ None }
        ensures { OnOk result (AreMarked table.now.facts self.new) }
    {
        let mut number = table.newest(home);
        while number != 0 {
            let place = number - 1;
            self.mark(table.get(place), place)?;
            number = table.before(place);
        }
        self.owner = Some(home);
        Ok(())
    }

    /// How many facts are marked.
    pub(crate) fn len(&self) -> u32
        ensures { result ≡ length self.now.facts.facts }
    {
        self.facts.len() as u32
    }

    /// Makes the home the owner, and marks its facts in the table. Where memory is refused there is no owner.
    pub(crate) fn own(&mut self, table: &ChainedFacts, home: usize)
        requires marked { AreMarked table.now.facts self.old }
        requires home { table.now.by ≡ keys.Home }
        ensures { AreMarked table.now.facts self.new }
    {
        self.clear();
        if self.fill(table, home).is_err() {
            self.clear();
        }
    }
}
