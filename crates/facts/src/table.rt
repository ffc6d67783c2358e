//! Facts in order, each once, found by marks, by their hashes, or by a walk.
ghost use Rattle.axioms.specs.WellFormedness.{AreDistinct};
ghost use Rattle.std.specs.Prelude.{◌≡◌, ◌<◌, ◌^◌, ◌++◌, ◌∷◌, [], true, false, length, take, Contains, Ok, IfOk, IfSome, IsNone, OnErr, OnOk, Some, slice_get};

use crate::chained::ChainedFacts;
use crate::contexts::{Context, Fact};
use crate::homes::{Key, home_of, number_of};
use crate::links::{Links, MANY};
use crate::marks::Marks;
use crate::seeds::Seeds;
use crate::stored::StoredFact;
use axioms::Memory;
use std::alloc::Global;
use std::hash::RandomState;
use std::marker::Model;

/// Facts in order, each once, fewer than 2^32. The facts of the context that owns the table are found by marks, those of a context in
/// which walks have passed many by their hashes, and others by a walk from the newest to the oldest. This takes 4 bytes beside a fact, and
/// 8 to 16 more where its context has slots, 4 bytes beside each number of a context, 4 more up to the greatest in which a walk passed any,
/// and 4 beside each number of a class, or of a target.
#[derive(Drop)]
pub struct FactTable {
    alloc: Global,
    seeds: Seeds,
    facts: ChainedFacts,
    links: Links,
    marks: Marks,
}

impl Model for FactTable {
    ghost use Rattle.facts.specs.Tables.{IsTable};
    ghost use Rattle.facts.specs.declared.contexts.Fact.{Fact};
    ghost use Rattle.std.specs.Prelude.{List};

    ghost Value = { List Fact };

    ghost view = { λ t. t.facts.facts };

    ghost invariant = { λ t. IsTable t.seeds t.facts t.links t.marks };
}

impl FactTable {
    /// No facts.
    pub fn new(alloc: Global, state: RandomState) -> FactTable
        ensures { result ≡ [] }
    {
        FactTable {
            alloc,
            seeds: Seeds::new(&state),
            facts: ChainedFacts::new(alloc, Key::Home),
            links: Links::new(alloc),
            marks: Marks::new(alloc),
        }
    }

    /// The same facts, in the same order.
    ///
    /// # Errors
    ///
    /// `Memory` where memory was refused.
    pub fn copy(&self) -> Result<FactTable, Memory>
        ensures { IfOk result (λ t. t ≡ self.now) }
    {
        let facts = self.facts.copy()?;
        let links = self.links.copy()?;
        Ok(FactTable {
            alloc: self.alloc,
            seeds: self.seeds,
            facts,
            links,
            marks: Marks::new(self.alloc),
        })
    }

    /// The facts, in order.
    pub fn as_slice(&self) -> &[StoredFact]
        ensures value { result.now ≡ self.now }
        ensures few { length result.now < 2 ^ 32 }
        ensures distinct { AreDistinct result.now }
    {
        self.facts.as_slice()
    }

    /// How many facts there are.
    pub fn len(&self) -> usize
        ensures value { result ≡ length self.now }
        ensures few { result < 2 ^ 32 }
    {
        self.facts.len()
    }

    /// The place of the fact, if it is there.
    #[inline(always)]
    pub fn find(&self, fact: Fact) -> Option<u32>
        ensures there { IfSome result (λ place. slice_get self.now place ≡ Some fact) }
        ensures none { IsNone result → Contains self.now fact → ⊥ }
    {
        let home = home_of(fact);
        if self.marks.owns(home) {
            return self.marks.find(fact);
        }
        let number = self.links.of(home);
        if MANY <= number {
            let facts = self.facts.as_slice();
            return self.links.find(&self.seeds, facts, fact, number);
        }
        self.facts.walk(fact).place
    }

    /// Makes slots of the facts of the home, if memory is to be had.
    #[inline(never)]
    fn link(&mut self, home: usize)
        ensures { self.new ≡ self.old }
    {
        if self
            .links
            .link(self.alloc, &self.seeds, &self.facts, home)
            .is_err()
        {
            return;
        }
    }

    /// The place of the fact, if it is there. Where walks have passed many facts in its context, that gets slots, if memory is to be had.
    #[inline(always)]
    pub fn seek(&mut self, fact: Fact) -> Option<u32>
        ensures same { self.new ≡ self.old }
        ensures there { IfSome result (λ place. slice_get self.old place ≡ Some fact) }
        ensures none { IsNone result → Contains self.old fact → ⊥ }
    {
        let home = home_of(fact);
        if self.marks.owns(home) || MANY <= self.links.of(home) {
            return self.find(fact);
        }
        let walk = self.facts.walk(fact);
        if walk.steps != 0 && self.links.pass(home, walk.steps) {
            self.link(home);
        }
        walk.place
    }

    /// Makes room for so many facts more, and for so many contexts. Fails where memory is refused; the facts are what they were.
    pub fn reserve(&mut self, facts: usize, contexts: usize) -> Result<(), Memory>
        ensures { self.new ≡ self.old }
    {
        self.facts.reserve(facts, contexts)?;
        Ok(())
    }

    /// Makes the home the owner of the marks. To mark its facts costs as much as to pass them: a home of which many were marked gets slots.
    #[inline(never)]
    fn hand_marks(&mut self, home: usize)
        ensures { self.new ≡ self.old }
    {
        self.marks.own(&self.facts, home);
        let marked = self.marks.len();
        if marked != 0 && self.links.pass(home, marked) {
            self.link(home);
        }
    }

    /// Finds the facts of the context by marks from now on, until another is to own them, unless it has slots. Where memory is refused none
    /// does, and facts are found all the same.
    #[inline(always)]
    pub fn own(&mut self, context: Context)
        ensures { self.new ≡ self.old }
    {
        let home = number_of(context);
        if self.marks.owns(home) || MANY <= self.links.of(home) {
            return;
        }
        self.hand_marks(home);
    }

    /// Adds a fact that is not there at the end. Fails where memory is refused; then the facts are what they were.
    #[inline(always)]
    fn append(&mut self, fact: Fact) -> Result<(), Memory>
        requires few { length self.old < u32.MAX }
        requires new { Contains self.old fact → ⊥ }
        ensures added { OnOk result (self.new ≡ self.old ++ fact ∷ []) }
        ensures err { OnErr result (self.new ≡ self.old) }
    {
        self.links
            .add(self.alloc, &self.seeds, self.facts.as_slice(), fact)?;
        let place = self.facts.len() as u32;
        self.facts.push(fact)?;
        self.marks.add(fact, place);
        Ok(())
    }

    /// Adds a fact at the end, unless it is there, and says whether it was added. Fails where memory is refused; then the facts are
    /// what they were.
    pub fn insert(&mut self, fact: Fact) -> Result<bool, Memory>
        requires { length self.old < u32.MAX }
        ensures yes { result ≡ Ok true → (Contains self.old fact → ⊥) × (self.new ≡ self.old ++ fact ∷ []) }
        ensures no { result ≡ Ok false → Contains self.old fact × (self.new ≡ self.old) }
        ensures err { OnErr result (self.new ≡ self.old) }
    {
        if self.seek(fact).is_some() {
            return Ok(false);
        }
        self.append(fact)?;
        Ok(true)
    }

    /// Keeps the first so many facts.
    pub fn truncate(&mut self, len: usize)
        ensures { self.new ≡ take len self.old }
    {
        self.marks.clear();
        self.facts.truncate(len);
    }

    /// The facts alone, in order.
    pub fn into_list(self) -> Vec<StoredFact>
        ensures { result.items ≡ self }
    {
        self.facts.into_list()
    }
}
