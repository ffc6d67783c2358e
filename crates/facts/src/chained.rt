//! Facts in order, those with one key linked.
ghost use Rattle.facts.specs.Chains.{IsNewest, key_of};
ghost use Rattle.facts.specs.declared.contexts.Fact.{Fact as AFact};
ghost use Rattle.std.specs.Prelude.{◌≡◌, ◌<◌, ◌-◌, ◌^◌, ◌++◌, ◌∷◌, [], length, slice_get, take, Contains, IfOk, IfSome, IsNone, OnErr, OnOk, Some};

use crate::contexts::Fact;
use crate::homes::{Key, key_of};
use crate::numbers::{at, copied, extend, put};
use crate::slots::is_at;
use crate::stored::StoredFact;
use axioms::Memory;
use std::alloc::Global;
use std::marker::Model;

/// Facts in order, fewer than 2^32. The facts that have one key are walked from the newest to the oldest.
#[derive(Drop)]
pub(crate) struct ChainedFacts {
    by: Key,
    facts: Vec<StoredFact>,
    // by key the number of the newest fact that has it, which is one more than its place, or 0
    newest: Vec<u32>,
    // by place the number of the fact before that has the same key, or 0
    before: Vec<u32>,
}

impl Model for ChainedFacts {
    ghost use Rattle.facts.specs.Chains.{AreChained, Chained};

    ghost Value = { Chained };

    ghost view = { λ c. record { by = c.by; facts = c.facts.items } };

    ghost invariant = { λ c. AreChained (record { by = c.by; facts = c.facts.items }) c.newest.items c.before.items };
}

/// What a walk comes to.
#[derive(Clone, Copy, Drop)]
pub(crate) struct Walk {
    /// The place of the fact, where it was met.
    pub place: Option<u32>,
    /// How many others were passed.
    pub steps: u32,
}

/// The same facts, with room for as many more.
fn copied_facts(facts: &Vec<StoredFact>) -> Result<Vec<StoredFact>, Memory>
    ensures { IfOk result (λ copy. copy.items ≡ facts.now.items) }
{
    let alloc = *facts.allocator();
    let mut copy = Vec::with_capacity(alloc, facts.capacity())?;
    copy.extend_with_clones(facts)?;
    Ok(copy)
}

impl ChainedFacts {
    /// No facts.
    pub(crate) fn new(alloc: Global, by: Key) -> ChainedFacts
        ensures { result ≡ record { by = by; facts = [] } }
    {
        ChainedFacts {
            by,
            facts: Vec::new(alloc),
            newest: Vec::new(alloc),
            before: Vec::new(alloc),
        }
    }

    /// The same facts, in the same order. Fails where memory is refused.
    pub(crate) fn copy(&self) -> Result<ChainedFacts, Memory>
        ensures { IfOk result (λ c. c ≡ self.now) }
    {
        let facts = copied_facts(&self.facts)?;
        let newest = copied(&self.newest)?;
        let before = copied(&self.before)?;
        Ok(ChainedFacts {
            by: self.by,
            facts,
            newest,
            before,
        })
    }

    /// The facts, in order.
    #[inline(always)]
    pub(crate) fn as_slice(&self) -> &[StoredFact]
        ensures value { result.now ≡ self.now.facts }
        ensures few { length result.now < 2 ^ 32 }
    {
        self.facts.as_slice()
    }

    /// How many facts there are.
    #[inline(always)]
    pub(crate) fn len(&self) -> usize
        ensures value { result ≡ length self.now.facts }
        ensures few { result < 2 ^ 32 }
    {
        self.facts.len()
    }

    /// The fact at the place.
    #[inline(always)]
    pub(crate) fn get(&self, place: u32) -> Fact
        requires { place < length self.now.facts }
        ensures { slice_get self.now.facts place ≡ Some result }
    {
        self.facts.as_slice()[place as usize].get()
    }

    /// The facts alone, in order.
    pub(crate) fn into_list(self) -> Vec<StoredFact>
        ensures { result.items ≡ self.facts }
    {
        self.facts
    }

    /// Makes room for so many facts more, and for so many keys. Fails where memory is refused; the facts are what they were.
    pub(crate) fn reserve(&mut self, facts: usize, keys: usize) -> Result<(), Memory>
        ensures { self.new ≡ self.old }
    {
        self.facts.reserve(facts)?;
        self.before.reserve(facts)?;
        self.newest.reserve(keys.saturating_sub(self.newest.len()))?;
        Ok(())
    }

    /// The number of the newest fact with that key, or 0.
    #[inline(always)]
    pub(crate) fn newest(&self, key: usize) -> u32
        ensures { IsNewest self.now key (length self.now.facts) result }
    {
        at(&self.newest, key)
    }

    /// The number of the fact before the one at the place that has the same key, or 0.
    #[inline(always)]
    pub(crate) fn before(&self, place: u32) -> u32
        requires { place < length self.now.facts }
        ensures { (fact : AFact) → slice_get self.now.facts place ≡ Some fact → IsNewest self.now (key_of self.now.by fact) place result }
    {
        at(&self.before, place as usize)
    }

    /// Walks the facts that have the key of the fact until it is met.
    #[inline(always)]
    pub(crate) fn walk(&self, fact: Fact) -> Walk
        ensures there { IfSome result.place (λ place. slice_get self.now.facts place ≡ Some fact) }
        ensures none { IsNone result.place → Contains self.now.facts fact → ⊥ }
    {
        let mut number = self.newest(key_of(self.by, fact));
        let mut steps: u32 = 0;
        while number != 0 {
            let place = number - 1;
            if is_at(&self.facts, place, fact) {
                return Walk {
                    place: Some(place),
                    steps,
                };
            }
            number = self.before(place);
            steps = steps.saturating_add(1);
        }
        Walk { place: None, steps }
    }

    /// Adds a fact at the end. Fails where memory is refused; then the facts are what they were.
    #[inline(always)]
    pub(crate) fn push(&mut self, fact: Fact) -> Result<(), Memory>
        requires { length self.old.facts < u32.MAX }
        ensures added { OnOk result (self.new ≡ record { by = self.old.by; facts = self.old.facts ++ fact ∷ [] }) }
        ensures err { OnErr result (self.new ≡ self.old) }
    {
        let key = key_of(self.by, fact);
        extend(&mut self.newest, key)?;
        self.facts.reserve(1)?;
        let before = at(&self.newest, key);
        self.before.push(before)?;
        put(&mut self.newest, key, self.facts.len() as u32 + 1);
        self.facts.push_reserved(StoredFact::new(fact));
        Ok(())
    }

    /// Takes away the last fact, if there is one.
    fn pop(&mut self)
        ensures by { self.new.by ≡ self.old.by }
        ensures facts { self.new.facts ≡ take (length self.old.facts - 1) self.old.facts }
    {
        let Some(fact) = self.facts.pop() else {
            return;
        };
        let key = key_of(self.by, fact.get());
        if let Some(before) = self.before.pop() {
            put(&mut self.newest, key, before);
        }
    }

    /// Keeps the first so many facts.
    pub(crate) fn truncate(&mut self, len: usize)
        ensures by { self.new.by ≡ self.old.by }
        ensures facts { self.new.facts ≡ take len self.old.facts }
    {
        while len < self.facts.len() {
            self.pop();
        }
    }
}
