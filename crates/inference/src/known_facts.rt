//! The facts so far, and what gave them.
ghost use Rattle.facts.specs.Births.{reason};
ghost use Rattle.inference.specs.Derivations.{with_fact};
ghost use Rattle.inference.specs.Flags.{HasEntryFacts};
ghost use Rattle.inference.specs.Marks.{AreMarks, IsMark};
ghost use Rattle.inference.specs.Predicates.{AreListed, IsBefore, IsLast, end_of};
ghost use Rattle.inference.specs.Visits.{IsBy};
ghost use Rattle.facts.specs.declared.contexts.Fact.{Fact as Fact2};
ghost use Rattle.normal_forms.specs.declared.forms.PropId2.TheVariants as properties;
ghost use Rattle.inference.specs.declared.known_facts.Stop.TheVariants as stops;
ghost use Rattle.std.specs.Prelude.{◌≡◌, ◌<◌, ◌^◌, Some, [], length, take, slice_get, Contains, Ok, IfOk, IfSome, IsNone, OnErr, false, true};

use crate::birth_list::BirthList;
use crate::context_flags::ContextFlags;
use crate::predicate_lists::{PredicateLists, copied};
use crate::predicates::Predicate;
use axioms::{Memory, PropId};
use facts::{Birth, Context, Fact, FactTable, StoredFact};
use normal_forms::PropId2;
use std::alloc::Global;
use std::hash::RandomState;
use std::marker::Model;
use thiserror::Error;

/// Why the work stopped.
#[derive(Clone, Copy, Debug, PartialEq, Eq, Error)]
pub enum Stop {
    /// A growth of memory was refused.
    #[error("out of memory")]
    Memory,
    /// There are more facts than may be.
    #[error("more facts than the limit")]
    Limit,
}

impl From<Memory> for Stop {
    ghost from_gives = { λ _ e. e ≡ stops.Memory };

    fn from(_error: Memory) -> Stop {
        Stop::Memory
    }
}

/// Facts in order of birth, fewer than 2^32, each with what gave it.
#[derive(Drop)]
pub struct KnownFacts {
    facts: FactTable,
    births: BirthList,
    /// Lists of the facts of each class, and of each property.
    lists: PredicateLists,
    /// A mark of each of the first facts, by which an edge and its property are told without a look at the fact.
    marks: Vec<u16>,
    /// Contexts that are known to have what is in each context.
    entered: ContextFlags,
}

impl Model for KnownFacts {
    ghost use Rattle.inference.specs.Derivations.{Derived};
    ghost use Rattle.inference.specs.Flags.{AreFlags};
    ghost use Rattle.inference.specs.Marks.{AreMarks};
    ghost use Rattle.inference.specs.Predicates.{AreListed};

    ghost Value = { Derived };

    ghost view = { λ s. record { facts = s.facts; births = s.births.reasons } };

    ghost invariant = { λ s. AreMarks s.facts s.marks.items × AreFlags (record { facts = s.facts; births = s.births.reasons }) s.entered × AreListed s.facts s.lists };
}

/// The mark of a fact of which it tells nothing.
const UNMARKED: u16 = u16::MAX;

/// The mark of a fact: the number of its property, where it is an edge and that is below the greatest mark.
fn mark_of(fact: Fact) -> u16
    ensures { IsMark result fact }
{
    match fact {
        Fact::Edge(_, PropId2::Property(PropId(number)), _) if number < UNMARKED as u32 => {
            number as u16
        }
        Fact::In(..) | Fact::Edge(..) => UNMARKED,
    }
}

/// Marks those of the facts that are not marked, where memory is to be had.
fn mark_all(facts: &[StoredFact], marks: &mut Vec<u16>)
    requires { AreMarks facts.now marks.old.items }
    ensures { AreMarks facts.now marks.new.items }
{
    for place in marks.len()..facts.len() {
        if marks.push(mark_of(facts[place].get())).is_err() {
            return;
        }
    }
}

/// Takes the facts from that number on out of the lists.
fn unlist(lists: &mut PredicateLists, facts: &[StoredFact], len: usize)
    requires { AreListed facts.now lists.old }
    ensures { AreListed (take len facts.now) lists.new }
{
    let mut end = facts.len();
    while len < end {
        end -= 1;
        lists.pop(facts[end].get());
    }
}

impl KnownFacts {
    /// No facts.
    pub fn new(alloc: Global, state: RandomState) -> Self
        ensures facts { result.facts ≡ [] }
        ensures births { result.births ≡ [] }
    {
        KnownFacts {
            facts: FactTable::new(alloc, state),
            births: BirthList::new(alloc),
            lists: PredicateLists::new(alloc),
            marks: Vec::new(alloc),
            entered: ContextFlags::new(alloc),
        }
    }

    /// The same facts, each with what gave it.
    ///
    /// # Errors
    ///
    /// `Memory` where memory was refused.
    pub fn copy(&self) -> Result<KnownFacts, Memory>
        ensures { IfOk result (λ f. f ≡ self.now) }
    {
        let births = self.births.copy()?;
        let lists = self.lists.copy()?;
        let facts = self.facts.copy()?;
        let marks = copied(&self.marks)?;
        let alloc = self.allocator();
        Ok(KnownFacts {
            facts,
            births,
            lists,
            marks,
            entered: ContextFlags::new(alloc),
        })
    }

    /// What gives it memory.
    pub(crate) fn allocator(&self) -> Global {
        *self.marks.allocator()
    }

    /// The facts, in order of birth.
    pub fn as_slice(&self) -> &[StoredFact]
        ensures value { result.now ≡ self.now.facts }
        ensures few { length result.now < 2 ^ 32 }
    {
        self.facts.as_slice()
    }

    /// How many facts there are.
    pub fn len(&self) -> usize
        ensures value { result ≡ length self.now.facts }
        ensures few { result < 2 ^ 32 }
    {
        self.facts.len()
    }

    /// The number of the last fact of the class, or of the property, if there is one.
    pub fn last_of(&self, predicate: Predicate) -> Option<u32>
        ensures { IsLast predicate self.now.facts (length self.now.facts) (end_of result) }
    {
        self.lists.last(predicate)
    }

    /// The number of the last fact of the same class, or of the same property, before the fact of that number, if there is one; none where there is
    /// no fact of that number.
    pub fn before(&self, number: u32) -> Option<u32>
        ensures { IsBefore self.now.facts number result }
    {
        self.lists.before(number)
    }

    /// The fact of that number.
    pub fn get(&self, number: u32) -> Fact
        requires { number < length self.now.facts }
        ensures { slice_get self.now.facts number ≡ Some result }
    {
        self.facts.as_slice()[number as usize].get()
    }

    /// What gave the fact of that number.
    pub fn birth(&self, number: u32) -> &Birth
        requires { number < length self.now.births }
        ensures { slice_get self.now.births number ≡ Some (reason result.now) }
    {
        self.births.at(number as usize)
    }

    /// What gave the facts, in their order.
    pub fn births(&self) -> &BirthList
        ensures { result.now.reasons ≡ self.now.births }
    {
        &self.births
    }

    /// Lets what gave the facts be shared by copies, where memory is to be had.
    pub fn share_births(&mut self)
        ensures { self.new ≡ self.old }
    {
        self.births.share();
    }

    /// The facts, and what gave them, without what finds a fact.
    pub fn into_lists(self) -> (Vec<StoredFact>, BirthList)
        ensures facts { result.0.items ≡ self.facts }
        ensures births { result.1.reasons ≡ self.births }
    {
        let KnownFacts {
            facts,
            mut births,
            lists: _,
            marks: _,
            entered: _,
        } = self;
        births.unshare();
        (facts.into_list(), births)
    }

    /// The number of the fact, if it is there.
    #[inline(always)]
    pub fn find(&self, fact: Fact) -> Option<u32>
        ensures there { IfSome result (λ number. slice_get self.now.facts number ≡ Some fact) }
        ensures none { IsNone result → Contains self.now.facts fact → ⊥ }
    {
        self.facts.find(fact)
    }

    /// The number of the fact, if it is there. Where it is sought past many of its context, they are found faster from now on.
    #[inline(always)]
    pub(crate) fn seek(&mut self, fact: Fact) -> Option<u32>
        ensures same { self.new ≡ self.old }
        ensures there { IfSome result (λ number. slice_get self.old.facts number ≡ Some fact) }
        ensures none { IsNone result → Contains self.old.facts fact → ⊥ }
    {
        self.facts.seek(fact)
    }

    /// Finds the facts of the context fastest from now on, until another is to own them.
    #[inline(always)]
    pub(crate) fn own(&mut self, context: Context)
        ensures { self.new ≡ self.old }
    {
        self.facts.own(context);
    }

    /// Adds a fact with what gave it, unless it is there, and tells whether it was new.
    pub(crate) fn put(&mut self, fact: Fact, birth: Birth) -> Result<bool, Memory>
        requires { length self.old.facts < u32.MAX }
        ensures new { result ≡ Ok true → (Contains self.old.facts fact → ⊥) × (self.new ≡ with_fact self.old fact (reason birth)) }
        ensures known { result ≡ Ok false → Contains self.old.facts fact × (self.new ≡ self.old) }
        ensures err { OnErr result (self.new ≡ self.old) }
    {
        self.births.reserve(1)?;
        let before = self.facts.len();
        let is_new = self.facts.insert(fact)?;
        if is_new {
            let Ok(()) = self.lists.push(fact) else {
                self.facts.truncate(before);
                return Err(Memory);
            };
            self.births.push(birth);
        }
        Ok(is_new)
    }

    /// Marks the facts that are not marked, if marks are wanted and memory is to be had.
    pub(crate) fn mark(&mut self, is_wanted: bool)
        ensures { self.new ≡ self.old }
    {
        if is_wanted {
            mark_all(self.facts.as_slice(), &mut self.marks);
        }
    }

    /// The property of the edge of that number, where a mark tells it.
    #[inline(always)]
    pub(crate) fn marked(&self, number: u32) -> Option<PropId>
        ensures { IfSome result (λ p. (f : Fact2) × (slice_get self.now.facts number ≡ Some f) × IsBy (properties.Property p) f) }
    {
        match self.marks.get(number as usize) {
            Some(mark) if *mark < UNMARKED => Some(PropId(*mark as u32)),
            _ => None,
        }
    }

    /// Whether the context is known to have an entry, and to be in itself where it is an expression.
    #[inline(always)]
    pub(crate) fn knows_entered(&self, context: Context) -> bool
        ensures { result ≡ true → HasEntryFacts self.now context }
    {
        self.entered.has(context)
    }

    /// Keeps in mind that the context has an entry, and is in itself where it is an expression, if memory is to be had.
    pub(crate) fn flag_entered(&mut self, context: Context)
        requires { HasEntryFacts self.old context }
        ensures { self.new ≡ self.old }
    {
        if self.entered.add(context).is_err() {
            return;
        }
    }

    /// Makes room for so many facts more of so many contexts at once, where memory is to be had; else room is made as they come.
    pub fn expect(&mut self, facts: usize, contexts: usize)
        ensures { self.new ≡ self.old }
    {
        if self.births.reserve(facts).is_ok()
            && self.lists.reserve(facts).is_ok()
            && self.facts.reserve(facts, contexts).is_ok()
        {
            return;
        }
    }

    /// Keeps the first so many facts.
    pub fn truncate(&mut self, len: usize)
        ensures facts { self.new.facts ≡ take len self.old.facts }
        ensures births { self.new.births ≡ take len self.old.births }
    {
        unlist(&mut self.lists, self.facts.as_slice(), len);
        self.facts.truncate(len);
        self.births.truncate(len);
        self.marks.truncate(len);
        self.entered.clear();
    }
}
