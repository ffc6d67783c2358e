//! Facts by what they say: those of each class, and those of each property, from the last to the first.
ghost use Rattle.facts.specs.declared.contexts.Fact.{Fact as AFact};
ghost use Rattle.inference.specs.Predicates.{AreListed, HasPlace, IsBefore, IsLast, end_at, end_of};
ghost use Rattle.inference.specs.declared.predicates.Predicate.{Predicate as APredicate};
ghost use Rattle.std.specs.Prelude.{◌≡◌, ◌≢◌, ◌<◌, ◌++◌, ◌∷◌, [], ℕ, IfOk, List, OnErr, OnOk, length, slice_index};

use crate::predicates::Predicate;
use axioms::{ExprId, Memory, PropId};
use facts::Fact;
use normal_forms::{Class2, PropId2};
use std::alloc::Global;
use std::marker::Model;

/// By number the ends of lists. A list ends with one more than the number of its last fact, or with 0, as each does past the last.
#[derive(Drop)]
pub(crate) struct Ends {
    classes: Vec<u32>,
    partial_classes: Vec<u32>,
    properties: Vec<u32>,
    partial_properties: Vec<u32>,
}

impl Model for Ends {
    ghost use Rattle.inference.specs.Predicates.{Ends};

    ghost Value = { Ends };

    ghost view = { λ e. record { classes = e.classes.items; partial_classes = e.partial_classes.items; properties = e.properties.items; partial_properties = e.partial_properties.items } };
}

/// The facts of each predicate, in 4 bytes for each fact, which leads to the one before that says the same.
#[derive(Drop)]
pub(crate) struct PredicateLists {
    ends: Ends,
    /// By number of a fact the end of the list of its predicate before it.
    before: Vec<u32>,
}

impl Model for PredicateLists {
    ghost use Rattle.inference.specs.Predicates.{Linked};

    ghost Value = { Linked };

    ghost view = { λ l. record { ends = l.ends; before = l.before.items } };
}

/// The same items, with as much room. Fails where memory is refused.
pub(crate) fn copied<T: Copy>(items: &Vec<T>) -> Result<Vec<T>, Memory>
    ensures { IfOk result (λ copy. copy.items ≡ items.now.items) }
{
    let mut copy = Vec::with_capacity(*items.allocator(), items.capacity())?;
    copy.extend_from_slice(items)?;
    Ok(copy)
}

/// The end at the place.
#[inline(always)]
fn end_in(ends: &[u32], place: u32) -> u32
    ensures { result ≡ slice_index ends.now place }
{
    match ends.get(place as usize) {
        Some(end) => *end,
        None => 0,
    }
}

/// Gives the place an end, where there is none. Fails where memory is refused; each end is what it was.
#[inline(always)]
fn lengthen(ends: &mut Vec<u32>, place: u32) -> Result<(), Memory>
    ensures same { (i : ℕ) → slice_index ends.new.items i ≡ slice_index ends.old.items i }
    ensures there { OnOk result (place < length ends.new.items) }
{
    while ends.len() <= place as usize {
        ends.push(0)?;
    }
    Ok(())
}

/// Puts the end at the place, where there is one.
#[inline(always)]
fn replace(ends: &mut Vec<u32>, place: u32, end: u32)
    ensures here { place < length ends.old.items → slice_index ends.new.items place ≡ end }
    ensures others { (i : ℕ) → i ≢ place → slice_index ends.new.items i ≡ slice_index ends.old.items i }
{
    if let Some(there) = ends.get_mut(place as usize) {
        *there = end;
    }
}

impl Ends {
    /// Of lists without facts.
    fn new(alloc: Global) -> Ends
        ensures { (q : APredicate) → end_at result q ≡ 0 }
    {
        Ends {
            classes: Vec::new(alloc),
            partial_classes: Vec::new(alloc),
            properties: Vec::new(alloc),
            partial_properties: Vec::new(alloc),
        }
    }

    /// The same ends, with as much room. Fails where memory is refused.
    fn copy(&self) -> Result<Ends, Memory>
        ensures { IfOk result (λ copy. copy ≡ self.now) }
    {
        let classes = copied(&self.classes)?;
        let partial_classes = copied(&self.partial_classes)?;
        let properties = copied(&self.properties)?;
        let partial_properties = copied(&self.partial_properties)?;
        Ok(Ends {
            classes,
            partial_classes,
            properties,
            partial_properties,
        })
    }

    /// The end of the list of the predicate.
    #[inline(always)]
    fn of(&self, predicate: Predicate) -> u32
        ensures { result ≡ end_at self.now predicate }
    {
        match predicate {
            Predicate::Class(Class2::Expr(ExprId(class))) => end_in(&self.classes, class),
            Predicate::Class(Class2::Partial(class)) => end_in(&self.partial_classes, class),
            Predicate::Property(PropId2::Property(PropId(property))) => {
                end_in(&self.properties, property)
            }
            Predicate::Property(PropId2::Partial(property)) => {
                end_in(&self.partial_properties, property)
            }
        }
    }

    /// Gives the list of the predicate an end, where it has none. Fails where memory is refused; each end is what it was.
    #[inline(always)]
    fn lengthen(&mut self, predicate: Predicate) -> Result<(), Memory>
        ensures same { (q : APredicate) → end_at self.new q ≡ end_at self.old q }
        ensures there { OnOk result (HasPlace self.new predicate) }
    {
        match predicate {
            Predicate::Class(Class2::Expr(ExprId(class))) => lengthen(&mut self.classes, class),
            Predicate::Class(Class2::Partial(class)) => lengthen(&mut self.partial_classes, class),
            Predicate::Property(PropId2::Property(PropId(property))) => {
                lengthen(&mut self.properties, property)
            }
            Predicate::Property(PropId2::Partial(property)) => {
                lengthen(&mut self.partial_properties, property)
            }
        }
    }

    /// Puts the end of the list of the predicate, where it has one.
    #[inline(always)]
    fn replace(&mut self, predicate: Predicate, end: u32)
        ensures here { HasPlace self.old predicate → end_at self.new predicate ≡ end }
        ensures others { (q : APredicate) → q ≢ predicate → end_at self.new q ≡ end_at self.old q }
    {
        match predicate {
            Predicate::Class(Class2::Expr(ExprId(class))) => replace(&mut self.classes, class, end),
            Predicate::Class(Class2::Partial(class)) => {
                replace(&mut self.partial_classes, class, end)
            }
            Predicate::Property(PropId2::Property(PropId(property))) => {
                replace(&mut self.properties, property, end)
            }
            Predicate::Property(PropId2::Partial(property)) => {
                replace(&mut self.partial_properties, property, end)
            }
        }
    }
}

/// The number of the fact just before the end of a list, if there is one.
#[inline(always)]
fn last_before(end: u32) -> Option<u32>
    ensures { end_of result ≡ end }
{
    if end == 0 { None } else { Some(end - 1) }
}

impl PredicateLists {
    /// Of no facts.
    pub(crate) fn new(alloc: Global) -> PredicateLists
        ensures { AreListed [] result }
    {
        PredicateLists {
            ends: Ends::new(alloc),
            before: Vec::new(alloc),
        }
    }

    /// The same lists, with as much room. Fails where memory is refused.
    pub(crate) fn copy(&self) -> Result<PredicateLists, Memory>
        ensures { IfOk result (λ copy. copy ≡ self.now) }
    {
        let ends = self.ends.copy()?;
        let before = copied(&self.before)?;
        Ok(PredicateLists { ends, before })
    }

    /// Makes room for so many facts more. Fails where memory is refused.
    pub(crate) fn reserve(&mut self, facts: usize) -> Result<(), Memory>
        ensures { self.new ≡ self.old }
    {
        self.before.reserve(facts)?;
        Ok(())
    }

    /// Lists one fact more. Fails where memory is refused; the facts are listed as before.
    #[inline(always)]
    pub(crate) fn push(&mut self, fact: Fact) -> Result<(), Memory>
        requires { length self.old.before < u32.MAX }
        ensures added { OnOk result ((facts : List AFact) → AreListed facts self.old → AreListed (facts ++ fact ∷ []) self.new) }
        ensures err { OnErr result ((facts : List AFact) → AreListed facts self.old → AreListed facts self.new) }
    {
        let predicate = Predicate::of(fact);
        self.ends.lengthen(predicate)?;
        self.before.push(self.ends.of(predicate))?;
        self.ends.replace(predicate, self.before.len() as u32);
        Ok(())
    }

    /// Takes the last fact out, which is that one.
    pub(crate) fn pop(&mut self, fact: Fact)
        ensures { (facts : List AFact) → AreListed (facts ++ fact ∷ []) self.old → AreListed facts self.new }
    {
        if let Some(end) = self.before.pop() {
            self.ends.replace(Predicate::of(fact), end);
        }
    }

    /// The number of the last fact that says so, if there is one.
    pub(crate) fn last(&self, predicate: Predicate) -> Option<u32>
        ensures { (facts : List AFact) → AreListed facts self.now → IsLast predicate facts (length facts) (end_of result) }
    {
        last_before(self.ends.of(predicate))
    }

    /// The number of the last fact before the one of that number that says the same, if there is one; none where there is no fact of that
    /// number.
    pub(crate) fn before(&self, number: u32) -> Option<u32>
        ensures { (facts : List AFact) → AreListed facts self.now → IsBefore facts number result }
    {
        last_before(end_in(&self.before, number))
    }
}
