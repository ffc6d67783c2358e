//! Which edges chains may join, told by the properties of the two, and for which classes an edge may carry something to its source.
ghost use Rattle.std.specs.Prelude.{◌≡◌, ◌↔◌, ◌<◌, ℕ, List, Contains, IfOk, IfSome, IsTrue, length, slice_get, Some, None, true};
ghost use Rattle.indexes.specs.FormsUnderKeys.{IsUnder};
ghost use Rattle.indexes.specs.Keys.{by_restricted, property_key};
ghost use Rattle.normal_forms.specs.declared.forms.Form.{Form as Form2};
ghost use Rattle.number_sets.specs.Members.{has};
ghost use Rattle.property_closure.specs.PropertyClosures.{Has};
ghost use Rattle.inference.specs.PropertyClosures.{IsClosureOf};
ghost use Rattle.inference.specs.Marks.{HasAbove, HasBit, HasEnd, HasEnds, HasFilled, HasSecondAt, HasSeconds};
ghost use Rattle.inference.specs.Joins.{AreFillers, AreJoins, HasMask};
ghost use Rattle.inference.specs.Plans.{IsPlan};

use crate::fillers::Fillers;
use crate::plans::{PlannedChain, all_plans, plan_at};
use crate::properties::is_listed;
use crate::spared::all_spared;
use crate::visits::has_any;
use axioms::{ExprId, Memory, PropId};
use indexes::IndexedProblem;
use normal_forms::{Class2, Form, PropId2};
use number_sets::{PackedLists, Row};
use property_closure::PropertyClosure;
use std::alloc::Global;
use std::rc::Rc;

/// For each property a mask of those that an edge may have that a chain joins behind one by it, a mask of the properties that it counts
/// as at the end of a chain, and a mask of the properties at or above it. A chain joins two edges only where the first two have a bit in
/// common, and an edge carries something to its source for a class at its target only where the last has one in common with what the
/// class fills. And for the first properties, where there is a chain, the chains that begin with it or with one above it; and of each
/// chain whether no chain needs what it gives as its second premise.
#[derive(Drop)]
pub struct Joins {
    pub(crate) seconds: Vec<u64>,
    pub(crate) ends: Vec<u64>,
    pub(crate) above: Vec<u64>,
    pub(crate) plans: PackedLists<PlannedChain>,
    pub(crate) spared: Row,
    /// What the restrictions need, in memory that the joins of more chains may share.
    pub(crate) fillers: Rc<Fillers>,
}

/// The bit that stands for the property, alone.
#[inline(always)]
pub(crate) fn bit(property: PropId2) -> u64
    ensures { HasBit result property }
{
    let number = match property {
        PropId2::Property(PropId(number)) => number,
        PropId2::Partial(number) => number,
    };
    1 << (number % 64)
}

/// The bit of the second property of the form of that number, if it is a chain.
fn second(problem: &IndexedProblem, number: u32) -> u64
    ensures { HasSecondAt problem.now.forms result number }
{
    match problem.form(number) {
        Some(Form::N6(_, second, _)) => bit(second),
        _ => 0,
    }
}

/// The bits of the second properties of those of the forms that are chains.
fn seconds(problem: &IndexedProblem, numbers: &[u32]) -> u64
    ensures { (n : ℕ) → Contains numbers.now n → HasSecondAt problem.now.forms result n }
{
    let mut mask = 0;
    for number in numbers {
        mask |= second(problem, *number);
    }
    mask
}

/// The bits of the second properties of chains that begin with the property, or one above it.
fn seconds_of(problem: &IndexedProblem, closure: &PropertyClosure, property: PropId2) -> u64
    requires closed { IsClosureOf problem.now.forms closure.now }
    requires has { Has closure.now property }
    ensures { HasSeconds problem.now.forms result property }
{
    let mut mask = 0;
    for above in closure.supers(property) {
        mask |= seconds(problem, problem.chains_from(*above));
    }
    mask
}

/// The bit of the property, if a chain ends with it.
fn end(problem: &IndexedProblem, property: PropId2) -> u64
    ensures { HasEnd problem.now.forms result property }
{
    if has_any(problem.chains_to(property)) {
        bit(property)
    } else {
        0
    }
}

/// The bits of those of the property and the ones above it with which a chain ends.
fn ends_of(problem: &IndexedProblem, closure: &PropertyClosure, property: PropId2) -> u64
    requires closed { IsClosureOf problem.now.forms closure.now }
    requires has { Has closure.now property }
    ensures { HasEnds problem.now.forms result property }
{
    let mut mask = 0;
    for above in closure.supers(property) {
        mask |= end(problem, *above);
    }
    mask
}

/// The bits of the property and of those above it.
fn above_of(problem: &IndexedProblem, closure: &PropertyClosure, property: PropId2) -> u64
    requires closed { IsClosureOf problem.now.forms closure.now }
    requires has { Has closure.now property }
    ensures { HasAbove problem.now.forms result property }
{
    let mut mask = 0;
    for above in closure.supers(property) {
        mask |= bit(*above);
    }
    mask
}

/// The mask at the place; all bits where there is none.
fn mask_at(masks: &[u64], place: usize) -> u64
    ensures there { (mask : ℕ) → slice_get masks.now place ≡ Some mask → result ≡ mask }
    ensures none { slice_get masks.now place ≡ None → result ≡ u64.MAX }
{
    match masks.get(place) {
        Some(mask) => *mask,
        None => u64::MAX,
    }
}

/// Whether the closure has the property.
pub(crate) fn is_known(closure: &PropertyClosure, property: PropId2) -> bool
    ensures { result ≡ true → Has closure.now property }
{
    is_listed(closure.supers(property), property)
}

/// Whether no mask has a bit.
fn are_blank(masks: &[u64]) -> bool {
    for mask in masks {
        if *mask != 0 {
            return false;
        }
    }
    true
}

impl Joins {
    /// No property has a mask.
    fn none(alloc: Global, fillers: Rc<Fillers>) -> Result<Joins, Memory>
        ensures joins { IfOk result (λ joins. (forms : List Form2) → AreFillers forms fillers.value → AreJoins forms joins) }
        ensures seconds { IfOk result (λ joins. length joins.seconds.items ≡ 0) }
        ensures ends { IfOk result (λ joins. length joins.ends.items ≡ 0) }
        ensures above { IfOk result (λ joins. length joins.above.items ≡ 0) }
    {
        let spared = Row::new(alloc, 0)?;
        Ok(Joins {
            seconds: Vec::new(alloc),
            ends: Vec::new(alloc),
            above: Vec::new(alloc),
            plans: PackedLists::new(alloc),
            spared,
            fillers,
        })
    }

    /// What the chains join, for the properties of which a mark may tell, and what edges carry.
    fn all(
        alloc: Global,
        problem: &IndexedProblem,
        closure: &PropertyClosure,
        fillers: Rc<Fillers>,
    ) -> Result<Joins, Memory>
        requires closed { IsClosureOf problem.now.forms closure.now }
        requires fillers { AreFillers problem.now.forms fillers.value }
        ensures { IfOk result (AreJoins problem.now.forms) }
    {
        let mut joins = Joins::none(alloc, fillers)?;
        for number in 0..u16::MAX as u32 {
            let property = PropId2::Property(PropId(number));
            if !is_known(closure, property) {
                return Ok(joins);
            }
            joins.seconds.push(seconds_of(problem, closure, property))?;
            joins.ends.push(ends_of(problem, closure, property))?;
            joins.above.push(above_of(problem, closure, property))?;
        }
        Ok(joins)
    }

    /// What the chains join, for the properties of which a mark may tell, and what edges carry; with no masks of what chains join, and
    /// no plans of them, where there is no chain.
    fn over(
        alloc: Global,
        problem: &IndexedProblem,
        closure: &PropertyClosure,
        fillers: Rc<Fillers>,
    ) -> Result<Joins, Memory>
        requires closed { IsClosureOf problem.now.forms closure.now }
        requires fillers { AreFillers problem.now.forms fillers.value }
        ensures { IfOk result (AreJoins problem.now.forms) }
    {
        let mut joins = Joins::all(alloc, problem, closure, fillers)?;
        if are_blank(&joins.seconds) {
            joins.seconds.clear();
            joins.ends.clear();
            return Ok(joins);
        }
        joins.plans = all_plans(alloc, problem, closure)?;
        joins.spared = all_spared(alloc, problem, closure)?;
        Ok(joins)
    }

    /// What the chains and the restrictions of the problem join and carry.
    ///
    /// # Errors
    ///
    /// `Memory` where memory was refused.
    pub fn of(
        alloc: Global,
        problem: &IndexedProblem,
        closure: &PropertyClosure,
    ) -> Result<Joins, Memory>
        requires { IsClosureOf problem.now.forms closure.now }
        ensures { IfOk result (AreJoins problem.now.forms) }
    {
        let fillers = Rc::new(alloc, Fillers::of(alloc, problem)?)?;
        Joins::over(alloc, problem, closure, fillers)
    }

    /// What the chains and the restrictions of a problem join and carry that has the same restrictions: what these need stays in the same
    /// memory.
    ///
    /// # Errors
    ///
    /// `Memory` where memory was refused.
    pub fn with_chains(
        &self,
        alloc: Global,
        problem: &IndexedProblem,
        closure: &PropertyClosure,
    ) -> Result<Joins, Memory>
        requires closed { IsClosureOf problem.now.forms closure.now }
        requires fillers { AreFillers problem.now.forms self.now.fillers.value }
        ensures { IfOk result (AreJoins problem.now.forms) }
    {
        let fillers = self.fillers.clone()?;
        Joins::over(alloc, problem, closure, fillers)
    }

    /// Whether the property has a mask or a plan.
    pub fn has_mask(&self, property: PropId) -> bool
        ensures { IsTrue result ↔ HasMask self.now property.0 }
    {
        let number = property.index();
        number < self.seconds.len()
            || number < self.ends.len()
            || number < self.above.len()
            || number < self.plans.len()
    }

    /// Whether marks are of use: there are masks of what chains join.
    pub(crate) fn are_any(&self) -> bool {
        !self.seconds.is_empty()
    }

    /// The bits of the properties that may stand behind an edge by the property in a chain; all where the property has no mask.
    pub(crate) fn seconds(&self, property: PropId2) -> u64
        ensures { (forms : List Form2) → AreJoins forms self.now → HasSeconds forms result property }
    {
        match property {
            PropId2::Property(PropId(number)) => mask_at(&self.seconds, number as usize),
            PropId2::Partial(_) => u64::MAX,
        }
    }

    /// The bits of the properties that the property counts as at the end of a chain; all where it has no mask.
    pub(crate) fn ends(&self, property: PropId2) -> u64
        ensures { (forms : List Form2) → AreJoins forms self.now → HasEnds forms result property }
    {
        match property {
            PropId2::Property(PropId(number)) => mask_at(&self.ends, number as usize),
            PropId2::Partial(_) => u64::MAX,
        }
    }

    /// The bits of the property and of those above it; all where it has no mask.
    pub(crate) fn above(&self, property: PropId2) -> u64
        ensures { (forms : List Form2) → AreJoins forms self.now → HasAbove forms result property }
    {
        match property {
            PropId2::Property(PropId(number)) => mask_at(&self.above, number as usize),
            PropId2::Partial(_) => u64::MAX,
        }
    }

    /// The chains that begin with the property or with one above it, if they are listed.
    #[inline(always)]
    pub(crate) fn plan(&self, property: PropId2) -> Option<&[PlannedChain]>
        ensures { IfSome result (λ plan. (forms : List Form2) → AreJoins forms self.now → IsPlan forms property plan.now) }
    {
        match property {
            PropId2::Property(PropId(number)) => plan_at(&self.plans, number as usize),
            PropId2::Partial(_) => None,
        }
    }

    /// Whether the form of that number is known to be one of the chains of which no chain needs what they give as its second premise.
    pub(crate) fn spares(&self, number: u32) -> bool
        ensures { result ≡ has self.now.spared number }
    {
        self.spared.contains(number as usize)
    }

    /// The bits of the properties of the restrictions that the class fills; all for `owl:Nothing`, and where it has no mask.
    pub(crate) fn filled(&self, class: Class2) -> u64
        ensures { (forms : List Form2) → AreJoins forms self.now → HasFilled forms result class }
    {
        match class {
            Class2::Expr(ExprId(number)) => mask_at(&self.fillers.as_ref().filled, number as usize),
            Class2::Partial(_) => u64::MAX,
        }
    }

    /// The numbers of the restrictions on the property.
    pub(crate) fn restrictions(&self, property: PropId2) -> &[u32]
        ensures { (forms : List Form2) → AreJoins forms self.now → (n : ℕ) → Contains result.now n ↔ IsUnder by_restricted forms (property_key property) n }
    {
        match property {
            PropId2::Property(property) => self.fillers.as_ref().restrictions.at(property.index()),
            PropId2::Partial(_) => &[],
        }
    }
}
