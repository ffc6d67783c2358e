//! For each property the chains that begin with it or with one above it, listed with what they give.
ghost use Rattle.std.specs.Prelude.{◌≡◌, ◌↔◌, Contains, IfOk, IfSome, IsTrue, List, OnOk, Some, slice_get};
ghost use Rattle.facts.specs.Closure.{Problem, Concludes, FromTwo};
ghost use Rattle.facts.specs.declared.contexts.Fact.{Fact as Fact2};
ghost use Rattle.normal_forms.specs.Properties.{IsAtOrBelow, property_forms};
ghost use Rattle.normal_forms.specs.declared.forms.Form.{Form as Form2};
ghost use Rattle.normal_forms.specs.declared.forms.Form.TheVariants as the_forms;
ghost use Rattle.property_closure.specs.PropertyClosures.{Has};
ghost use Rattle.inference.specs.Completeness.{AreAt, IsDrawnFrom};
ghost use Rattle.inference.specs.Derivations.{IsDerived};
ghost use Rattle.inference.specs.Draws.{Draws};
ghost use Rattle.inference.specs.Marks.{HasAbove, HasAboveOf};
ghost use Rattle.inference.specs.Plans.{ArePlans, HasAboveBehind, IsPlan, IsPlanDrawn, PlansAlso, SaysItsChain, SayTheirChains};
ghost use Rattle.inference.specs.PropertyClosures.{IsClosureOf};

use crate::joins::{bit, is_known};
use crate::known_facts::{KnownFacts, Stop};
use crate::premises::Premises;
use crate::properties::is_below;
use crate::rules::Rules;
use axioms::{Memory, PropId};
use facts::Fact;
use indexes::IndexedProblem;
use normal_forms::{Form, PropId2};
use number_sets::PackedLists;
use property_closure::PropertyClosure;
use std::alloc::Global;

/// A chain, with the number of its form: an edge by the first property and behind it one by the second give one by the whole.
#[derive(Clone, Copy)]
pub struct PlannedChain {
    pub number: u32,
    pub first: PropId2,
    pub second: PropId2,
    pub whole: PropId2,
}

/// So many chains are listed in all plans together.
const MOST: usize = 1 << 16;

/// Adds the form of that number to the plan, if it is a chain.
fn plan_form(
    problem: &IndexedProblem,
    number: u32,
    plan: &mut Vec<PlannedChain>,
) -> Result<(), Memory>
    ensures { OnOk result (PlansAlso problem.now.forms (λ n. n ≡ number) plan.old.items plan.new.items) }
{
    if let Some(Form::N6(first, second, whole)) = problem.form(number) {
        plan.push(PlannedChain {
            number,
            first,
            second,
            whole,
        })?;
    }
    Ok(())
}

/// Adds those of the forms to the plan that are chains.
fn plan_forms(
    problem: &IndexedProblem,
    numbers: &[u32],
    plan: &mut Vec<PlannedChain>,
) -> Result<(), Memory>
    ensures { OnOk result (PlansAlso problem.now.forms (Contains numbers.now) plan.old.items plan.new.items) }
{
    for number in numbers {
        plan_form(problem, *number, plan)?;
    }
    Ok(())
}

/// The chains that begin with the property or with one above it.
fn plan_of(
    alloc: Global,
    problem: &IndexedProblem,
    closure: &PropertyClosure,
    property: PropId2,
) -> Result<Vec<PlannedChain>, Memory>
    requires closed { IsClosureOf problem.now.forms closure.now }
    requires has { Has closure.now property }
    ensures { IfOk result (λ plan. IsPlan problem.now.forms property plan.items) }
{
    let mut plan = Vec::new(alloc);
    for above in closure.supers(property) {
        plan_forms(problem, problem.chains_from(*above), &mut plan)?;
    }
    Ok(plan)
}

/// The plans of the first properties: of each, unless their chains would be too many together.
pub(crate) fn all_plans(
    alloc: Global,
    problem: &IndexedProblem,
    closure: &PropertyClosure,
) -> Result<PackedLists<PlannedChain>, Memory>
    requires { IsClosureOf problem.now.forms closure.now }
    ensures { IfOk result (ArePlans problem.now.forms) }
{
    let mut plans = PackedLists::new(alloc);
    let mut left = MOST;
    for number in 0..u16::MAX as u32 {
        let property = PropId2::Property(PropId(number));
        if !is_known(closure, property) {
            return Ok(plans);
        }
        let plan = plan_of(alloc, problem, closure, property)?;
        if plan.len() > left {
            return Ok(plans);
        }
        left -= plan.len();
        plans.push_list(&plan)?;
    }
    Ok(plans)
}

/// The plan at the place, if there is one.
#[inline(always)]
pub(crate) fn plan_at(plans: &PackedLists<PlannedChain>, place: usize) -> Option<&[PlannedChain]>
    ensures { IfSome result (λ plan. slice_get plans.now place ≡ Some plan.now) }
{
    if place < plans.len() {
        Some(plans.at(place))
    } else {
        None
    }
}

/// Whether the property is at or below the end of a chain, where the bits are those of the property and of the ones above it.
#[inline(always)]
fn is_at_end(closure: &PropertyClosure, above: u64, property: PropId2, end: PropId2) -> bool
    ensures { (forms : List Form2) → closure.now.forms ≡ property_forms forms → HasAbove forms above property → IsTrue result ↔ IsAtOrBelow forms property end }
{
    if above & bit(end) == 0 {
        return false;
    }
    is_below(closure, property, end)
}

/// What the chain gives from two facts, where the bits are those of the second's property and of the ones above it.
#[inline(always)]
fn joined_two(
    closure: &PropertyClosure,
    chain: PlannedChain,
    above: u64,
    first: Fact,
    second: Fact,
) -> Option<Fact>
    ensures { (k : Problem) (f : Fact2) → IsClosureOf k.forms closure.now → HasAboveOf k.forms above second → (result ≡ Some f) ↔ FromTwo k (the_forms.N6 chain.first chain.second chain.whole) first second f }
{
    match (first, second) {
        (Fact::Edge(x, before, y), Fact::Edge(z, behind, w))
            if is_at_end(closure, above, behind, chain.second)
                && y == z
                && is_below(closure, before, chain.first) => { Some(Fact::Edge(x, chain.whole, w)) }
        _ => None,
    }
}

/// What the chain gives from the facts, where the bits are those of the second's property and of the ones above it.
#[inline(always)]
fn joined(
    closure: &PropertyClosure,
    chain: PlannedChain,
    above: u64,
    older: &[Fact],
) -> Option<Fact>
    ensures { (k : Problem) (f : Fact2) → IsClosureOf k.forms closure.now → HasAboveBehind k.forms above older.now → (result ≡ Some f) ↔ Concludes k (the_forms.N6 chain.first chain.second chain.whole) older.now f }
{
    match *older {
        [first, second] => joined_two(closure, chain, above, first, second),
        _ => None,
    }
}

impl Rules<'_> {
    /// The plan of the first property, unless it is shorter to look up the chains of the second and of each above it.
    #[inline(always)]
    pub(crate) fn planned(&self, first: PropId2, second: PropId2) -> Option<&[PlannedChain]>
        ensures { IfSome result (λ plan. IsPlan self.now.problem.now.forms first plan.now) }
    {
        let plan = self.joins.plan(first)?;
        if plan.len() > 16 && plan.len() / 16 > self.closure.supers(second).len() {
            return None;
        }
        Some(plan)
    }

    /// Adds what the chain gives from the facts, where the bits are those of the second's property and of the ones above it.
    #[inline(always)]
    fn draw_planned(
        &self,
        facts: &mut KnownFacts,
        chain: PlannedChain,
        above: u64,
        older: Premises<'_>,
    ) -> Result<(), Stop>
        requires derived { IsDerived self.now.problem.now facts.old }
        requires older { AreAt facts.old.facts older.numbers.now older.facts.now }
        requires says { SaysItsChain self.now.problem.now.forms chain }
        requires above { HasAboveBehind self.now.problem.now.forms above older.facts.now }
        ensures { Draws self.now facts.old facts.new result (IsDrawnFrom self.now.problem.now older.entry.facts.now facts.new.facts chain.number) }
    {
        if let Some(fact) = joined(self.closure, chain, above, older.facts) {
            self.add(facts, fact, 9, older.numbers, Some(chain.number))?;
        }
        Ok(())
    }

    /// Adds what the chains of the plan give from the facts, where the bits are those of the second's property and of the ones above it.
    #[inline(always)]
    pub(crate) fn draw_plan(
        &self,
        facts: &mut KnownFacts,
        plan: &[PlannedChain],
        above: u64,
        older: Premises<'_>,
    ) -> Result<(), Stop>
        requires derived { IsDerived self.now.problem.now facts.old }
        requires older { AreAt facts.old.facts older.numbers.now older.facts.now }
        requires say { SayTheirChains self.now.problem.now.forms plan.now }
        requires above { HasAboveBehind self.now.problem.now.forms above older.facts.now }
        ensures { Draws self.now facts.old facts.new result (IsPlanDrawn self.now.problem.now older.entry.facts.now facts.new.facts plan.now) }
    {
        for chain in plan {
            self.draw_planned(facts, *chain, above, older)?;
        }
        Ok(())
    }
}
