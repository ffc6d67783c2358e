//! What an edge gives with the classes at its target, found by the restrictions on its property.
ghost use Rattle.std.specs.Prelude.{◌≡◌, IfSome, IsNone, Some, slice_get};
ghost use Rattle.axioms.specs.declared.ids.PropId.{PropId as PropId3};
ghost use Rattle.normal_forms.specs.declared.forms.Class2.{Class2 as Class3};
ghost use Rattle.normal_forms.specs.declared.forms.Form.TheVariants as the_forms;
ghost use Rattle.property_closure.specs.PropertyClosures.{Has};
ghost use Rattle.inference.specs.Completeness.{AreMetBefore};
ghost use Rattle.inference.specs.Derivations.{IsDerived};
ghost use Rattle.inference.specs.Draws.{Draws};
ghost use Rattle.inference.specs.Marks.{AllFilled, AreFilled, AreFilledOn, IsFilled, IsNothingCarried, MeetsClasses};
ghost use Rattle.inference.specs.Premises.{edge_fact};
ghost use Rattle.inference.specs.Visits.{AreAll, IsClassFact};

use crate::conclusions::NOTHING;
use crate::known_facts::{KnownFacts, Stop};
use crate::premises::{EdgePremise, Premise, Premises};
use crate::rules::Rules;
use facts::Fact;
use indexes::IndexedProblem;
use normal_forms::{Class2, Form, PropId2};

/// So many classes at a target are looked at one by one.
const FEW: usize = 8;

/// The class that fills the form of that number, if that is a restriction.
fn filler_of(problem: &IndexedProblem, number: u32) -> Option<Class2>
    ensures some { IfSome result (λ a. (r : PropId3) × (b : Class3) × (slice_get problem.now.forms number ≡ Some (the_forms.N4 r a b))) }
    ensures none { IsNone result → (r : PropId3) (a b : Class3) → slice_get problem.now.forms number ≡ Some (the_forms.N4 r a b) → ⊥ }
{
    match problem.form(number) {
        Some(Form::N4(_, filler, _)) => Some(filler),
        _ => None,
    }
}

impl Rules<'_> {
    /// Adds what the restriction of that number gives from the edge, if the class that fills it is at the target.
    fn fill_one(&self, facts: &mut KnownFacts, hand: EdgePremise, number: u32) -> Result<(), Stop>
        requires derived { IsDerived self.now.problem.now facts.old }
        requires hand { slice_get facts.old.facts hand.number ≡ Some (edge_fact hand) }
        ensures { Draws self.now facts.old facts.new result (IsFilled self.now.problem.now (edge_fact hand) facts.old.facts facts.new.facts number) }
    {
        let Some(filler) = filler_of(self.problem, number) else {
            return Ok(());
        };
        let class = Fact::In(filler, hand.target);
        let Some(place) = facts.seek(class) else {
            return Ok(());
        };
        let edge = Fact::Edge(hand.source, hand.property, hand.target);
        let both = Premises {
            numbers: &[hand.number, place],
            facts: &[edge, class],
        };
        self.draw_form(facts, number, both)
    }

    /// Adds what the restrictions of those numbers give from the edge.
    fn fill_each(
        &self,
        facts: &mut KnownFacts,
        hand: EdgePremise,
        numbers: &[u32],
    ) -> Result<(), Stop>
        requires derived { IsDerived self.now.problem.now facts.old }
        requires hand { slice_get facts.old.facts hand.number ≡ Some (edge_fact hand) }
        ensures { Draws self.now facts.old facts.new result (AreFilled self.now.problem.now (edge_fact hand) facts.old.facts facts.new.facts numbers.now) }
    {
        for number in numbers {
            self.fill_one(facts, hand, *number)?;
        }
        Ok(())
    }

    /// Adds what the restrictions on the property give from the edge.
    fn fill_by(
        &self,
        facts: &mut KnownFacts,
        hand: EdgePremise,
        property: PropId2,
    ) -> Result<(), Stop>
        requires derived { IsDerived self.now.problem.now facts.old }
        requires hand { slice_get facts.old.facts hand.number ≡ Some (edge_fact hand) }
        ensures { Draws self.now facts.old facts.new result (AreFilledOn self.now.problem.now (edge_fact hand) facts.old.facts facts.new.facts property) }
    {
        let numbers = self.joins.restrictions(property);
        self.fill_each(facts, hand, numbers)?;
        Ok(())
    }

    /// Adds what restrictions give from the edge: those on its property, and on each above it.
    fn fill_all(&self, facts: &mut KnownFacts, hand: EdgePremise) -> Result<(), Stop>
        requires derived { IsDerived self.now.problem.now facts.old }
        requires hand { slice_get facts.old.facts hand.number ≡ Some (edge_fact hand) }
        requires has { Has self.now.closure.now hand.property }
        ensures { Draws self.now facts.old facts.new result (AllFilled self.now.problem.now (edge_fact hand) facts.old.facts facts.new.facts) }
    {
        for above in self.closure.supers(hand.property) {
            self.fill_by(facts, hand, *above)?;
        }
        Ok(())
    }

    /// Carries `owl:Nothing` back along the edge, if it is at the target.
    fn carry_nothing(&self, facts: &mut KnownFacts, hand: EdgePremise) -> Result<(), Stop>
        requires derived { IsDerived self.now.problem.now facts.old }
        requires hand { slice_get facts.old.facts hand.number ≡ Some (edge_fact hand) }
        ensures { Draws self.now facts.old facts.new result (IsNothingCarried (edge_fact hand) facts.old.facts facts.new.facts) }
    {
        let nothing = Fact::In(NOTHING, hand.target);
        if let Some(place) = facts.seek(nothing) {
            let edge = Premise {
                number: hand.number,
                fact: Fact::Edge(hand.source, hand.property, hand.target),
            };
            let behind = Premise {
                number: place,
                fact: nothing,
            };
            self.draw_two(facts, edge, behind)?;
        }
        Ok(())
    }

    /// Adds what the edge gives with the classes at its target, found by the restrictions on its property and on those above it.
    fn fill(&self, facts: &mut KnownFacts, hand: EdgePremise) -> Result<(), Stop>
        requires derived { IsDerived self.now.problem.now facts.old }
        requires hand { slice_get facts.old.facts hand.number ≡ Some (edge_fact hand) }
        ensures { Draws self.now facts.old facts.new result (MeetsClasses self.now.problem.now (edge_fact hand) facts.old.facts facts.new) }
    {
        self.fill_all(facts, hand)?;
        self.carry_nothing(facts, hand)?;
        Ok(())
    }

    /// Whether the property and those above it, and the restrictions on them, are fewer than that, where that is more than a few. It
    /// counts no further.
    fn has_fewer_restrictions(&self, property: PropId2, most: usize) -> bool {
        if most <= FEW {
            return false;
        }
        let mut left = most;
        for above in self.closure.supers(property) {
            let more = self.joins.restrictions(*above).len() + 1;
            if more >= left {
                return false;
            }
            left -= more;
        }
        true
    }

    /// Adds what the edge gives as the first of two, with each of those of the other numbers, which put classes into contexts: by its
    /// restrictions where these are fewer, else by the classes.
    pub(crate) fn meet_fillers(
        &self,
        facts: &mut KnownFacts,
        hand: EdgePremise,
        numbers: &[u32],
    ) -> Result<(), Stop>
        requires derived { IsDerived self.now.problem.now facts.old }
        requires hand { slice_get facts.old.facts hand.number ≡ Some (edge_fact hand) }
        requires numbers { AreAll IsClassFact facts.old.facts numbers.now }
        ensures { Draws self.now facts.old facts.new result (AreMetBefore self.now.problem.now (edge_fact hand) facts.old.facts numbers.now facts.new) }
    {
        if self.has_fewer_restrictions(hand.property, numbers.len()) {
            self.fill(facts, hand)?;
        } else {
            let above = self.joins.above(hand.property);
            let edge = Premise {
                number: hand.number,
                fact: Fact::Edge(hand.source, hand.property, hand.target),
            };
            self.meet_before(facts, edge, above, numbers)?;
        }
        Ok(())
    }
}
