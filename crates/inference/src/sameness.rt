//! What facts give where forms make individuals one, added to the facts.
ghost use Rattle.std.specs.Prelude.{◌≡◌, ◌∷◌, [], ℕ, Some, Contains, slice_get};
ghost use Rattle.facts.specs.Births.{IsBirth};
ghost use Rattle.facts.specs.declared.contexts.Fact.{Fact as Fact2};
ghost use Rattle.inference.specs.Derivations.{IsDerived};
ghost use Rattle.inference.specs.Draws.{Draws};
ghost use Rattle.inference.specs.Sameness.{IsHandedOn, IsHandedOnAt, IsHandedOnBy};

use crate::conclusions::{at_linked_source, at_linked_target};
use crate::known_facts::{KnownFacts, Stop};
use crate::premises::Premise;
use crate::rules::Rules;
use facts::{Context, Fact};

impl Rules<'_> {
    /// Adds a fact, if there is one, that the form of that number hands on of the fact in hand.
    fn hand_over(
        &self,
        facts: &mut KnownFacts,
        number: u32,
        hand: u32,
        handed: Option<Fact>,
    ) -> Result<(), Stop>
        requires derived { IsDerived self.now.problem.now facts.old }
        requires birth { (f : Fact2) → handed ≡ Some f → IsBirth self.now.problem.now facts.old.facts f (record { condition = 11; older = hand ∷ []; form = Some number }) }
        ensures { Draws self.now facts.old facts.new result ((f : Fact2) → handed ≡ Some f → Contains facts.new.facts f) }
    {
        if let Some(fact) = handed {
            self.add(facts, fact, 11, &[hand], Some(number))?;
        }
        Ok(())
    }

    /// Adds the fact with one individual in the place of the other, where the form of that number makes the two one.
    fn hand_on_by(&self, facts: &mut KnownFacts, number: u32, hand: Premise) -> Result<(), Stop>
        requires derived { IsDerived self.now.problem.now facts.old }
        requires hand { slice_get facts.old.facts hand.number ≡ Some hand.fact }
        ensures { Draws self.now facts.old facts.new result (IsHandedOnBy self.now.problem.now hand.fact facts.new.facts number) }
    {
        let Some(form) = self.problem.form(number) else {
            return Ok(());
        };
        self.hand_over(
            facts,
            number,
            hand.number,
            at_linked_source(&form, hand.fact),
        )?;
        self.hand_over(
            facts,
            number,
            hand.number,
            at_linked_target(&form, hand.fact),
        )?;
        Ok(())
    }

    /// Adds the fact with one individual in the place of the other, for those of the listed forms that make the two one.
    fn hand_on_by_all(
        &self,
        facts: &mut KnownFacts,
        listed: &[u32],
        hand: Premise,
    ) -> Result<(), Stop>
        requires derived { IsDerived self.now.problem.now facts.old }
        requires hand { slice_get facts.old.facts hand.number ≡ Some hand.fact }
        ensures { Draws self.now facts.old facts.new result ((n : ℕ) → Contains listed.now n → IsHandedOnBy self.now.problem.now hand.fact facts.new.facts n) }
    {
        for number in listed {
            self.hand_on_by(facts, *number, hand)?;
        }
        Ok(())
    }

    /// Adds the fact with one individual in the place of the other, for the forms that make the individual of the context one with another.
    fn hand_on_at(
        &self,
        facts: &mut KnownFacts,
        context: Context,
        hand: Premise,
    ) -> Result<(), Stop>
        requires derived { IsDerived self.now.problem.now facts.old }
        requires hand { slice_get facts.old.facts hand.number ≡ Some hand.fact }
        ensures { Draws self.now facts.old facts.new result (IsHandedOnAt self.now.problem.now context hand.fact facts.new.facts) }
    {
        if let Context::Individual(individual) = context {
            let problem = self.problem;
            self.hand_on_by_all(facts, problem.linked_first(individual), hand)?;
            self.hand_on_by_all(facts, problem.linked_second(individual), hand)?;
        }
        Ok(())
    }

    /// Adds the fact with one individual in the place of the other, once, for each form that makes two individuals one.
    pub(crate) fn hand_on(&self, facts: &mut KnownFacts, hand: Premise) -> Result<(), Stop>
        requires derived { IsDerived self.now.problem.now facts.old }
        requires hand { slice_get facts.old.facts hand.number ≡ Some hand.fact }
        ensures { Draws self.now facts.old facts.new result (IsHandedOn self.now.problem.now hand.fact facts.new.facts) }
    {
        if !self.problem.has_links() {
            return Ok(());
        }
        match hand.fact {
            Fact::In(_, x) => self.hand_on_at(facts, x, hand)?,
            Fact::Edge(x, _, y) => {
                self.hand_on_at(facts, x, hand)?;
                self.hand_on_at(facts, y, hand)?;
            }
        }
        Ok(())
    }
}
