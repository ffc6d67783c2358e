//! When loops of reflexive properties are drawn: the entry of a context, which puts `owl:Thing` into it because it is a context, draws the
//! loops at it when it is served.
ghost use Rattle.std.specs.Prelude.{◌≡◌, ◌<◌, ◌↔◌, Some, Contains, IsTrue, false, length, slice_get};
ghost use Rattle.facts.specs.Births.{numbers_of};
ghost use Rattle.facts.specs.Closure.{IsLoop, thing};
ghost use Rattle.facts.specs.declared.contexts.Context.{Context as Context2};
ghost use Rattle.facts.specs.declared.contexts.Fact.TheVariants.{In};
ghost use Rattle.inference.specs.Completeness.{AllDrawn, AreLoopsDrawn, HasEntry, IsContextAt, IsEntry, IsInItself};
ghost use Rattle.inference.specs.Derivations.{IsDerived};
ghost use Rattle.inference.specs.Draws.{Draws};
ghost use Rattle.inference.specs.Premises.{class_fact};

use crate::conclusions::THING;
use crate::known_facts::{KnownFacts, Stop};
use crate::premises::ClassPremise;
use crate::rules::Rules;
use crate::visits::has_any;
use facts::{Context, Fact, FactId, Older};
use normal_forms::Class2;

/// Whether the class is `owl:Thing`.
fn is_thing(class: Class2) -> bool
    ensures { IsTrue result ↔ (class ≡ thing) }
{
    class == THING
}

/// Whether the fact of that number is an entry, where it puts `owl:Thing` into a context.
fn is_entry(facts: &KnownFacts, number: u32) -> bool
    requires { number < length facts.now.births }
    ensures { (x : Context2) → slice_get facts.now.facts number ≡ Some (In thing x) → IsTrue result ↔ IsEntry facts.now x number }
{
    facts.birth(number).condition() == 1
}

/// Whether `owl:Thing` is in the context, which has no entry.
fn lacks_entry(facts: &KnownFacts, context: Context) -> bool
    requires { length facts.now.births ≡ length facts.now.facts }
    ensures { result ≡ false → Contains facts.now.facts (In thing context) → HasEntry facts.now context }
{
    match facts.find(Fact::In(THING, context)) {
        Some(number) => !is_entry(facts, number),
        None => false,
    }
}

/// Keeps in mind that the context is entered, if it has an entry and memory is to be had.
pub(crate) fn note_entered(facts: &mut KnownFacts, context: Context)
    requires long { length facts.old.births ≡ length facts.old.facts }
    requires top { Contains facts.old.facts (In thing context) }
    requires itself { IsInItself context facts.old.facts }
    ensures { facts.new ≡ facts.old }
{
    if !lacks_entry(facts, context) {
        facts.flag_entered(context);
    }
}

impl Rules<'_> {
    /// Adds the loops of reflexive properties at a context that `owl:Thing` is in, unless it has an entry.
    pub(crate) fn draw_missing_loops(
        &self,
        facts: &mut KnownFacts,
        context: Context,
        numbers: &[u32],
    ) -> Result<(), Stop>
        requires derived { IsDerived self.now.problem.now facts.old }
        requires context { IsContextAt self.now.problem.now facts.old.facts numbers.now context }
        ensures { Draws self.now facts.old facts.new result (Contains facts.old.facts (In thing context) → AreLoopsDrawn self.now.problem.now context facts.new) }
    {
        if has_any(self.problem.reflexive()) && !lacks_entry(facts, context) {
            return Ok(());
        }
        self.draw_loops(facts, context, numbers)?;
        Ok(())
    }

    /// Adds the loops of reflexive properties at a context that the older facts make one.
    fn draw_loops_by(
        &self,
        facts: &mut KnownFacts,
        context: Context,
        older: Older,
    ) -> Result<(), Stop>
        requires derived { IsDerived self.now.problem.now facts.old }
        requires context { IsContextAt self.now.problem.now facts.old.facts (numbers_of older) context }
        ensures { Draws self.now facts.old facts.new result (AllDrawn (IsLoop context) self.now.problem.now.forms facts.new.facts) }
    {
        match older {
            Older::None => self.draw_loops(facts, context, &[]),
            Older::One(FactId(m)) => self.draw_loops(facts, context, &[m]),
            Older::Two(FactId(m), FactId(n)) => self.draw_loops(facts, context, &[m, n]),
        }
    }

    /// Adds the loops of reflexive properties at the context that the fact of that number puts the class into, where it is an entry.
    pub(crate) fn draw_owed_loops(
        &self,
        facts: &mut KnownFacts,
        hand: ClassPremise,
    ) -> Result<(), Stop>
        requires derived { IsDerived self.now.problem.now facts.old }
        requires hand { slice_get facts.old.facts hand.number ≡ Some (class_fact hand) }
        ensures { Draws self.now facts.old facts.new result ((x : Context2) → IsEntry facts.old x hand.number → AllDrawn (IsLoop x) self.now.problem.now.forms facts.new.facts) }
    {
        if !is_thing(hand.class) {
            return Ok(());
        }
        if !is_entry(facts, hand.number) {
            return Ok(());
        }
        let older = facts.birth(hand.number).older();
        self.draw_loops_by(facts, hand.context, older)?;
        Ok(())
    }
}
