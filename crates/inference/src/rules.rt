//! What facts give, added to the facts.
ghost use Rattle.std.specs.Prelude.{◌≡◌, ◌<◌, [], Some, Err, length, slice_get, Contains, OnOk};
ghost use Rattle.facts.specs.Births.{IsBirth};
ghost use Rattle.facts.specs.Closure.{IsLoop};
ghost use Rattle.inference.specs.Derivations.{IsDerived};
ghost use Rattle.property_closure.specs.PropertyClosures.{Has};
ghost use Rattle.inference.specs.PropertyClosures.{IsClosureOf, IsClosureOf-prop};
ghost use Rattle.inference.specs.Joins.{AreJoins, AreJoins-prop};
ghost use Rattle.inference.specs.Completeness.{AreAt, AreEntered, IsContextAt, AllDrawn, AreConcluded, DrawnAt, DrawnUpToRedundancy, AreDrawnFrom, AreDrawn, IsDrawnFrom, IsEntered, IsInItself};
ghost use Rattle.inference.specs.Visits.{AllChainsDrawn, AllRestrictionsDrawn, AreOthersDrawn, ChainsDrawn, IsBehind, IsChainingDrawn, IsFillingDrawn, filled_property};
ghost use Rattle.inference.specs.Sameness.{AreGroupsOf, AreGroupsOf-prop};
ghost use Rattle.inference.specs.Entry.{HasBegun, IsDrawnAlone, LoopIsDrawn, LoopsAreDrawn};

use crate::conclusions::{THING, carried_back, conclusion, condition_of, loop_at};
use crate::entries::note_entered;
use crate::joins::Joins;
use crate::known_facts::{KnownFacts, Stop};
use crate::led::class_alone;
use crate::premises::{ClassPremise, Premise, Premises};
use crate::visits::{chained, filled, is_long, visited};
use facts::{Birth, Context, Fact};
use indexes::{Groups, IndexedProblem};
use normal_forms::{Class2, PropId2};
use property_closure::PropertyClosure;

/// What facts are drawn from, and how many there may be.
#[derive(Drop)]
pub struct Rules<'a> {
    pub problem: &'a IndexedProblem,
    pub closure: &'a PropertyClosure,
    pub groups: &'a Groups,
    pub joins: &'a Joins,
    pub max_facts: u32,
    /// The closure is that of the forms.
    pub ghost closed: { IsClosureOf problem.now.forms closure.now } by { IsClosureOf-prop problem.now.forms closure.now },
    /// Individuals are one by the forms.
    pub ghost grouped: { AreGroupsOf problem.now.forms groups.now } by { AreGroupsOf-prop problem.now.forms groups.now },
    /// Edges are joined by the chains of the forms.
    pub ghost joined: { AreJoins problem.now.forms joins.now } by { AreJoins-prop problem.now.forms joins.now },
}

/// Where no fact may be added: whether the fact is there.
fn found_at_limit(facts: &KnownFacts, fact: &Fact) -> Result<(), Stop>
    ensures there { OnOk result (Contains facts.now.facts fact.now) }
    ensures not { result ≡ Err Stop.Limit → Contains facts.now.facts fact.now → ⊥ }
{
    match facts.find(*fact) {
        Some(_) => Ok(()),
        None => Err(Stop::Limit),
    }
}

impl Rules<'_> {
    ghost use Rattle.inference.specs.Draws.{Draws};

    /// Adds a fact, unless it is there, with what gave it: a condition, older facts and a form.
    #[tactic(auto, using(crate::proofs::Growth::grows_same))]
    pub(crate) fn add(
        &self,
        facts: &mut KnownFacts,
        fact: Fact,
        condition: u8,
        older: &[u32],
        form: Option<u32>,
    ) -> Result<(), Stop>
        requires derived { IsDerived self.now.problem.now facts.old }
        requires birth { IsBirth self.now.problem.now facts.old.facts fact (record { condition = condition; older = older.now; form = form }) }
        ensures { Draws self.now facts.old facts.new result (Contains facts.new.facts fact) }
    {
        if facts.len() >= self.max_facts as usize {
            return found_at_limit(facts, &fact);
        }
        facts.put(fact, Birth::new(condition, older, form))?;
        facts.mark(self.joins.are_any());
        Ok(())
    }

    /// Adds what the form of that number gives from the facts.
    #[inline(always)]
    pub(crate) fn draw_form(
        &self,
        facts: &mut KnownFacts,
        number: u32,
        older: Premises<'_>,
    ) -> Result<(), Stop>
        requires derived { IsDerived self.now.problem.now facts.old }
        requires older { AreAt facts.old.facts older.numbers.now older.facts.now }
        ensures { Draws self.now facts.old facts.new result (IsDrawnFrom self.now.problem.now older.entry.facts.now facts.new.facts number) }
    {
        let Some(form) = self.problem.form(number) else {
            return Ok(());
        };
        if let Some(fact) = conclusion(self.closure, &form, older.facts) {
            self.add(
                facts,
                fact,
                condition_of(&form),
                older.numbers,
                Some(number),
            )?;
        }
        Ok(())
    }

    /// Adds what the listed forms give from the facts.
    #[inline(always)]
    fn draw_listed(
        &self,
        facts: &mut KnownFacts,
        listed: &[u32],
        older: Premises<'_>,
    ) -> Result<(), Stop>
        requires derived { IsDerived self.now.problem.now facts.old }
        requires older { AreAt facts.old.facts older.numbers.now older.facts.now }
        ensures { Draws self.now facts.old facts.new result (AreDrawnFrom self.now.problem.now older.entry.facts.now facts.new.facts listed.now) }
    {
        for number in listed {
            self.draw_form(facts, *number, older)?;
        }
        Ok(())
    }

    /// Adds what the restrictions of the property, or of one above it, that need that class at the target of an edge give from the facts.
    fn draw_restrictions_of(
        &self,
        facts: &mut KnownFacts,
        property: PropId2,
        filler: Class2,
        older: Premises<'_>,
    ) -> Result<(), Stop>
        requires derived { IsDerived self.now.problem.now facts.old }
        requires older { AreAt facts.old.facts older.numbers.now older.facts.now }
        requires filled { filled_property older.facts.now ≡ Some (property, filler) }
        requires has { Has self.now.closure.now property }
        ensures { Draws self.now facts.old facts.new result (AllRestrictionsDrawn self.now.problem.now older.entry.facts.now facts.new.facts filler) }
    {
        for above in self.closure.supers(property) {
            let listed = self.problem.restrictions(*above, filler);
            self.draw_listed(facts, listed, older)?;
        }
        Ok(())
    }

    /// Adds what the restrictions that need that class at the target of an edge give from an edge by the property and the class.
    #[inline(always)]
    fn draw_restrictions(
        &self,
        facts: &mut KnownFacts,
        property: PropId2,
        filler: Class2,
        older: Premises<'_>,
    ) -> Result<(), Stop>
        requires derived { IsDerived self.now.problem.now facts.old }
        requires older { AreAt facts.old.facts older.numbers.now older.facts.now }
        requires filled { filled_property older.facts.now ≡ Some (property, filler) }
        requires has { Has self.now.closure.now property }
        ensures { Draws self.now facts.old facts.new result (AllRestrictionsDrawn self.now.problem.now older.entry.facts.now facts.new.facts filler) }
    {
        let listed = self.problem.led_by_filler(filler);
        if is_long(listed.len(), self.closure.supers(property)) {
            return self.draw_restrictions_of(facts, property, filler, older);
        }
        self.draw_all_led(facts, listed, older)?;
        Ok(())
    }

    /// Adds what the chains of the first property, and of the second or one above that, give from the facts.
    fn draw_chains_of(
        &self,
        facts: &mut KnownFacts,
        first: PropId2,
        second: PropId2,
        older: Premises<'_>,
    ) -> Result<(), Stop>
        requires derived { IsDerived self.now.problem.now facts.old }
        requires older { AreAt facts.old.facts older.numbers.now older.facts.now }
        requires second { IsBehind second older.facts.now }
        requires has { Has self.now.closure.now second }
        ensures { Draws self.now facts.old facts.new result (ChainsDrawn self.now.problem.now older.entry.facts.now facts.new.facts first) }
    {
        for above in self.closure.supers(second) {
            let listed = self.problem.chains(first, *above);
            self.draw_listed(facts, listed, older)?;
        }
        Ok(())
    }

    /// Adds what the chains that begin with the first property give from the facts, of which the second is an edge by the second property.
    #[inline(always)]
    fn draw_chains_from(
        &self,
        facts: &mut KnownFacts,
        first: PropId2,
        second: PropId2,
        older: Premises<'_>,
    ) -> Result<(), Stop>
        requires derived { IsDerived self.now.problem.now facts.old }
        requires older { AreAt facts.old.facts older.numbers.now older.facts.now }
        requires second { IsBehind second older.facts.now }
        requires has { Has self.now.closure.now second }
        ensures { Draws self.now facts.old facts.new result (ChainsDrawn self.now.problem.now older.entry.facts.now facts.new.facts first) }
    {
        let listed = self.problem.chains_from(first);
        if is_long(listed.len(), self.closure.supers(second)) {
            return self.draw_chains_of(facts, first, second, older);
        }
        self.draw_listed(facts, listed, older)?;
        Ok(())
    }

    /// Adds what chains that begin with the first property, or one above it, give from the facts, of which the second is an edge by the
    /// second property: they are looked up by the first.
    fn draw_chains_above(
        &self,
        facts: &mut KnownFacts,
        first: PropId2,
        second: PropId2,
        older: Premises<'_>,
    ) -> Result<(), Stop>
        requires derived { IsDerived self.now.problem.now facts.old }
        requires older { AreAt facts.old.facts older.numbers.now older.facts.now }
        requires second { IsBehind second older.facts.now }
        requires has { Has self.now.closure.now first }
        requires has_second { Has self.now.closure.now second }
        ensures { Draws self.now facts.old facts.new result (AllChainsDrawn self.now.problem.now older.entry.facts.now facts.new.facts first) }
    {
        for above in self.closure.supers(first) {
            self.draw_chains_from(facts, *above, second, older)?;
        }
        Ok(())
    }

    /// Adds what chains that begin with the first property, or one above it, give from the facts, of which the second is an edge by the
    /// second property.
    #[inline(always)]
    pub(crate) fn draw_chains(
        &self,
        facts: &mut KnownFacts,
        first: PropId2,
        second: PropId2,
        older: Premises<'_>,
    ) -> Result<(), Stop>
        requires derived { IsDerived self.now.problem.now facts.old }
        requires older { AreAt facts.old.facts older.numbers.now older.facts.now }
        requires second { IsBehind second older.facts.now }
        requires has { Has self.now.closure.now first }
        requires has_second { Has self.now.closure.now second }
        ensures { Draws self.now facts.old facts.new result (AllChainsDrawn self.now.problem.now older.entry.facts.now facts.new.facts first) }
    {
        match self.planned(first, second) {
            Some(plan) => {
                let above = self.joins.above(second);
                self.draw_plan(facts, plan, above, older)?;
            }
            None => self.draw_chains_above(facts, first, second, older)?,
        }
        Ok(())
    }

    /// Adds what restrictions give from the facts, where they are an edge and a class in a context.
    #[inline(always)]
    fn draw_filled(&self, facts: &mut KnownFacts, older: Premises<'_>) -> Result<(), Stop>
        requires derived { IsDerived self.now.problem.now facts.old }
        requires older { AreAt facts.old.facts older.numbers.now older.facts.now }
        ensures { Draws self.now facts.old facts.new result (IsFillingDrawn self.now.problem.now older.entry.facts.now facts.new.facts) }
    {
        if let Some((property, filler)) = filled(older.facts) {
            self.draw_restrictions(facts, property, filler, older)?;
        }
        Ok(())
    }

    /// Adds what chains give from the facts, where they are two edges.
    #[inline(always)]
    fn draw_chained(&self, facts: &mut KnownFacts, older: Premises<'_>) -> Result<(), Stop>
        requires derived { IsDerived self.now.problem.now facts.old }
        requires older { AreAt facts.old.facts older.numbers.now older.facts.now }
        ensures { Draws self.now facts.old facts.new result (IsChainingDrawn self.now.problem.now older.entry.facts.now facts.new.facts) }
    {
        if let Some((first, second)) = chained(older.facts) {
            self.draw_chains(facts, first, second, older)?;
        }
        Ok(())
    }

    /// Adds what the forms, but chains and restrictions, give from the facts.
    #[inline(always)]
    fn draw_others(&self, facts: &mut KnownFacts, older: Premises<'_>) -> Result<(), Stop>
        requires derived { IsDerived self.now.problem.now facts.old }
        requires older { AreAt facts.old.facts older.numbers.now older.facts.now }
        ensures { Draws self.now facts.old facts.new result (AreOthersDrawn self.now.problem.now older.entry.facts.now facts.new.facts) }
    {
        match class_alone(older.facts) {
            Some(class) => {
                self.draw_all_led(facts, self.problem.led_alone(class), older)?;
            }
            None => self.draw_listed(facts, visited(self.problem, older.facts), older)?,
        }
        Ok(())
    }

    /// Adds what all forms give from the facts, visiting those that are listed for them.
    #[inline(always)]
    fn draw_forms(&self, facts: &mut KnownFacts, older: Premises<'_>) -> Result<(), Stop>
        requires derived { IsDerived self.now.problem.now facts.old }
        requires older { AreAt facts.old.facts older.numbers.now older.facts.now }
        ensures { Draws self.now facts.old facts.new result (AreDrawn self.now.problem.now older.entry.facts.now facts.new.facts) }
    {
        self.draw_others(facts, older)?;
        self.draw_filled(facts, older)?;
        self.draw_chained(facts, older)?;
        Ok(())
    }

    /// Adds what forms give from the facts, and carries `owl:Nothing` back.
    #[inline(always)]
    pub(crate) fn draw(&self, facts: &mut KnownFacts, older: Premises<'_>) -> Result<(), Stop>
        requires derived { IsDerived self.now.problem.now facts.old }
        requires older { AreAt facts.old.facts older.numbers.now older.facts.now }
        ensures { Draws self.now facts.old facts.new result (AreConcluded self.now.problem.now older.entry.facts.now facts.new.facts) }
    {
        self.draw_forms(facts, older)?;
        if let Some(fact) = carried_back(older.facts) {
            self.add(facts, fact, 8, older.numbers, None)?;
        }
        Ok(())
    }

    /// Adds the loop at a context, where the form of that number makes a property reflexive.
    fn draw_loop(
        &self,
        facts: &mut KnownFacts,
        number: u32,
        context: Context,
        numbers: &[u32],
    ) -> Result<(), Stop>
        requires derived { IsDerived self.now.problem.now facts.old }
        requires context { IsContextAt self.now.problem.now facts.old.facts numbers.now context }
        ensures { Draws self.now facts.old facts.new result (DrawnAt (IsLoop context) self.now.problem.now.forms facts.new.facts number) }
    {
        let Some(form) = self.problem.form(number) else {
            return Ok(());
        };
        if let Some(fact) = loop_at(context, &form) {
            self.add(facts, fact, 10, numbers, Some(number))?;
        }
        Ok(())
    }

    /// Adds the loops of reflexive properties at a context.
    pub(crate) fn draw_loops(
        &self,
        facts: &mut KnownFacts,
        context: Context,
        numbers: &[u32],
    ) -> Result<(), Stop>
        requires derived { IsDerived self.now.problem.now facts.old }
        requires context { IsContextAt self.now.problem.now facts.old.facts numbers.now context }
        ensures { Draws self.now facts.old facts.new result (AllDrawn (IsLoop context) self.now.problem.now.forms facts.new.facts) }
    {
        for number in self.problem.reflexive() {
            self.draw_loop(facts, *number, context, numbers)?;
        }
        Ok(())
    }

    /// Adds an expression to itself.
    fn enter_itself(
        &self,
        facts: &mut KnownFacts,
        context: Context,
        numbers: &[u32],
    ) -> Result<(), Stop>
        requires derived { IsDerived self.now.problem.now facts.old }
        requires context { IsContextAt self.now.problem.now facts.old.facts numbers.now context }
        ensures { Draws self.now facts.old facts.new result (IsInItself context facts.new.facts) }
    {
        if let Context::Expr(e) = context {
            let itself = Fact::In(Class2::Expr(e), context);
            self.add(facts, itself, 1, numbers, None)?;
        }
        Ok(())
    }

    /// Adds what is in each context to one that the facts make a context, but for the loops that are drawn when its entry is served.
    fn put_entry(
        &self,
        facts: &mut KnownFacts,
        context: Context,
        numbers: &[u32],
    ) -> Result<(), Stop>
        requires derived { IsDerived self.now.problem.now facts.old }
        requires context { IsContextAt self.now.problem.now facts.old.facts numbers.now context }
        ensures { Draws self.now facts.old facts.new result (IsEntered self.now.problem.now context facts.new) }
    {
        let top = Fact::In(THING, context);
        self.add(facts, top, 1, numbers, None)?;
        self.enter_itself(facts, context, numbers)?;
        self.draw_missing_loops(facts, context, numbers)?;
        Ok(())
    }

    /// Adds what is in each context to one that the facts make a context, but for the loops that are drawn when its entry is served.
    /// Where it is known to be there, nothing is looked up.
    fn enter(&self, facts: &mut KnownFacts, context: Context, numbers: &[u32]) -> Result<(), Stop>
        requires derived { IsDerived self.now.problem.now facts.old }
        requires context { IsContextAt self.now.problem.now facts.old.facts numbers.now context }
        ensures { Draws self.now facts.old facts.new result (IsEntered self.now.problem.now context facts.new) }
    {
        if facts.knows_entered(context) {
            return Ok(());
        }
        self.put_entry(facts, context, numbers)?;
        note_entered(facts, context);
        Ok(())
    }

    /// Adds what is there with no fact, where what is in each context is in the first so many roots already. Roots are entered first, so
    /// that each has an entry.
    pub fn begin_more(&self, facts: &mut KnownFacts, entered: usize) -> Result<(), Stop>
        requires derived { IsDerived self.now.problem.now facts.old }
        requires entered { AreEntered self.now.problem.now entered facts.old }
        ensures { Draws self.now facts.old facts.new result (DrawnUpToRedundancy self.now.problem.now [] facts.new) }
    {
        let roots = self.problem.roots();
        for number in entered..roots.len() {
            self.enter(facts, *roots.at(number), &[])?;
        }
        let none = Premises {
            numbers: &[],
            facts: &[],
        };
        self.draw(facts, none)?;
        self.draw_different(facts)?;
        Ok(())
    }

    /// Adds what is there with no fact.
    pub fn begin(&self, facts: &mut KnownFacts) -> Result<(), Stop>
        requires derived { IsDerived self.now.problem.now facts.old }
        ensures { Draws self.now facts.old facts.new result (DrawnUpToRedundancy self.now.problem.now [] facts.new) }
    {
        self.begin_more(facts, 0)
    }

    /// Adds the loops of reflexive properties at the target of the fact of that number, where it is an edge and its target has no entry.
    fn draw_target(&self, facts: &mut KnownFacts, number: u32) -> Result<(), Stop>
        requires derived { IsDerived self.now.problem.now facts.old }
        requires number { number < length facts.old.facts }
        ensures { Draws self.now facts.old facts.new result (LoopIsDrawn self.now.problem.now facts.old.facts facts.new number) }
    {
        let fact = facts.get(number);
        if let Fact::Edge(_, _, target) = fact {
            self.draw_missing_loops(facts, target, &[number])?;
        }
        Ok(())
    }

    /// Adds the loops of reflexive properties at the targets of the edges that have no entry.
    fn draw_targets(&self, facts: &mut KnownFacts) -> Result<(), Stop>
        requires { IsDerived self.now.problem.now facts.old }
        ensures { Draws self.now facts.old facts.new result (LoopsAreDrawn self.now.problem.now facts.old.facts facts.new) }
    {
        for number in 0..facts.len() {
            self.draw_target(facts, number as u32)?;
        }
        Ok(())
    }

    /// Adds what is there at once where facts are there already: what is there with no fact, and loops at targets that have no entry.
    pub fn begin_again(&self, facts: &mut KnownFacts) -> Result<(), Stop>
        requires derived { IsDerived self.now.problem.now facts.old }
        ensures { Draws self.now facts.old facts.new result (HasBegun self.now.problem.now self.now.max_facts facts.old facts.new) }
    {
        self.draw_targets(facts)?;
        self.begin(facts)?;
        Ok(())
    }

    /// Adds what the fact of that number gives alone: an edge its target as a context, the entry of a context the loops at it.
    pub(crate) fn draw_alone(&self, facts: &mut KnownFacts, hand: Premise) -> Result<(), Stop>
        requires derived { IsDerived self.now.problem.now facts.old }
        requires hand { slice_get facts.old.facts hand.number ≡ Some hand.fact }
        ensures { Draws self.now facts.old facts.new result (IsDrawnAlone self.now.problem.now hand.number hand.fact facts.old facts.new) }
    {
        let number = hand.number;
        let alone = Premises {
            numbers: &[number],
            facts: &[hand.fact],
        };
        self.draw(facts, alone)?;
        self.hand_on(facts, hand)?;
        match hand.fact {
            Fact::In(class, context) => {
                let hand = ClassPremise {
                    number,
                    class,
                    context,
                };
                self.draw_owed_loops(facts, hand)?;
            }
            Fact::Edge(_, _, target) => self.enter(facts, target, &[number])?,
        }
        Ok(())
    }
}
