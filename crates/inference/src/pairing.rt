//! What two facts give, added to the facts.
ghost use Rattle.std.specs.Prelude.{◌≡◌, ◌<◌, [], ◌∷◌, ℕ, false, Some, length, slice_get};
ghost use Rattle.facts.specs.Closure.{AreDisjointAt};
ghost use Rattle.facts.specs.declared.contexts.Fact.{Fact as Fact2};
ghost use Rattle.inference.specs.Derivations.{IsDerived};
ghost use Rattle.inference.specs.Draws.{Draws};
ghost use Rattle.inference.specs.Completeness.{IsRedundantAsSecond, Drawn, IsDrawnIn, AreDrawnIn, MeetsOperands, MeetEachOther, AreMet, AreMetBefore, AreMetBehind};
ghost use Rattle.inference.specs.Visits.{AreAll, AreWithin, GiveNothing, IsClassFact, IsEdge, IsOfClass, IsOfClasses, IsOperandBy};
ghost use Rattle.inference.specs.Premises.{class_fact, edge_fact};
ghost use Rattle.inference.specs.Marks.{HasAboveOf, HasEndsOf, HasFilledOf, HasSecondsOf};
ghost use Rattle.inference.specs.Meetings.{IsWithin, AllListedAreMet, HasServed};

use crate::known_facts::{KnownFacts, Stop};
use crate::premises::{ClassPremise, EdgePremise, Premise, Premises};
use crate::rules::Rules;
use crate::visits::{begins_chain, is_carried, operands_of};
use facts::{Context, Fact};
use indexes::Index;
use normal_forms::{Class2, PropId2};

/// The context that the fact is of, an edge's source.
fn source_of(fact: Fact) -> Context {
    match fact {
        Fact::In(_, context) => context,
        Fact::Edge(source, _, _) => source,
    }
}

/// A class, and what the forms and lists say of it: where they say nothing, it gives nothing with another class.
#[derive(Clone, Copy)]
struct Operand {
    class: Class2,
    /// Whether an intersection begins with it.
    begins: bool,
    /// Whether an intersection ends with it.
    ends: bool,
    /// Whether a list of disjoint classes has it.
    is_listed: bool,
}

impl Rules<'_> {
    /// The class, with what is said of it.
    fn operand(&self, class: Class2) -> Operand
        ensures class { result.class ≡ class }
        ensures said { IsOperandBy self.now.problem.now result }
    {
        Operand {
            class,
            begins: self.problem.begins_intersection(class),
            ends: self.problem.ends_intersection(class),
            is_listed: self.problem.is_in_list(class),
        }
    }

    /// Whether an intersection may begin with the one class and end with the other.
    fn may_begin(&self, operand: Operand, other: Class2) -> bool
        requires { IsOperandBy self.now.problem.now operand }
        ensures { result ≡ false → (n : ℕ) → IsOfClasses self.now.problem.now.forms operand.class other n → ⊥ }
    {
        operand.begins && self.problem.ends_intersection(other)
    }

    /// Whether an intersection may begin with the other class and end with the one.
    fn may_end(&self, operand: Operand, other: Class2) -> bool
        requires { IsOperandBy self.now.problem.now operand }
        ensures { result ≡ false → (n : ℕ) → IsOfClasses self.now.problem.now.forms other operand.class n → ⊥ }
    {
        operand.ends && self.problem.begins_intersection(other)
    }

    /// Whether each of the two is in a list of disjoint classes.
    fn may_be_apart(&self, operand: Operand, other: Class2) -> bool
        requires { IsOperandBy self.now.problem.now operand }
        ensures before { result ≡ false → (l : ℕ) → AreDisjointAt self.now.problem.now l operand.class other → ⊥ }
        ensures behind { result ≡ false → (l : ℕ) → AreDisjointAt self.now.problem.now l other operand.class → ⊥ }
    {
        operand.is_listed && self.problem.is_in_list(other)
    }

    /// Whether the class in a context may give something as the first of two, with that fact as the second.
    fn may_give_before(&self, operand: Operand, fact: Fact) -> bool
        requires { IsOperandBy self.now.problem.now operand }
        ensures { result ≡ false → (f : Fact2) → IsOfClass operand.class f → GiveNothing self.now.problem.now f fact }
    {
        match fact {
            Fact::In(other, _) => {
                self.may_begin(operand, other) || self.may_be_apart(operand, other)
            }
            Fact::Edge(..) => true,
        }
    }

    /// Whether the class in a context may give something as the second of two, with that fact as the first.
    fn may_give_behind(&self, operand: Operand, fact: Fact) -> bool
        requires { IsOperandBy self.now.problem.now operand }
        ensures { result ≡ false → (f : Fact2) → IsOfClass operand.class f → GiveNothing self.now.problem.now fact f }
    {
        match fact {
            Fact::In(other, _) => {
                self.may_end(operand, other) || self.may_be_apart(operand, other)
            }
            Fact::Edge(..) => true,
        }
    }

    /// Adds what two facts give in this order.
    pub(crate) fn draw_two(
        &self,
        facts: &mut KnownFacts,
        first: Premise,
        second: Premise,
    ) -> Result<(), Stop>
        requires derived { IsDerived self.now.problem.now facts.old }
        requires first { slice_get facts.old.facts first.number ≡ Some first.fact }
        requires second { slice_get facts.old.facts second.number ≡ Some second.fact }
        ensures { Draws self.now facts.old facts.new result (Drawn self.now.problem.now (first.fact ∷ second.fact ∷ []) facts.new.facts) }
    {
        let both = Premises {
            numbers: &[first.number, second.number],
            facts: &[first.fact, second.fact],
        };
        self.draw(facts, both)?;
        self.draw_disjoint(facts, first, second)?;
        Ok(())
    }

    /// Adds what two facts give in this order, if they may give anything.
    fn draw_if(
        &self,
        facts: &mut KnownFacts,
        may_give: bool,
        first: Premise,
        second: Premise,
    ) -> Result<(), Stop>
        requires derived { IsDerived self.now.problem.now facts.old }
        requires first { slice_get facts.old.facts first.number ≡ Some first.fact }
        requires second { slice_get facts.old.facts second.number ≡ Some second.fact }
        requires may { may_give ≡ false → GiveNothing self.now.problem.now first.fact second.fact }
        ensures { Draws self.now facts.old facts.new result (Drawn self.now.problem.now (first.fact ∷ second.fact ∷ []) facts.new.facts) }
    {
        if may_give {
            self.draw_two(facts, first, second)?;
        }
        Ok(())
    }

    /// Adds what two edges give in this order.
    #[inline(always)]
    fn draw_edges(
        &self,
        facts: &mut KnownFacts,
        first: Premise,
        second: Premise,
    ) -> Result<(), Stop>
        requires derived { IsDerived self.now.problem.now facts.old }
        requires first { slice_get facts.old.facts first.number ≡ Some first.fact }
        requires second { slice_get facts.old.facts second.number ≡ Some second.fact }
        requires edge { IsEdge first.fact }
        requires other { IsEdge second.fact }
        ensures { Draws self.now facts.old facts.new result (Drawn self.now.problem.now (first.fact ∷ second.fact ∷ []) facts.new.facts) }
    {
        if let (Fact::Edge(_, before, _), Fact::Edge(_, behind, _)) = (first.fact, second.fact) {
            let both = Premises {
                numbers: &[first.number, second.number],
                facts: &[first.fact, second.fact],
            };
            self.draw_chains(facts, before, behind, both)?;
        }
        Ok(())
    }

    /// Adds what the class in a context gives with another fact, whichever is first. With itself a fact has one order.
    fn meet(
        &self,
        facts: &mut KnownFacts,
        operand: Operand,
        first: Premise,
        second: Premise,
    ) -> Result<(), Stop>
        requires derived { IsDerived self.now.problem.now facts.old }
        requires first { slice_get facts.old.facts first.number ≡ Some first.fact }
        requires second { slice_get facts.old.facts second.number ≡ Some second.fact }
        requires said { IsOperandBy self.now.problem.now operand }
        requires class { IsOfClass operand.class first.fact }
        ensures { Draws self.now facts.old facts.new result (MeetEachOther self.now.problem.now first.fact second.fact facts.new) }
    {
        let before = self.may_give_before(operand, second.fact);
        self.draw_if(facts, before, first, second)?;
        if first.number == second.number {
            return Ok(());
        }
        let behind = self.may_give_behind(operand, second.fact);
        self.draw_if(facts, behind, second, first)?;
        Ok(())
    }

    /// Adds what the class in a context gives, by the fact of that number, with the facts of the other numbers.
    fn meet_all(
        &self,
        facts: &mut KnownFacts,
        operand: Operand,
        hand: Premise,
        numbers: &[u32],
    ) -> Result<(), Stop>
        requires derived { IsDerived self.now.problem.now facts.old }
        requires hand { slice_get facts.old.facts hand.number ≡ Some hand.fact }
        requires numbers { AreWithin facts.old.facts numbers.now }
        requires said { IsOperandBy self.now.problem.now operand }
        requires class { IsOfClass operand.class hand.fact }
        ensures { Draws self.now facts.old facts.new result (AreMet self.now.problem.now hand.fact facts.old.facts numbers.now facts.new) }
    {
        for number in numbers {
            let partner = Premise {
                number: *number,
                fact: facts.get(*number),
            };
            self.meet(facts, operand, hand, partner)?;
        }
        Ok(())
    }

    /// Adds what the intersection of that number gives from its two classes, if both are in the context.
    fn draw_intersection(
        &self,
        facts: &mut KnownFacts,
        number: u32,
        context: Context,
    ) -> Result<(), Stop>
        requires derived { IsDerived self.now.problem.now facts.old }
        ensures { Draws self.now facts.old facts.new result (IsDrawnIn self.now.problem.now facts.old.facts context facts.new.facts number) }
    {
        let Some((first, second)) = operands_of(self.problem, number) else {
            return Ok(());
        };
        let Some(place) = facts.find(Fact::In(second, context)) else {
            return Ok(());
        };
        let Some(before) = facts.find(Fact::In(first, context)) else {
            return Ok(());
        };
        let both = Premises {
            numbers: &[before, place],
            facts: &[Fact::In(first, context), Fact::In(second, context)],
        };
        self.draw_form(facts, number, both)
    }

    /// Adds what the listed intersections give from classes in the context.
    fn draw_intersections(
        &self,
        facts: &mut KnownFacts,
        listed: &[u32],
        context: Context,
    ) -> Result<(), Stop>
        requires derived { IsDerived self.now.problem.now facts.old }
        ensures { Draws self.now facts.old facts.new result (AreDrawnIn self.now.problem.now facts.old.facts context facts.new.facts listed.now) }
    {
        for number in listed {
            self.draw_intersection(facts, *number, context)?;
        }
        Ok(())
    }

    /// Adds what the intersections that have a class as their first operand, or as their second, give from classes in the context.
    fn meet_operands(
        &self,
        facts: &mut KnownFacts,
        first: &[u32],
        second: &[u32],
        context: Context,
    ) -> Result<(), Stop>
        requires derived { IsDerived self.now.problem.now facts.old }
        ensures { Draws self.now facts.old facts.new result (MeetsOperands self.now.problem.now facts.old.facts first.now second.now context facts.new.facts) }
    {
        self.draw_intersections(facts, first, context)?;
        self.draw_intersections(facts, second, context)?;
        Ok(())
    }

    /// Adds what the class in a context gives with the other classes in it, which have those numbers: by the intersections that are
    /// listed for the class and by the lists of disjoint classes that it is in, or by the other classes, whichever are fewer.
    fn meet_classes(
        &self,
        facts: &mut KnownFacts,
        hand: ClassPremise,
        numbers: &[u32],
    ) -> Result<(), Stop>
        requires derived { IsDerived self.now.problem.now facts.old }
        requires hand { slice_get facts.old.facts hand.number ≡ Some (class_fact hand) }
        requires numbers { AreAll IsClassFact facts.old.facts numbers.now }
        ensures { Draws self.now facts.old facts.new result (AreMet self.now.problem.now (class_fact hand) facts.old.facts numbers.now facts.new) }
    {
        match self.problem.few_intersections(hand.class, numbers.len()) {
            Some(few) => {
                self.meet_operands(facts, few.first, few.second, hand.context)?;
                self.meet_apart(facts, hand, &few.apart, numbers)?;
            }
            None => {
                let operand = self.operand(hand.class);
                let hand = Premise {
                    number: hand.number,
                    fact: Fact::In(hand.class, hand.context),
                };
                self.meet_all(facts, operand, hand, numbers)?;
            }
        }
        Ok(())
    }

    /// Whether an edge with these bits of properties may carry something to its source for the fact, where that puts a class into its target.
    fn may_fill(&self, above: u64, fact: Fact) -> bool
        ensures { result ≡ false → (f : Fact2) → HasAboveOf self.now.problem.now.forms above f → GiveNothing self.now.problem.now f fact }
    {
        match fact {
            Fact::In(class, _) => above & self.joins.filled(class) != 0,
            Fact::Edge(..) => true,
        }
    }

    /// Whether the fact may carry something to its source for a class that fills restrictions on these bits of properties.
    fn may_bear(&self, filled: u64, fact: Fact) -> bool
        ensures { result ≡ false → (g : Fact2) → HasFilledOf self.now.problem.now.forms filled g → GiveNothing self.now.problem.now fact g }
    {
        match fact {
            Fact::In(..) => true,
            Fact::Edge(_, property, _) => self.joins.above(property) & filled != 0,
        }
    }

    /// Whether the fact of that number may carry something to its source for a class that fills restrictions on these bits of properties.
    /// It is read only where no mark tells its property.
    fn may_carry(&self, facts: &KnownFacts, filled: u64, number: u32) -> bool
        requires { number < length facts.now.facts }
        ensures { result ≡ false → (f g : Fact2) → HasFilledOf self.now.problem.now.forms filled g → slice_get facts.now.facts number ≡ Some f → GiveNothing self.now.problem.now f g }
    {
        match facts.marked(number) {
            Some(property) => self.joins.above(PropId2::Property(property)) & filled != 0,
            None => self.may_bear(filled, facts.get(number)),
        }
    }

    /// Adds what the edge with these bits of properties gives as the first of two, with each of those of the other numbers, which put
    /// classes into contexts.
    pub(crate) fn meet_before(
        &self,
        facts: &mut KnownFacts,
        hand: Premise,
        above: u64,
        numbers: &[u32],
    ) -> Result<(), Stop>
        requires derived { IsDerived self.now.problem.now facts.old }
        requires hand { slice_get facts.old.facts hand.number ≡ Some hand.fact }
        requires above { HasAboveOf self.now.problem.now.forms above hand.fact }
        requires numbers { AreWithin facts.old.facts numbers.now }
        ensures { Draws self.now facts.old facts.new result (AreMetBefore self.now.problem.now hand.fact facts.old.facts numbers.now facts.new) }
    {
        for number in numbers {
            let partner = Premise {
                number: *number,
                fact: facts.get(*number),
            };
            if self.may_fill(above, partner.fact) {
                self.draw_two(facts, hand, partner)?;
            }
        }
        Ok(())
    }

    /// Adds what the fact gives as the second of two, with each of those of the other numbers, where it puts a class into a context that
    /// fills restrictions on these bits of properties.
    fn meet_behind(
        &self,
        facts: &mut KnownFacts,
        hand: Premise,
        filled: u64,
        numbers: &[u32],
    ) -> Result<(), Stop>
        requires derived { IsDerived self.now.problem.now facts.old }
        requires hand { slice_get facts.old.facts hand.number ≡ Some hand.fact }
        requires filled { HasFilledOf self.now.problem.now.forms filled hand.fact }
        requires numbers { AreWithin facts.old.facts numbers.now }
        ensures { Draws self.now facts.old facts.new result (AreMetBehind self.now.problem.now hand.fact facts.old.facts numbers.now facts.new) }
    {
        for number in numbers {
            if self.may_carry(facts, filled, *number) {
                let partner = Premise {
                    number: *number,
                    fact: facts.get(*number),
                };
                self.draw_two(facts, partner, hand)?;
            }
        }
        Ok(())
    }

    /// Adds what the class in a context gives with the edges into it, which have those numbers.
    fn carry(&self, facts: &mut KnownFacts, hand: ClassPremise, numbers: &[u32]) -> Result<(), Stop>
        requires derived { IsDerived self.now.problem.now facts.old }
        requires hand { slice_get facts.old.facts hand.number ≡ Some (class_fact hand) }
        requires numbers { AreAll IsEdge facts.old.facts numbers.now }
        ensures { Draws self.now facts.old facts.new result (AreMetBehind self.now.problem.now (class_fact hand) facts.old.facts numbers.now facts.new) }
    {
        if is_carried(self.problem, hand.class) {
            let filled = self.joins.filled(hand.class);
            let hand = Premise {
                number: hand.number,
                fact: Fact::In(hand.class, hand.context),
            };
            self.meet_behind(facts, hand, filled, numbers)?;
        }
        Ok(())
    }

    /// Whether a chain may join the fact of that number behind an edge with these bits of seconds.
    fn may_follow(&self, facts: &KnownFacts, seconds: u64, number: u32) -> bool
        ensures { result ≡ false → (f g : Fact2) → HasSecondsOf self.now.problem.now.forms seconds f → slice_get facts.now.facts number ≡ Some g → GiveNothing self.now.problem.now f g }
    {
        match facts.marked(number) {
            Some(property) => self.joins.ends(PropId2::Property(property)) & seconds != 0,
            None => true,
        }
    }

    /// Whether a chain may join the fact of that number before an edge with these bits of ends.
    fn may_lead(&self, facts: &KnownFacts, ends: u64, number: u32) -> bool
        ensures { result ≡ false → (f g : Fact2) → HasEndsOf self.now.problem.now.forms ends g → slice_get facts.now.facts number ≡ Some f → GiveNothing self.now.problem.now f g }
    {
        match facts.marked(number) {
            Some(property) => self.joins.seconds(PropId2::Property(property)) & ends != 0,
            None => true,
        }
    }

    /// Adds what the edge with these bits of seconds gives as the first of two, with each of those of the other numbers.
    fn join_before(
        &self,
        facts: &mut KnownFacts,
        hand: Premise,
        seconds: u64,
        numbers: &[u32],
    ) -> Result<(), Stop>
        requires derived { IsDerived self.now.problem.now facts.old }
        requires hand { slice_get facts.old.facts hand.number ≡ Some hand.fact }
        requires seconds { HasSecondsOf self.now.problem.now.forms seconds hand.fact }
        requires numbers { AreAll IsEdge facts.old.facts numbers.now }
        ensures { Draws self.now facts.old facts.new result (AreMetBefore self.now.problem.now hand.fact facts.old.facts numbers.now facts.new) }
    {
        for number in numbers {
            if self.may_follow(facts, seconds, *number) {
                let partner = Premise {
                    number: *number,
                    fact: facts.get(*number),
                };
                self.draw_edges(facts, hand, partner)?;
            }
        }
        Ok(())
    }

    /// Adds what the edge with these bits of ends gives as the second of two, with each of those of the other numbers.
    fn join_behind(
        &self,
        facts: &mut KnownFacts,
        hand: Premise,
        ends: u64,
        numbers: &[u32],
    ) -> Result<(), Stop>
        requires derived { IsDerived self.now.problem.now facts.old }
        requires hand { slice_get facts.old.facts hand.number ≡ Some hand.fact }
        requires ends { HasEndsOf self.now.problem.now.forms ends hand.fact }
        requires numbers { AreAll IsEdge facts.old.facts numbers.now }
        ensures { Draws self.now facts.old facts.new result (AreMetBehind self.now.problem.now hand.fact facts.old.facts numbers.now facts.new) }
    {
        for number in numbers {
            if self.may_lead(facts, ends, *number) {
                let partner = Premise {
                    number: *number,
                    fact: facts.get(*number),
                };
                self.draw_edges(facts, partner, hand)?;
            }
        }
        Ok(())
    }

    /// Adds what the edge gives as the first of two, with edges that have those numbers.
    fn lead_on(
        &self,
        facts: &mut KnownFacts,
        hand: EdgePremise,
        numbers: &[u32],
    ) -> Result<(), Stop>
        requires derived { IsDerived self.now.problem.now facts.old }
        requires hand { slice_get facts.old.facts hand.number ≡ Some (edge_fact hand) }
        requires numbers { AreAll IsEdge facts.old.facts numbers.now }
        ensures { Draws self.now facts.old facts.new result (AreMetBefore self.now.problem.now (edge_fact hand) facts.old.facts numbers.now facts.new) }
    {
        if begins_chain(self.problem, self.closure, hand.property) {
            let seconds = self.joins.seconds(hand.property);
            let hand = Premise {
                number: hand.number,
                fact: Fact::Edge(hand.source, hand.property, hand.target),
            };
            self.join_before(facts, hand, seconds, numbers)?;
        }
        Ok(())
    }

    /// Adds what the edge gives as the second of two, with the edges into its source, which have those numbers: nothing where it need
    /// not be a second premise.
    fn lead_up(
        &self,
        facts: &mut KnownFacts,
        hand: EdgePremise,
        is_second: bool,
        numbers: &[u32],
    ) -> Result<(), Stop>
        requires derived { IsDerived self.now.problem.now facts.old }
        requires hand { slice_get facts.old.facts hand.number ≡ Some (edge_fact hand) }
        requires second { is_second ≡ false → IsRedundantAsSecond self.now.problem.now facts.old (edge_fact hand) }
        requires numbers { AreAll IsEdge facts.old.facts numbers.now }
        ensures { Draws self.now facts.old facts.new result (AreMetBehind self.now.problem.now (edge_fact hand) facts.old.facts numbers.now facts.new) }
    {
        if is_second {
            let ends = self.joins.ends(hand.property);
            let hand = Premise {
                number: hand.number,
                fact: Fact::Edge(hand.source, hand.property, hand.target),
            };
            self.join_behind(facts, hand, ends, numbers)?;
        }
        Ok(())
    }

    /// Adds what the fact gives with those that the index lists for it.
    fn meet_listed(
        &self,
        facts: &mut KnownFacts,
        index: &Index,
        hand: Premise,
        is_second: bool,
    ) -> Result<(), Stop>
        requires derived { IsDerived self.now.problem.now facts.old }
        requires hand { slice_get facts.old.facts hand.number ≡ Some hand.fact }
        requires index { IsWithin facts.old.facts index.now }
        requires second { is_second ≡ false → IsRedundantAsSecond self.now.problem.now facts.old hand.fact }
        ensures { Draws self.now facts.old facts.new result (AllListedAreMet self.now.problem.now hand.fact facts.old.facts index.now facts.new) }
    {
        let number = hand.number;
        match hand.fact {
            Fact::In(class, context) => {
                let hand = ClassPremise {
                    number,
                    class,
                    context,
                };
                self.meet_classes(facts, hand, index.classes_in(context))?;
                self.carry(facts, hand, index.edges_into(context))?;
            }
            Fact::Edge(source, property, target) => {
                let hand = EdgePremise {
                    number,
                    source,
                    property,
                    target,
                };
                self.meet_fillers(facts, hand, index.fillers_in(target))?;
                self.lead_on(facts, hand, index.second_premises_from(target))?;
                self.lead_up(facts, hand, is_second, index.edges_into(source))?;
            }
        }
        Ok(())
    }

    /// Adds what the fact of that number gives, alone and with those that the index lists for it; as the second of two only where it has
    /// to be a second premise.
    pub fn serve(
        &self,
        facts: &mut KnownFacts,
        index: &Index,
        hand: Premise,
        is_second: bool,
    ) -> Result<(), Stop>
        requires derived { IsDerived self.now.problem.now facts.old }
        requires hand { slice_get facts.old.facts hand.number ≡ Some hand.fact }
        requires index { IsWithin facts.old.facts index.now }
        requires second { is_second ≡ false → IsRedundantAsSecond self.now.problem.now facts.old hand.fact }
        ensures { Draws self.now facts.old facts.new result (HasServed self.now.problem.now hand.number hand.fact facts.old index.now facts.new) }
    {
        facts.own(source_of(hand.fact));
        self.draw_alone(facts, hand)?;
        self.meet_listed(facts, index, hand, is_second)?;
        Ok(())
    }
}
