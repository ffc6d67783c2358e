//! What lists of disjoint classes give: `owl:Nothing` in a context with two classes at two places of one list.
ghost use Rattle.std.specs.Prelude.{◌≡◌, ◌<◌, Some, Contains, IfSome, IsNone, false, length, slice_get, true};
ghost use Rattle.facts.specs.declared.contexts.Fact.TheVariants.{In};
ghost use Rattle.facts.specs.Closure.{nothing};
ghost use Rattle.normal_forms.specs.declared.forms.Class2.{Class2 as Class3};
ghost use Rattle.normal_forms.specs.declared.forms.Class2.TheVariants as classes;
ghost use Rattle.indexes.specs.declared.disjoint.Operand.{Operand as Operand2};
ghost use Rattle.indexes.specs.Apart.{AreApart, HasClass, IsApart};
ghost use Rattle.inference.specs.Derivations.{IsDerived};
ghost use Rattle.inference.specs.Draws.{Draws};
ghost use Rattle.inference.specs.Visits.{AreWithin};
ghost use Rattle.inference.specs.Premises.{class_fact};
ghost use Rattle.inference.specs.Partings.{AreApartMet, IsApartIn, IsPartingDrawn, NoneIsApart};

use crate::conclusions::NOTHING;
use crate::known_facts::{KnownFacts, Stop};
use crate::premises::{ClassPremise, Premise};
use crate::rules::Rules;
use facts::{Context, Fact};
use indexes::{Apart, Beside, Operand};
use normal_forms::Class2;

/// The number of a fact that puts the class of one of the operands into the context, if there is one.
fn find_operand(facts: &KnownFacts, operands: &[Operand], context: Context) -> Option<u32>
    ensures some { IfSome result (λ n. (o : Operand2) × Contains operands.now o × (slice_get facts.now.facts n ≡ Some (In (classes.Expr o.class) context))) }
    ensures none { IsNone result → (o : Operand2) → Contains operands.now o → Contains facts.now.facts (In (classes.Expr o.class) context) → ⊥ }
{
    for operand in operands {
        let found = facts.find(Fact::In(Class2::Expr(operand.class), context));
        if found.is_some() {
            return found;
        }
    }
    None
}

/// The number of a fact that puts one of those classes into the context, if there is one.
fn find_beside(facts: &KnownFacts, beside: &Beside<'_>, context: Context) -> Option<u32>
    ensures some { IfSome result (λ n. (b : Class3) × HasClass beside.now b × (slice_get facts.now.facts n ≡ Some (In b context))) }
    ensures none { IsNone result → (b : Class3) → HasClass beside.now b → Contains facts.now.facts (In b context) → ⊥ }
{
    match find_operand(facts, beside.before, context) {
        Some(number) => Some(number),
        None => find_operand(facts, beside.behind, context),
    }
}

/// Whether the fact of that number puts one of the classes that are apart into the context.
fn is_apart_in(facts: &KnownFacts, apart: &Apart<'_>, context: Context, number: u32) -> bool
    requires { number < length facts.now.facts }
    ensures yes { result ≡ true → IsApartIn apart.now context facts.now.facts number }
    ensures no { result ≡ false → IsApartIn apart.now context facts.now.facts number → ⊥ }
{
    match facts.get(number) {
        Fact::In(class, other) => other == context && apart.has(class),
        Fact::Edge(..) => false,
    }
}

/// One of the numbers, whose fact puts one of the classes that are apart into the context, if there is one.
fn find_listed(
    facts: &KnownFacts,
    apart: &Apart<'_>,
    context: Context,
    numbers: &[u32],
) -> Option<u32>
    requires { AreWithin facts.now.facts numbers.now }
    ensures some { IfSome result (λ n. IsApartIn apart.now context facts.now.facts n) }
    ensures none { IsNone result → NoneIsApart apart.now context facts.now.facts numbers.now }
{
    for number in numbers {
        if is_apart_in(facts, apart, context, *number) {
            return Some(*number);
        }
    }
    None
}

/// The number of a fact that puts one of the classes that are apart into the context, if there is one among those of these numbers: it
/// goes over the classes that are apart, or over the numbers, whichever are fewer.
fn find_apart(
    facts: &KnownFacts,
    apart: &Apart<'_>,
    context: Context,
    numbers: &[u32],
) -> Option<u32>
    requires { AreWithin facts.now.facts numbers.now }
    ensures some { IfSome result (λ n. IsApartIn apart.now context facts.now.facts n) }
    ensures none { IsNone result → NoneIsApart apart.now context facts.now.facts numbers.now }
{
    match apart.few(numbers.len()) {
        Some(few) => find_beside(facts, &few, context),
        None => find_listed(facts, apart, context, numbers),
    }
}

impl Rules<'_> {
    /// Adds `owl:Nothing` to the context into which the two facts put classes, where a list of disjoint classes has both, that of the first
    /// fact at an earlier place.
    #[inline(always)]
    pub(crate) fn draw_disjoint(
        &self,
        facts: &mut KnownFacts,
        first: Premise,
        second: Premise,
    ) -> Result<(), Stop>
        requires derived { IsDerived self.now.problem.now facts.old }
        requires first { slice_get facts.old.facts first.number ≡ Some first.fact }
        requires second { slice_get facts.old.facts second.number ≡ Some second.fact }
        ensures { Draws self.now facts.old facts.new result (IsPartingDrawn self.now.problem.now first.fact second.fact facts.new.facts) }
    {
        let (Fact::In(a, x), Fact::In(b, y)) = (first.fact, second.fact) else {
            return Ok(());
        };
        if x != y {
            return Ok(());
        }
        if let Some(list) = self.problem.disjoint_list(a, b) {
            let older = [first.number, second.number];
            self.add(facts, Fact::In(NOTHING, x), 14, &older, Some(list))?;
        }
        Ok(())
    }

    /// Adds `owl:Nothing` to the context, into which the facts of two numbers put two classes that are disjoint.
    fn draw_apart(
        &self,
        facts: &mut KnownFacts,
        hand: ClassPremise,
        number: u32,
    ) -> Result<(), Stop>
        requires derived { IsDerived self.now.problem.now facts.old }
        requires hand { slice_get facts.old.facts hand.number ≡ Some (class_fact hand) }
        requires other { (b : Class3) × AreApart self.now.problem.now hand.class b × (slice_get facts.old.facts number ≡ Some (In b hand.context)) }
        ensures { Draws self.now facts.old facts.new result (Contains facts.new.facts (In nothing hand.context)) }
    {
        let hand = Premise {
            number: hand.number,
            fact: Fact::In(hand.class, hand.context),
        };
        let other = Premise {
            number,
            fact: facts.get(number),
        };
        self.draw_two(facts, hand, other)?;
        self.draw_two(facts, other, hand)?;
        Ok(())
    }

    /// Adds `owl:Nothing` to the context of a class, where a fact of one of these numbers puts one into it that is apart from the class.
    /// Where it is there already, or no class is apart, it looks at none of them.
    pub(crate) fn meet_apart(
        &self,
        facts: &mut KnownFacts,
        hand: ClassPremise,
        apart: &Apart<'_>,
        numbers: &[u32],
    ) -> Result<(), Stop>
        requires derived { IsDerived self.now.problem.now facts.old }
        requires hand { slice_get facts.old.facts hand.number ≡ Some (class_fact hand) }
        requires apart { (b : Class3) → IsApart apart.now b → AreApart self.now.problem.now hand.class b }
        requires numbers { AreWithin facts.old.facts numbers.now }
        ensures { Draws self.now facts.old facts.new result (AreApartMet apart.now hand.context facts.old.facts numbers.now facts.new.facts) }
    {
        if apart.is_empty() || facts.find(Fact::In(NOTHING, hand.context)).is_some() {
            return Ok(());
        }
        if let Some(number) = find_apart(facts, apart, hand.context, numbers) {
            self.draw_apart(facts, hand, number)?;
        }
        Ok(())
    }
}
