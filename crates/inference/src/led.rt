//! What forms that are listed with what they lead to give from facts: their conclusions stand in the list, and no form is read.
ghost use Rattle.std.specs.Prelude.{◌≡◌, ◌↔◌, ◌∷◌, [], IfSome, Some};
ghost use Rattle.facts.specs.Closure.{Problem, Concludes, FromOne, FromTwo, condition};
ghost use Rattle.facts.specs.declared.contexts.Context.{Context as Context2};
ghost use Rattle.facts.specs.declared.contexts.Fact.{Fact as Fact2};
ghost use Rattle.facts.specs.declared.contexts.Fact.TheVariants.{In};
ghost use Rattle.normal_forms.specs.declared.forms.Form.{Form as Form2};
ghost use Rattle.normal_forms.specs.declared.forms.Class2.{Class2 as Class3};
ghost use Rattle.indexes.specs.declared.keys.Key.{Key as Key2};
ghost use Rattle.indexes.specs.Keys.{by_alone, class_key};
ghost use Rattle.indexes.specs.ListedForms.{Says, SaysItsForm, SayTheirForms};
ghost use Rattle.inference.specs.Completeness.{AreAt, IsDrawnFrom};
ghost use Rattle.inference.specs.Derivations.{IsDerived};
ghost use Rattle.inference.specs.Draws.{Draws};
ghost use Rattle.inference.specs.Led.{AreLed, AreLedDrawn, IsLed, IsLedAt, IsLedForOne, IsLedForTwo};
ghost use Rattle.inference.specs.PropertyClosures.{IsClosureOf};

use crate::known_facts::{KnownFacts, Stop};
use crate::premises::Premises;
use crate::properties::is_below;
use crate::rules::Rules;
use facts::{Context, Fact};
use indexes::ListedForm;
use normal_forms::{Class2, PropId2};
use property_closure::PropertyClosure;

/// What the form gives where the class that it needs alone is in the context.
#[inline(always)]
fn from_class(listed: ListedForm, context: Context) -> Option<Fact>
    ensures { (k : Problem) (form : Form2) (a : Class3) (f : Fact2) → Says listed form → by_alone form ≡ Some (class_key a) → (result ≡ Some f) ↔ FromOne k form (In a context) f }
{
    let class = listed.class();
    let Some(property) = listed.property() else {
        return Some(Fact::In(class, context));
    };
    match class {
        Class2::Expr(filler) => Some(Fact::Edge(
            context,
            PropId2::Property(property),
            Context::Expr(filler),
        )),
        Class2::Partial(_) => None,
    }
}

/// What the form gives from the fact for which it is listed.
#[inline(always)]
fn from_one_led(listed: ListedForm, first: Fact) -> Option<Fact>
    ensures { (k : Problem) (form : Form2) (f : Fact2) → Says listed form → IsLedForOne form first → (result ≡ Some f) ↔ FromOne k form first f }
{
    match first {
        Fact::In(_, context) => from_class(listed, context),
        Fact::Edge(..) => None,
    }
}

/// What the form gives from the two facts for which it is listed.
#[inline(always)]
fn from_two_led(
    closure: &PropertyClosure,
    listed: ListedForm,
    first: Fact,
    second: Fact,
) -> Option<Fact>
    ensures { (k : Problem) (form : Form2) (f : Fact2) → IsClosureOf k.forms closure.now → Says listed form → IsLedForTwo form first second → (result ≡ Some f) ↔ FromTwo k form first second f }
{
    let restricted = PropId2::Property(listed.property()?);
    match (first, second) {
        (Fact::Edge(x, property, y), Fact::In(_, z))
            if y == z && is_below(closure, property, restricted) => {
            Some(Fact::In(listed.class(), x))
        }
        _ => None,
    }
}

/// What the form gives from the facts for which it is listed.
#[inline(always)]
fn from_led(closure: &PropertyClosure, listed: ListedForm, older: &[Fact]) -> Option<Fact>
    ensures { (k : Problem) (form : Form2) (f : Fact2) → IsClosureOf k.forms closure.now → Says listed form → IsLed form older.now → (result ≡ Some f) ↔ Concludes k form older.now f }
{
    match *older {
        [first] => from_one_led(listed, first),
        [first, second] => from_two_led(closure, listed, first, second),
        _ => None,
    }
}

/// The condition of a form that needs one class alone.
#[inline(always)]
fn condition_alone(listed: ListedForm) -> u8
    ensures { (form : Form2) (key : Key2) → Says listed form → by_alone form ≡ Some key → result ≡ condition form }
{
    match listed.property() {
        Some(_) => 6,
        None => 4,
    }
}

/// The condition of a form that is listed for the facts.
#[inline(always)]
fn condition_of_led(listed: ListedForm, older: &[Fact]) -> u8
    ensures { (form : Form2) → Says listed form → IsLed form older.now → result ≡ condition form }
{
    match *older {
        [_] => condition_alone(listed),
        _ => 7,
    }
}

/// The class that the fact puts into a context.
#[inline(always)]
fn class_of(fact: Fact) -> Option<Class2>
    ensures { IfSome result (λ c. (x : Context2) × (fact ≡ In c x)) }
{
    match fact {
        Fact::In(class, _) => Some(class),
        Fact::Edge(..) => None,
    }
}

/// The class that the facts put into a context, where they are one alone.
#[inline(always)]
pub(crate) fn class_alone(older: &[Fact]) -> Option<Class2>
    ensures { IfSome result (λ c. (x : Context2) × (older.now ≡ In c x ∷ [])) }
{
    match *older {
        [first] => class_of(first),
        _ => None,
    }
}

impl Rules<'_> {
    /// Adds what the form gives from the facts, for which it is listed.
    #[inline(always)]
    fn draw_led(
        &self,
        facts: &mut KnownFacts,
        listed: ListedForm,
        older: Premises<'_>,
    ) -> Result<(), Stop>
        requires derived { IsDerived self.now.problem.now facts.old }
        requires older { AreAt facts.old.facts older.numbers.now older.facts.now }
        requires says { SaysItsForm self.now.problem.now.forms listed }
        requires led { IsLedAt self.now.problem.now.forms older.facts.now listed }
        ensures { Draws self.now facts.old facts.new result (IsDrawnFrom self.now.problem.now older.entry.facts.now facts.new.facts listed.number) }
    {
        if let Some(fact) = from_led(self.closure, listed, older.facts) {
            let condition = condition_of_led(listed, older.facts);
            self.add(facts, fact, condition, older.numbers, Some(listed.number))?;
        }
        Ok(())
    }

    /// Adds what the forms give from the facts, for which they are listed.
    #[inline(always)]
    pub(crate) fn draw_all_led(
        &self,
        facts: &mut KnownFacts,
        listed: &[ListedForm],
        older: Premises<'_>,
    ) -> Result<(), Stop>
        requires derived { IsDerived self.now.problem.now facts.old }
        requires older { AreAt facts.old.facts older.numbers.now older.facts.now }
        requires say { SayTheirForms self.now.problem.now.forms listed.now }
        requires led { AreLed self.now.problem.now.forms older.facts.now listed.now }
        ensures { Draws self.now facts.old facts.new result (AreLedDrawn self.now.problem.now older.entry.facts.now facts.new.facts listed.now) }
    {
        for form in listed {
            self.draw_led(facts, *form, older)?;
        }
        Ok(())
    }
}
