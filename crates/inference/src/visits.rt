//! Which forms are visited for facts: those that give something from them are listed.
ghost use Rattle.std.specs.Prelude.{◌≡◌, ◌↔◌, ◌∷◌, [], ℕ, Some, Contains, IfSome, IsNone, false, slice_get};
ghost use Rattle.facts.specs.Closure.{FromOne, nothing};
ghost use Rattle.facts.specs.declared.contexts.Fact.{Fact as Fact2};
ghost use Rattle.normal_forms.specs.declared.forms.Form.{Form as Form2};
ghost use Rattle.normal_forms.specs.declared.forms.Class2.{Class2 as Class3};
ghost use Rattle.normal_forms.specs.declared.forms.Form.TheVariants as forms;
ghost use Rattle.normal_forms.specs.Properties.{IsAtOrBelow};
ghost use Rattle.normal_forms.specs.declared.forms.PropId2.{PropId2 as PropId3};
ghost use Rattle.indexes.specs.Keys.{by_chain, by_filler, class_key, property_key};
ghost use Rattle.property_closure.specs.PropertyClosures.{Has};
ghost use Rattle.inference.specs.PropertyClosures.{IsClosureOf};
ghost use Rattle.inference.specs.Visits.{HaveAllVisited, IsDeniedBetween, IsNotCarried, NoneUnder, chained_pair, chained_properties, filled_pair, filled_property};

use crate::conclusions::NOTHING;
use facts::{Context, Fact};
use indexes::IndexedProblem;
use normal_forms::{Class2, Form, PropId2};
use property_closure::PropertyClosure;

/// The properties of two edges.
fn chained_by(first: Fact, second: Fact) -> Option<(PropId2, PropId2)>
    ensures { result ≡ chained_pair first second }
{
    match (first, second) {
        (Fact::Edge(_, before, _), Fact::Edge(_, behind, _)) => Some((before, behind)),
        _ => None,
    }
}

/// The properties of the facts, where they are two edges.
pub(crate) fn chained(older: &[Fact]) -> Option<(PropId2, PropId2)>
    ensures { result ≡ chained_properties older.now }
{
    match *older {
        [first, second] => chained_by(first, second),
        _ => None,
    }
}

/// The property of an edge, and the class that is put into a context behind it.
fn filled_by(first: Fact, second: Fact) -> Option<(PropId2, Class2)>
    ensures { result ≡ filled_pair first second }
{
    match (first, second) {
        (Fact::Edge(_, property, _), Fact::In(filler, _)) => Some((property, filler)),
        _ => None,
    }
}

/// The property and the class of the facts, where they are an edge and a class in a context.
pub(crate) fn filled(older: &[Fact]) -> Option<(PropId2, Class2)>
    ensures { result ≡ filled_property older.now }
{
    match *older {
        [first, second] => filled_by(first, second),
        _ => None,
    }
}

/// Whether it is less to look up the forms of each of the properties than to go over so many that are listed.
pub(crate) fn is_long(listed: usize, properties: &[PropId2]) -> bool {
    listed / 4 > properties.len()
}

/// The forms that deny a pair of these contexts, where they are individuals.
fn denied_between(problem: &IndexedProblem, source: Context, target: Context) -> &[u32]
    ensures { (n : ℕ) → Contains result.now n ↔ IsDeniedBetween problem.now.forms source target n }
{
    match (source, target) {
        (Context::Individual(source), Context::Individual(target)) => {
            problem.denied_between(source, target)
        }
        _ => &[],
    }
}

/// The forms that give something from one fact.
fn visited_by_one(problem: &IndexedProblem, first: Fact) -> &[u32]
    ensures { (n : ℕ) (form : Form2) (f : Fact2) → slice_get problem.now.forms n ≡ Some form → FromOne problem.now form first f → Contains result.now n }
{
    match first {
        Fact::In(class, _) => problem.alone(class),
        Fact::Edge(source, _, target) => denied_between(problem, source, target),
    }
}

/// The forms, but chains and restrictions, that give something from two facts in this order.
fn visited_by_two(problem: &IndexedProblem, first: Fact, second: Fact) -> &[u32]
    ensures { HaveAllVisited problem.now (first ∷ second ∷ []) result.now }
{
    match (first, second) {
        (Fact::In(a, _), Fact::In(b, _)) => problem.intersections(a, b),
        _ => &[],
    }
}

/// The forms, but chains and restrictions, that give something from the facts in their order.
pub(crate) fn visited<'a>(problem: &'a IndexedProblem, older: &[Fact]) -> &'a [u32]
    ensures { HaveAllVisited problem.now older.now result.now }
{
    match *older {
        [] => problem.given(),
        [first] => visited_by_one(problem, first),
        [first, second] => visited_by_two(problem, first, second),
        _ => &[],
    }
}

pub(crate) fn has_any(list: &[u32]) -> bool
    ensures { result ≡ false → (n : ℕ) → Contains list.now n → ⊥ }
{
    !list.is_empty()
}

/// The two classes of the intersection of that number, if the form of that number is one.
pub(crate) fn operands_of(problem: &IndexedProblem, number: u32) -> Option<(Class2, Class2)>
    ensures some { IfSome result (λ p. (c : Class3) × (slice_get problem.now.forms number ≡ Some (forms.N2 p.0 p.1 c))) }
    ensures none { IsNone result → (a b c : Class3) → slice_get problem.now.forms number ≡ Some (forms.N2 a b c) → ⊥ }
{
    match problem.form(number) {
        Some(Form::N2(first, second, _)) => Some((first, second)),
        _ => None,
    }
}

/// Whether edges carry something to their sources for the class at their targets: a restriction has it as its filler, or it is
/// `owl:Nothing`.
pub(crate) fn is_carried(problem: &IndexedProblem, class: Class2) -> bool
    ensures nothing { result ≡ false → class ≡ nothing → ⊥ }
    ensures filler { result ≡ false → NoneUnder by_filler problem.now.forms (class_key class) }
{
    class == NOTHING || has_any(problem.with_filler(class))
}

/// Whether edges into its context have to meet the fact. They have not where it puts a class there for which they carry nothing.
pub fn is_filler(problem: &IndexedProblem, fact: Fact) -> bool
    ensures { result ≡ false → IsNotCarried problem.now fact }
{
    match fact {
        Fact::In(class, _) => is_carried(problem, class),
        Fact::Edge(..) => true,
    }
}

/// Whether some chain begins with the property, or one above it.
pub(crate) fn begins_chain(
    problem: &IndexedProblem,
    closure: &PropertyClosure,
    property: PropId2,
) -> bool
    requires closed { IsClosureOf problem.now.forms closure.now }
    requires has { Has closure.now property }
    ensures { result ≡ false → (r : PropId3) → IsAtOrBelow problem.now.forms property r → NoneUnder by_chain problem.now.forms (property_key r) }
{
    for above in closure.supers(property) {
        if has_any(problem.chains_from(*above)) {
            return true;
        }
    }
    false
}
