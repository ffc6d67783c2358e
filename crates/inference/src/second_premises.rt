//! Which facts have to be second premises.
ghost use Rattle.std.specs.Prelude.{◌≡◌, ◌<◌, Some, false, length, slice_get, true};
ghost use Rattle.normal_forms.specs.declared.forms.Form.TheVariants as the_forms;
ghost use Rattle.normal_forms.specs.declared.forms.PropId2.{PropId2 as PropId3};
ghost use Rattle.normal_forms.specs.Properties.{IsAtOrBelow};
ghost use Rattle.facts.specs.declared.contexts.Fact.{Fact as Fact2};
ghost use Rattle.indexes.specs.Keys.{by_end, property_key};
ghost use Rattle.property_closure.specs.PropertyClosures.{Has};
ghost use Rattle.inference.specs.PropertyClosures.{IsClosureOf};
ghost use Rattle.inference.specs.Derivations.{IsDerived};
ghost use Rattle.inference.specs.Joins.{AreJoins};
ghost use Rattle.inference.specs.Visits.{IsGivenBySpared, NoneNeedsWhole, NoneUnder};
ghost use Rattle.inference.specs.Completeness.{IsRedundantAsSecond};

use crate::joins::Joins;
use crate::known_facts::KnownFacts;
use crate::properties::is_same;
use crate::visits::has_any;
use facts::Fact;
use indexes::IndexedProblem;
use normal_forms::{Form, PropId2};
use property_closure::PropertyClosure;

/// Whether a chain ends with the property, or with one above it.
fn ends_chain(problem: &IndexedProblem, closure: &PropertyClosure, property: PropId2) -> bool
    requires closed { IsClosureOf problem.now.forms closure.now }
    requires has { Has closure.now property }
    ensures { result ≡ false → (s : PropId3) → IsAtOrBelow problem.now.forms property s → NoneUnder by_end problem.now.forms (property_key s) }
{
    for above in closure.supers(property) {
        if has_any(problem.chains_to(*above)) {
            return true;
        }
    }
    false
}

/// Whether the form of that number is a chain whose whole is the property, and no chain needs what it gives as its second premise.
fn spares(problem: &IndexedProblem, joins: &Joins, number: u32, property: PropId2) -> bool
    requires { AreJoins problem.now.forms joins.now }
    ensures { result ≡ true → (a b : PropId3) × (slice_get problem.now.forms number ≡ Some (the_forms.N6 a b property)) × NoneNeedsWhole problem.now.forms a b property }
{
    match problem.form(number) {
        Some(Form::N6(_, _, whole)) => is_same(whole, property) && joins.spares(number),
        _ => false,
    }
}

/// Whether a chain gave the edge of that number, which is by the property, and no chain needs what that one gives as its second premise.
fn is_spared(
    problem: &IndexedProblem,
    joins: &Joins,
    facts: &KnownFacts,
    number: u32,
    property: PropId2,
) -> bool
    requires joins { AreJoins problem.now.forms joins.now }
    requires derived { IsDerived problem.now facts.now }
    requires number { number < length facts.now.facts }
    ensures { result ≡ true → (f : Fact2) → slice_get facts.now.facts number ≡ Some f → IsGivenBySpared problem.now facts.now property f }
{
    match facts.birth(number).form() {
        Some(form) => spares(problem, joins, form, property),
        None => false,
    }
}

/// Whether the fact of that number has to be a second premise. An edge has not where no chain ends with its property, or with one above it;
/// and where a chain gave it of which no chain needs what it gives, since what the older two that gave it lead to is the same.
pub fn is_second_premise(
    problem: &IndexedProblem,
    closure: &PropertyClosure,
    joins: &Joins,
    facts: &KnownFacts,
    number: u32,
) -> bool
    requires closed { IsClosureOf problem.now.forms closure.now }
    requires joins { AreJoins problem.now.forms joins.now }
    requires derived { IsDerived problem.now facts.now }
    requires number { number < length facts.now.facts }
    ensures { result ≡ false → (f : Fact2) → slice_get facts.now.facts number ≡ Some f → IsRedundantAsSecond problem.now facts.now f }
{
    match facts.get(number) {
        Fact::In(..) => true,
        Fact::Edge(_, property, _) => {
            ends_chain(problem, closure, property)
                && !is_spared(problem, joins, facts, number, property)
        }
    }
}
