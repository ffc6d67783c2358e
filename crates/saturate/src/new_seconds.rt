//! The edges that chains that are added need as second premises.
ghost use Rattle.saturate.specs.Growth.{EachFrom, LeavesLists};
ghost use Rattle.saturate.specs.NewSeconds.{IsListedAsSecond, ListsMoreSeconds, NoneEndsFrom};
ghost use Rattle.inference.specs.Derivations.{IsDerived};
ghost use Rattle.inference.specs.Predicates.{SaysAt};
ghost use Rattle.inference.specs.PropertyClosures.{IsClosureOf};
ghost use Rattle.inference.specs.declared.predicates.Predicate.TheVariants as predicates;
ghost use Rattle.property_closure.specs.PropertyClosures.{Has};
ghost use Rattle.std.specs.Prelude.{◌≡◌, ◌↔◌, ◌<◌, ℕ, Contains, IsTrue, OnOk, false, length, true};

use crate::ground::Ground;
use crate::numbered_properties::{count_properties, property_numbered};
use axioms::Memory;
use facts::Fact;
use indexes::{Index, IndexedProblem};
use inference::{KnownFacts, Predicate, is_second_premise};
use normal_forms::{Form, FormList, PropId2};
use property_closure::PropertyClosure;

/// Whether the form is no chain.
fn leaves_lists(form: Form) -> bool
    ensures { IsTrue result ↔ LeavesLists form }
{
    !matches!(form, Form::N6(..))
}

/// Whether none of the forms from that number on is a chain.
fn leave_lists(forms: &FormList, from: usize) -> bool
    ensures { IsTrue result ↔ EachFrom LeavesLists from forms.now }
{
    for number in from..forms.len() {
        if !leaves_lists(forms.at(number)) {
            return false;
        }
    }
    true
}

/// Whether one of the numbers is that one, or a greater one.
fn reach(numbers: &[u32], from: usize) -> bool
    ensures { result ≡ false → (n : ℕ) → Contains numbers.now n → n < from }
{
    for number in numbers {
        if *number as usize >= from {
            return true;
        }
    }
    false
}

/// Whether one of the forms from that number on is a chain that ends with the property, or with one above it.
fn ends_new(
    problem: &IndexedProblem,
    closure: &PropertyClosure,
    from: usize,
    property: PropId2,
) -> bool
    requires closed { IsClosureOf problem.now.forms closure.now }
    requires has { Has closure.now property }
    ensures { result ≡ false → NoneEndsFrom from problem.now.forms property }
{
    for above in closure.supers(property) {
        if reach(problem.chains_to(*above), from) {
            return true;
        }
    }
    false
}

/// How long a list may be for it to be looked through for a number. It decides nothing.
const SHORT: usize = 64;

/// Whether the number stands in the list, where that is short. A number may stand in a list twice, which takes room and time alone.
fn stands_in(list: &[u32], number: u32) -> bool
    ensures { result ≡ true → Contains list.now number }
{
    list.len() <= SHORT && list.contains(&number)
}

/// Lists the fact of that number as a second premise, where it is an edge that has to be one at all: one that a transitive property gave
/// has not where each chain goes on.
fn list_second(
    ground: &Ground,
    facts: &KnownFacts,
    number: u32,
    index: &mut Index,
) -> Result<(), Memory>
    requires derived { IsDerived ground.now facts.now }
    requires number { number < length facts.now.facts }
    ensures more { ListsMoreSeconds facts.now.facts index.old index.new }
    ensures listed { (from : ℕ) → OnOk result (IsListedAsSecond from ground.now facts.now index.new number) }
{
    let Fact::Edge(source, _, _) = facts.get(number) else {
        return Ok(());
    };
    if !is_second_premise(
        ground.problem(),
        ground.closure(),
        ground.joins(),
        facts,
        number,
    ) {
        return Ok(());
    }
    if stands_in(index.second_premises_from(source), number) {
        return Ok(());
    }
    index.add_second_premise(number, source)?;
    Ok(())
}

/// Lists as second premises those edges by the property that have to be such at all.
fn list_all(
    ground: &Ground,
    property: PropId2,
    facts: &KnownFacts,
    index: &mut Index,
) -> Result<(), Memory>
    requires { IsDerived ground.now facts.now }
    ensures more { ListsMoreSeconds facts.now.facts index.old index.new }
    ensures listed { (from : ℕ) → OnOk result ((n : ℕ) → SaysAt (predicates.Property property) facts.now.facts n → IsListedAsSecond from ground.now facts.now index.new n) }
{
    let mut next = facts.last_of(Predicate::Property(property));
    while let Some(number) = next {
        list_second(ground, facts, number, index)?;
        next = facts.before(number);
    }
    Ok(())
}

/// Lists the edges by the property as second premises, where one of the forms from that number on needs them as such.
fn list_needed(
    ground: &Ground,
    closure: &PropertyClosure,
    from: usize,
    property: PropId2,
    facts: &KnownFacts,
    index: &mut Index,
) -> Result<(), Memory>
    requires derived { IsDerived ground.now facts.now }
    requires closed { IsClosureOf ground.now.forms closure.now }
    requires has { Has closure.now property }
    ensures more { ListsMoreSeconds facts.now.facts index.old index.new }
    ensures listed { OnOk result ((n : ℕ) → SaysAt (predicates.Property property) facts.now.facts n → IsListedAsSecond from ground.now facts.now index.new n) }
{
    if !ends_new(ground.problem(), closure, from, property) {
        return Ok(());
    }
    list_all(ground, property, facts, index)
}

/// Lists each edge as a second premise that one of the forms from that number on needs as one. Where memory is refused, some of them may be
/// listed.
pub(crate) fn list_seconds(
    ground: &Ground,
    from: usize,
    facts: &KnownFacts,
    index: &mut Index,
) -> Result<(), Memory>
    requires { IsDerived ground.now facts.now }
    ensures more { ListsMoreSeconds facts.now.facts index.old index.new }
    ensures listed { OnOk result ((n : ℕ) → IsListedAsSecond from ground.now facts.now index.new n) }
{
    if leave_lists(ground.problem().forms(), from) {
        return Ok(());
    }
    let closure = ground.closure();
    for number in 0..count_properties(closure) {
        let property = property_numbered(closure, number);
        list_needed(ground, closure, from, property, facts, index)?;
    }
    Ok(())
}
