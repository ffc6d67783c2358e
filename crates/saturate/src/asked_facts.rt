//! Facts for which forms and lists that are added ask, found in the lists of facts by class, by property and by context.
ghost use Rattle.facts.specs.declared.contexts.Context.TheVariants as contexts;
ghost use Rattle.facts.specs.declared.contexts.Fact.{Fact as Fact2};
ghost use Rattle.indexes.specs.Contexts.{at_context};
ghost use Rattle.inference.specs.Derivations.{IsDerived};
ghost use Rattle.inference.specs.PropertyClosures.{IsClosureOf};
ghost use Rattle.inference.specs.Visits.{HasProperty};
ghost use Rattle.normal_forms.specs.declared.forms.Form.{Form as Form2};
ghost use Rattle.normal_forms.specs.declared.forms.PropId2.TheVariants as properties;
ghost use Rattle.normal_forms.specs.Properties.{IsAtOrBelow};
ghost use Rattle.property_closure.specs.PropertyClosures.{Has};
ghost use Rattle.saturate.specs.Flags.{AreFlaggedToo, AreListedBelow, FlagsServed, IsListedAt, IsListedFor, IsSuchForOne, is_flagged};
ghost use Rattle.saturate.specs.Requests.{BeginsWith, Denies, HasForm, HasUnder, IsAsked, IsAskedByList, IsSuchAt, LacksUnder, ListAsks, NamesAbove, NamesEdge, NamesEdgeBy, problem_of};
ghost use Rattle.std.specs.Prelude.{◌≡◌, ◌↔◌, ◌<◌, ◌≤◌, ℕ, Contains, IfOk, IsTrue, List, OnOk, false, length, true};

use crate::flags::Flags;
use crate::ground::Ground;
use crate::named_facts::{flag_all, flag_of_named};
use crate::numbered_properties::{count_properties, property_numbered};
use axioms::{ExprId, IndId, Memory, PropId};
use facts::{Context, Fact};
use indexes::{Index, IndexedProblem};
use inference::{KnownFacts, Predicate};
use normal_forms::{ApartLists, Class2, Form, FormList, PropId2};
use number_sets::PackedLists;
use property_closure::PropertyClosure;
use std::alloc::Global;

// ---- by class

/// Flags the facts of the classes of the list.
fn flag_list(flags: &mut Flags, list: &[ExprId], facts: &KnownFacts) -> Result<(), Memory>
    requires { length flags.old ≡ length facts.now.facts }
    ensures long { length flags.new ≡ length flags.old }
    ensures ok { OnOk result (AreFlaggedToo (IsSuchAt (ListAsks list.now) facts.now.facts) flags.old flags.new) }
{
    for place in 0..list.len() {
        flag_all(flags, Predicate::Class(Class2::Expr(list[place])), facts)?;
    }
    Ok(())
}

/// Flags the facts of the classes of the lists.
fn flag_lists(
    flags: &mut Flags,
    lists: &PackedLists<ExprId>,
    facts: &KnownFacts,
) -> Result<(), Memory>
    requires { length flags.old ≡ length facts.now.facts }
    ensures long { length flags.new ≡ length flags.old }
    ensures ok { OnOk result (AreFlaggedToo (IsSuchAt (IsAskedByList lists.now) facts.now.facts) flags.old flags.new) }
{
    for number in 0..lists.len() {
        flag_list(flags, lists.at(number), facts)?;
    }
    Ok(())
}

// ---- by property

/// Whether there is any number.
fn is_used(list: &[u32]) -> bool
    ensures some { result ≡ true → (n : ℕ) × Contains list.now n }
    ensures none { result ≡ false → (n : ℕ) → Contains list.now n → ⊥ }
{
    !list.is_empty()
}

/// Whether one of the added forms puts the property below another, or is a chain that begins with it.
fn begins_with(added: &IndexedProblem, property: PropId2) -> bool
    ensures yes { result ≡ true → HasForm (λ form. BeginsWith form property) added.now.forms }
    ensures no { result ≡ false → HasForm (λ form. BeginsWith form property) added.now.forms → ⊥ }
{
    is_used(added.plain_from(property)) || is_used(added.chains_from(property))
}

/// Whether one of the added forms asks for the edges of a property; the closure is that of all forms.
fn asks_for_edges(added: &IndexedProblem, closure: &PropertyClosure, property: PropId2) -> bool
    requires { Has closure.now property }
    ensures yes { result ≡ true → HasUnder closure.now (λ all form. NamesAbove all form property) added.now.forms }
    ensures no { result ≡ false → LacksUnder closure.now (λ all form. NamesAbove all form property) added.now.forms }
{
    for above in closure.supers(property) {
        if begins_with(added, *above) {
            return true;
        }
    }
    false
}

/// Flags the edges by the property, if one of the added forms asks for them.
fn flag_by(
    flags: &mut Flags,
    added: &IndexedProblem,
    closure: &PropertyClosure,
    property: PropId2,
    facts: &KnownFacts,
) -> Result<(), Memory>
    requires has { Has closure.now property }
    requires long { length flags.old ≡ length facts.now.facts }
    ensures long { length flags.new ≡ length flags.old }
    ensures ok { OnOk result ((all : List Form2) → IsClosureOf all closure.now → AreFlaggedToo (IsSuchAt (NamesEdgeBy all added.now.forms property) facts.now.facts) flags.old flags.new) }
{
    if !asks_for_edges(added, closure, property) {
        return Ok(());
    }
    flag_all(flags, Predicate::Property(property), facts)
}

/// Whether none of the forms puts a property below another, or is a chain, as far as that is told: it decides only what a search costs.
fn begin_with_none(forms: &FormList) -> bool
    ensures { result ≡ true → (all : List Form2) (f : Fact2) → HasForm (λ form. NamesEdge all form f) forms.now → ⊥ }
{
    for number in 0..forms.len() {
        if matches!(forms.at(number), Form::N5(..) | Form::N6(..)) {
            return false;
        }
    }
    true
}

/// Flags the edges for whose properties one of the added forms asks; the closure is that of all forms.
fn flag_edges(
    flags: &mut Flags,
    added: &IndexedProblem,
    ground: &Ground,
    facts: &KnownFacts,
) -> Result<(), Memory>
    requires derived { IsDerived ground.now facts.now }
    requires long { length flags.old ≡ length facts.now.facts }
    ensures long { length flags.new ≡ length flags.old }
    ensures ok { OnOk result (AreFlaggedToo (IsSuchAt (λ f. HasForm (λ form. NamesEdge ground.now.forms form f) added.now.forms) facts.now.facts) flags.old flags.new) }
{
    if begin_with_none(added.forms()) {
        return Ok(());
    }
    let closure = ground.closure();
    for number in 0..count_properties(closure) {
        let property = property_numbered(closure, number);
        flag_by(flags, added, closure, property, facts)?;
    }
    Ok(())
}

// ---- by context

/// Flags the numbers.
fn flag_numbers(flags: &mut Flags, numbers: &[u32]) -> Result<(), Memory>
    requires { (n : ℕ) → Contains numbers.now n → n < length flags.old }
    ensures long { length flags.new ≡ length flags.old }
    ensures ok { OnOk result (AreFlaggedToo (Contains numbers.now) flags.old flags.new) }
{
    for place in 0..numbers.len() {
        flags.add(numbers[place])?;
    }
    Ok(())
}

/// Flags the facts that are listed at the individual.
fn flag_individual(flags: &mut Flags, individual: IndId, index: &Index) -> Result<(), Memory>
    requires { AreListedBelow (length flags.old) index.now }
    ensures long { length flags.new ≡ length flags.old }
    ensures ok { OnOk result (AreFlaggedToo (IsListedAt index.now (contexts.Individual individual)) flags.old flags.new) }
{
    let context = Context::Individual(individual);
    flag_numbers(flags, index.classes_in(context))?;
    flag_numbers(flags, index.edges_from(context))?;
    flag_numbers(flags, index.edges_into(context))
}

/// Whether the list has the property.
fn is_listed(list: &[PropId2], property: PropId2) -> bool
    ensures { IsTrue result ↔ Contains list.now property }
{
    list.contains(&property)
}

/// Whether the first property is the second or lies above it.
fn is_above(closure: &PropertyClosure, above: PropId, property: PropId2) -> bool
    requires { Has closure.now property }
    ensures { (all : List Form2) → IsClosureOf all closure.now → IsTrue result ↔ IsAtOrBelow all property (properties.Property above) }
{
    is_listed(closure.supers(property), PropId2::Property(above))
}

/// Whether the form denies the edge.
fn denies(closure: &PropertyClosure, form: Form, edge: Fact) -> bool
    requires { HasProperty closure.now edge }
    ensures { (all : List Form2) → IsClosureOf all closure.now → IsTrue result ↔ Denies all form edge }
{
    match (form, edge) {
        (Form::N12(a, r, b), Fact::Edge(source, property, target)) => {
            source == Context::Individual(a)
                && target == Context::Individual(b)
                && is_above(closure, r, property)
        }
        _ => false,
    }
}

/// Flags the edges from the individual that the form denies.
fn flag_denied(
    flags: &mut Flags,
    form: Form,
    individual: IndId,
    ground: &Ground,
    index: &Index,
    facts: &KnownFacts,
) -> Result<(), Memory>
    requires derived { IsDerived ground.now facts.now }
    requires below { AreListedBelow (length flags.old) index.now }
    requires long { length flags.old ≡ length facts.now.facts }
    ensures long { length flags.new ≡ length flags.old }
    ensures ok { OnOk result (AreFlaggedToo (λ n. Contains (at_context index.now.from (contexts.Individual individual)) n × IsSuchAt (Denies ground.now.forms form) facts.now.facts n) flags.old flags.new) }
{
    let closure = ground.closure();
    let edges = index.edges_from(Context::Individual(individual));
    for place in 0..edges.len() {
        if denies(closure, form, facts.get(edges[place])) {
            flags.add(edges[place])?;
        }
    }
    Ok(())
}

/// Flags the facts that are listed at the individuals that the form makes one, or the edges that it denies.
fn flag_listed(
    flags: &mut Flags,
    form: Form,
    ground: &Ground,
    index: &Index,
    facts: &KnownFacts,
) -> Result<(), Memory>
    requires derived { IsDerived ground.now facts.now }
    requires below { AreListedBelow (length flags.old) index.now }
    requires long { length flags.old ≡ length facts.now.facts }
    ensures long { length flags.new ≡ length flags.old }
    ensures ok { OnOk result (AreFlaggedToo (IsListedFor ground.now.forms index.now facts.now.facts form) flags.old flags.new) }
{
    match form {
        Form::N10(a, b) => {
            flag_individual(flags, a, index)?;
            flag_individual(flags, b, index)
        }
        Form::N12(a, _, _) => flag_denied(flags, form, a, ground, index, facts),
        _ => Ok(()),
    }
}

/// Flags the facts that are listed at individuals that the forms make one, and the edges that they deny.
fn flag_of_individuals(
    flags: &mut Flags,
    forms: &FormList,
    ground: &Ground,
    index: &Index,
    facts: &KnownFacts,
) -> Result<(), Memory>
    requires derived { IsDerived ground.now facts.now }
    requires below { AreListedBelow (length flags.old) index.now }
    requires long { length flags.old ≡ length facts.now.facts }
    ensures long { length flags.new ≡ length flags.old }
    ensures ok { OnOk result (AreFlaggedToo (IsSuchForOne (IsListedFor ground.now.forms index.now facts.now.facts) forms.now) flags.old flags.new) }
{
    for number in 0..forms.len() {
        flag_listed(flags, forms.at(number), ground, index, facts)?;
    }
    Ok(())
}

// ---- all

/// Of the facts that the index lists flags exactly those for which one of the forms or lists of the added problem asks. Others may be
/// flagged, too.
fn flag_asked(
    flags: &mut Flags,
    added: &IndexedProblem,
    ground: &Ground,
    index: &Index,
    facts: &KnownFacts,
) -> Result<(), Memory>
    requires derived { IsDerived ground.now facts.now }
    requires below { AreListedBelow (length flags.old) index.now }
    requires long { length flags.old ≡ length facts.now.facts }
    requires none { (n : ℕ) → is_flagged flags.old n ≡ false }
    ensures long { length flags.new ≡ length flags.old }
    ensures ok { OnOk result (FlagsServed (IsAsked ground.now.forms added.now) facts.now.facts index.now flags.new) }
{
    flag_of_named(flags, added.forms(), facts)?;
    flag_lists(flags, &added.apart().classes, facts)?;
    flag_edges(flags, added, ground, facts)?;
    flag_of_individuals(flags, added.forms(), ground, index, facts)
}

/// Of the facts that the index lists exactly those are flagged for which one of the forms or lists asks. Others may be flagged, too.
pub(crate) fn flags_of_asked(
    alloc: Global,
    ground: &Ground,
    forms: FormList,
    apart: ApartLists,
    index: &Index,
    facts: &KnownFacts,
) -> Result<Flags, Memory>
    requires derived { IsDerived ground.now facts.now }
    requires below { AreListedBelow (length facts.now.facts) index.now }
    ensures few { IfOk result (λ flags. length flags ≤ length facts.now.facts) }
    ensures flags { IfOk result (λ flags. FlagsServed (IsAsked ground.now.forms (problem_of forms apart)) facts.now.facts index.now flags) }
{
    let added = IndexedProblem::new(alloc, forms, apart, Vec::new(alloc))?;
    let mut flags = Flags::new(alloc, facts.len())?;
    let flagged = flag_asked(&mut flags, &added, ground, index, facts);
    drop(added);
    match flagged {
        Ok(()) => Ok(flags),
        Err(error) => Err(error),
    }
}
