//! Closures of a few properties, worked out by hand.
ghost use Rattle.normal_forms.specs.Properties.{IsPropertyFormOf};
ghost use Rattle.std.specs.List.{All};
ghost use Rattle.std.specs.Prelude.{◌≡◌, ◌≤◌, ◌^◌, IfOk, OnOk};

use axioms::{Memory, PropId};
use normal_forms::{Class2, Form, FormList, PropId2};
use property_closure::{PropertyClosure, close};
use std::alloc::Global;
use std::test::Fail;

// the properties r, s, t and u
const R: PropId2 = PropId2::Property(PropId(0));

const S: PropId2 = PropId2::Property(PropId(1));

const T: PropId2 = PropId2::Property(PropId(2));

const U: PropId2 = PropId2::Property(PropId(3));

/// The first prefix of a chain.
const PREFIX: PropId2 = PropId2::Partial(0);

/// `SubObjectPropertyOf(r s) EquivalentObjectProperties(s t u)`, in a circle.
const CIRCLE: &[Form] = &[
    Form::N5(PropId(0), PropId(1)),
    Form::N5(PropId(1), PropId(2)),
    Form::N5(PropId(2), PropId(3)),
    Form::N5(PropId(3), PropId(1)),
];

const ALL: &[PropId2] = &[R, S, T, U];

const OTHERS: &[PropId2] = &[S, T, U];

/// The closure of so many properties and prefixes of chains by these forms.
fn closed(
    alloc: Global,
    properties: usize,
    partials: usize,
    forms: &[Form],
) -> Result<PropertyClosure, Memory>
    requires property_numbers { properties ≤ 2 ^ 32 }
    requires partial_numbers { partials ≤ 2 ^ 32 }
    requires forms { All (IsPropertyFormOf properties partials) forms.now }
    ensures properties { IfOk result (λ c. c.properties ≡ properties) }
    ensures partials { IfOk result (λ c. c.partials ≡ partials) }
{
    let forms = FormList::of(alloc, forms)?;
    close(alloc, properties, partials, &forms)
}

/// Whether r is below all, and each of the others below the others.
fn is_circle(closure: &PropertyClosure) -> bool {
    closure.supers(R) == ALL
        && closure.supers(S) == OTHERS
        && closure.supers(T) == OTHERS
        && closure.supers(U) == OTHERS
}

#[test]
fn equivalences_in_a_circle(rt: HostRuntime) -> Result<(), Fail> {
    let closure = closed(rt.alloc(), 4, 0, CIRCLE)?;
    let right = is_circle(&closure);
    drop(closure);
    assert!(rt; right);
    Ok(())
}

/// `ReflexiveObjectProperty(s) SubObjectPropertyOf(s t) SubObjectPropertyOf(t u) SubObjectPropertyOf(r s)`.
const HIERARCHY: &[Form] = &[
    Form::N7(PropId(1)),
    Form::N5(PropId(1), PropId(2)),
    Form::N5(PropId(2), PropId(3)),
    Form::N5(PropId(0), PropId(1)),
];

/// Whether all but r are reflexive.
fn is_hierarchy(closure: &PropertyClosure) -> bool {
    !closure.is_reflexive(R)
        && closure.is_reflexive(S)
        && closure.is_reflexive(T)
        && closure.is_reflexive(U)
}

#[test]
fn reflexivity_through_a_hierarchy(rt: HostRuntime) -> Result<(), Fail> {
    let closure = closed(rt.alloc(), 4, 0, HIERARCHY)?;
    let right = is_hierarchy(&closure);
    drop(closure);
    assert!(rt; right);
    Ok(())
}

/// `SubObjectPropertyOf(ObjectPropertyChain(r s t) u)`, by the prefix `r s`.
const LONG_CHAIN: &[Form] = &[Form::N6(R, S, PREFIX), Form::N6(PREFIX, T, U)];

/// Whether there are four properties and a prefix, r begins the prefix, and that the chain.
fn is_long_chain(closure: &PropertyClosure) -> bool {
    closure.properties() == 4
        && closure.partials() == 1
        && closure.chains_from(R) == [(S, PREFIX)].as_slice()
        && closure.chains_from(PREFIX) == [(T, U)].as_slice()
        && closure.chains_from(S).is_empty()
        && closure.supers(PREFIX) == [PREFIX].as_slice()
        && !closure.is_reflexive(PREFIX)
}

/// Whether nothing is known of it.
fn is_out_of_range(closure: &PropertyClosure, id: PropId2) -> bool {
    closure.supers(id).is_empty() && !closure.is_reflexive(id) && closure.chains_from(id).is_empty()
}

#[test]
fn chain_of_three_and_what_is_out_of_range(rt: HostRuntime) -> Result<(), Fail> {
    let closure = closed(rt.alloc(), 4, 1, LONG_CHAIN)?;
    let chain = is_long_chain(&closure);
    let property = is_out_of_range(&closure, PropId2::Property(PropId(4)));
    let prefix = is_out_of_range(&closure, PropId2::Partial(1));
    drop(closure);
    assert!(rt; chain);
    assert!(rt; property);
    assert!(rt; prefix);
    Ok(())
}

/// `TransitiveObjectProperty(r)` and chains that begin with r, one of them twice.
const MANY_CHAINS: &[Form] = &[
    Form::N6(R, S, PREFIX),
    Form::N6(R, T, U),
    Form::N6(R, S, U),
    Form::N6(R, T, U),
    Form::N6(R, R, R),
];

/// The ends of those chains.
const ENDS: &[(PropId2, PropId2)] = &[(R, R), (S, U), (S, PREFIX), (T, U)];

#[test]
fn chains_ascend_and_none_stands_twice(rt: HostRuntime) -> Result<(), Fail> {
    let closure = closed(rt.alloc(), 4, 1, MANY_CHAINS)?;
    let right = closure.chains_from(R) == ENDS;
    drop(closure);
    assert!(rt; right);
    Ok(())
}

/// Grows the closure by these forms, to so many properties and prefixes of chains.
fn grow_by(
    alloc: Global,
    closure: &mut PropertyClosure,
    properties: usize,
    partials: usize,
    forms: &[Form],
) -> Result<(), Memory>
    requires properties { closure.old.properties ≤ properties }
    requires partials { closure.old.partials ≤ partials }
    requires property_numbers { properties ≤ 2 ^ 32 }
    requires partial_numbers { partials ≤ 2 ^ 32 }
    requires forms { All (IsPropertyFormOf properties partials) forms.now }
    ensures properties { OnOk result (closure.new.properties ≡ properties) }
    ensures partials { OnOk result (closure.new.partials ≡ partials) }
{
    let forms = FormList::of(alloc, forms)?;
    closure.grow(properties, partials, &forms)
}

/// The closure of r alone, grown by s and `SubObjectPropertyOf(r s)`, and then by t, u and forms that are not of properties.
fn grown(alloc: Global) -> Result<PropertyClosure, Memory> {
    let mut closure = closed(alloc, 1, 0, &[Form::N7(PropId(0))])?;
    grow_by(alloc, &mut closure, 2, 0, &[Form::N5(PropId(0), PropId(1))])?;
    let thing = Class2::Partial(0);
    grow_by(alloc, &mut closure, 4, 1, &[Form::N1(thing, thing)])?;
    Ok(closure)
}

/// Whether there are four properties and a prefix, s is above r and reflexive, and u and the prefix are only above themselves.
fn has_grown(closure: &PropertyClosure) -> bool {
    closure.properties() == 4
        && closure.partials() == 1
        && closure.supers(R) == [R, S].as_slice()
        && closure.is_reflexive(S)
        && closure.supers(U) == [U].as_slice()
        && !closure.is_reflexive(U)
        && closure.supers(PREFIX) == [PREFIX].as_slice()
}

#[test]
fn growth(rt: HostRuntime) -> Result<(), Fail> {
    let closure = grown(rt.alloc())?;
    let right = has_grown(&closure);
    drop(closure);
    assert!(rt; right);
    Ok(())
}

// the properties v, w and x
const V: PropId2 = PropId2::Property(PropId(4));

const W: PropId2 = PropId2::Property(PropId(5));

const X: PropId2 = PropId2::Property(PropId(6));

/// `SubObjectPropertyOf(s r)`, and then t below s, u above t, v below t and w above u.
const STEPS: &[Form] = &[
    Form::N5(PropId(1), PropId(0)),
    Form::N5(PropId(2), PropId(1)),
    Form::N5(PropId(2), PropId(3)),
    Form::N5(PropId(4), PropId(2)),
    Form::N5(PropId(3), PropId(5)),
];

/// The closure that grew by these steps, one after the other.
fn grown_by_steps(alloc: Global) -> Result<PropertyClosure, Memory>
    ensures properties { IfOk result (λ c. c.properties ≡ 6) }
    ensures partials { IfOk result (λ c. c.partials ≡ 0) }
{
    let mut closure = closed(alloc, 2, 0, &[Form::N5(PropId(1), PropId(0))])?;
    grow_by(alloc, &mut closure, 3, 0, &[Form::N5(PropId(2), PropId(1))])?;
    grow_by(alloc, &mut closure, 4, 0, &[Form::N5(PropId(2), PropId(3))])?;
    grow_by(alloc, &mut closure, 5, 0, &[Form::N5(PropId(4), PropId(2))])?;
    grow_by(alloc, &mut closure, 6, 0, &[Form::N5(PropId(3), PropId(5))])?;
    Ok(closure)
}

/// Whether each of the six properties is below those that the steps put above it.
fn has_steps(closure: &PropertyClosure) -> bool {
    closure.supers(R) == [R].as_slice()
        && closure.supers(S) == [R, S].as_slice()
        && closure.supers(T) == [R, S, T, U, W].as_slice()
        && closure.supers(U) == [U, W].as_slice()
        && closure.supers(V) == [R, S, T, U, V, W].as_slice()
        && closure.supers(W) == [W].as_slice()
}

/// Whether both put the same above each of the six properties.
fn is_same(one: &PropertyClosure, other: &PropertyClosure) -> bool {
    one.supers(R) == other.supers(R)
        && one.supers(S) == other.supers(S)
        && one.supers(T) == other.supers(T)
        && one.supers(U) == other.supers(U)
        && one.supers(V) == other.supers(V)
        && one.supers(W) == other.supers(W)
}

#[test]
fn growth_property_by_property(rt: HostRuntime) -> Result<(), Fail> {
    let closure = grown_by_steps(rt.alloc())?;
    let copy = closure.copy()?;
    let at_once = closed(rt.alloc(), 6, 0, STEPS)?;
    let right = has_steps(&closure) && has_steps(&copy);
    let same = is_same(&closure, &at_once) && is_same(&copy, &at_once);
    drop(closure);
    drop(copy);
    drop(at_once);
    assert!(rt; right);
    assert!(rt; same);
    Ok(())
}

/// Whether x is above r, and so above all that is below r.
fn has_new_top(closure: &PropertyClosure) -> bool {
    closure.supers(R) == [R, X].as_slice()
        && closure.supers(S) == [R, S, X].as_slice()
        && closure.supers(T) == [R, S, T, U, W, X].as_slice()
        && closure.supers(U) == [U, W].as_slice()
        && closure.supers(V) == [R, S, T, U, V, W, X].as_slice()
        && closure.supers(X) == [X].as_slice()
}

#[test]
fn copies_grow_apart(rt: HostRuntime) -> Result<(), Fail> {
    let mut closure = grown_by_steps(rt.alloc())?;
    let mut copy = closure.copy()?;
    let top = &[Form::N5(PropId(0), PropId(6))];
    grow_by(rt.alloc(), &mut closure, 7, 0, top)?;
    let above = has_new_top(&closure);
    let still = has_steps(&copy) && is_out_of_range(&copy, X);
    let bottom = &[Form::N5(PropId(6), PropId(4))];
    grow_by(rt.alloc(), &mut copy, 7, 0, bottom)?;
    let below = has_steps(&copy) && copy.supers(X) == [R, S, T, U, V, W, X].as_slice();
    drop(closure);
    drop(copy);
    assert!(rt; above);
    assert!(rt; still);
    assert!(rt; below);
    Ok(())
}
