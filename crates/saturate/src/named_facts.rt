//! Facts of the classes that forms name, which are listed by class.
ghost use Rattle.inference.specs.Predicates.{SaysAt};
ghost use Rattle.normal_forms.specs.declared.forms.Class2.{Class2 as AClass};
ghost use Rattle.saturate.specs.Flags.{AreFlaggedToo, IsFlagged, IsSuchForOne};
ghost use Rattle.saturate.specs.Requests.{AskByClass, AsksByClass, BeginsFresh, IsOfNamed, IsOfNamedClass, IsSuchAt, NamesClass, problem_of};
ghost use Rattle.std.specs.Prelude.{◌≡◌, ◌⊎◌, ◌↔◌, ◌<◌, ◌≤◌, ℕ, IfOk, OnOk, Some, length, true};

use crate::flags::Flags;
use crate::summary::has;
use axioms::{ExprId, Memory};
use inference::{KnownFacts, Predicate};
use normal_forms::{ApartLists, Class2, Form, FormList, PropId2};
use property_closure::PropertyClosure;
use std::alloc::Global;

/// Whether the form asks for no facts but those of a class that it names, or puts a property that the closure does not have below
/// another, or is a chain that begins with such a property.
fn asks_by_class(closure: &PropertyClosure, form: Form) -> bool
    ensures { result ≡ true → AsksByClass form ⊎ BeginsFresh closure.now form }
{
    match form {
        Form::N5(lower, _) => !has(closure, PropId2::Property(lower)),
        Form::N6(first, ..) => !has(closure, first),
        Form::N10(..) | Form::N12(..) => false,
        _ => true,
    }
}

/// Whether there is no added list of disjoint classes, and each added form asks for no facts but those of a class that it names, or puts
/// a property that the closure of the earlier forms does not have below another, or begins a chain with it: no edge is by it, so what the
/// forms name is all that is asked for.
pub(crate) fn ask_by_class(closure: &PropertyClosure, forms: &FormList, apart: &ApartLists) -> bool
    ensures { result ≡ true → AskByClass closure.now (problem_of forms.now apart.now) }
{
    closure.well_formed();
    if apart.classes.len() > 0 {
        return false;
    }
    for number in 0..forms.len() {
        if !asks_by_class(closure, forms.at(number)) {
            return false;
        }
    }
    true
}

/// The class that the form names, if it names one.
fn class_named(form: Form) -> Option<Class2>
    ensures { (class : AClass) → NamesClass form class ↔ (result ≡ Some class) }
{
    match form {
        Form::N1(a, _) => Some(a),
        Form::N2(a, _, _) => Some(a),
        Form::N3(a, _, _) => Some(a),
        Form::N4(_, a, _) => Some(a),
        Form::N7(_) => Some(Class2::Expr(ExprId::THING)),
        _ => None,
    }
}

/// Flags the facts of the class, or of the property.
pub(crate) fn flag_all(
    flags: &mut Flags,
    predicate: Predicate,
    facts: &KnownFacts,
) -> Result<(), Memory>
    requires { length flags.old ≡ length facts.now.facts }
    ensures long { length flags.new ≡ length flags.old }
    ensures ok { OnOk result (AreFlaggedToo (SaysAt predicate facts.now.facts) flags.old flags.new) }
{
    let mut next = facts.last_of(predicate);
    while let Some(number) = next {
        flags.add(number)?;
        next = facts.before(number);
    }
    Ok(())
}

/// Flags the facts of the class that the form names, if it names one.
fn flag_named(flags: &mut Flags, form: Form, facts: &KnownFacts) -> Result<(), Memory>
    requires { length flags.old ≡ length facts.now.facts }
    ensures long { length flags.new ≡ length flags.old }
    ensures ok { OnOk result (AreFlaggedToo (IsSuchAt (IsOfNamed form) facts.now.facts) flags.old flags.new) }
{
    match class_named(form) {
        Some(class) => flag_all(flags, Predicate::Class(class), facts),
        None => Ok(()),
    }
}

/// Flags the facts of the classes that the forms name.
pub(crate) fn flag_of_named(
    flags: &mut Flags,
    forms: &FormList,
    facts: &KnownFacts,
) -> Result<(), Memory>
    requires { length flags.old ≡ length facts.now.facts }
    ensures long { length flags.new ≡ length flags.old }
    ensures ok { OnOk result (AreFlaggedToo (IsSuchForOne (λ form. IsSuchAt (IsOfNamed form) facts.now.facts) forms.now) flags.old flags.new) }
{
    for number in 0..forms.len() {
        flag_named(flags, forms.at(number), facts)?;
    }
    Ok(())
}

/// Flags of the facts of the classes that the forms name.
pub(crate) fn flags_of_named(
    alloc: Global,
    forms: &FormList,
    facts: &KnownFacts,
) -> Result<Flags, Memory>
    ensures few { IfOk result (λ flags. length flags ≤ length facts.now.facts) }
    ensures flags { IfOk result (λ flags. (n : ℕ) → n < length facts.now.facts → IsFlagged (IsOfNamedClass forms.now) facts.now.facts flags n) }
{
    let mut flags = Flags::new(alloc, facts.len())?;
    flag_of_named(&mut flags, forms, facts)?;
    Ok(flags)
}
