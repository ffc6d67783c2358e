//! Forms by keys that stand in an order, to be sought among many.
ghost use Rattle.saturate.specs.FormKeys.{class_key, property_key, form_key, key_cmp, AreKeysOf};
ghost use Rattle.std.specs.List.Sorted.{IsSorted};
ghost use Rattle.std.specs.Prelude.{◌≡◌, ◌↔◌, Contains, IfOk, IsTrue};

use axioms::Memory;
use normal_forms::{Class2, Form, FormList, PropId2};
use std::alloc::Global;

/// The number of what a form names, and before it whether that is a fresh name.
type NameKey = (bool, u32);

/// Which kind of form it is, and what it names.
pub(crate) type FormKey = (u32, NameKey, NameKey, NameKey);

/// For what a form does not name.
const NONE: NameKey = (false, 0);

fn class_key(class: Class2) -> NameKey
    ensures { result ≡ class_key class }
{
    match class {
        Class2::Expr(id) => (false, id.0),
        Class2::Partial(number) => (true, number),
    }
}

fn property_key(property: PropId2) -> NameKey
    ensures { result ≡ property_key property }
{
    match property {
        PropId2::Property(id) => (false, id.0),
        PropId2::Partial(number) => (true, number),
    }
}

fn form_key(form: Form) -> FormKey
    ensures { result ≡ form_key form }
{
    match form {
        Form::N1(a, b) => (1, class_key(a), class_key(b), NONE),
        Form::N2(a, b, c) => (2, class_key(a), class_key(b), class_key(c)),
        Form::N3(a, r, b) => (3, class_key(a), (false, r.0), (false, b.0)),
        Form::N4(r, a, b) => (4, (false, r.0), class_key(a), class_key(b)),
        Form::N5(r, s) => (5, (false, r.0), (false, s.0), NONE),
        Form::N6(r, s, t) => (6, property_key(r), property_key(s), property_key(t)),
        Form::N7(r) => (7, (false, r.0), NONE, NONE),
        Form::N8(a, b) => (8, (false, a.0), class_key(b), NONE),
        Form::N9(a, r, b) => (9, (false, a.0), (false, r.0), (false, b.0)),
        Form::N10(a, b) => (10, (false, a.0), (false, b.0), NONE),
        Form::N12(a, r, b) => (12, (false, a.0), (false, r.0), (false, b.0)),
    }
}

/// The keys of the forms, in order.
pub(crate) fn keys_in_order(alloc: Global, forms: &FormList) -> Result<Vec<FormKey>, Memory>
    ensures { IfOk result (λ keys. AreKeysOf forms.now keys.items) }
{
    let mut keys = Vec::with_capacity(alloc, forms.len())?;
    for number in 0..forms.len() {
        keys.push(form_key(forms.at(number)))?;
    }
    keys.sort_unstable();
    Ok(keys)
}

/// Whether the key of the form is one of these.
pub(crate) fn has_key(keys: &[FormKey], form: Form) -> bool
    requires { IsSorted key_cmp keys.now }
    ensures { IsTrue result ↔ Contains keys.now (form_key form) }
{
    keys.binary_search(&form_key(form)).is_ok()
}
