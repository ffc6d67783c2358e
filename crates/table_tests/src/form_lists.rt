//! Lists of forms, and what gave a form, as they are kept.

use axioms::{ExprId, IndId, PropId};
use normal_forms::{Class2, Form, FormList, Origin, PropId2, StoredOrigin};
use std::alloc::{AllocError, Global};
use std::mem::size_of;
use std::test::Fail;

/// One form of each kind.
const FORMS: &[Form] = &[
    Form::N1(Class2::Expr(ExprId(2)), Class2::Partial(1)),
    Form::N2(
        Class2::Partial(3),
        Class2::Expr(ExprId(4_294_967_295)),
        Class2::Expr(ExprId(5)),
    ),
    Form::N3(Class2::Partial(6), PropId(7), ExprId(8)),
    Form::N4(PropId(9), Class2::Expr(ExprId(10)), Class2::Partial(11)),
    Form::N5(PropId(12), PropId(13)),
    Form::N6(
        PropId2::Partial(14),
        PropId2::Property(PropId(15)),
        PropId2::Partial(16),
    ),
    Form::N7(PropId(17)),
    Form::N8(IndId(18), Class2::Partial(19)),
    Form::N9(IndId(20), PropId(21), IndId(22)),
    Form::N10(IndId(23), IndId(24)),
    Form::N12(IndId(27), PropId(28), IndId(29)),
];

/// Whether the list has just these forms.
fn has(list: &FormList, forms: &[Form]) -> bool {
    for (number, form) in forms.iter().enumerate() {
        if list.get(number) != Some(*form) {
            return false;
        }
    }
    list.len() == forms.len() && list.get(forms.len()).is_none()
}

/// Whether each form of the list is given back at its place.
fn gives_each(list: &FormList) -> bool {
    for number in 0..list.len() {
        if list.get(number) != Some(list.at(number)) {
            return false;
        }
    }
    has(list, FORMS)
}

#[test]
fn each_form_is_given_back(rt: HostRuntime) -> Result<(), Fail> {
    let list = FormList::of(rt.alloc(), FORMS)?;
    let gives_each = gives_each(&list);
    drop(list);
    assert!(rt; gives_each);
    assert!(rt; has(&FormList::new(rt.alloc()), &[]));
    Ok(())
}

/// Whether the list's forms of properties are the fifth, the sixth and the seventh.
fn has_property_forms(list: &FormList) -> Result<bool, AllocError> {
    let forms = list.property_forms()?;
    Ok(forms.as_slice() == &FORMS[4..7])
}

#[test]
fn forms_of_properties_in_order(rt: HostRuntime) -> Result<(), Fail> {
    let list = FormList::of(rt.alloc(), FORMS)?;
    let has = has_property_forms(&list);
    drop(list);
    assert!(rt; has?);
    Ok(())
}

/// Whether a copy of the first four has a form more that it is pushed, and they have not.
fn grows_alone(first: &FormList) -> Result<bool, AllocError> {
    let mut longer = first.copy()?;
    longer.push(FORMS[4])?;
    Ok(has(first, &FORMS[..4]) && has(&longer, &FORMS[..5]))
}

/// Whether the list and more forms are joined to these.
fn are_joined(list: &FormList, more: &FormList, forms: &[Form]) -> Result<bool, AllocError> {
    let joined = list.joined(more.copy()?)?;
    Ok(has(&joined, forms))
}

/// Whether the first four are joined to the others, and behind none.
fn are_joined_to_all(alloc: Global, first: &FormList) -> Result<bool, AllocError> {
    let rest = FormList::of(alloc, &FORMS[4..])?;
    Ok(are_joined(first, &rest, FORMS)? && are_joined(&FormList::new(alloc), first, &FORMS[..4])?)
}

#[test]
fn a_form_more_is_in_no_copy(rt: HostRuntime) -> Result<(), Fail> {
    let first = FormList::of(rt.alloc(), &FORMS[..4])?.share();
    let grows_alone = grows_alone(&first);
    let are_joined = are_joined_to_all(rt.alloc(), &first);
    drop(first);
    assert!(rt; grows_alone?, "the copy grows alone");
    assert!(rt; are_joined?, "joined");
    Ok(())
}

const ORIGINS: &[Origin] = &[
    Origin::Axiom(0),
    Origin::Axiom(4_294_967_295),
    Origin::Expr(ExprId(7)),
];

#[test]
fn origins_in_eight_bytes(rt: HostRuntime) -> Result<(), Fail> {
    assert!(rt; size_of::<StoredOrigin>() == 8);
    for origin in ORIGINS {
        let kept = StoredOrigin::new(*origin).map(|kept| kept.get());
        assert!(rt; kept == Some(*origin));
    }
    assert!(rt; StoredOrigin::new(Origin::Axiom(4_294_967_296)).is_none());
    Ok(())
}
