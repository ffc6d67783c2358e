//! Normal forms as they are kept.
ghost use Rattle.normal_forms.specs.Properties.{is_property_form};
ghost use Rattle.normal_forms.specs.StoredForms.{form_of, form_from};
ghost use Rattle.std.specs.Prelude.{◌≡◌};

use crate::forms::{Class2, Form, PropId2};
use axioms::{ExprId, IndId, PropId};

/// Which of the normal forms it is.
#[derive(Clone, Copy, PartialEq, Eq)]
pub(crate) enum Kind {
    N1,
    N2,
    N3,
    N4,
    N5,
    N6,
    N7,
    N8,
    N9,
    N10,
    N12,
}

/// A normal form in 16 bytes: up to three numbers, in the order in which the form names them, and of each whether it is that of a fresh
/// name.
#[derive(Clone, Copy)]
pub(crate) struct StoredForm {
    kind: Kind,
    first_is_partial: bool,
    second_is_partial: bool,
    third_is_partial: bool,
    first: u32,
    second: u32,
    third: u32,
}

const _: () = prove!(size_of::<StoredForm>() == 16);

/// Numbers that none is said to be partial of, for what a form does not name.
const NONE: (bool, u32) = (false, 0);

impl StoredForm {
    /// The form of that kind that names these, each with whether it is partial.
    #[inline(always)]
    fn of(kind: Kind, first: (bool, u32), second: (bool, u32), third: (bool, u32)) -> StoredForm
        ensures { form_of result ≡ form_from kind first.0 first.1 second.0 second.1 third.0 third.1 }
    {
        StoredForm {
            kind,
            first_is_partial: first.0,
            second_is_partial: second.0,
            third_is_partial: third.0,
            first: first.1,
            second: second.1,
            third: third.1,
        }
    }

    /// The form, to be kept.
    pub(crate) fn new(form: Form) -> StoredForm
        ensures { form_of result ≡ form }
    {
        match form {
            Form::N1(a, b) => StoredForm::of(Kind::N1, a.parts(), b.parts(), NONE),
            Form::N2(a, b, c) => StoredForm::of(Kind::N2, a.parts(), b.parts(), c.parts()),
            Form::N3(a, r, b) => StoredForm::of(Kind::N3, a.parts(), (false, r.0), (false, b.0)),
            Form::N4(r, a, b) => StoredForm::of(Kind::N4, (false, r.0), a.parts(), b.parts()),
            Form::N5(r, s) => StoredForm::of(Kind::N5, (false, r.0), (false, s.0), NONE),
            Form::N6(r, s, t) => StoredForm::of(Kind::N6, r.parts(), s.parts(), t.parts()),
            Form::N7(r) => StoredForm::of(Kind::N7, (false, r.0), NONE, NONE),
            Form::N8(a, b) => StoredForm::of(Kind::N8, (false, a.0), b.parts(), NONE),
            Form::N9(a, r, b) => {
                StoredForm::of(Kind::N9, (false, a.0), (false, r.0), (false, b.0))
            }
            Form::N10(a, b) => StoredForm::of(Kind::N10, (false, a.0), (false, b.0), NONE),
            Form::N12(a, r, b) => {
                StoredForm::of(Kind::N12, (false, a.0), (false, r.0), (false, b.0))
            }
        }
    }

    /// Whether the form is of properties alone: N5, N6 or N7.
    #[inline(always)]
    pub(crate) fn is_of_properties(&self) -> bool
        ensures { result ≡ is_property_form (form_of self.now) }
    {
        matches!(self.kind, Kind::N5 | Kind::N6 | Kind::N7)
    }

    /// The form.
    pub(crate) fn get(&self) -> Form
        ensures { result ≡ form_of self.now }
    {
        let (first, second, third) = (self.first, self.second, self.third);
        let first_class = Class2::from_parts(self.first_is_partial, first);
        let second_class = Class2::from_parts(self.second_is_partial, second);
        let third_class = Class2::from_parts(self.third_is_partial, third);
        match self.kind {
            Kind::N1 => Form::N1(first_class, second_class),
            Kind::N2 => Form::N2(first_class, second_class, third_class),
            Kind::N3 => Form::N3(first_class, PropId(second), ExprId(third)),
            Kind::N4 => Form::N4(PropId(first), second_class, third_class),
            Kind::N5 => Form::N5(PropId(first), PropId(second)),
            Kind::N6 => Form::N6(
                PropId2::from_parts(self.first_is_partial, first),
                PropId2::from_parts(self.second_is_partial, second),
                PropId2::from_parts(self.third_is_partial, third),
            ),
            Kind::N7 => Form::N7(PropId(first)),
            Kind::N8 => Form::N8(IndId(first), second_class),
            Kind::N9 => Form::N9(IndId(first), PropId(second), IndId(third)),
            Kind::N10 => Form::N10(IndId(first), IndId(second)),
            Kind::N12 => Form::N12(IndId(first), PropId(second), IndId(third)),
        }
    }
}
