//! Forms as they stand in the lists of classes: with what they lead to.
ghost use Rattle.std.specs.Prelude.{◌≡◌, IfOk, OnOk, length};
ghost use Rattle.indexes.specs.ListedForms.{forms_at_key, listed_class, listed_property, AreListedForms, AreOf, SaysItsForm};

use crate::key_lists::KeyLists;
use crate::keys::Key;
use crate::lists::part;
use axioms::{ExprId, PropId};
use normal_forms::{Class2, Form, FormList};
use std::alloc::{AllocError, Global};

/// The number of a form that has one class alone on its left, or a restriction, and what it leads to: a class, and the property that stands in
/// the form, if one does. 16 bytes.
#[derive(Clone, Copy)]
pub struct ListedForm {
    /// The number of the form.
    pub number: u32,
    has_property: bool,
    is_partial: bool,
    property: u32,
    class: u32,
}

const _: () = prove!(size_of::<ListedForm>() == 16);

impl ListedForm {
    /// The form of that number, with the property and the class that it leads to.
    fn of(number: u32, property: Option<PropId>, class: Class2) -> ListedForm
        ensures number { result.number ≡ number }
        ensures property { listed_property result ≡ property }
        ensures class { listed_class result ≡ class }
    {
        let (is_partial, class) = class.parts();
        let (has_property, property) = match property {
            Some(property) => (true, property.0),
            None => (false, 0),
        };
        ListedForm {
            number,
            has_property,
            is_partial,
            property,
            class,
        }
    }

    /// That of the list that has the number.
    fn at(forms: &FormList, number: u32) -> ListedForm
        ensures number { result.number ≡ number }
        ensures says { SaysItsForm forms.now result }
    {
        match forms.get(number as usize) {
            Some(Form::N1(_, b)) => ListedForm::of(number, None, b),
            Some(Form::N3(_, r, b)) => ListedForm::of(number, Some(r), Class2::Expr(b)),
            Some(Form::N4(r, _, b)) => ListedForm::of(number, Some(r), b),
            _ => ListedForm::of(number, None, Class2::Expr(ExprId::THING)),
        }
    }

    /// The property of the restriction on one side of the form, if there is one.
    #[inline(always)]
    pub fn property(self) -> Option<PropId>
        ensures { result ≡ listed_property self }
    {
        if self.has_property {
            Some(PropId(self.property))
        } else {
            None
        }
    }

    /// The class that the form leads to: of a restriction on the right its filler.
    #[inline(always)]
    pub fn class(self) -> Class2
        ensures { result ≡ listed_class self }
    {
        Class2::from_parts(self.is_partial, self.class)
    }
}

/// Puts the forms of these numbers in place of what is in the list. Fails where memory is refused.
pub(crate) fn put_forms(
    forms: &FormList,
    numbers: &[u32],
    listed: &mut Vec<ListedForm>,
) -> Result<(), AllocError>
    ensures { OnOk result (AreOf forms.now numbers.now listed.new.items) }
{
    listed.clear();
    listed.reserve(numbers.len())?;
    for number in numbers {
        listed.push(ListedForm::at(forms, *number))?;
    }
    Ok(())
}

/// The forms of these numbers. Fails where memory is refused.
fn listed_forms(
    alloc: Global,
    forms: &FormList,
    numbers: &[u32],
) -> Result<Vec<ListedForm>, AllocError>
    ensures { IfOk result (λ listed. AreOf forms.now numbers.now listed.items) }
{
    let mut listed = Vec::new(alloc);
    put_forms(forms, numbers, &mut listed)?;
    Ok(listed)
}

/// For each number of lists of both kinds of keys its form.
pub(crate) struct ListedForms {
    pub wholes: Vec<ListedForm>,
    pub partials: Vec<ListedForm>,
}

// A value is let go by one call, where each way out would else let each field go.
impl Drop for ListedForms {
    fn drop(self) {
        let ListedForms {
            wholes: _,
            partials: _,
        } = self;
    }
}

impl ListedForms {
    /// The forms whose numbers are listed, in the order of the lists. Fails where memory is refused.
    pub(crate) fn of(alloc: Global, forms: &FormList, lists: &KeyLists) -> Result<Self, AllocError>
        ensures { IfOk result (λ listed. AreListedForms forms.now lists.now listed) }
    {
        Ok(ListedForms {
            wholes: listed_forms(alloc, forms, &lists.wholes.numbers)?,
            partials: listed_forms(alloc, forms, &lists.partials.numbers)?,
        })
    }

    /// The forms of the list of the key, where for each number of the lists there is one.
    #[inline(always)]
    pub(crate) fn at(&self, lists: &KeyLists, key: Key) -> &[ListedForm]
        requires wholes { length self.now.wholes.items ≡ length lists.now.wholes.numbers.items }
        requires partials { length self.now.partials.items ≡ length lists.now.partials.numbers.items }
        ensures { result.now ≡ forms_at_key lists.now self.now key }
    {
        match key {
            Key::Whole(number) => part(&lists.wholes.starts, &self.wholes, number),
            Key::Partial(number) => part(&lists.partials.starts, &self.partials, number),
        }
    }
}
