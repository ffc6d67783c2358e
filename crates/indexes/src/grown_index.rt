//! Lists of forms by key, with further forms.
ghost use Rattle.std.specs.Prelude.{◌≡◌, ◌≤◌, IfOk, OnOk, length, take};
ghost use Rattle.indexes.specs.FormIndex.{listed_at, IsFormIndex};
ghost use Rattle.indexes.specs.Insertions.{AddsForm, AreOrdered, IsCopyOf};
ghost use Rattle.indexes.specs.Roles.{ForEachTwo};

use crate::form_lists::FormLists;
use crate::keys::Key;
use crate::named::{key_of_class, key_of_property};
use crate::roles::ByRole;
use normal_forms::{Form, FormList};
use std::alloc::{AllocError, Global};

/// The same lists. Fails where memory is refused.
fn copied(alloc: Global, index: &ByRole<FormLists>) -> Result<ByRole<FormLists>, AllocError>
    ensures { IfOk result (λ copy. ForEachTwo (λ _ old new. IsCopyOf old new) index.now copy) }
{
    Ok(ByRole {
        kinds: index.kinds.copy(alloc)?,
        alone: index.alone.copy(alloc)?,
        first: index.first.copy(alloc)?,
        second: index.second.copy(alloc)?,
        fillers: index.fillers.copy(alloc)?,
        chains: index.chains.copy(alloc)?,
        ends: index.ends.copy(alloc)?,
        plain: index.plain.copy(alloc)?,
        linked_first: index.linked_first.copy(alloc)?,
        linked_second: index.linked_second.copy(alloc)?,
        denied: index.denied.copy(alloc)?,
    })
}

/// Adds the number of a form to the list of each key that the form has, at its end, or at its place in the order of a second key. Fails
/// where memory is refused, or there are 2^32 - 1 numbers.
fn add(
    index: &mut ByRole<FormLists>,
    forms: &FormList,
    form: Form,
    number: u32,
) -> Result<(), AllocError>
    requires { AreOrdered forms.now index.old }
    ensures { OnOk result (AddsForm forms.now index.old index.new form number) }
{
    match form {
        Form::N1(a, _) | Form::N3(a, _, _) => index.alone.push(key_of_class(a), number),
        Form::N2(a, b, _) => {
            index.first.push(key_of_class(a), number)?;
            index.second.push(key_of_class(b), number)
        }
        Form::N4(_, a, _) => index.fillers.put_in_place(forms, key_of_class(a), number),
        Form::N5(r, _) => index.plain.push(Key::Whole(r.0), number),
        Form::N6(r, s, _) => {
            index
                .chains
                .put_in_place(forms, key_of_property(r), number)?;
            index.ends.push(key_of_property(s), number)
        }
        Form::N7(_) => index.kinds.push(Key::Whole(1), number),
        Form::N8(..) | Form::N9(..) => index.kinds.push(Key::Whole(0), number),
        Form::N10(a, b) => {
            index.linked_first.push(Key::Whole(a.0), number)?;
            index.linked_second.push(Key::Whole(b.0), number)
        }
        Form::N12(a, _, _) => index.denied.put_in_place(forms, Key::Whole(a.0), number),
    }
}

/// Lists all of the forms by each key that they have, where the first so many are listed: it shares these lists, and goes over the others.
/// Fails where memory is refused.
pub(crate) fn listed_more(
    alloc: Global,
    earlier: &ByRole<FormLists>,
    forms: &FormList,
    from: usize,
) -> Result<ByRole<FormLists>, AllocError>
    requires few { length forms.now ≤ u32.MAX }
    requires from { from ≤ length forms.now }
    requires earlier { IsFormIndex listed_at (take from forms.now) earlier.now }
    ensures index { IfOk result (λ index. IsFormIndex listed_at forms.now index) }
    ensures shared { IfOk result (λ index. ForEachTwo (λ _ old new. new.shared.value ≡ old.shared.value) earlier.now index) }
{
    let mut index = copied(alloc, earlier)?;
    for number in from..forms.len() {
        add(&mut index, forms, forms.at(number), number as u32)?;
    }
    Ok(index)
}
