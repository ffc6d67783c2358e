//! Lists of forms by key.
ghost use Rattle.std.specs.Prelude.{◌≡◌, ◌≤◌, IfOk, [], length};
ghost use Rattle.indexes.specs.Counts.{AreFew};
ghost use Rattle.indexes.specs.FormIndex.{listed_at, AreAllPutInOrder, IsFormIndex};
ghost use Rattle.indexes.specs.Insertions.{AreShared};
ghost use Rattle.indexes.specs.KeyFillings.{AreFull, AreListsOf, HasPlaces, IsRoomUnder, PlacesForm};
ghost use Rattle.indexes.specs.Roles.{ForEach, ForEachTwo};

use crate::form_counts::counted;
use crate::form_lists::FormLists;
use crate::key_counts::KeyCounts;
use crate::key_lists::{KeyFilling, KeyLists};
use crate::keys::Key;
use crate::named::{key_of_class, key_of_property};
use crate::roles::ByRole;
use normal_forms::{Form, FormList};
use std::alloc::{AllocError, Global};

/// Room for so many numbers of each key. Fails where memory is refused.
fn room_for(alloc: Global, counts: &ByRole<KeyCounts>) -> Result<ByRole<KeyFilling>, AllocError>
    requires { ForEach (λ _ by. AreFew by) counts.now }
    ensures { IfOk result (λ filling. ForEachTwo (λ _ by room. IsRoomUnder by room) counts.now filling) }
{
    Ok(ByRole {
        kinds: KeyFilling::new(alloc, &counts.kinds)?,
        alone: KeyFilling::new(alloc, &counts.alone)?,
        first: KeyFilling::new(alloc, &counts.first)?,
        second: KeyFilling::new(alloc, &counts.second)?,
        fillers: KeyFilling::new(alloc, &counts.fillers)?,
        chains: KeyFilling::new(alloc, &counts.chains)?,
        ends: KeyFilling::new(alloc, &counts.ends)?,
        plain: KeyFilling::new(alloc, &counts.plain)?,
        linked_first: KeyFilling::new(alloc, &counts.linked_first)?,
        linked_second: KeyFilling::new(alloc, &counts.linked_second)?,
        denied: KeyFilling::new(alloc, &counts.denied)?,
    })
}

/// Puts the number of a form at the end of the list of each key that the form has.
#[inline(always)]
fn place(filling: &mut ByRole<KeyFilling>, form: Form, number: u32)
    requires { HasPlaces filling.old form }
    ensures { PlacesForm filling.old filling.new form number }
{
    match form {
        Form::N1(a, _) | Form::N3(a, _, _) => filling.alone.place(key_of_class(a), number),
        Form::N2(a, b, _) => {
            filling.first.place(key_of_class(a), number);
            filling.second.place(key_of_class(b), number);
        }
        Form::N4(_, a, _) => filling.fillers.place(key_of_class(a), number),
        Form::N5(r, _) => filling.plain.place(Key::Whole(r.0), number),
        Form::N6(r, s, _) => {
            filling.chains.place(key_of_property(r), number);
            filling.ends.place(key_of_property(s), number);
        }
        Form::N7(_) => filling.kinds.place(Key::Whole(1), number),
        Form::N8(..) | Form::N9(..) => filling.kinds.place(Key::Whole(0), number),
        Form::N10(a, b) => {
            filling.linked_first.place(Key::Whole(a.0), number);
            filling.linked_second.place(Key::Whole(b.0), number);
        }
        Form::N12(a, _, _) => filling.denied.place(Key::Whole(a.0), number),
    }
}

/// The lists, when they are full.
fn filled(filling: ByRole<KeyFilling>) -> ByRole<KeyLists>
    requires { ForEach (λ _ by. AreFull by) filling }
    ensures { ForEachTwo (λ _ by lists. AreListsOf by lists) filling result }
{
    ByRole {
        kinds: filling.kinds.filled(),
        alone: filling.alone.filled(),
        first: filling.first.filled(),
        second: filling.second.filled(),
        fillers: filling.fillers.filled(),
        chains: filling.chains.filled(),
        ends: filling.ends.filled(),
        plain: filling.plain.filled(),
        linked_first: filling.linked_first.filled(),
        linked_second: filling.linked_second.filled(),
        denied: filling.denied.filled(),
    }
}

/// Puts the lists of those forms into order that are found by a second key too.
fn put_in_order(forms: &FormList, mut index: ByRole<KeyLists>) -> ByRole<KeyLists>
    ensures { AreAllPutInOrder forms.now index result }
{
    index.fillers.put_in_order(forms);
    index.chains.put_in_order(forms);
    index.denied.put_in_order(forms);
    index
}

/// These lists, so that copies may have them too. Fails where memory is refused.
fn shared(alloc: Global, index: ByRole<KeyLists>) -> Result<ByRole<FormLists>, AllocError>
    ensures { IfOk result (λ shared. ForEachTwo (λ _ lists shared. AreShared lists shared) index shared) }
{
    Ok(ByRole {
        kinds: FormLists::new(alloc, index.kinds)?,
        alone: FormLists::new(alloc, index.alone)?,
        first: FormLists::new(alloc, index.first)?,
        second: FormLists::new(alloc, index.second)?,
        fillers: FormLists::new(alloc, index.fillers)?,
        chains: FormLists::new(alloc, index.chains)?,
        ends: FormLists::new(alloc, index.ends)?,
        plain: FormLists::new(alloc, index.plain)?,
        linked_first: FormLists::new(alloc, index.linked_first)?,
        linked_second: FormLists::new(alloc, index.linked_second)?,
        denied: FormLists::new(alloc, index.denied)?,
    })
}

/// Lists all of the forms by each key that they have: it goes over them twice, and counts them first. Fails where memory is refused.
pub(crate) fn listed(alloc: Global, forms: &FormList) -> Result<ByRole<FormLists>, AllocError>
    requires { length forms.now ≤ u32.MAX }
    ensures index { IfOk result (λ index. IsFormIndex listed_at forms.now index) }
    ensures whole { IfOk result (λ index. ForEach (λ _ lists. lists.changed.items ≡ []) index) }
{
    let counts = counted(alloc, forms)?;
    let mut filling = room_for(alloc, &counts)?;
    for number in 0..forms.len() {
        place(&mut filling, forms.at(number), number as u32);
    }
    shared(alloc, put_in_order(forms, filled(filling)))
}
