//! What lists of forms by key list, and how they grow by further forms.
ghost use Rattle.std.specs.Prelude.{◌≡◌, ◌↔◌, ◌≤◌, ℕ, [], IfOk, OnOk, length, true};
ghost use Rattle.indexes.specs.FormIndex.{listed_at, AreInOrder, ListsNothing};
ghost use Rattle.indexes.specs.Insertions.{AreShared, IsCopyOf, PutsUnder};
ghost use Rattle.indexes.specs.declared.keys.Key.TheVariants as keys;

use crate::changed_lists::{copies, list_of, place_of};
use crate::form_lists::{FormLists, above, begin, insert_at};
use crate::key_lists::KeyLists;
use crate::keys::Key;
use crate::seconds;
use normal_forms::FormList;
use std::alloc::{AllocError, Global};
use std::rc::Rc;

impl FormLists {
    /// These lists, so that copies may have them too. Fails where memory is refused.
    pub(crate) fn new(alloc: Global, lists: KeyLists) -> Result<Self, AllocError>
        ensures { IfOk result (AreShared lists) }
    {
        let end = lists.wholes.end();
        let Ok(shared) = Rc::new(alloc, lists) else {
            return Err(AllocError);
        };
        Ok(FormLists {
            shared,
            changed: Vec::new(alloc),
            end,
        })
    }

    /// The same lists: those of the first forms in the same memory. Fails where memory is refused.
    pub(crate) fn copy(&self, alloc: Global) -> Result<Self, AllocError>
        ensures { IfOk result (IsCopyOf self.now) }
    {
        let changed = copies(alloc, &self.changed)?;
        Ok(FormLists {
            shared: self.shared.clone()?,
            changed,
            end: self.end,
        })
    }

    /// Whether no list has a number.
    pub(crate) fn is_empty(&self) -> bool
        ensures { (result ≡ true) ↔ ListsNothing (listed_at self.now) }
    {
        self.changed.as_slice().is_empty() && self.shared.as_ref().is_empty()
    }

    /// A number from which on no whole key has a list with a number.
    pub(crate) fn end(&self) -> usize
        ensures { (number : ℕ) → result ≤ number → listed_at self.now (keys.Whole number) ≡ [] }
    {
        self.end
    }

    /// Whether the key is a whole one from which on none has a list with a number.
    #[inline(always)]
    pub(crate) fn is_past(&self, key: Key) -> bool
        ensures { result ≡ true → listed_at self.now key ≡ [] }
    {
        match key {
            Key::Whole(number) => number as usize >= self.end,
            Key::Partial(_) => false,
        }
    }

    /// The list of the key.
    #[inline(always)]
    pub(crate) fn of(&self, key: Key) -> &[u32]
        ensures { result.now ≡ listed_at self.now key }
    {
        if self.is_past(key) {
            return &[];
        }
        match list_of(&self.changed, key) {
            Some(list) => list,
            None => self.shared.as_ref().of(key),
        }
    }

    /// Puts a number into the list of the key, behind so many of its numbers. Fails where memory is refused.
    fn put(&mut self, key: Key, many: usize, number: u32) -> Result<(), AllocError>
        requires { many ≤ length (listed_at self.old key) }
        ensures { OnOk result (PutsUnder self.old self.new key many number) }
    {
        self.end = self.end.max(above(key));
        match place_of(&self.changed, key) {
            Some(place) => insert_at(&mut self.changed, key, place, many, number),
            None => {
                let numbers = self.shared.as_ref().of(key);
                begin(&mut self.changed, key, numbers, many, number)
            }
        }
    }

    /// Puts a number at the end of the list of the key. Fails where memory is refused.
    pub(crate) fn push(&mut self, key: Key, number: u32) -> Result<(), AllocError>
        ensures { OnOk result (PutsUnder self.old self.new key (length (listed_at self.old key)) number) }
    {
        let many = self.of(key).len();
        self.put(key, many, number)
    }

    /// Puts the number of a form into the list of the key, at its place in the order of the second keys. Fails where memory is refused.
    pub(crate) fn put_in_place(
        &mut self,
        forms: &FormList,
        key: Key,
        number: u32,
    ) -> Result<(), AllocError>
        requires { AreInOrder forms.now (listed_at self.old) }
        ensures put { OnOk result ((many : ℕ) × PutsUnder self.old self.new key many number) }
        ensures order { OnOk result (AreInOrder forms.now (listed_at self.new)) }
    {
        let many = seconds::place_of(forms, self.of(key), number);
        self.put(key, many, number)
    }
}
