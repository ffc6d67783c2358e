//! Lists of the numbers of forms, by keys of two kinds.
ghost use Rattle.std.specs.Prelude.{◌≡◌, ◌↔◌, IfOk, Some, true};
ghost use Rattle.indexes.specs.FormIndex.{at_key, ArePutInOrder, ListsNothing};
ghost use Rattle.indexes.specs.Counts.{AreFew};
ghost use Rattle.indexes.specs.KeyFillings.{AreFull, AreListsOf, HasPlaceUnder, IsRoomUnder, PlacesUnder};

use crate::key_counts::KeyCounts;
use crate::keys::Key;
use crate::lists::{Filling, Lists};
use normal_forms::FormList;
use std::alloc::{AllocError, Global};

/// A list for each key.
pub(crate) struct KeyLists {
    pub wholes: Lists,
    pub partials: Lists,
}

// A value is let go by one call, where each way out would else let each field go.
impl Drop for KeyLists {
    fn drop(self) {
        let KeyLists {
            wholes: _,
            partials: _,
        } = self;
    }
}

/// Lists of both kinds that are filled.
pub(crate) struct KeyFilling {
    pub wholes: Filling,
    pub partials: Filling,
}

// A value is let go by one call, where each way out would else let each field go.
impl Drop for KeyFilling {
    fn drop(self) {
        let KeyFilling {
            wholes: _,
            partials: _,
        } = self;
    }
}

impl KeyFilling {
    /// Room for so many numbers of each key. Fails where memory is refused.
    pub(crate) fn new(alloc: Global, counts: &KeyCounts) -> Result<Self, AllocError>
        requires { AreFew counts.now }
        ensures { IfOk result (λ filling. IsRoomUnder counts.now filling) }
    {
        Ok(KeyFilling {
            wholes: Filling::new(alloc, &counts.wholes)?,
            partials: Filling::new(alloc, &counts.partials)?,
        })
    }

    /// Puts a number at the end of the list of the key.
    #[inline(always)]
    pub(crate) fn place(&mut self, key: Key, number: u32)
        requires { HasPlaceUnder self.old (Some key) }
        ensures { PlacesUnder self.old self.new (Some key) number }
    {
        match key {
            Key::Whole(key) => self.wholes.place(key, number),
            Key::Partial(key) => self.partials.place(key, number),
        }
    }

    /// The lists, when they are full.
    pub(crate) fn filled(self) -> KeyLists
        requires { AreFull self }
        ensures { AreListsOf self result }
    {
        let KeyFilling { wholes, partials } = self;
        KeyLists {
            wholes: wholes.filled(),
            partials: partials.filled(),
        }
    }
}

impl KeyLists {
    /// Whether no list has a number.
    pub(crate) fn is_empty(&self) -> bool
        ensures { (result ≡ true) ↔ ListsNothing (at_key self.now) }
    {
        self.wholes.is_empty() && self.partials.is_empty()
    }

    /// Puts each list into the order of the second keys of the forms.
    pub(crate) fn put_in_order(&mut self, forms: &FormList)
        ensures { ArePutInOrder forms.now self.old self.new }
    {
        self.wholes.put_in_order(forms);
        self.partials.put_in_order(forms);
    }

    /// The list of the key.
    pub(crate) fn of(&self, key: Key) -> &[u32]
        ensures { result.now ≡ at_key self.now key }
    {
        match key {
            Key::Whole(number) => self.wholes.of(number),
            Key::Partial(number) => self.partials.of(number),
        }
    }
}
