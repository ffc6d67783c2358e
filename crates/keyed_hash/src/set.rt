//! Members in order, found by their hashes: `indexmap`'s set with numbers of 32 bits.
ghost use Rattle.keyed_hash.specs.Numbering.{insert_key, room_in};
ghost use Rattle.std.specs.List.{list_any, AllZip};
ghost use Rattle.std.specs.Prelude.{◌≡◌, ◌+◌, ◌<◌, ◌^◌, true, false, not, [], ◌∷◌, ◌++◌, length, if◌then◌else◌, option_copied, slice_get, take, IfNone, IfOk, IfSome, OnErr, OnOk, Some};

use crate::state::KeyedState;
use indexmap::{Equivalent, IndexSet};
use std::alloc::{AllocError, Global};
use std::hash::Hash;
use std::marker::Model;

/// Members in the order in which they came, fewer than 2^32, each with its place as its number.
pub struct NumberedSet<T: Eq + Hash> {
    set: IndexSet<T, KeyedState>,
}

// A value is let go by one call, where each way out would else let each field go.
impl<T: Eq + Hash + Drop> Drop for NumberedSet<T> {
    fn drop(self) {
        let NumberedSet { set: _ } = self;
    }
}

impl<T: Eq + Hash> Model for NumberedSet<T> {
    ghost use Rattle.keyed_hash.specs.Numbering.{room_in, Numbered, numbered_code};
    ghost use Rattle.indexmap.specs.IndexSet.{spare};
    ghost use Rattle.std.specs.Prelude.{◌<◌, ◌^◌, length};

    ghost Value = { Numbered T };

    ghost coded = { numbered_code T.code };

    ghost view = { λ s. record { keys = s.set.keys; room = room_in (spare s.set) (length s.set.keys) } };

    ghost invariant = { λ s. length s.set.keys < 2 ^ 32 };
}

impl<T: Eq + Hash> NumberedSet<T> {
    /// No members, which are found by hashes that the state makes.
    pub fn new(alloc: Global, state: KeyedState) -> NumberedSet<T>
        ensures { result.keys ≡ [] }
    {
        NumberedSet {
            set: IndexSet::with_hasher(alloc, state),
        }
    }

    /// How many members there are.
    pub fn len(&self) -> usize
        ensures { result ≡ length self.now.keys }
    {
        self.set.len()
    }

    /// The members, in order.
    pub fn as_slice(&self) -> &[T]
        ensures { result.now ≡ self.now.keys }
    {
        self.set.as_slice()
    }

    /// The member of that number.
    pub fn get(&self, number: usize) -> Option<&T>
        ensures { option_copied result ≡ slice_get self.now.keys number }
    {
        self.set.get_index(number)
    }

    /// The number of a member that the key stands for.
    pub fn find<K: Equivalent<T>>(&self, key: K) -> Option<u32>
        ensures found { IfSome result (λ n. (k : T) × (slice_get self.now.keys n ≡ Some k) × (K.equivalent key k ≡ true)) }
        ensures absent { IfNone result (list_any (K.equivalent key) self.now.keys ≡ false) }
    {
        match self.set.get_index_of(key) {
            Some(place) => Some(place as u32),
            None => None,
        }
    }

    /// Whether the key stands for a member.
    pub fn contains<K: Equivalent<T>>(&self, key: K) -> bool
        ensures { result ≡ list_any (K.equivalent key) self.now.keys }
    {
        self.set.contains(key)
    }
}

impl<T: Eq + Hash + Drop> NumberedSet<T> {
    /// Keeps so many members, if there are more, and lets those behind them go.
    pub fn truncate(&mut self, len: usize)
        ensures { self.new.keys ≡ take len self.old.keys }
    {
        self.set.truncate(len);
    }

    /// The number of the member, which goes last where none is equal, and whether it did. Fails where memory is refused, or there are
    /// 2^32 - 1 members; then they are what they were.
    pub fn insert(&mut self, member: T) -> Result<(u32, bool), AllocError>
        ensures keys { IfOk result (λ r. self.new.keys ≡ insert_key T.eq self.old.keys member) }
        ensures stored { IfOk result (λ r. (k : T) × (slice_get self.new.keys r.0 ≡ Some k) × (T.eq member k ≡ true)) }
        ensures added { IfOk result (λ r. r.1 ≡ not (list_any (T.eq member) self.old.keys)) }
        ensures count { IfOk result (λ r. length self.new.keys ≡ length self.old.keys + (if r.1 then 1 else 0)) }
        ensures err { OnErr result (self.new.keys ≡ self.old.keys) }
    {
        if self.set.len() >= u32::MAX as usize {
            return Err(AllocError);
        }
        let (place, added) = self.set.insert_full(member)?;
        Ok((place as u32, added))
    }

    /// Makes room for one member more. Fails where memory is refused, or there are 2^32 - 1 members; they are what they were.
    pub fn reserve(&mut self) -> Result<(), AllocError>
        ensures keys { self.new.keys ≡ self.old.keys }
        ensures room { OnOk result (0 < self.new.room) }
    {
        if self.set.len() >= u32::MAX as usize {
            return Err(AllocError);
        }
        self.set.reserve(1)
    }

    /// Puts the member behind the others, none of which is equal, where there is room, and tells its number.
    pub fn push(&mut self, member: T) -> u32
        requires absent { list_any (T.eq member) self.old.keys ≡ false }
        requires room { 0 < self.old.room }
        ensures keys { self.new.keys ≡ self.old.keys ++ member ∷ [] }
        ensures number { result ≡ length self.old.keys }
    {
        let number = self.set.len() as u32;
        let _ = self.set.insert(member).unwrap();
        number
    }
}

impl<T: Eq + Hash + Clone + Drop> NumberedSet<T> {
    /// Clones of the members, in their order. Fails where memory is refused.
    pub fn copy(&self) -> Result<NumberedSet<T>, AllocError>
        ensures { IfOk result (λ s. AllZip T.is_clone self.now.keys s.keys) }
    {
        Ok(NumberedSet {
            set: self.set.clone()?,
        })
    }
}
