//! Lists that grow in any order.
ghost use Rattle.number_sets.specs.Pieces.{list_at};
ghost use Rattle.std.specs.Prelude.{◌<◌, ◌≡◌, ◌++◌, ◌∷◌, [], IfOk, OnErr, OnOk, length, replicate, slice_set};

use crate::packed_lists::PackedLists;
use std::alloc::{AllocError, Global};
use std::marker::Model;

/// A list for each number below a bound, of numbers where nothing else is said, each in a piece of memory of its own.
#[derive(Drop)]
pub struct OpenLists<T = u32> {
    lists: Vec<Vec<T>>,
}

impl<T> Model for OpenLists<T> {
    ghost use Rattle.std.specs.Prelude.{List, map};

    ghost Value = { List (List T) };

    ghost view = { λ l. map (λ v. v.items) l.lists.items };
}

impl<T: Copy> OpenLists<T> {
    /// An empty list for each number below `n`. Fails where memory is refused.
    pub fn new(alloc: Global, n: usize) -> Result<OpenLists<T>, AllocError>
        ensures { IfOk result (λ l. l ≡ replicate n []) }
    {
        let mut lists = Vec::new(alloc);
        for _ in 0..n {
            lists.push(Vec::new(alloc))?;
        }
        Ok(OpenLists { lists })
    }

    /// An empty list for each of these numbers, with room for so many items, and for more where more are pushed. Fails where memory is
    /// refused.
    pub fn with_room(alloc: Global, room: &[u32]) -> Result<OpenLists<T>, AllocError>
        ensures { IfOk result (λ l. l ≡ replicate (length room.now) []) }
    {
        let mut lists = Vec::with_capacity(alloc, room.len())?;
        for items in room {
            let list = Vec::with_capacity(alloc, *items as usize)?;
            lists.push(list)?;
        }
        Ok(OpenLists { lists })
    }

    /// How many lists there are.
    pub fn len(&self) -> usize
        ensures { result ≡ length self.now }
    {
        self.lists.len()
    }

    /// The list of that number, or an empty one where there is none.
    pub fn at(&self, k: usize) -> &[T]
        ensures { result.now ≡ list_at self.now k }
    {
        if k >= self.lists.len() {
            return &[];
        }
        &self.lists[k]
    }

    /// Adds an item at the end of the list of `k`, if there is one. Fails where memory is refused; then nothing changes.
    pub fn push(&mut self, k: usize, x: T) -> Result<(), AllocError>
        ensures ok { OnOk result (self.new ≡ slice_set self.old k (list_at self.old k ++ x ∷ [])) }
        ensures err { OnErr result (self.new ≡ self.old) }
    {
        if k < self.lists.len() {
            let list = &mut self.lists[k];
            let Ok(()) = list.push(x) else {
                return Err(AllocError);
            };
        }
        Ok(())
    }

    /// The same lists, one behind the other. Fails where memory is refused.
    pub fn packed(&self, alloc: Global) -> Result<PackedLists<T>, AllocError>
        ensures { IfOk result (λ l. l ≡ self.now) }
    {
        let mut packed = PackedLists::new(alloc);
        for list in &self.lists {
            packed.push_list(list)?;
        }
        Ok(packed)
    }
}
