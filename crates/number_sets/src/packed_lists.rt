//! Lists, one behind the other.
ghost use Rattle.number_sets.specs.Pieces.{list_at};
ghost use Rattle.std.specs.Prelude.{[], ◌++◌, ◌<◌, ◌≡◌, ◌∷◌, OnErr, OnOk, length, slice_index, slice_range, ◌≤◌};

use std::alloc::{AllocError, Global};
use std::marker::Model;

/// Lists, of numbers where nothing else is said, read by their own numbers from 0. They stand one behind the other in one piece
/// of memory.
pub struct PackedLists<T = u32> {
    // where each list ends
    ends: Vec<usize>,
    items: Vec<T>,
}

// A value is let go by one call, where each way out would else let each field go.
impl<T: Drop> Drop for PackedLists<T> {
    fn drop(self) {
        let PackedLists { ends: _, items: _ } = self;
    }
}

impl<T> Model for PackedLists<T> {
    ghost use Rattle.std.specs.Prelude.{List, length};
    ghost use Rattle.number_sets.specs.Pieces.{AreEnds, pieces};

    ghost Value = { List (List T) };

    ghost view = { λ l. pieces 0 l.ends.items l.items.items };

    ghost invariant = { λ l. AreEnds 0 l.ends.items (length l.items.items) };
}

// Where the list of that number starts.
fn start_of(ends: &[usize], k: usize) -> usize
    requires { k < length ends.now }
    ensures { result ≡ slice_index (0 ∷ ends.now) k }
{
    if k == 0 { 0 } else { ends[k - 1] }
}

// The items from one place up to another.
fn part<T: Copy>(items: &[T], start: usize, end: usize) -> &[T]
    requires ordered { start ≤ end }
    requires within { end ≤ length items.now }
    ensures { result.now ≡ slice_range items.now start end }
{
    &items[start..end]
}

impl<T: Copy> PackedLists<T> {
    /// No lists.
    pub fn new(alloc: Global) -> PackedLists<T>
        ensures { result ≡ [] }
    {
        PackedLists {
            ends: Vec::new(alloc),
            items: Vec::new(alloc),
        }
    }

    /// How many lists there are.
    pub fn len(&self) -> usize
        ensures { result ≡ length self.now }
    {
        self.ends.len()
    }

    /// Adds a list behind the others. Fails where memory is refused; then nothing changes.
    pub fn push_list(&mut self, list: &[T]) -> Result<(), AllocError>
        ensures ok { OnOk result (self.new ≡ self.old ++ list.now ∷ []) }
        ensures err { OnErr result (self.new ≡ self.old) }
    {
        self.ends.reserve(1)?;
        self.items.extend_from_slice(list)?;
        self.ends.push_reserved(self.items.len());
        Ok(())
    }

    /// The list of that number, or an empty one where there is none.
    pub fn at(&self, k: usize) -> &[T]
        ensures { result.now ≡ list_at self.now k }
    {
        if k >= self.ends.len() {
            return &[];
        }
        let start = start_of(&self.ends, k);
        part(&self.items, start, self.ends[k])
    }

    /// How long the list of that number is.
    pub fn len_at(&self, k: usize) -> usize
        ensures { result ≡ length (list_at self.now k) }
    {
        if k >= self.ends.len() {
            return 0;
        }
        let start = start_of(&self.ends, k);
        self.ends[k] - start
    }
}
