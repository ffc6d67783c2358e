//! The trait of lists of pending work.
ghost use Rattle.std.specs.Prelude.{◌≡◌, [], List, length, OnOk, OnErr, IfOk, IfErr, true};
ghost use Rattle.work_list.specs.declared.item.Item.{Item as AnItem};
ghost use Rattle.work_list.specs.Bag.{Adds, HasItemOf, HaveSameItems, Pops};

use crate::item::Item;
use std::alloc::{AllocError, Global};

/// Items that wait: each list has its own order in which it pops them.
pub trait WorkList {
    /// The items that wait, in some order, which means nothing.
    ghost pending: { Self → List AnItem };

    /// Adds the item, or hands it back and changes nothing where memory is refused.
    fn push(&mut self, item: Item) -> Result<(), Item>
        ensures ok { OnOk result (Adds item (pending self.old) (pending self.new)) }
        ensures back { IfErr result (λ back. back ≡ item) }
        ensures same { OnErr result (pending self.new ≡ pending self.old) };

    /// Takes out some item, or gives none, exactly where none waits. It is to take no memory.
    fn pop(&mut self) -> Option<Item>
        ensures { Pops result (pending self.old) (pending self.new) };

    /// How many items wait.
    fn len(&self) -> usize
        ensures { result ≡ length (pending self.now) };

    /// Gives the context its turn, and answers `true`, where it has items and the list goes by contexts: items of the context are popped
    /// next. The same items wait as before.
    fn lead_to(&mut self, context: u32) -> bool
        ensures same { HaveSameItems (pending self.old) (pending self.new) }
        ensures waits { result ≡ true → HasItemOf context (pending self.new) }
    {
        let _ = context;
        false
    }
}

/// Takes out all items, in the order in which the list pops them: whatever was pushed is popped or still there.
/// Where memory is refused nothing is taken.
pub fn drain<W: WorkList>(list: &mut W, alloc: Global) -> Result<Vec<Item>, AllocError>
    ensures all { IfOk result (λ popped. HaveSameItems (W.pending list.old) popped.items) }
    ensures empty { OnOk result (W.pending list.new ≡ []) }
    ensures same { OnErr result (W.pending list.new ≡ W.pending list.old) }
{
    let mut popped = Vec::with_capacity(alloc, list.len())?;
    while let Some(item) = list.pop() {
        popped.push(item)?;
    }
    Ok(popped)
}
