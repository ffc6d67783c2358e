//! Last in, first out.
ghost use Rattle.std.specs.Prelude.{◌≡◌, List, [], length};
ghost use Rattle.work_list.specs.declared.item.Item.{Item};
ghost use Rattle.work_list.specs.Order.{PushesLast, PopsLast};

use crate::item::Item;
use crate::list::WorkList;
use std::alloc::Global;
use std::marker::Model;

/// Pops the item that was pushed last. It is seen as the list of its items, in the order in which they were pushed.
#[derive(Drop)]
pub struct Lifo {
    items: Vec<Item>,
}

impl Model for Lifo {
    ghost Value = { List Item };

    ghost view = { λ l. l.items.items };
}

impl Lifo {
    /// A list with no item.
    pub fn new(alloc: Global) -> Self
        ensures { result ≡ [] }
    {
        Lifo {
            items: Vec::new(alloc),
        }
    }
}

impl WorkList for Lifo {
    ghost pending = { λ items. items };

    fn push(&mut self, item: Item) -> Result<(), Item>
        ensures last { PushesLast item result self.old self.new }
    {
        self.items.push(item).map_err(|refused| refused.value)
    }

    fn pop(&mut self) -> Option<Item>
        ensures last { PopsLast result self.old self.new }
    {
        self.items.pop()
    }

    fn len(&self) -> usize
        ensures { result ≡ length self.now }
    {
        self.items.len()
    }
}
