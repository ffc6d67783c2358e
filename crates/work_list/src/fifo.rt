//! First in, first out.
ghost use Rattle.std.specs.Prelude.{◌≡◌, List, [], length};
ghost use Rattle.work_list.specs.declared.item.Item.{Item};
ghost use Rattle.work_list.specs.Order.{PushesLast, PopsFirst};

use crate::item::Item;
use crate::list::WorkList;
use std::alloc::Global;
use std::collections::VecDeque;
use std::marker::Model;

/// Pops the item that was pushed first. It is seen as the list of its items, in the order in which they were pushed.
#[derive(Drop)]
pub struct Fifo {
    items: VecDeque<Item>,
}

impl Model for Fifo {
    ghost Value = { List Item };

    ghost view = { λ f. f.items.items };
}

impl Fifo {
    /// A list with no item.
    pub fn new(alloc: Global) -> Self
        ensures { result ≡ [] }
    {
        Fifo {
            items: VecDeque::new(alloc),
        }
    }
}

impl WorkList for Fifo {
    ghost pending = { λ items. items };

    fn push(&mut self, item: Item) -> Result<(), Item>
        ensures last { PushesLast item result self.old self.new }
    {
        self.items.push_back(item).map_err(|refused| refused.value)
    }

    fn pop(&mut self) -> Option<Item>
        ensures first { PopsFirst result self.old self.new }
    {
        self.items.pop_front()
    }

    fn len(&self) -> usize
        ensures { result ≡ length self.now }
    {
        self.items.len()
    }
}
