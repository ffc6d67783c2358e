//! Lists of work that a test rules: one pops by a script, one hands an item back, one is led to any context.
ghost use Rattle.std.specs.Prelude.{◌≡◌, ◌<◌, [], IfSome, length};
ghost use Rattle.work_list.specs.Bag.{HasItemOf};

use std::alloc::Global;
use work_list::{Fifo, Item, WorkList};

/// Pops at the places of a script, one after another, and then at the front.
#[derive(Drop)]
pub(crate) struct Scripted {
    items: Vec<Item>,
    script: &'static [usize],
    turn: usize,
}

impl Scripted {
    /// A list with no item.
    pub(crate) fn new(alloc: Global, script: &'static [usize]) -> Self
        ensures { result.items.items ≡ [] }
    {
        Scripted {
            items: Vec::new(alloc),
            script,
            turn: 0,
        }
    }
}

impl WorkList for Scripted {
    ghost pending = { λ s. s.items.items };

    fn push(&mut self, item: Item) -> Result<(), Item> {
        self.items.push(item).map_err(|refused| refused.value)
    }

    fn pop(&mut self) -> Option<Item> {
        let waiting = self.items.len();
        if waiting == 0 {
            return None;
        }
        let place = self.script.get(self.turn).copied().unwrap_or(0) % waiting;
        self.turn = self.turn.saturating_add(1);
        Some(self.items.remove(place))
    }

    fn len(&self) -> usize {
        self.items.len()
    }
}

/// First in, first out; the push of that number, counted from 1, hands its item back.
#[derive(Drop)]
pub(crate) struct Refusing {
    items: Fifo,
    refused: u32,
}

impl Refusing {
    /// A list with no item.
    pub(crate) fn new(alloc: Global, refused: u32) -> Self
        ensures { result.items ≡ [] }
    {
        Refusing {
            items: Fifo::new(alloc),
            refused,
        }
    }
}

impl WorkList for Refusing {
    ghost pending = { λ r. r.items };

    fn push(&mut self, item: Item) -> Result<(), Item> {
        if self.refused == 1 {
            self.refused = 0;
            return Err(item);
        }
        self.refused = self.refused.saturating_sub(1);
        self.items.push(item)
    }

    fn pop(&mut self) -> Option<Item> {
        self.items.pop()
    }

    fn len(&self) -> usize {
        self.items.len()
    }
}

/// The place of the first item of the context, if there is one.
fn place_of(items: &[Item], context: u32) -> Option<usize>
    ensures low { IfSome result (λ place. place < length items.now) }
    ensures has { IfSome result (λ _. HasItemOf context items.now) }
{
    for place in 0..items.len() {
        if items[place].context == context {
            return Some(place);
        }
    }
    None
}

/// The place of the first item of the context that the list was led to last, if there is one, and else of the last item.
fn place_led_to(items: &[Item], led: Option<u32>) -> usize
    requires { 0 < length items.now }
    ensures { result < length items.now }
{
    let last = items.len() - 1;
    match led {
        Some(context) => place_of(items, context).unwrap_or(last),
        None => last,
    }
}

/// Last in, first out, but items of the context that it was led to last come before all others. It is led to each context of which an
/// item waits, whenever it is asked, and as often.
#[derive(Drop)]
pub(crate) struct Led {
    items: Vec<Item>,
    led: Option<u32>,
}

impl Led {
    /// A list with no item, led nowhere.
    pub(crate) fn new(alloc: Global) -> Self
        ensures { result.items.items ≡ [] }
    {
        Led {
            items: Vec::new(alloc),
            led: None,
        }
    }
}

impl WorkList for Led {
    ghost pending = { λ l. l.items.items };

    fn push(&mut self, item: Item) -> Result<(), Item> {
        self.items.push(item).map_err(|refused| refused.value)
    }

    fn pop(&mut self) -> Option<Item> {
        if self.items.is_empty() {
            return None;
        }
        let place = place_led_to(&self.items, self.led);
        Some(self.items.remove(place))
    }

    fn len(&self) -> usize {
        self.items.len()
    }

    fn lead_to(&mut self, context: u32) -> bool {
        if place_of(&self.items, context).is_none() {
            return false;
        }
        self.led = Some(context);
        true
    }
}
