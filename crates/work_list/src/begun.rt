//! The contexts that have had their turn.
ghost use Rattle.std.specs.Prelude.{◌≡◌, ◌<◌, ◌≤◌, [], OnOk, length};
ghost use Rattle.number_sets.specs.Members.{has};
ghost use Rattle.work_list.specs.Groups.{Begins, HaveSame};

use crate::room::make_room;
use std::alloc::{AllocError, Global};

/// Which contexts, by number, have had their turn: a byte for each up to the largest that there is room for.
#[derive(Drop)]
pub(crate) struct Begun {
    pub contexts: Vec<bool>,
}

impl Begun {
    /// None has.
    pub(crate) fn new(alloc: Global) -> Begun
        ensures { result.contexts.items ≡ [] }
    {
        Begun {
            contexts: Vec::new(alloc),
        }
    }

    /// Whether the context has.
    #[inline(always)]
    pub(crate) fn has(&self, context: u32) -> bool
        ensures { result ≡ has self.now.contexts.items context }
    {
        let place = context as usize;
        place < self.contexts.len() && self.contexts[place]
    }

    /// Makes room for the context. Fails where memory is refused. Which contexts have had their turn stays in any case, and so does
    /// the room that there was.
    pub(crate) fn grow(&mut self, context: u32) -> Result<(), AllocError>
        ensures same { HaveSame self.old.contexts.items self.new.contexts.items }
        ensures longer { length self.old.contexts.items ≤ length self.new.contexts.items }
        ensures ok { OnOk result (context < length self.new.contexts.items) }
    {
        while self.contexts.len() <= context as usize {
            make_room(&mut self.contexts)?;
            self.contexts.push_reserved(false);
        }
        Ok(())
    }

    /// The context, for which there is room, has its turn. That takes no memory.
    #[inline(always)]
    pub(crate) fn add(&mut self, context: u32)
        requires { context < length self.old.contexts.items }
        ensures begins { Begins context self.old.contexts.items self.new.contexts.items }
        ensures room { length self.new.contexts.items ≡ length self.old.contexts.items }
    {
        self.contexts[context as usize] = true;
    }
}
