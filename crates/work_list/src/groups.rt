//! Facts that wait, in a chain for each context.
ghost use Rattle.std.specs.Prelude.{◌≡◌, ◌<◌, ◌++◌, ◌∷◌, [], IfNone, IfSome, IsTrue, OnErr, OnOk, ◌↔◌, length, option_to_list, slice_set};
ghost use Rattle.work_list.specs.Bag.{Adds};
ghost use Rattle.work_list.specs.Chains.{lists_of, AreChains, KeepChains};
ghost use Rattle.work_list.specs.Waiting.{IsSame, IsSameBut, items_in, list_at};

use crate::item::Item;
use crate::node::Node;
use crate::room::make_room;
use std::alloc::{AllocError, Global};
use std::marker::Model;

/// The facts of each context, by its number. It is seen as a list for each, the fact that was added last in front. Each fact has a node of 8
/// bytes; the nodes stand in one piece, and those that are free are chained too, so that a fact takes memory only where none is free.
#[derive(Drop)]
pub(crate) struct Groups {
    nodes: Vec<Node>,
    /// What stands for the first node of each context: one more than its place, or 0 where no fact waits.
    heads: Vec<u32>,
    /// What stands for the first node that is free.
    free: u32,
}

impl Model for Groups {
    ghost use Rattle.std.specs.Prelude.{ℕ, List, ◌∷◌};
    ghost use Rattle.work_list.specs.Chains.{lists_of, AreChains};

    ghost Value = { List (List ℕ) };

    ghost view = { λ g. lists_of g.nodes.items g.heads.items };

    ghost invariant = { λ g. AreChains g.nodes.items (g.free ∷ g.heads.items) };
}

/// Makes a node that is free, where there is none. Fails where memory is refused, or there are 2^32 - 1 nodes; then nothing changes.
fn make_free(nodes: &mut Vec<Node>, free: &mut u32) -> Result<(), AllocError>
    ensures chains { KeepChains nodes.old.items free.old nodes.new.items free.new }
    ensures ok { OnOk result (0 < free.new) }
{
    if *free > 0 {
        return Ok(());
    }
    let count = nodes.len();
    if count >= u32::MAX as usize {
        return Err(AllocError);
    }
    make_room(nodes)?;
    nodes.push_reserved(Node { fact: 0, next: 0 });
    *free = count as u32 + 1;
    Ok(())
}

/// Puts a fact in front of those of a context, into the node that is free. That takes no memory.
fn put(nodes: &mut Vec<Node>, free: &mut u32, heads: &mut Vec<u32>, place: usize, fact: u32)
    requires chains { AreChains nodes.old.items (free.old ∷ heads.old.items) }
    requires free { 0 < free.old }
    requires there { place < length heads.old.items }
    ensures chains { AreChains nodes.new.items (free.new ∷ heads.new.items) }
    ensures list { lists_of nodes.new.items heads.new.items ≡ slice_set (lists_of nodes.old.items heads.old.items) place (fact ∷ list_at (lists_of nodes.old.items heads.old.items) place) }
{
    let number = *free;
    let at = number as usize - 1;
    *free = nodes[at].next;
    nodes[at] = Node {
        fact,
        next: heads[place],
    };
    heads[place] = number;
}

/// Takes the first fact out of those of a context, if there is one; its node is free then.
fn take(nodes: &mut Vec<Node>, free: &mut u32, heads: &mut Vec<u32>, place: usize) -> Option<u32>
    requires chains { AreChains nodes.old.items (free.old ∷ heads.old.items) }
    requires there { place < length heads.old.items }
    ensures chains { AreChains nodes.new.items (free.new ∷ heads.new.items) }
    ensures same { lists_of nodes.new.items heads.new.items ≡ slice_set (lists_of nodes.old.items heads.old.items) place (list_at (lists_of nodes.new.items heads.new.items) place) }
    ensures first { list_at (lists_of nodes.old.items heads.old.items) place ≡ option_to_list result ++ list_at (lists_of nodes.new.items heads.new.items) place }
    ensures none { IfNone result (list_at (lists_of nodes.old.items heads.old.items) place ≡ []) }
{
    let number = heads[place];
    if number == 0 {
        return None;
    }
    let at = number as usize - 1;
    let Node { fact, next } = nodes[at];
    nodes[at] = Node {
        fact: 0,
        next: *free,
    };
    heads[place] = next;
    *free = number;
    Some(fact)
}

impl Groups {
    /// No facts.
    pub(crate) fn new(alloc: Global) -> Groups
        ensures { result ≡ [] }
    {
        Groups {
            nodes: Vec::new(alloc),
            heads: Vec::new(alloc),
            free: 0,
        }
    }

    /// For how many contexts there is room.
    #[inline(always)]
    fn len(&self) -> usize
        ensures { result ≡ length self.now }
    {
        self.heads.len()
    }

    /// Whether any fact of the context waits.
    #[inline(always)]
    pub(crate) fn has(&self, context: u32) -> bool
        ensures { IsTrue result ↔ 0 < length (list_at self.now context) }
    {
        let place = context as usize;
        place < self.heads.len() && self.heads[place] > 0
    }

    /// Makes room for one context more. Fails where memory is refused; then nothing changes.
    fn grow(&mut self) -> Result<(), AllocError>
        ensures ok { OnOk result (self.new ≡ self.old ++ [] ∷ []) }
        ensures err { OnErr result (self.new ≡ self.old) }
    {
        make_room(&mut self.heads)?;
        self.heads.push_reserved(0);
        Ok(())
    }

    /// Makes room for the facts of the context. Fails where memory is refused.
    fn reach(&mut self, context: u32) -> Result<(), AllocError>
        ensures same { IsSame self.old self.new }
        ensures items { items_in self.new ≡ items_in self.old }
        ensures ok { OnOk result (context < length self.new) }
    {
        while self.len() <= context as usize {
            self.grow()?;
        }
        Ok(())
    }

    /// Adds a fact to those of a context that there is room for. Fails where memory is refused; then nothing changes.
    fn add(&mut self, place: usize, fact: u32) -> Result<(), AllocError>
        requires { place < length self.old }
        ensures ok { OnOk result (self.new ≡ slice_set self.old place (fact ∷ list_at self.old place)) }
        ensures err { OnErr result (self.new ≡ self.old) }
    {
        make_free(&mut self.nodes, &mut self.free)?;
        put(
            &mut self.nodes,
            &mut self.free,
            &mut self.heads,
            place,
            fact,
        );
        Ok(())
    }

    /// Takes the first fact out of those of a context that there is room for, if there is one.
    fn take(&mut self, place: usize) -> Option<u32>
        requires { place < length self.old }
        ensures same { self.new ≡ slice_set self.old place (list_at self.new place) }
        ensures first { list_at self.old place ≡ option_to_list result ++ list_at self.new place }
        ensures none { IfNone result (list_at self.old place ≡ []) }
    {
        take(&mut self.nodes, &mut self.free, &mut self.heads, place)
    }

    /// Adds an item. Fails where memory is refused; then no item changes.
    #[inline(always)]
    pub(crate) fn push(&mut self, item: Item) -> Result<(), AllocError>
        ensures ok { OnOk result (Adds item (items_in self.old) (items_in self.new)) }
        ensures err { OnErr result (items_in self.new ≡ items_in self.old) }
        ensures same { OnErr result (IsSame self.old self.new) }
        ensures others { IsSameBut item.context self.old self.new }
    {
        self.reach(item.context)?;
        self.add(item.context as usize, item.fact)?;
        Ok(())
    }

    /// Takes out the item of the context that was added last, or gives none, exactly where the context has none.
    #[inline(always)]
    pub(crate) fn pop(&mut self, context: u32) -> Option<Item>
        ensures some { IfSome result (λ item. Adds item (items_in self.new) (items_in self.old)) }
        ensures context { IfSome result (λ item. item.context ≡ context) }
        ensures waited { IfSome result (λ _. 0 < length (list_at self.old context)) }
        ensures others { IsSameBut context self.old self.new }
        ensures none { IfNone result (list_at self.old context ≡ []) }
        ensures same { IfNone result (self.new ≡ self.old) }
    {
        let place = context as usize;
        if place >= self.len() {
            return None;
        }
        let fact = self.take(place)?;
        Some(Item { fact, context })
    }
}
