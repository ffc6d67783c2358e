//! The items of one context together.
ghost use Rattle.std.specs.Prelude.{◌≡◌, ◌<◌, [], ℕ, false, None, Some, IfNone, IfSome, IsTrue, ◌↔◌, OnErr, OnOk, length};
ghost use Rattle.number_sets.specs.Members.{has};
ghost use Rattle.work_list.specs.Bag.{Adds};
ghost use Rattle.work_list.specs.Groups.{HaveSame, LeadsTo, PopsTogether, PushesInto};
ghost use Rattle.work_list.specs.Waiting.{AllStand, AreStacked, HaveRoom, grouped, items_in, list_at};

use crate::begun::Begun;
use crate::groups::Groups;
use crate::item::Item;
use crate::list::WorkList;
use crate::room::make_room;
use std::alloc::{AllocError, Global};
use std::marker::Model;

/// Pops an item of the context whose turn it is, which is that of the item that it popped last or one that it was led to since, while
/// that has any, and then goes on to the context that began to wait last, or had to wait for another. It is led to a context only
/// before that has had its turn. It is seen as its items, in no order that means anything, the context whose turn it is, and the
/// contexts that have had theirs.
/// A push and a pop take constant time on the whole, however many items and contexts there are. A pop takes no memory. A push hands the
/// item back where memory is refused, or where the items cannot be numbered by a `u32`. Memory goes by the largest number of a context, 4
/// bytes for each number up to it, and a byte that says whether it has had its turn; by the items, 8 bytes for each of the most that
/// waited at one time; and by the contexts that wait, 4 bytes for each, and as many for each that it was led away from. Where one of
/// these lists is full, it makes room for half as many more.
#[derive(Drop)]
pub struct ByContext {
    /// The facts of each context.
    groups: Groups,
    /// The contexts that wait, and maybe some that do not wait any more.
    stack: Vec<u32>,
    /// The contexts that have had their turn.
    begun: Begun,
    /// The context whose turn it is.
    last: Option<u32>,
    /// How many items wait.
    count: usize,
}

impl Model for ByContext {
    ghost use Rattle.std.specs.Prelude.{◌≡◌, length};
    ghost use Rattle.work_list.specs.Groups.{Grouped};
    ghost use Rattle.work_list.specs.Waiting.{AreStacked, HaveRoom, grouped, items_in};

    ghost Value = { Grouped };

    ghost view = { λ b. grouped b.groups b.last b.begun };

    ghost invariant = { λ b. AreStacked b.groups b.stack.items b.last × (b.count ≡ length (items_in b.groups)) × HaveRoom b.groups b.last b.begun.contexts.items };
}

/// Whether it is the turn of the context.
#[inline(always)]
fn is_last(last: Option<u32>, context: u32) -> bool
    ensures { IsTrue result ↔ (last ≡ Some context) }
{
    match last {
        Some(last) => last == context,
        None => false,
    }
}

/// Adds an item to those that wait, and makes room for its context among those that have had their turn. Fails where memory is refused;
/// then no item changes.
#[inline(always)]
fn push(
    groups: &mut Groups,
    stack: &mut Vec<u32>,
    begun: &mut Begun,
    last: Option<u32>,
    item: Item,
) -> Result<(), AllocError>
    requires stacked { AreStacked groups.old stack.old.items last }
    requires room { HaveRoom groups.old last begun.old.contexts.items }
    ensures stacked { AreStacked groups.new stack.new.items last }
    ensures room { HaveRoom groups.new last begun.new.contexts.items }
    ensures begun { HaveSame begun.old.contexts.items begun.new.contexts.items }
    ensures ok { OnOk result (Adds item (items_in groups.old) (items_in groups.new)) }
    ensures err { OnErr result (items_in groups.new ≡ items_in groups.old) }
{
    if is_last(last, item.context) || groups.has(item.context) {
        return groups.push(item);
    }
    begun.grow(item.context)?;
    make_room(stack)?;
    groups.push(item)?;
    stack.push_reserved(item.context);
    Ok(())
}

/// The context on top of the stack of which any item waits, without those on top of it.
fn next(groups: &Groups, stack: &mut Vec<u32>) -> Option<u32>
    requires { AllStand groups.now stack.old.items }
    ensures waits { IfSome result (λ context. 0 < length (list_at groups.now context)) }
    ensures stacked { AreStacked groups.now stack.new.items result }
    ensures none { IfNone result (items_in groups.now ≡ []) }
{
    while let Some(context) = stack.pop() {
        if groups.has(context) {
            return Some(context);
        }
    }
    None
}

/// Takes an item of the context whose turn it is, if there is one.
#[inline(always)]
fn take(groups: &mut Groups, last: Option<u32>) -> Option<Item>
    ensures some { IfSome result (λ item. Adds item (items_in groups.new) (items_in groups.old)) }
    ensures context { IfSome result (λ item. last ≡ Some item.context) }
    ensures fewer { (c : ℕ) → 0 < length (list_at groups.new c) → 0 < length (list_at groups.old c) }
    ensures none { IfNone result ((c : ℕ) → last ≡ Some c → list_at groups.old c ≡ []) }
    ensures same { IfNone result (groups.new ≡ groups.old) }
{
    groups.pop(last?)
}

/// Takes an item of the context whose turn it is, or of the one that comes next, if there is one.
#[inline(always)]
fn pop(
    groups: &mut Groups,
    stack: &mut Vec<u32>,
    begun: &mut Begun,
    last: &mut Option<u32>,
) -> Option<Item>
    requires stacked { AreStacked groups.old stack.old.items last.old }
    requires room { HaveRoom groups.old last.old begun.old.contexts.items }
    ensures stacked { AreStacked groups.new stack.new.items last.new }
    ensures room { HaveRoom groups.new last.new begun.new.contexts.items }
    ensures together { PopsTogether result (grouped groups.old last.old begun.old) (grouped groups.new last.new begun.new) }
{
    if let Some(item) = take(groups, *last) {
        return Some(item);
    }
    let context = next(groups, stack)?;
    begun.add(context);
    *last = Some(context);
    take(groups, *last)
}

/// Puts the context whose turn it is on the stack, if any of its items waits. Fails where memory is refused.
fn set_aside(groups: &Groups, stack: &mut Vec<u32>, last: Option<u32>) -> Result<(), AllocError>
    requires { AreStacked groups.now stack.old.items last }
    ensures ok { OnOk result (AllStand groups.now stack.new.items) }
    ensures err { OnErr result (stack.new.items ≡ stack.old.items) }
{
    let Some(context) = last else {
        return Ok(());
    };
    if groups.has(context) {
        make_room(stack)?;
        stack.push_reserved(context);
    }
    Ok(())
}

impl ByContext {
    /// A list with no item.
    pub fn new(alloc: Global) -> Self
        ensures { result ≡ record { items = []; last = None; begun = [] } }
    {
        ByContext {
            groups: Groups::new(alloc),
            stack: Vec::new(alloc),
            begun: Begun::new(alloc),
            last: None,
            count: 0,
        }
    }

    /// Gives the context, which has not had its turn, one, and answers `true`, where it has items.
    fn lead(&mut self, context: u32) -> bool
        requires { has self.old.begun context ≡ false }
        ensures { LeadsTo context result self.old self.new }
    {
        if !self.groups.has(context) {
            return false;
        }
        let Ok(()) = set_aside(&self.groups, &mut self.stack, self.last) else {
            return false;
        };
        self.begun.add(context);
        self.last = Some(context);
        true
    }
}

impl WorkList for ByContext {
    ghost pending = { λ b. b.items };

    #[inline(always)]
    fn push(&mut self, item: Item) -> Result<(), Item>
        ensures items { PushesInto item result self.old.items self.new.items }
        ensures last { self.new.last ≡ self.old.last }
        ensures begun { HaveSame self.old.begun self.new.begun }
    {
        let Some(count) = self.count.checked_add(1) else {
            return Err(item);
        };
        let Ok(()) = push(
            &mut self.groups,
            &mut self.stack,
            &mut self.begun,
            self.last,
            item,
        ) else {
            return Err(item);
        };
        self.count = count;
        Ok(())
    }

    #[inline(always)]
    fn pop(&mut self) -> Option<Item>
        ensures together { PopsTogether result self.old self.new }
    {
        let item = pop(
            &mut self.groups,
            &mut self.stack,
            &mut self.begun,
            &mut self.last,
        )?;
        self.count -= 1;
        Some(item)
    }

    fn len(&self) -> usize
        ensures { result ≡ length self.now.items }
    {
        self.count
    }

    #[inline(always)]
    fn lead_to(&mut self, context: u32) -> bool
        ensures { LeadsTo context result self.old self.new }
    {
        if self.begun.has(context) {
            return false;
        }
        self.lead(context)
    }
}
