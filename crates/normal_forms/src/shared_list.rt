//! A list that grows by copies, which share what was there before.
ghost use Rattle.normal_forms.specs.SharedLists.{shared_items};
ghost use Rattle.std.specs.Prelude.{◌≡◌, ◌<◌, ◌≤◌, ◌++◌, ◌∷◌, [], IfOk, IfSome, IsNone, OnErr, OnOk, Some, length, slice_get};

use std::alloc::{AllocError, Global};
use std::marker::Model;
use std::rc::Rc;

/// What copies may have in the same memory, if there is anything.
#[derive(Drop)]
pub(crate) enum Shared<T> {
    Nothing,
    Items(Rc<Vec<T>>),
}

/// Items in order, fewer than 2^64: first those that copies have in the same memory, and then those that are this list's own.
#[derive(Drop)]
pub struct SharedList<T> {
    alloc: Global,
    shared: Shared<T>,
    own: Vec<T>,
    /// How many there are in all.
    count: usize,
}

impl<T> Model for SharedList<T> {
    ghost use Rattle.normal_forms.specs.SharedLists.{shared_items, Listed};
    ghost use Rattle.std.specs.Prelude.{◌≡◌, ◌++◌, ◌-◌, ◌^◌, length, min, vec_capacity};

    ghost Value = { Listed T };

    ghost view = { λ l. record {
      items = shared_items l.shared ++ l.own.items;
      room = min (vec_capacity l.own - length l.own.items) (2 ^ 64 - 1 - l.count);
    } };

    ghost invariant = { λ l. l.count ≡ length (shared_items l.shared ++ l.own.items) };
}

/// Those that are shared.
fn shared_of<T>(shared: &Shared<T>) -> &[T]
    ensures { result.now ≡ shared_items shared.now }
{
    match shared {
        Shared::Items(items) => items.as_ref().as_slice(),
        Shared::Nothing => &[],
    }
}

/// The same, in the same memory. Fails where memory is refused.
fn copy_of<T: Copy>(shared: &Shared<T>) -> Result<Shared<T>, AllocError>
    ensures { IfOk result (λ copy. shared_items copy ≡ shared_items shared.now) }
{
    let copy = match shared {
        Shared::Items(items) => Shared::Items(items.clone()?),
        Shared::Nothing => Shared::Nothing,
    };
    Ok(copy)
}

/// The items of the first list, then those of the second, and then those of the third, in one piece.
fn in_one_piece<T: Copy>(
    alloc: Global,
    first: &[T],
    second: &[T],
    third: &[T],
) -> Result<Vec<T>, AllocError>
    ensures { IfOk result (λ all. all.items ≡ (first.now ++ second.now) ++ third.now) }
{
    let many = first.len().saturating_add(second.len());
    let mut all = Vec::with_capacity(alloc, many.saturating_add(third.len()))?;
    all.extend_from_slice(first)?;
    all.extend_from_slice(second)?;
    all.extend_from_slice(third)?;
    Ok(all)
}

/// Whether so many items beside so many that are shared are to stand in one piece with them. Each growth copies those beside, so they
/// stay fewer than the root of all; to make one piece copies all, and comes as seldom. It decides nothing.
fn are_many(beside: usize, shared: usize) -> bool {
    beside.saturating_mul(beside) > shared
}

/// These items, to be shared, and none behind them; where memory is refused nothing, and these items.
fn parted<T: Copy>(alloc: Global, items: Vec<T>) -> (Shared<T>, Vec<T>)
    ensures { shared_items result.0 ++ result.1.items ≡ items.items }
{
    match Rc::new(alloc, items) {
        Ok(items) => (Shared::Items(items), Vec::new(alloc)),
        Err(failed) => (Shared::Nothing, failed.value),
    }
}

impl<T: Copy> SharedList<T> {
    /// No items.
    pub fn new(alloc: Global) -> SharedList<T>
        ensures { result.items ≡ [] }
    {
        SharedList::of(Vec::new(alloc))
    }

    /// These items, which are its own.
    pub fn of(items: Vec<T>) -> SharedList<T>
        ensures { result.items ≡ items.items }
    {
        SharedList {
            alloc: *items.allocator(),
            shared: Shared::Nothing,
            count: items.len(),
            own: items,
        }
    }

    /// How many items there are.
    #[inline(always)]
    pub fn len(&self) -> usize
        ensures { result ≡ length self.now.items }
    {
        self.count
    }

    /// The item of that number, counted from 0.
    #[inline(always)]
    pub fn at(&self, number: usize) -> &T
        requires { number < length self.now.items }
        ensures { slice_get self.now.items number ≡ Some result.now }
    {
        let shared = shared_of(&self.shared);
        if number < shared.len() {
            &shared[number]
        } else {
            &self.own[number - shared.len()]
        }
    }

    /// The item of that number, counted from 0, if there is one.
    #[inline(always)]
    pub fn get(&self, number: usize) -> Option<&T>
        ensures some { IfSome result (λ item. slice_get self.now.items number ≡ Some item.now) }
        ensures none { IsNone result → length self.now.items ≤ number }
    {
        if number < self.count {
            Some(self.at(number))
        } else {
            None
        }
    }

    /// Makes room for one item more. Fails where memory is refused, or there are 2^64 - 1 items.
    pub fn reserve(&mut self) -> Result<(), AllocError>
        ensures same { self.new.items ≡ self.old.items }
        ensures room { OnOk result (0 < self.new.room) }
    {
        if self.count == usize::MAX {
            return Err(AllocError);
        }
        self.own.reserve(1)?;
        Ok(())
    }

    /// Adds an item at the end, where there is room.
    pub fn push_reserved(&mut self, item: T)
        requires { 0 < self.old.room }
        ensures { self.new.items ≡ self.old.items ++ item ∷ [] }
    {
        self.own.push_reserved(item);
        self.count += 1;
    }

    /// Adds an item at the end. Fails where memory is refused, or there are 2^64 - 1 items; then nothing changes.
    pub fn push(&mut self, item: T) -> Result<(), AllocError>
        ensures ok { OnOk result (self.new.items ≡ self.old.items ++ item ∷ []) }
        ensures err { OnErr result (self.new.items ≡ self.old.items) }
    {
        self.reserve()?;
        self.push_reserved(item);
        Ok(())
    }

    /// The same items, those that are shared in the same memory. Fails where memory is refused.
    pub fn copy(&self) -> Result<SharedList<T>, AllocError>
        ensures { IfOk result (λ copy. copy.items ≡ self.now.items) }
    {
        let own = in_one_piece(self.alloc, &self.own, &[], &[])?;
        let shared = copy_of(&self.shared)?;
        Ok(SharedList {
            alloc: self.alloc,
            shared,
            own,
            count: self.count,
        })
    }

    /// These items, and behind them the others. What is shared is in the same memory, while few stand behind it. Fails where memory is
    /// refused, or there would be 2^64 items.
    pub fn with_more(&self, more: &[T]) -> Result<SharedList<T>, AllocError>
        ensures { IfOk result (λ all. all.items ≡ self.now.items ++ more.now) }
    {
        let Some(count) = self.count.checked_add(more.len()) else {
            return Err(AllocError);
        };
        let shared = shared_of(&self.shared);
        if are_many(self.own.len().saturating_add(more.len()), shared.len()) {
            let all = in_one_piece(self.alloc, shared, &self.own, more)?;
            return Ok(SharedList::of(all));
        }
        let own = in_one_piece(self.alloc, &self.own, more, &[])?;
        let shared = copy_of(&self.shared)?;
        Ok(SharedList {
            alloc: self.alloc,
            shared,
            own,
            count,
        })
    }

    /// These items, and behind them those of the other list: where there are none here, in the memory of the other list, else as by
    /// `with_more`. Fails where memory is refused, or there would be 2^64 items.
    pub fn joined(&self, more: SharedList<T>) -> Result<SharedList<T>, AllocError>
        ensures { IfOk result (λ all. all.items ≡ self.now.items ++ more.items) }
    {
        if self.count == 0 {
            return Ok(more);
        }
        if let Shared::Nothing = more.shared {
            return self.with_more(&more.own);
        }
        let items = in_one_piece(self.alloc, shared_of(&more.shared), &more.own, &[])?;
        let joined = self.with_more(&items);
        drop(items);
        joined
    }

    /// The same items. Those that are its own are shared with copies from now on, where nothing was shared before and memory is to be had.
    pub fn share(self) -> SharedList<T>
        ensures { result.items ≡ self.items }
    {
        let SharedList {
            alloc,
            shared,
            own,
            count,
        } = self;
        let (shared, own) = match shared {
            Shared::Nothing => parted(alloc, own),
            Shared::Items(_) => (shared, own),
        };
        SharedList {
            alloc,
            shared,
            own,
            count,
        }
    }
}
