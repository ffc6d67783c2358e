//! What gave facts, in a list of which copies share what was there before they were made.
ghost use Rattle.facts.specs.Births.{reason};
ghost use Rattle.inference.specs.BirthLists.{births_of, shared_births};
ghost use Rattle.std.specs.Prelude.{◌≡◌, ◌<◌, ◌≤◌, ◌++◌, ◌∷◌, [], IfNone, IfOk, IfSome, OnOk, Some, false, length, map, slice_get, take, true};

use axioms::Memory;
use facts::Birth;
use std::alloc::Global;
use std::marker::Model;
use std::mem;
use std::rc::Rc;

/// What copies may have in the same memory, if there is anything.
#[derive(Drop)]
pub(crate) enum Shared {
    Nothing,
    Births(Rc<Vec<Birth>>),
}

/// What gave facts, in their order, 16 bytes for each: first what copies may have in the same memory, and then what is this list's own.
#[derive(Drop)]
pub struct BirthList {
    shared: Shared,
    /// How many of those that are shared are of this list.
    many: usize,
    own: Vec<Birth>,
}

impl Model for BirthList {
    ghost use Rattle.facts.specs.Births.{reason};
    ghost use Rattle.inference.specs.BirthLists.{births_of, shared_births, Listed};
    ghost use Rattle.std.specs.Prelude.{◌-◌, ◌≤◌, length, map, vec_capacity};

    ghost Value = { Listed };

    ghost view = { λ l. record { reasons = map reason (births_of (shared_births l.shared) l.many l.own.items); room = vec_capacity l.own - length l.own.items } };

    ghost invariant = { λ l. l.many ≤ length (shared_births l.shared) };
}

/// Those that are shared.
fn shared_of(shared: &Shared) -> &[Birth]
    ensures { result.now ≡ shared_births shared.now }
{
    match shared {
        Shared::Births(births) => births.as_ref().as_slice(),
        Shared::Nothing => &[],
    }
}

/// The same births. Fails where memory is refused.
fn copied(births: &Vec<Birth>) -> Result<Vec<Birth>, Memory>
    ensures { IfOk result (λ copy. copy.items ≡ births.now.items) }
{
    let mut copy = Vec::with_capacity(*births.allocator(), births.len())?;
    copy.extend_from_slice(births)?;
    Ok(copy)
}

/// Puts these births behind the first so many that are shared, and lets the others go, where no other list has them and memory is to
/// be had, and tells whether it did; else the first so many stay.
fn join(shared: &mut Rc<Vec<Birth>>, many: usize, own: &[Birth]) -> bool
    requires { many ≤ length shared.old.value.items }
    ensures joined { result ≡ true → shared.new.value.items ≡ take many shared.old.value.items ++ own.now }
    ensures still { result ≡ false → take many shared.new.value.items ≡ take many shared.old.value.items }
    ensures long { many ≤ length shared.new.value.items }
{
    let Some(births) = Rc::get_mut(shared) else {
        return false;
    };
    births.truncate(many);
    births.extend_from_slice(own).is_ok()
}

/// Takes the first so many births out, and lets the others go, where no other list has them.
fn take_out(shared: &mut Rc<Vec<Birth>>, many: usize) -> Option<Vec<Birth>>
    ensures taken { IfSome result (λ births. births.items ≡ take many shared.old.value.items) }
    ensures still { IfNone result (shared.new.value.items ≡ shared.old.value.items) }
{
    let births = Rc::get_mut(shared)?;
    let alloc = *births.allocator();
    let mut taken = mem::replace(births, Vec::new(alloc));
    taken.truncate(many);
    Some(taken)
}

impl BirthList {
    /// Of no fact.
    pub fn new(alloc: Global) -> BirthList
        ensures { result.reasons ≡ [] }
    {
        BirthList {
            shared: Shared::Nothing,
            many: 0,
            own: Vec::new(alloc),
        }
    }

    /// Of how many facts it is told.
    pub fn len(&self) -> usize
        ensures { result ≡ length self.now.reasons }
    {
        self.many + self.own.len()
    }

    /// What gave the fact of that number, counted from 0.
    #[inline(always)]
    pub fn at(&self, number: usize) -> &Birth
        requires { number < length self.now.reasons }
        ensures { slice_get self.now.reasons number ≡ Some (reason result.now) }
    {
        if number < self.many {
            &shared_of(&self.shared)[number]
        } else {
            &self.own[number - self.many]
        }
    }

    /// What gave the fact of that number, counted from 0, if there is one.
    pub fn get(&self, number: usize) -> Option<&Birth>
        ensures some { IfSome result (λ birth. slice_get self.now.reasons number ≡ Some (reason birth.now)) }
        ensures none { IfNone result (length self.now.reasons ≤ number) }
    {
        if number < self.len() {
            Some(self.at(number))
        } else {
            None
        }
    }

    /// Makes room for so many more. Fails where memory is refused.
    pub(crate) fn reserve(&mut self, more: usize) -> Result<(), Memory>
        ensures reasons { self.new.reasons ≡ self.old.reasons }
        ensures room { OnOk result (more ≤ self.new.room) }
    {
        self.own.reserve(more)?;
        Ok(())
    }

    /// Adds what gave one fact more, where there is room.
    pub(crate) fn push(&mut self, birth: Birth)
        requires { 0 < self.old.room }
        ensures { self.new.reasons ≡ self.old.reasons ++ reason birth ∷ [] }
    {
        self.own.push_reserved(birth);
    }

    /// Keeps what gave the first so many facts. It takes no memory.
    pub(crate) fn truncate(&mut self, len: usize)
        ensures { self.new.reasons ≡ take len self.old.reasons }
    {
        self.own.truncate(len.saturating_sub(self.many));
        self.many = self.many.min(len);
    }

    /// The same list, with what is shared in the same memory. Fails where memory is refused.
    pub fn copy(&self) -> Result<BirthList, Memory>
        ensures { IfOk result (λ copy. copy.reasons ≡ self.now.reasons) }
    {
        let own = copied(&self.own)?;
        let shared = match &self.shared {
            Shared::Births(births) => Shared::Births(births.clone()?),
            Shared::Nothing => Shared::Nothing,
        };
        Ok(BirthList {
            shared,
            many: self.many,
            own,
        })
    }

    /// Lets all that is its own be shared by copies, where memory is to be had and no other list has what is shared already.
    pub(crate) fn share(&mut self)
        ensures { self.new.reasons ≡ self.old.reasons }
    {
        let alloc = *self.own.allocator();
        if self.own.is_empty() {
            return;
        }
        if let Shared::Births(shared) = &mut self.shared {
            if join(shared, self.many, &self.own) {
                self.many += self.own.len();
                self.own.clear();
            }
            return;
        }
        let own = mem::replace(&mut self.own, Vec::new(alloc));
        let many = own.len();
        match Rc::new(alloc, own) {
            Ok(shared) => {
                self.shared = Shared::Births(shared);
                self.many = many;
            }
            Err(failed) => self.own = failed.value,
        }
    }

    /// Makes what is shared its own, where no other list has it and there is nothing of its own yet. It takes no memory.
    pub(crate) fn unshare(&mut self)
        ensures { self.new.reasons ≡ self.old.reasons }
    {
        if !self.own.is_empty() {
            return;
        }
        let Shared::Births(shared) = &mut self.shared else {
            return;
        };
        let Some(births) = take_out(shared, self.many) else {
            return;
        };
        self.own = births;
        self.many = 0;
        self.shared = Shared::Nothing;
    }
}
