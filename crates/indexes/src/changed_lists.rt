//! Lists that have changed, each with its key.
ghost use Rattle.indexes.specs.ChangedLists.{changed_at, HasKeyFirst};
ghost use Rattle.std.specs.List.{insert};
ghost use Rattle.std.specs.Prelude.{◌≡◌, ◌↔◌, ◌≤◌, IfNone, IfOk, IfSome, None, OnErr, OnOk, Some, length, true};

use crate::keys::Key;
use std::alloc::{AllocError, Global};
use std::marker::Model;
use std::rc::Rc;

/// The list of numbers of a key, in memory that copies may share.
#[derive(Drop)]
pub(crate) struct ChangedList {
    key: Key,
    numbers: Rc<Vec<u32>>,
}

impl Model for ChangedList {
    ghost use Rattle.indexes.specs.declared.keys.Key.{Key};
    ghost use Rattle.std.specs.Prelude.{ℕ, List};

    ghost Value = { Key × List ℕ };

    ghost view = { λ l. (l.key, l.numbers.value.items) };
}

/// These numbers, and behind so many of them one more. Fails where memory is refused.
fn with_one(
    alloc: Global,
    numbers: &[u32],
    many: usize,
    number: u32,
) -> Result<Vec<u32>, AllocError>
    requires { many ≤ length numbers.now }
    ensures { IfOk result (λ all. all.items ≡ insert numbers.now many number) }
{
    let mut all = Vec::with_capacity(alloc, numbers.len().saturating_add(1))?;
    all.extend_from_slice(numbers)?;
    let Ok(()) = all.insert(many, number) else {
        return Err(AllocError);
    };
    Ok(all)
}

impl ChangedList {
    /// The list of that key has these numbers, and behind so many of them one more. Fails where memory is refused.
    pub(crate) fn with_one(
        alloc: Global,
        key: Key,
        numbers: &[u32],
        many: usize,
        number: u32,
    ) -> Result<Self, AllocError>
        requires { many ≤ length numbers.now }
        ensures { IfOk result (λ list. list ≡ (key, insert numbers.now many number)) }
    {
        let all = with_one(alloc, numbers, many, number)?;
        let Ok(numbers) = Rc::new(alloc, all) else {
            return Err(AllocError);
        };
        Ok(ChangedList { key, numbers })
    }

    /// Puts a number behind so many others; copies keep the list that was. Fails where memory is refused; then nothing changes.
    pub(crate) fn insert(
        &mut self,
        alloc: Global,
        many: usize,
        number: u32,
    ) -> Result<(), AllocError>
        requires { many ≤ length self.old.1 }
        ensures ok { OnOk result (self.new ≡ (self.old.0, insert self.old.1 many number)) }
        ensures err { OnErr result (self.new ≡ self.old) }
    {
        let all = with_one(alloc, self.numbers(), many, number)?;
        let Ok(numbers) = Rc::new(alloc, all) else {
            return Err(AllocError);
        };
        self.numbers = numbers;
        Ok(())
    }

    /// The same list, in the same memory. Fails where that is refused.
    fn shared(&self) -> Result<Self, AllocError>
        ensures { IfOk result (λ list. list ≡ self.now) }
    {
        Ok(ChangedList {
            key: self.key,
            numbers: self.numbers.clone()?,
        })
    }

    /// Whether it is the list of the key.
    fn is_of(&self, key: Key) -> bool
        ensures { (result ≡ true) ↔ (self.now.0 ≡ key) }
    {
        self.key == key
    }

    /// The numbers.
    pub(crate) fn numbers(&self) -> &[u32]
        ensures { result.now ≡ self.now.1 }
    {
        self.numbers.as_ref().as_slice()
    }
}

/// The place of the list of the key among some that have changed, if it is there.
fn found(changed: &[ChangedList], key: Key) -> Option<usize>
    ensures some { IfSome result (HasKeyFirst changed.now key) }
    ensures none { IfNone result (changed_at changed.now key ≡ None) }
{
    for place in 0..changed.len() {
        if changed[place].is_of(key) {
            return Some(place);
        }
    }
    None
}

/// The place of the list of the key, if it has changed.
#[inline(always)]
pub(crate) fn place_of(changed: &[ChangedList], key: Key) -> Option<usize>
    ensures some { IfSome result (HasKeyFirst changed.now key) }
    ensures none { IfNone result (changed_at changed.now key ≡ None) }
{
    if changed.is_empty() {
        return None;
    }
    found(changed, key)
}

/// The list of the key, if it has changed.
#[inline(always)]
pub(crate) fn list_of(changed: &[ChangedList], key: Key) -> Option<&[u32]>
    ensures some { IfSome result (λ list. changed_at changed.now key ≡ Some list.now) }
    ensures none { IfNone result (changed_at changed.now key ≡ None) }
{
    let place = place_of(changed, key)?;
    Some(changed[place].numbers())
}

/// The same lists, in the same memory. Fails where memory is refused.
pub(crate) fn copies(alloc: Global, changed: &[ChangedList]) -> Result<Vec<ChangedList>, AllocError>
    ensures { IfOk result (λ copy. copy.items ≡ changed.now) }
{
    let mut copy = Vec::with_capacity(alloc, changed.len())?;
    for list in changed {
        let list = list.shared()?;
        copy.push(list)?;
    }
    Ok(copy)
}
