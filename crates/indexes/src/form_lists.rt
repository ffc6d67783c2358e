//! Lists of forms by key, of which copies share those that do not change.
ghost use Rattle.std.specs.List.{insert};
ghost use Rattle.std.specs.Prelude.{◌≡◌, ◌<◌, ◌≤◌, ℕ, List, None, OnErr, OnOk, Some, length};
ghost use Rattle.indexes.specs.ChangedLists.{changed_at, AreUsed, ChangesOne, EndsAt, HasKeyFirst};
ghost use Rattle.indexes.specs.declared.keys.Key.{Key as Key2};
ghost use Rattle.indexes.specs.declared.keys.Key.TheVariants as keys;

use crate::changed_lists::ChangedList;
use crate::key_lists::KeyLists;
use crate::keys::Key;
use std::alloc::AllocError;
use std::rc::Rc;

/// A list for each key: that of the first forms, which copies share, or, where further forms have the key, the whole one.
#[derive(Drop)]
pub(crate) struct FormLists {
    pub shared: Rc<KeyLists>,
    pub changed: Vec<ChangedList>,
    /// From this number on no whole key has a list with a number.
    pub end: usize,
    ghost used: { AreUsed changed.items },
    ghost ends: { EndsAt end shared.value changed.items },
}

/// A number above the key, where it is a whole one.
pub(crate) fn above(key: Key) -> usize
    ensures { (number : ℕ) → key ≡ keys.Whole number → number < result }
{
    match key {
        Key::Whole(number) => number as usize + 1,
        Key::Partial(_) => 0,
    }
}

/// Puts a number into the list of the key, which stands at the place, behind so many of its numbers. Fails where memory is refused;
/// then nothing changes.
pub(crate) fn insert_at(
    changed: &mut Vec<ChangedList>,
    key: Key,
    place: usize,
    many: usize,
    number: u32,
) -> Result<(), AllocError>
    requires place { HasKeyFirst changed.old.items key place }
    requires within { (list : List ℕ) → changed_at changed.old.items key ≡ Some list → many ≤ length list }
    ensures ok { OnOk result ((list : List ℕ) → changed_at changed.old.items key ≡ Some list → ChangesOne changed.old.items changed.new.items key (insert list many number)) }
    ensures used { AreUsed changed.old.items → AreUsed changed.new.items }
    ensures elsewhere { (k : Key2) → ¬ (k ≡ key) → changed_at changed.new.items k ≡ changed_at changed.old.items k }
    ensures err { OnErr result (changed.new.items ≡ changed.old.items) }
{
    let alloc = *changed.allocator();
    changed[place].insert(alloc, many, number)
}

/// Puts a list of the key behind the others: these numbers, and behind so many of them the number. Fails where memory is refused; then
/// nothing changes.
pub(crate) fn begin(
    changed: &mut Vec<ChangedList>,
    key: Key,
    numbers: &[u32],
    many: usize,
    number: u32,
) -> Result<(), AllocError>
    requires none { changed_at changed.old.items key ≡ None }
    requires within { many ≤ length numbers.now }
    ensures ok { OnOk result (ChangesOne changed.old.items changed.new.items key (insert numbers.now many number)) }
    ensures used { AreUsed changed.old.items → AreUsed changed.new.items }
    ensures elsewhere { (k : Key2) → ¬ (k ≡ key) → changed_at changed.new.items k ≡ changed_at changed.old.items k }
    ensures err { OnErr result (changed.new.items ≡ changed.old.items) }
{
    let list = ChangedList::with_one(*changed.allocator(), key, numbers, many, number)?;
    let Ok(()) = changed.push(list) else {
        return Err(AllocError);
    };
    Ok(())
}
