//! Lists of numbers by the number of a key.
ghost use Rattle.std.specs.Prelude.{◌≡◌, ◌+◌, ◌<◌, [], ◌∷◌, ◌++◌, length, slice_set, take, OnOk, OnErr, IfOk};
ghost use Rattle.indexes.specs.Tables.{at, by_key, list_of, without, Adds, IsSame, IsTable, PutsLast, Removes};

use crate::packed::Packed;
use number_sets::NumberList;
use std::alloc::{AllocError, Global};
use std::marker::Model;

/// A list for each number, empty where nothing was added: 4 bytes for each number up to the greatest that has one, and 16 for each
/// list that is not empty, which hold up to three numbers. The lists that a copy begins with stand in one piece of memory.
#[derive(Drop)]
pub struct Table {
    alloc: Global,
    /// What stands for the list of each key: one more than its place, or 0 where it is empty.
    keys: Vec<u32>,
    /// The lists that a copy began with. They have the first places, and get no more numbers.
    packed: Packed,
    /// The others, behind those.
    lists: Vec<NumberList>,
}

impl Model for Table {
    ghost use Rattle.indexes.specs.Tables.{by_key, IsTable};
    ghost use Rattle.std.specs.Prelude.{ℕ, List, ◌++◌};

    ghost Value = { List (List ℕ) };

    ghost view = { λ t. by_key t.keys.items (t.packed ++ t.lists.items) };

    ghost invariant = { λ t. IsTable t.keys.items (t.packed ++ t.lists.items) };
}

/// The list at the place, or an empty one past the end.
#[inline(always)]
fn own(lists: &[NumberList], place: usize) -> &[u32]
    ensures { result.now ≡ at lists.now place }
{
    if place < lists.len() {
        lists[place].as_slice()
    } else {
        &[]
    }
}

/// The list that the number stands for.
#[inline(always)]
fn listed<'a>(packed: &'a Packed, lists: &'a [NumberList], number: u32) -> &'a [u32]
    ensures { result.now ≡ list_of (packed.now ++ lists.now) number }
{
    if number == 0 {
        return &[];
    }
    let place = number as usize - 1;
    let first = packed.len();
    if place < first {
        return packed.of(place);
    }
    own(lists, place - first)
}

/// A list of these numbers and one more.
fn with_more(alloc: Global, numbers: &[u32], number: u32) -> Result<NumberList, AllocError>
    ensures { IfOk result (λ list. list ≡ numbers.now ++ number ∷ []) }
{
    let mut list = NumberList::of(alloc, numbers)?;
    list.push(alloc, number)?;
    Ok(list)
}

/// Puts a list of these numbers and one more behind the others, which are so many and those before them, and tells what stands for
/// it. Fails where memory is refused, or there are 2^32 - 1 lists; then nothing changes.
fn begin(
    alloc: Global,
    before: usize,
    lists: &mut Vec<NumberList>,
    numbers: &[u32],
    number: u32,
) -> Result<u32, AllocError>
    ensures stands { IfOk result (λ n. n ≡ before + length lists.old.items + 1) }
    ensures ok { OnOk result (lists.new.items ≡ lists.old.items ++ (numbers.now ++ number ∷ []) ∷ []) }
    ensures err { OnErr result (lists.new.items ≡ lists.old.items) }
{
    let most = u32::MAX as usize;
    let count = lists.len();
    // Not where fewer than 2^32 lists were begun, here and in the tables that this one is a copy of.
    if before >= most || count >= most - before {
        return Err(AllocError);
    }
    let list = with_more(alloc, numbers, number)?;
    let Ok(()) = lists.push(list) else {
        return Err(AllocError);
    };
    Ok((before + count) as u32 + 1)
}

/// Adds a number to the list that the other number stands for. Fails where memory is refused; then nothing changes.
fn push(
    alloc: Global,
    lists: &mut Vec<NumberList>,
    place: usize,
    number: u32,
) -> Result<(), AllocError>
    requires { place < length lists.old.items }
    ensures ok { OnOk result (lists.new.items ≡ slice_set lists.old.items place (at lists.old.items place ++ number ∷ [])) }
    ensures err { OnErr result (lists.new.items ≡ lists.old.items) }
{
    lists[place].push(alloc, number)
}

/// Adds a number to the list of a key. Fails where memory is refused, or there are 2^32 - 1 lists; then nothing changes.
fn put(
    alloc: Global,
    keys: &mut Vec<u32>,
    packed: &Packed,
    lists: &mut Vec<NumberList>,
    key: usize,
    number: u32,
) -> Result<(), AllocError>
    requires table { IsTable keys.old.items (packed.now ++ lists.old.items) }
    requires there { key < length keys.old.items }
    ensures table { IsTable keys.new.items (packed.now ++ lists.new.items) }
    ensures ok { OnOk result (PutsLast (by_key keys.old.items (packed.now ++ lists.old.items)) (by_key keys.new.items (packed.now ++ lists.new.items)) key number) }
    ensures keys { OnErr result (keys.new.items ≡ keys.old.items) }
    ensures lists { OnErr result (lists.new.items ≡ lists.old.items) }
{
    let stands = keys[key] as usize;
    let first = packed.len();
    if stands > first {
        return push(alloc, lists, stands - 1 - first, number);
    }
    let numbers = if stands == 0 {
        &[]
    } else {
        packed.of(stands - 1)
    };
    keys[key] = begin(alloc, first, lists, numbers, number)?;
    Ok(())
}

/// How many numbers the lists have together: for how many a copy makes room.
fn numbers_in(lists: &[NumberList]) -> usize {
    let mut count: usize = 0;
    for list in lists {
        count = count.saturating_add(list.len());
    }
    count
}

/// Puts copies of the lists behind the packed ones. Fails where memory is refused.
fn push_copies(packed: &mut Packed, lists: &[NumberList]) -> Result<(), AllocError>
    ensures { OnOk result (packed.new ≡ packed.old ++ lists.now) }
{
    for list in lists {
        packed.push_list(list.as_slice())?;
    }
    Ok(())
}

/// All lists, in one piece of memory. Fails where memory is refused.
fn all_packed(alloc: Global, packed: &Packed, lists: &[NumberList]) -> Result<Packed, AllocError>
    ensures { IfOk result (λ all. all ≡ packed.now ++ lists.now) }
{
    let mut all = packed.copy_with_room(alloc, lists.len(), numbers_in(lists))?;
    push_copies(&mut all, lists)?;
    Ok(all)
}

/// Moves the other numbers to the front, in their order, and tells how many there are.
fn gather_others(list: &mut NumberList, number: u32) -> usize
    ensures others { take result list.new ≡ without number list.old }
{
    let mut others = 0;
    for place in 0..list.len() {
        let other = list.as_slice()[place];
        if other != number {
            list.set(others, other);
            others += 1;
        }
    }
    others
}

/// Takes numbers out at the end, until there are at most so many.
fn shorten(list: &mut NumberList, length: usize)
    ensures { list.new ≡ take length list.old }
{
    while list.len() > length {
        list.pop();
    }
}

/// Takes the number out of the list, wherever it stands.
fn remove(list: &mut NumberList, number: u32)
    ensures { list.new ≡ without number list.old }
{
    let others = gather_others(list, number);
    shorten(list, others);
}

/// Takes the number out of the list that stands at the place.
fn remove_at(lists: &mut Vec<NumberList>, place: usize, number: u32)
    requires { place < length lists.old.items }
    ensures { lists.new.items ≡ slice_set lists.old.items place (without number (at lists.old.items place)) }
{
    remove(&mut lists[place], number);
}

/// Takes the number out of the list of a key.
fn take_out(keys: &[u32], packed: &mut Packed, lists: &mut Vec<NumberList>, key: usize, number: u32)
    requires table { IsTable keys.now (packed.old ++ lists.old.items) }
    ensures table { IsTable keys.now (packed.new ++ lists.new.items) }
    ensures removes { Removes (by_key keys.now (packed.old ++ lists.old.items)) (by_key keys.now (packed.new ++ lists.new.items)) key number }
{
    if key >= keys.len() || keys[key] == 0 {
        return;
    }
    let place = keys[key] as usize - 1;
    let first = packed.len();
    if place < first {
        packed.remove(place, number);
        return;
    }
    remove_at(lists, place - first, number);
}

impl Table {
    /// No list has a number.
    pub fn new(alloc: Global) -> Table
        ensures { result ≡ [] }
    {
        Table {
            alloc,
            keys: Vec::new(alloc),
            packed: Packed::new(alloc),
            lists: Vec::new(alloc),
        }
    }

    /// The same lists. Fails where memory is refused.
    pub fn copy(&self) -> Result<Table, AllocError>
        ensures { IfOk result (λ table. table ≡ self.now) }
    {
        let mut keys = Vec::with_capacity(self.alloc, self.keys.len())?;
        keys.extend_from_slice(&self.keys)?;
        let packed = all_packed(self.alloc, &self.packed, &self.lists)?;
        Ok(Table {
            alloc: self.alloc,
            keys,
            packed,
            lists: Vec::new(self.alloc),
        })
    }

    /// For how many keys there is room.
    fn len(&self) -> usize
        ensures { result ≡ length self.now }
    {
        self.keys.len()
    }

    /// The list of the key.
    #[inline(always)]
    pub fn of(&self, key: usize) -> &[u32]
        ensures { result.now ≡ at self.now key }
    {
        if key < self.keys.len() {
            listed(&self.packed, &self.lists, self.keys[key])
        } else {
            &[]
        }
    }

    /// Makes room for one key more. Fails where memory is refused; then nothing changes.
    fn grow(&mut self) -> Result<(), AllocError>
        ensures ok { OnOk result (self.new ≡ self.old ++ [] ∷ []) }
        ensures err { OnErr result (self.new ≡ self.old) }
    {
        self.keys.push(0)?;
        Ok(())
    }

    /// Adds a number to the list of a key that there is room for. Fails where memory is refused; then nothing changes.
    fn put(&mut self, key: usize, number: u32) -> Result<(), AllocError>
        requires { key < length self.old }
        ensures ok { OnOk result (PutsLast self.old self.new key number) }
        ensures err { OnErr result (self.new ≡ self.old) }
    {
        let alloc = self.alloc;
        put(
            alloc,
            &mut self.keys,
            &self.packed,
            &mut self.lists,
            key,
            number,
        )
    }

    /// Makes room for the lists of so many keys more. Fails where memory is refused; each list is what it was.
    pub fn reserve(&mut self, keys: usize) -> Result<(), AllocError>
        ensures { self.new ≡ self.old }
    {
        self.keys.reserve(keys)?;
        self.lists.reserve(keys)?;
        Ok(())
    }

    /// Adds a number to the list of the key. Fails where memory is refused; then each list is what it was.
    pub fn add(&mut self, key: usize, number: u32) -> Result<(), AllocError>
        ensures ok { OnOk result (Adds self.old self.new key number) }
        ensures last { OnOk result (PutsLast self.old self.new key number) }
        ensures err { OnErr result (IsSame self.old self.new) }
    {
        while self.len() <= key {
            self.grow()?;
        }
        self.put(key, number)?;
        Ok(())
    }

    /// Takes the number out of the list of the key, wherever it stands there. It takes no memory.
    pub fn remove(&mut self, key: usize, number: u32)
        ensures { Removes self.old self.new key number }
    {
        take_out(&self.keys, &mut self.packed, &mut self.lists, key, number);
    }
}
