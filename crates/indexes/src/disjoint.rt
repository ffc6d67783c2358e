//! Lists of classes of which each two have nothing in common.
ghost use Rattle.std.specs.Prelude.{◌≡◌, ◌<◌, ◌≤◌, ◌++◌, ℕ, Some, Contains, IfOk, IfSome, IsNone, OnOk, false, true, length, slice_get};
ghost use Rattle.std.specs.List.Sorted.{IsNonDecreasing};
ghost use Rattle.indexes.specs.declared.disjoint.Operand.{Operand as Operand2};
ghost use Rattle.indexes.specs.Counts.{AreCountsOf};
ghost use Rattle.indexes.specs.declared.keys.Key.{Key as Key2};
ghost use Rattle.indexes.specs.Disjoint.{operand_key, operands_from, operands_of_list, AreInLists, AreOfOneList, IsBeside, IsFirstOf, IsOf, IsPair, IsWith};
ghost use Rattle.indexes.specs.FormIndex.{at_key, Ascend, ListsNumbers};

use crate::key_counts::KeyCounts;
use crate::key_lists::{KeyFilling, KeyLists};
use crate::keys::Key;
use crate::lists::is_used;
use axioms::ExprId;
use number_sets::PackedLists;
use std::alloc::{AllocError, Global};
use std::marker::Model;

/// A class of such a list.
#[derive(Clone, Copy)]
pub struct Operand {
    pub class: ExprId,
    /// The number of the list.
    pub(crate) list: u32,
    /// How many classes of the list are behind it.
    pub(crate) behind: u32,
}

/// The other classes of a list that a class is in.
#[derive(Clone, Copy)]
pub struct Beside<'a> {
    pub before: &'a [Operand],
    pub behind: &'a [Operand],
}

/// The classes of all the lists, one list behind the other, and at which places among them each class is.
pub(crate) struct Disjointness {
    operands: Vec<Operand>,
    places: KeyLists,
}

// A value is let go by one call, where each way out would else let each field go.
impl Drop for Disjointness {
    fn drop(self) {
        let Disjointness {
            operands: _,
            places: _,
        } = self;
    }
}

impl Model for Disjointness {
    ghost use Rattle.indexes.specs.FormIndex.{ArePlaced};
    ghost use Rattle.indexes.specs.declared.disjoint.Operand.{Operand};
    ghost use Rattle.std.specs.Prelude.{List};

    ghost Value = { List Operand };

    ghost view = { λ d. d.operands.items };

    ghost invariant = { λ d. ArePlaced d.operands.items d.places };
}

/// Adds the classes of the list of that number. Fails where memory is refused, and where there are 2^32 operands then.
fn add_list(operands: &mut Vec<Operand>, classes: &[ExprId], list: u32) -> Result<(), AllocError>
    requires { length operands.old.items ≤ u32.MAX }
    ensures added { OnOk result (operands.new.items ≡ operands.old.items ++ operands_of_list list classes.now) }
    ensures few { OnOk result (length operands.new.items ≤ u32.MAX) }
{
    // Not where all lists together have fewer than 2^32 members.
    if classes.len() > u32::MAX as usize - operands.len() {
        return Err(AllocError);
    }
    for place in 0..classes.len() {
        let behind = classes.len() - place - 1;
        operands.push(Operand {
            class: classes[place],
            list,
            behind: behind as u32,
        })?;
    }
    Ok(())
}

/// The classes of the lists, one list behind the other. Fails where memory is refused, and where there are 2^32 lists or operands.
fn operands_of(alloc: Global, lists: &PackedLists<ExprId>) -> Result<Vec<Operand>, AllocError>
    ensures operands { IfOk result (λ operands. operands.items ≡ operands_from 0 lists.now) }
    ensures few { IfOk result (λ operands. length operands.items ≤ u32.MAX) }
{
    // Not where they have fewer than 2^32 members together, and each has one.
    if lists.len() > u32::MAX as usize {
        return Err(AllocError);
    }
    let mut operands = Vec::new(alloc);
    for list in 0..lists.len() {
        add_list(&mut operands, lists.at(list), list as u32)?;
    }
    Ok(operands)
}

/// How many places each class has. Fails where memory is refused, and where 2^32 places have one class.
fn places_counted(alloc: Global, operands: &[Operand]) -> Result<KeyCounts, AllocError>
    ensures { IfOk result (λ counts. AreCountsOf operand_key (slice_get operands.now) (length operands.now) counts) }
{
    let mut counts = KeyCounts::new(alloc);
    for place in 0..operands.len() {
        counts.add(Key::Whole(operands[place].class.0))?;
    }
    Ok(counts)
}

/// The places of each class. Fails where memory is refused.
fn places_listed(alloc: Global, operands: &[Operand]) -> Result<KeyLists, AllocError>
    requires { length operands.now ≤ u32.MAX }
    ensures listed { IfOk result (λ places. ListsNumbers operand_key (slice_get operands.now) (at_key places)) }
    ensures ascend { IfOk result (λ places. Ascend (at_key places)) }
{
    let counts = places_counted(alloc, operands)?;
    let mut filling = KeyFilling::new(alloc, &counts)?;
    for place in 0..operands.len() {
        filling.place(Key::Whole(operands[place].class.0), place as u32);
    }
    Ok(filling.filled())
}

/// The number of a list that has an operand at one of the first places before one at one of the second, if there is one.
fn list_with(operands: &[Operand], firsts: &[u32], seconds: &[u32]) -> Option<u32>
    requires lists { AreInLists operands.now }
    requires there { (p : ℕ) → Contains firsts.now p → p < length operands.now }
    requires firsts { IsNonDecreasing firsts.now }
    requires seconds { IsNonDecreasing seconds.now }
    ensures some { IfSome result (λ l. IsPair operands.now (Contains firsts.now) (Contains seconds.now) l) }
    ensures none { IsNone result → (l : ℕ) → IsPair operands.now (Contains firsts.now) (Contains seconds.now) l → ⊥ }
{
    let mut first = 0;
    let mut second = 0;
    while first < firsts.len() {
        if second >= seconds.len() {
            return None;
        }
        let place = firsts[first];
        let other = seconds[second];
        let operand = operands[place as usize];
        if other <= place {
            second += 1;
        } else if other - place <= operand.behind {
            return Some(operand.list);
        } else {
            first += 1;
        }
    }
    None
}

/// The place of the first operand of the list that has one at that place, if at most so many are before that.
fn first_of(operands: &[Operand], place: usize, most: usize) -> Option<usize>
    requires lists { AreInLists operands.now }
    requires there { place < length operands.now }
    ensures { IfSome result (λ first. IsFirstOf operands.now place first) }
{
    let mut first = place;
    while first > 0 && operands[first - 1].behind > 0 {
        if place - first >= most {
            return None;
        }
        first -= 1;
    }
    Some(first)
}

/// The operands beside that at the place in its list, if they are at most so many.
fn both_sides(operands: &[Operand], place: usize, most: usize) -> Option<Beside<'_>>
    requires lists { AreInLists operands.now }
    requires there { place < length operands.now }
    ensures all { IfSome result (λ beside. (q : ℕ) (b : Operand2) → IsWith operands.now place q b → IsBeside beside b) }
    ensures only { IfSome result (λ beside. (b : Operand2) → IsBeside beside b → (q : ℕ) × IsWith operands.now place q b) }
{
    let end = place + operands[place].behind as usize + 1;
    let first = first_of(operands, place, most)?;
    if end - first - 1 > most {
        return None;
    }
    Some(Beside {
        before: &operands[first..place],
        behind: &operands[place + 1..end],
    })
}

impl Disjointness {
    /// The operands of those lists. Fails where memory is refused, and where there are 2^32 lists or operands.
    pub(crate) fn of(alloc: Global, lists: &PackedLists<ExprId>) -> Result<Self, AllocError>
        ensures { IfOk result (λ disjoint. disjoint ≡ operands_from 0 lists.now) }
    {
        let operands = operands_of(alloc, lists)?;
        let places = places_listed(alloc, &operands)?;
        Ok(Disjointness { operands, places })
    }

    /// Whether a list has the class of that key.
    pub(crate) fn has(&self, key: Key) -> bool
        ensures yes { result ≡ true → (p : ℕ) × IsOf self.now key p }
        ensures no { result ≡ false → (p : ℕ) → IsOf self.now key p → ⊥ }
    {
        is_used(self.places.of(key))
    }

    /// The number of a list that has the class of the first key before that of the second, if there is one.
    pub(crate) fn list_of(&self, first: Key, second: Key) -> Option<u32>
        ensures some { IfSome result (λ l. IsPair self.now (IsOf self.now first) (IsOf self.now second) l) }
        ensures none { IsNone result → (l : ℕ) → IsPair self.now (IsOf self.now first) (IsOf self.now second) l → ⊥ }
    {
        list_with(
            &self.operands,
            self.places.of(first),
            self.places.of(second),
        )
    }

    /// The operands beside the class of that key, if it is at one place of the lists, and if they are at most so many.
    pub(crate) fn beside(&self, key: Key, most: usize) -> Option<Beside<'_>>
        ensures all { IfSome result (λ beside. (l : Key2) → AreOfOneList self.now key l → (b : Operand2) × (operand_key b ≡ Some l) × IsBeside beside b) }
        ensures only { IfSome result (λ beside. (l : Key2) (b : Operand2) → operand_key b ≡ Some l → IsBeside beside b → AreOfOneList self.now key l) }
    {
        match *self.places.of(key) {
            [place] => both_sides(&self.operands, place as usize, most),
            _ => None,
        }
    }
}
