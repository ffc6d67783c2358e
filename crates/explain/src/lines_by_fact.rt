//! The numbers of the lines that show each fact.
ghost use Rattle.explain.specs.LinesByFact as spec;
ghost use Rattle.explain.specs.LinesByFact.{IsEntryOf, IsGrownBy};
ghost use Rattle.number_sets.specs.Pieces.{list_at};
ghost use Rattle.std.specs.Prelude.{◌≡◌, ◌++◌, ◌∷◌, [], ◌+◌, ◌%◌, ◌<◌, ◌^◌, IfOk, IfSome, OnErr, OnOk, length, ℕ};

use axioms::Memory;
use number_sets::{OpenLists, PackedLists};
use smallvec::SmallVec;
use std::alloc::{AllocError, Global};
use std::marker::Model;

/// Numbers of lines. A few need no memory of their own.
pub(crate) type LineNumbers = SmallVec<u64, 4>;

/// What stands for the first list. What is less stands for one line, or for none.
const FIRST_LIST: u32 = 1 << 31;

/// How many facts have their entries in one block.
pub(crate) const BLOCK: usize = 256;

/// For each fact, by its number from 0, the numbers of the lines that show it. Where that is one line or none, they take 4 bytes, and
/// nothing in a block of 256 facts that no lines show.
#[derive(Drop)]
pub(crate) struct LinesByFact {
    facts: usize,
    // of each fact of a block 0 for no line, a number below 2^31 for that line, and else 2^31 and the number of a list
    blocks: OpenLists,
    lists: PackedLists<u64>,
}

impl Model for LinesByFact {
    ghost use Rattle.std.specs.Prelude.{List, ℕ, length};
    ghost use Rattle.explain.specs.LinesByFact.{AreEntries, numbers_by_fact};

    ghost Value = { List (List ℕ) };

    ghost view = { λ l. numbers_by_fact l.lists l.blocks l.facts };

    ghost invariant = { λ l. AreEntries (length l.lists) l.blocks l.facts };
}

// What stands for one line, or for none; `None` for other numbers.
fn entry_of(numbers: &[u64]) -> Option<u32>
    ensures { IfSome result (IsEntryOf numbers.now) }
{
    if numbers.is_empty() {
        return Some(0);
    }
    let number = numbers[0];
    if numbers.len() > 1 || number == 0 || number >= FIRST_LIST as u64 {
        return None;
    }
    Some(number as u32)
}

// Puts a list behind the others, and gives what stands for it. Fails where memory is refused, or there are 2^31 lists; then nothing
// changes.
fn set_apart(lists: &mut PackedLists<u64>, numbers: &[u64]) -> Result<u32, Memory>
    ensures lists { OnOk result (lists.new ≡ lists.old ++ numbers.now ∷ []) }
    ensures entry { IfOk result (λ e. e ≡ 2 ^ 31 + length lists.old) }
    ensures err { OnErr result (lists.new ≡ lists.old) }
{
    let number = lists.len();
    if number >= FIRST_LIST as usize {
        return Err(Memory);
    }
    lists.push_list(numbers)?;
    Ok(FIRST_LIST + number as u32)
}

// What stands for these numbers, with the lists that it needs.
fn entry_in(lists: &mut PackedLists<u64>, numbers: &[u64]) -> Result<u32, Memory>
    ensures grown { IsGrownBy lists.old lists.new }
    ensures within { IfOk result (λ e. e < 2 ^ 31 + length lists.new) }
    ensures numbers { IfOk result (λ e. spec.numbers_at lists.new e ≡ numbers.now) }
{
    if let Some(entry) = entry_of(numbers) {
        return Ok(entry);
    }
    let entry = set_apart(lists, numbers)?;
    Ok(entry)
}

// The numbers that this stands for.
fn numbers_at(
    alloc: Global,
    lists: &PackedLists<u64>,
    entry: u32,
) -> Result<LineNumbers, AllocError>
    ensures { IfOk result (λ v. v.items ≡ spec.numbers_at lists.now entry) }
{
    if entry >= FIRST_LIST {
        return SmallVec::from_slice(alloc, lists.at((entry - FIRST_LIST) as usize));
    }
    let mut numbers = SmallVec::new(alloc);
    if entry != 0 {
        numbers.push(entry as u64)?;
    }
    Ok(numbers)
}

impl LinesByFact {
    /// No facts, with room for so many. Fails where memory is refused.
    pub(crate) fn with_room(alloc: Global, facts: usize) -> Result<LinesByFact, AllocError>
        ensures { IfOk result (λ l. l ≡ []) }
    {
        Ok(LinesByFact {
            facts: 0,
            blocks: OpenLists::new(alloc, facts / BLOCK + 1)?,
            lists: PackedLists::new(alloc),
        })
    }

    /// How many facts there are.
    pub(crate) fn len(&self) -> usize
        ensures { result ≡ length self.now }
    {
        self.facts
    }

    /// Adds the numbers of the lines of the next fact. Fails where memory is refused, there is no room, or 2^31 facts are shown by
    /// other than one line of a number below 2^31; then nothing changes.
    pub(crate) fn push_list(&mut self, numbers: &[u64]) -> Result<(), Memory>
        ensures ok { OnOk result (self.new ≡ self.old ++ numbers.now ∷ []) }
        ensures err { OnErr result (self.new ≡ self.old) }
    {
        let block = self.facts / BLOCK;
        if block >= self.blocks.len() || self.facts == usize::MAX {
            return Err(Memory);
        }
        let entry = entry_in(&mut self.lists, numbers)?;
        self.blocks.push(block, entry)?;
        self.facts += 1;
        Ok(())
    }

    /// Adds a block of facts that no lines show, behind whole blocks. Fails where there are too many facts.
    pub(crate) fn skip_block(&mut self) -> Result<(), Memory>
        requires { length self.old % 256 ≡ 0 }
        ensures longer { OnOk result (length self.new ≡ length self.old + 256) }
        ensures none { OnOk result ((fact : ℕ) → list_at self.new fact ≡ list_at self.old fact) }
    {
        let Some(facts) = self.facts.checked_add(BLOCK) else {
            return Err(Memory);
        };
        self.facts = facts;
        Ok(())
    }

    /// The numbers of the lines of that fact, or none where there is no such fact. Fails where memory is refused.
    pub(crate) fn at(&self, alloc: Global, fact: usize) -> Result<LineNumbers, AllocError>
        ensures { IfOk result (λ v. v.items ≡ list_at self.now fact) }
    {
        let block = self.blocks.at(fact / BLOCK);
        let place = fact % BLOCK;
        if place >= block.len() {
            return Ok(SmallVec::new(alloc));
        }
        numbers_at(alloc, &self.lists, block[place])
    }
}
