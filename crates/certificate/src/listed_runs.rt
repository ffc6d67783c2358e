//! Listed interpretations whose rows hold runs of elements.

ghost use Rattle.std.specs.Prelude.{◌≡◌, ◌+◌, ◌++◌, IfOk, OnOk, if◌then◌else◌, length, map};
ghost use Rattle.certificate.specs.Held.{held_class, held_in, held_pairs, spread};
ghost use Rattle.certificate.specs.Runs.{numbers_in};
ghost use Rattle.certificate.specs.View.{class_row_of, listed_of, listing_of, pair_row_of};

use crate::listed::{ClassRow, Listed, MOST_ELEMENTS, PairRow, Targets};
use axioms::Memory;
use smallvec::SmallVec;
use std::alloc::{AllocError, Global};

/// A listed interpretation whose rows hold runs of neighbours as runs, so that its memory goes by the text that names them.
///
/// A list of elements or of targets that ascends at its beginning, or has one number, is that of the elements themselves. Any other
/// has the last and the first number of each run, run after run.
#[derive(Debug, PartialEq, Eq, Drop)]
pub struct ListedRuns {
    pub rows: Listed,
}

/// Whether the list has the ends of runs in place of elements.
pub(crate) fn holds_runs(numbers: &[u32]) -> bool
    ensures { held_in numbers.now ≡ (if result then spread numbers.now else numbers.now) }
{
    match numbers {
        [first, second, ..] => *second <= *first,
        _ => false,
    }
}

/// Adds the numbers of the run, where so many are left. Room for all of them is asked for before the first.
#[inline(always)]
pub(crate) fn push_run(
    elements: &mut SmallVec<u32, 4>,
    left: &mut usize,
    first: u32,
    last: u32,
) -> Result<(), AllocError>
    ensures numbers { OnOk result (elements.new.items ≡ elements.old.items ++ numbers_in (record { first = first; last = last })) }
    ensures fewer { OnOk result (left.new + length (numbers_in (record { first = first; last = last })) ≡ left.old) }
{
    let end = first.max(last);
    let count = (end - first) as usize + 1;
    if count > *left {
        return Err(AllocError);
    }
    *left -= count;
    if count > 1 {
        elements.reserve(count)?;
    }
    for number in first..end {
        elements.push(number)?;
    }
    elements.push(end)?;
    Ok(())
}

/// The numbers of the runs with these ends. Each is taken from what is left.
pub(crate) fn numbers_between(
    alloc: Global,
    left: &mut usize,
    ends: &[u32],
) -> Result<SmallVec<u32, 4>, AllocError>
    ensures numbers { IfOk result (λ numbers. numbers.items ≡ spread ends.now) }
    ensures fewer { IfOk result (λ numbers. left.new + length numbers.items ≡ left.old) }
{
    let mut numbers = SmallVec::new(alloc);
    let mut rest = ends;
    while let [last, first, others @ ..] = rest {
        push_run(&mut numbers, left, *first, *last)?;
        rest = others;
    }
    Ok(numbers)
}

fn expand_class(alloc: Global, left: &mut usize, row: &mut ClassRow) -> Result<(), AllocError>
    ensures { OnOk result (class_row_of row.new ≡ held_class (class_row_of row.old)) }
{
    if holds_runs(&row.elements) {
        let elements = numbers_between(alloc, left, &row.elements)?;
        row.elements = Vec::from_slice(alloc, &elements)?;
    }
    Ok(())
}

fn expand_pairs(alloc: Global, left: &mut usize, row: &mut PairRow) -> Result<(), AllocError>
    ensures { OnOk result (pair_row_of row.new ≡ held_pairs (pair_row_of row.old)) }
{
    if holds_runs(row.targets.as_slice()) {
        let targets = numbers_between(alloc, left, row.targets.as_slice())?;
        row.targets = Targets::from_slice(alloc, &targets)?;
    }
    Ok(())
}

fn expand_each_class(
    alloc: Global,
    left: &mut usize,
    rows: &mut Vec<ClassRow>,
) -> Result<(), AllocError>
    ensures { OnOk result (map class_row_of rows.new.items ≡ map held_class (map class_row_of rows.old.items)) }
{
    for row in rows.iter_mut() {
        expand_class(alloc, left, row)?;
    }
    Ok(())
}

fn expand_each_pairs(
    alloc: Global,
    left: &mut usize,
    rows: &mut Vec<PairRow>,
) -> Result<(), AllocError>
    ensures { OnOk result (map pair_row_of rows.new.items ≡ map held_pairs (map pair_row_of rows.old.items)) }
{
    for row in rows.iter_mut() {
        expand_pairs(alloc, left, row)?;
    }
    Ok(())
}

impl ListedRuns {
    /// The interpretation with each element of a run in its row.
    ///
    /// # Errors
    ///
    /// `Memory` where memory was refused, or where the runs have more than [`MOST_ELEMENTS`] elements: before room for more is asked for.
    pub fn expanded(self, alloc: Global) -> Result<Listed, Memory>
        ensures { IfOk result (λ listed. listed_of listed ≡ listing_of self) }
    {
        let mut listed = self.rows;
        let mut left = MOST_ELEMENTS;
        expand_each_class(alloc, &mut left, &mut listed.classes)?;
        expand_each_pairs(alloc, &mut left, &mut listed.pairs)?;
        Ok(listed)
    }
}
