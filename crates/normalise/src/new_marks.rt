//! What is marked now and was not before.
ghost use Rattle.std.specs.Prelude.{◌↔◌, ◌⊎◌, ℕ, IfOk, IsTrue};
ghost use Rattle.std.specs.List.{Contains};
ghost use Rattle.axioms.specs.WellFormedness.{AreDistinct};
ghost use Rattle.normalise.specs.Growth.{IsFreshAt};

use axioms::Memory;
use number_sets::{Row, sort_ascending};
use std::alloc::Global;

/// Which expressions are marked now, and which were before.
#[derive(Clone, Copy)]
pub(crate) struct Change<'a> {
    pub(crate) marks: &'a Row,
    pub(crate) before: &'a Row,
}

impl<'a> Change<'a> {
    // Whether the expression of that number is marked now and was not before.
    pub(crate) fn is_fresh(self, number: usize) -> bool
        ensures { IsTrue result ↔ IsFreshAt self.entry.marks.now self.entry.before.now number }
    {
        self.marks.contains(number) && !self.before.contains(number)
    }
}

// The numbers of both lists, in ascending order, each once.
pub(crate) fn numbers_of(alloc: Global, right: &[u32], left: &[u32]) -> Result<Vec<u32>, Memory>
    ensures distinct { IfOk result (λ v. AreDistinct v.items) }
    ensures all { IfOk result (λ v. (e : ℕ) → Contains right.now e ⊎ Contains left.now e → Contains v.items e) }
{
    let count = right.len().saturating_add(left.len());
    let mut numbers = Vec::with_capacity(alloc, count)?;
    numbers.extend_from_slice(right)?;
    numbers.extend_from_slice(left)?;
    sort_ascending(&mut numbers);
    Ok(numbers)
}
