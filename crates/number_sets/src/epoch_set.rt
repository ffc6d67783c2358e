//! A set of numbers below a bound that is emptied in one step.
ghost use Rattle.number_sets.specs.Members.{has};
ghost use Rattle.std.specs.Prelude.{◌<◌, ◌↔◌, ◌≡◌, IfOk, IsTrue, false, length, replicate, slice_set, true};

use std::alloc::{AllocError, Global};
use std::marker::Model;

/// A set of numbers below a bound: those whose mark is the epoch. A later epoch begins with no members.
#[derive(Drop)]
pub struct EpochSet {
    // of each number the epoch in which it was put last, or 0
    marks: Vec<u32>,
    epoch: u32,
}

impl Model for EpochSet {
    ghost use Rattle.std.specs.Prelude.{Bool, List};
    ghost use Rattle.number_sets.specs.Marks.{AreMarks, marked};

    ghost Value = { List Bool };

    ghost view = { λ s. marked s.epoch s.marks.items };

    ghost invariant = { λ s. AreMarks s.epoch s.marks.items };
}

impl EpochSet {
    /// The empty set of numbers below `n`. Fails where memory is refused.
    pub fn new(alloc: Global, n: usize) -> Result<EpochSet, AllocError>
        ensures { IfOk result (λ s. s ≡ replicate n false) }
    {
        let marks = vec![in alloc; 0u32; n]?;
        Ok(EpochSet { marks, epoch: 1 })
    }

    /// Removes all members.
    pub fn clear(&mut self)
        ensures { self.new ≡ replicate (length self.old) false }
    {
        if self.epoch == u32::MAX {
            // no later epoch is left
            self.marks.fill(0);
            self.epoch = 1;
        } else {
            self.epoch += 1;
        }
    }

    /// Adds `i`. Says whether it is in range; if not, nothing changes.
    pub fn put(&mut self, i: usize) -> bool
        ensures in_range { IsTrue result ↔ (i < length self.old) }
        ensures after { self.new ≡ slice_set self.old i true }
    {
        if i >= self.marks.len() {
            return false;
        }
        self.marks[i] = self.epoch;
        true
    }

    /// Whether `i` is a member.
    pub fn contains(&self, i: usize) -> bool
        ensures { result ≡ has self.now i }
    {
        i < self.marks.len() && self.marks[i] == self.epoch
    }

    /// Below which number its members are.
    pub fn len(&self) -> usize
        ensures { result ≡ length self.now }
    {
        self.marks.len()
    }
}
