//! Which numbers are flagged.
ghost use Rattle.saturate.specs.Flags.{AreThoseFlagged, HasOneFlagMore, is_flagged};
ghost use Rattle.std.specs.Prelude.{◌≡◌, ◌<◌, ℕ, IfOk, OnErr, OnOk, false, length, replicate, true};

use axioms::Memory;
use number_sets::Row;
use std::alloc::Global;
use std::marker::Model;

/// Flags of the numbers below a bound: a bit for each, and those that are flagged, in the order in which they were.
#[derive(Drop)]
pub(crate) struct Flags {
    row: Row,
    numbers: Vec<u32>,
}

impl Model for Flags {
    ghost use Rattle.std.specs.Prelude.{Bool, List};
    ghost use Rattle.saturate.specs.Flags.{AreThoseFlagged};

    ghost Value = { List Bool };

    ghost view = { λ f. f.row };

    ghost invariant = { λ f. AreThoseFlagged f.row f.numbers.items };
}

impl Flags {
    /// None of the numbers below the bound is flagged.
    pub(crate) fn new(alloc: Global, bound: usize) -> Result<Flags, Memory>
        ensures { IfOk result (λ flags. flags ≡ replicate bound false) }
    {
        let row = Row::new(alloc, bound)?;
        Ok(Flags {
            row,
            numbers: Vec::new(alloc),
        })
    }

    /// Whether the number is flagged: past the bound it is not.
    #[inline(always)]
    pub(crate) fn has(&self, number: u32) -> bool
        ensures { result ≡ is_flagged self.now number }
    {
        self.row.contains(number as usize)
    }

    /// Whether no number is flagged.
    pub(crate) fn are_none(&self) -> bool
        ensures { result ≡ true → (n : ℕ) → is_flagged self.now n ≡ false }
    {
        self.numbers().is_empty()
    }

    /// Flags the number. Fails where memory is refused; then nothing changes.
    pub(crate) fn add(&mut self, number: u32) -> Result<(), Memory>
        requires { number < length self.old }
        ensures long { length self.new ≡ length self.old }
        ensures ok { OnOk result (HasOneFlagMore number self.old self.new) }
        ensures err { OnErr result (self.new ≡ self.old) }
    {
        if self.has(number) {
            return Ok(());
        }
        self.numbers.push(number)?;
        self.row.put(number as usize);
        Ok(())
    }

    /// The numbers that are flagged.
    pub(crate) fn numbers(&self) -> &[u32]
        ensures { AreThoseFlagged self.now result.now }
    {
        &self.numbers
    }
}
