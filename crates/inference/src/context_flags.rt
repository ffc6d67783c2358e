//! Flags of contexts.
ghost use Rattle.facts.specs.declared.contexts.Context.{Context as Context2};
ghost use Rattle.inference.specs.Flags.{IsFlagged};
ghost use Rattle.number_sets.specs.Members.{has};
ghost use Rattle.std.specs.Prelude.{◌≡◌, ◌<◌, ◌≤◌, ◌↔◌, ◌⊎◌, ℕ, OnErr, OnOk, length, true, IsTrue};

use facts::Context;
use std::alloc::{AllocError, Global};
use std::marker::Model;

/// Which contexts are flagged: a byte for each number of an expression up to the greatest that is flagged, and of an individual.
#[derive(Drop)]
pub struct ContextFlags {
    expressions: Vec<bool>,
    individuals: Vec<bool>,
}

impl Model for ContextFlags {
    ghost use Rattle.inference.specs.Flags.{Flags};

    ghost Value = { Flags };

    ghost view = { λ f. record { expressions = f.expressions.items; individuals = f.individuals.items } };
}

/// Whether the place is flagged.
fn has_flag(flags: &[bool], place: u32) -> bool
    ensures { result ≡ has flags.now place }
{
    matches!(flags.get(place as usize), Some(true))
}

/// Makes room for the flag of a place. Fails where memory is refused; nothing is flagged.
fn reach(flags: &mut Vec<bool>, place: usize) -> Result<(), AllocError>
    requires { place ≤ u32.MAX }
    ensures same { (k : ℕ) → has flags.new.items k ≡ has flags.old.items k }
    ensures there { OnOk result (place < length flags.new.items) }
    ensures err { OnErr result (flags.new.items ≡ flags.old.items) }
{
    if place >= flags.len() {
        flags.resize(place + 1, false)?;
    }
    Ok(())
}

/// Flags a place. Fails where memory is refused; then the flags are what they were.
fn flag(flags: &mut Vec<bool>, place: u32) -> Result<(), AllocError>
    ensures ok { OnOk result ((k : ℕ) → (has flags.new.items k ≡ true) ↔ ((has flags.old.items k ≡ true) ⊎ (k ≡ place))) }
    ensures err { OnErr result (flags.new.items ≡ flags.old.items) }
{
    reach(flags, place as usize)?;
    flags[place as usize] = true;
    Ok(())
}

impl ContextFlags {
    /// None is flagged.
    pub(crate) fn new(alloc: Global) -> Self
        ensures { (x : Context2) → IsFlagged result x → ⊥ }
    {
        ContextFlags {
            expressions: Vec::new(alloc),
            individuals: Vec::new(alloc),
        }
    }

    /// Whether the context is flagged.
    #[inline(always)]
    pub(crate) fn has(&self, context: Context) -> bool
        ensures { IsTrue result ↔ IsFlagged self.now context }
    {
        match context {
            Context::Expr(e) => has_flag(&self.expressions, e.0),
            Context::Individual(a) => has_flag(&self.individuals, a.0),
        }
    }

    /// Flags a context. Fails where memory is refused; then the flags are what they were.
    pub(crate) fn add(&mut self, context: Context) -> Result<(), AllocError>
        ensures ok { OnOk result ((x : Context2) → IsFlagged self.new x ↔ (IsFlagged self.old x ⊎ (x ≡ context))) }
        ensures err { OnErr result (self.new ≡ self.old) }
    {
        match context {
            Context::Expr(e) => flag(&mut self.expressions, e.0),
            Context::Individual(a) => flag(&mut self.individuals, a.0),
        }
    }

    /// Takes each flag away.
    pub(crate) fn clear(&mut self)
        ensures { (x : Context2) → IsFlagged self.new x → ⊥ }
    {
        self.expressions.clear();
        self.individuals.clear();
    }
}
