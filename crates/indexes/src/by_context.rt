//! Lists of numbers by context.
ghost use Rattle.std.specs.Prelude.{◌≡◌, [], OnOk, IfOk, OnErr, false, true};
ghost use Rattle.indexes.specs.Contexts.{at_context, AddsAt, EndsAt, IsLast, IsSameAt, PutsLastAt, RemovesAt};

use crate::table::Table;
use facts::Context;
use std::alloc::{AllocError, Global};

/// A list for each context.
#[derive(Drop)]
pub struct ByContext {
    pub expressions: Table,
    pub individuals: Table,
}

/// Whether the number is the last of the list.
#[inline(always)]
fn is_last(list: &[u32], number: u32) -> bool
    ensures yes { result ≡ true → IsLast list.now number }
    ensures no { result ≡ false → IsLast list.now number → ⊥ }
{
    let length = list.len();
    length > 0 && list[length - 1] == number
}

impl ByContext {
    /// No list has a number.
    pub fn new(alloc: Global) -> Self
        ensures expressions { result.expressions ≡ [] }
        ensures individuals { result.individuals ≡ [] }
    {
        ByContext {
            expressions: Table::new(alloc),
            individuals: Table::new(alloc),
        }
    }

    /// The same lists. Fails where memory is refused.
    pub fn copy(&self) -> Result<ByContext, AllocError>
        ensures { IfOk result (λ lists. lists ≡ self.now) }
    {
        let expressions = self.expressions.copy()?;
        let individuals = self.individuals.copy()?;
        Ok(ByContext {
            expressions,
            individuals,
        })
    }

    /// The list of a context.
    #[inline(always)]
    pub fn of(&self, context: Context) -> &[u32]
        ensures { result.now ≡ at_context self.now context }
    {
        match context {
            Context::Expr(e) => self.expressions.of(e.0 as usize),
            Context::Individual(a) => self.individuals.of(a.0 as usize),
        }
    }

    /// Puts a number at the end of the list of a context. Fails where memory is refused; then each list is what it was.
    #[inline(always)]
    fn put(&mut self, context: Context, number: u32) -> Result<(), AllocError>
        ensures ok { OnOk result (AddsAt self.old self.new context number) }
        ensures last { OnOk result (PutsLastAt self.old self.new context number) }
        ensures err { OnErr result (IsSameAt self.old self.new) }
    {
        match context {
            Context::Expr(e) => self.expressions.add(e.0 as usize, number)?,
            Context::Individual(a) => self.individuals.add(a.0 as usize, number)?,
        }
        Ok(())
    }

    /// Adds a number at the end of the list of a context, unless it is the last there. Fails where memory is refused; then each
    /// list is what it was.
    #[inline(always)]
    pub fn add(&mut self, context: Context, number: u32) -> Result<(), AllocError>
        ensures ok { OnOk result (AddsAt self.old self.new context number) }
        ensures last { OnOk result (EndsAt self.old self.new context number) }
        ensures err { OnErr result (IsSameAt self.old self.new) }
    {
        if is_last(self.of(context), number) {
            return Ok(());
        }
        self.put(context, number)
    }

    /// Takes the number out of the list of a context, wherever it stands there. It takes no memory.
    pub fn remove(&mut self, context: Context, number: u32)
        ensures { RemovesAt self.old self.new context number }
    {
        match context {
            Context::Expr(e) => self.expressions.remove(e.0 as usize, number),
            Context::Individual(a) => self.individuals.remove(a.0 as usize, number),
        }
    }
}
