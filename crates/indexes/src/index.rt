//! The index.
ghost use Rattle.std.specs.Prelude.{◌≡◌, IfOk, OnErr, OnOk};
ghost use Rattle.indexes.specs.Contexts.{at_context, AddsAt, EndsAt, IsEmptyIndex, IsSameAt};
ghost use Rattle.indexes.specs.FactIndex.{IsSameButForSeconds, MayList, Lists, Removes};

use crate::by_context::ByContext;
use facts::{Context, Fact};
use std::alloc::{AllocError, Global};

/// The numbers of facts, by context: classes in it, edges from it, edges into it, those of the edges from it that are second premises, and
/// those of the classes in it that are fillers.
pub struct Index {
    classes: ByContext,
    from: ByContext,
    into: ByContext,
    second_premises: ByContext,
    fillers: ByContext,
}

// A value is let go by one call, where each way out would else let each field go.
impl Drop for Index {
    fn drop(self) {
        let Index {
            classes: _,
            from: _,
            into: _,
            second_premises: _,
            fillers: _,
        } = self;
    }
}

impl Index {
    /// Lists nothing.
    pub fn new(alloc: Global) -> Self
        ensures { IsEmptyIndex result }
    {
        Index {
            classes: ByContext::new(alloc),
            from: ByContext::new(alloc),
            into: ByContext::new(alloc),
            second_premises: ByContext::new(alloc),
            fillers: ByContext::new(alloc),
        }
    }

    /// An index that lists the same. Fails where memory is refused.
    pub fn copy(&self) -> Result<Index, AllocError>
        ensures { IfOk result (λ index. index ≡ self.now) }
    {
        let classes = self.classes.copy()?;
        let from = self.from.copy()?;
        let into = self.into.copy()?;
        let second_premises = self.second_premises.copy()?;
        let fillers = self.fillers.copy()?;
        Ok(Index {
            classes,
            from,
            into,
            second_premises,
            fillers,
        })
    }

    /// Facts that put a class into the context.
    #[inline(always)]
    pub fn classes_in(&self, context: Context) -> &[u32]
        ensures { result.now ≡ at_context self.now.classes context }
    {
        self.classes.of(context)
    }

    /// Edges from the context.
    #[inline(always)]
    pub fn edges_from(&self, context: Context) -> &[u32]
        ensures { result.now ≡ at_context self.now.from context }
    {
        self.from.of(context)
    }

    /// Edges into the context.
    #[inline(always)]
    pub fn edges_into(&self, context: Context) -> &[u32]
        ensures { result.now ≡ at_context self.now.into context }
    {
        self.into.of(context)
    }

    /// Those edges from the context that were added as second premises.
    #[inline(always)]
    pub fn second_premises_from(&self, context: Context) -> &[u32]
        ensures { result.now ≡ at_context self.now.second_premises context }
    {
        self.second_premises.of(context)
    }

    /// Those facts that put a class into the context that were added as fillers.
    #[inline(always)]
    pub fn fillers_in(&self, context: Context) -> &[u32]
        ensures { result.now ≡ at_context self.now.fillers context }
    {
        self.fillers.of(context)
    }

    /// Makes room for the classes in so many expressions more at once, where memory is to be had; else room is made as they come.
    pub fn expect(&mut self, expressions: usize)
        ensures { self.new ≡ self.old }
    {
        if self.classes.expressions.reserve(expressions).is_ok() {
            return;
        }
    }

    /// Lists a fact, once where it was the last to be listed; an edge among the second premises too, where it is one, and a class among the
    /// fillers. Where memory is refused it may be listed in part.
    pub fn add(
        &mut self,
        number: u32,
        fact: Fact,
        is_second: bool,
        is_filler: bool,
    ) -> Result<(), AllocError>
        ensures may { MayList self.old self.new number fact is_second is_filler }
        ensures ok { OnOk result (Lists self.new number fact is_second is_filler) }
    {
        match fact {
            Fact::In(_, x) => {
                self.classes.add(x, number)?;
                if is_filler {
                    self.fillers.add(x, number)?;
                }
            }
            Fact::Edge(x, _, y) => {
                self.from.add(x, number)?;
                self.into.add(y, number)?;
                if is_second {
                    self.second_premises.add(x, number)?;
                }
            }
        }
        Ok(())
    }

    /// Lists an edge among the second premises from its source alone, unless it is the last there. Fails where memory is refused; then each
    /// list is what it was.
    pub fn add_second_premise(&mut self, number: u32, source: Context) -> Result<(), AllocError>
        ensures others { IsSameButForSeconds self.old self.new }
        ensures ok { OnOk result (AddsAt self.old.second_premises self.new.second_premises source number) }
        ensures last { OnOk result (EndsAt self.old.second_premises self.new.second_premises source number) }
        ensures err { OnErr result (IsSameAt self.old.second_premises self.new.second_premises) }
    {
        self.second_premises.add(source, number)
    }

    /// Takes the number of a fact out of the lists of the fact's contexts, wherever it stands there. It takes no memory.
    pub fn remove(&mut self, number: u32, fact: Fact)
        ensures { Removes self.old self.new number fact }
    {
        match fact {
            Fact::In(_, x) => {
                self.classes.remove(x, number);
                self.fillers.remove(x, number);
            }
            Fact::Edge(x, _, y) => {
                self.from.remove(x, number);
                self.into.remove(y, number);
                self.second_premises.remove(x, number);
            }
        }
    }
}
