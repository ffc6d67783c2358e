//! Sets of contexts.
ghost use Rattle.closure.specs.Denotations.{context_of};
ghost use Rattle.countermodel.specs.Sets.{holds, with_context};
ghost use Rattle.std.specs.Prelude.{◌≡◌, IfOk, false, replicate};

use axioms::Memory;
use facts::Context;
use number_sets::EpochSet;
use std::alloc::Global;

/// A set of contexts whose numbers are below bounds.
#[derive(Drop)]
pub(crate) struct ContextSet {
    pub expressions: EpochSet,
    pub individuals: EpochSet,
}

impl ContextSet {
    /// The empty set, for so many expressions and individuals.
    pub(crate) fn new(
        alloc: Global,
        expressions: usize,
        individuals: usize,
    ) -> Result<ContextSet, Memory>
        ensures { IfOk result (λ s. s ≡ record { expressions = replicate expressions false; individuals = replicate individuals false }) }
    {
        let expressions = EpochSet::new(alloc, expressions)?;
        let individuals = EpochSet::new(alloc, individuals)?;
        Ok(ContextSet {
            expressions,
            individuals,
        })
    }

    /// Adds the context, if its number is below the bound.
    pub(crate) fn put(&mut self, context: Context)
        ensures { self.new ≡ with_context self.old context }
    {
        match context {
            Context::Expr(expression) => {
                self.expressions.put(expression.index());
            }
            Context::Individual(individual) => {
                self.individuals.put(individual.index());
            }
        }
    }

    pub(crate) fn contains(&self, context: Context) -> bool
        ensures { result ≡ holds self.now (context_of context) }
    {
        match context {
            Context::Expr(expression) => self.expressions.contains(expression.index()),
            Context::Individual(individual) => self.individuals.contains(individual.index()),
        }
    }
}
