//! Facts as they are kept.
ghost use Rattle.facts.specs.StoredFacts.{context_from};
ghost use Rattle.facts.specs.declared.contexts.Context.{Context as AContext};
ghost use Rattle.facts.specs.declared.contexts.Fact.TheVariants as facts;
ghost use Rattle.std.specs.Prelude.{◌≡◌, ◌↔◌, IsTrue, MatchOption};

use crate::contexts::{Context, Fact};
use axioms::{ExprId, IndId};
use normal_forms::{Class2, PropId2};
use std::alloc::AllocError;
use std::marker::Model;

/// A fact in 16 bytes: three numbers, and which of two kinds each is of. It is seen as the fact.
#[derive(Drop)]
pub struct StoredFact {
    is_edge: bool,
    // whether the class or the property is a partial one
    is_partial: bool,
    // whether the context of the class, or the source of the edge, is an individual
    is_individual: bool,
    // whether the target of the edge is
    leads_to_individual: bool,
    // of the class or the property
    number: u32,
    context: u32,
    target: u32,
}

const _: () = prove!(size_of::<StoredFact>() == 16);

impl Model for StoredFact {
    ghost use Rattle.facts.specs.StoredFacts.{fact_of};
    ghost use Rattle.facts.specs.declared.contexts.Fact.{Fact};

    ghost Value = { Fact };

    ghost view = { fact_of };
}

// Not `Copy`: a fact that is seen does not tell what stands in place of the target of a class.
impl Clone for StoredFact {
    ghost use Rattle.std.specs.Prelude.{◌≡◌};

    ghost is_clone = { λ fact copy. copy ≡ fact };

    #[inline(always)]
    fn clone(&self) -> Result<StoredFact, AllocError> {
        Ok(StoredFact {
            is_edge: self.is_edge,
            is_partial: self.is_partial,
            is_individual: self.is_individual,
            leads_to_individual: self.leads_to_individual,
            number: self.number,
            context: self.context,
            target: self.target,
        })
    }
}

/// Whether the context is an individual, and its number.
#[inline(always)]
fn context_parts(context: Context) -> (bool, u32)
    ensures { context_from result.0 result.1 ≡ context }
{
    match context {
        Context::Expr(ExprId(number)) => (false, number),
        Context::Individual(IndId(number)) => (true, number),
    }
}

/// The context of that kind and number.
#[inline(always)]
fn context_from(is_individual: bool, number: u32) -> Context
    ensures { result ≡ context_from is_individual number }
{
    if is_individual {
        Context::Individual(IndId(number))
    } else {
        Context::Expr(ExprId(number))
    }
}

impl StoredFact {
    /// The fact, to be kept.
    #[inline(always)]
    pub fn new(fact: Fact) -> StoredFact
        ensures { result ≡ fact }
    {
        match fact {
            Fact::In(class, context) => {
                let (is_partial, number) = class.parts();
                let (is_individual, context) = context_parts(context);
                StoredFact {
                    is_edge: false,
                    is_partial,
                    is_individual,
                    leads_to_individual: false,
                    number,
                    context,
                    target: 0,
                }
            }
            Fact::Edge(source, property, target) => {
                let (is_partial, number) = property.parts();
                let (is_individual, context) = context_parts(source);
                let (leads_to_individual, target) = context_parts(target);
                StoredFact {
                    is_edge: true,
                    is_partial,
                    is_individual,
                    leads_to_individual,
                    number,
                    context,
                    target,
                }
            }
        }
    }

    /// The fact.
    #[inline(always)]
    pub fn get(&self) -> Fact
        ensures { result ≡ self.now }
    {
        let context = context_from(self.is_individual, self.context);
        if self.is_edge {
            let property = PropId2::from_parts(self.is_partial, self.number);
            let target = context_from(self.leads_to_individual, self.target);
            Fact::Edge(context, property, target)
        } else {
            Fact::In(Class2::from_parts(self.is_partial, self.number), context)
        }
    }

    /// The context that the fact puts in the class; `None` where it puts none in it.
    #[inline(always)]
    pub fn context_in(&self, class: Class2) -> Option<Context>
        ensures { MatchOption result ((context : AContext) → self.now ≡ facts.In class context → ⊥) (λ context. self.now ≡ facts.In class context) }
    {
        let (is_partial, number) = class.parts();
        if self.number == number && !self.is_edge && self.is_partial == is_partial {
            return Some(context_from(self.is_individual, self.context));
        }
        None
    }

    /// Whether it is the fact.
    #[inline(always)]
    pub(crate) fn is(&self, fact: Fact) -> bool
        ensures { IsTrue result ↔ (self.now ≡ fact) }
    {
        match fact {
            Fact::In(class, context) => {
                let (is_partial, number) = class.parts();
                let (is_individual, context) = context_parts(context);
                !self.is_edge
                    && self.number == number
                    && self.context == context
                    && self.is_partial == is_partial
                    && self.is_individual == is_individual
            }
            Fact::Edge(source, property, target) => {
                let (is_partial, number) = property.parts();
                let (is_individual, context) = context_parts(source);
                let (leads_to_individual, target) = context_parts(target);
                self.is_edge
                    && self.number == number
                    && self.context == context
                    && self.target == target
                    && self.is_partial == is_partial
                    && self.is_individual == is_individual
                    && self.leads_to_individual == leads_to_individual
            }
        }
    }
}
