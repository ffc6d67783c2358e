//! Which contexts are satisfiable.
ghost use Rattle.closure.specs.Closure.{Context as Context2};
ghost use Rattle.exactness.specs.ListedInterpretation.{IsSatisfiable};
ghost use Rattle.closure.specs.Denotations.{context_of};
ghost use Rattle.countermodel.specs.Sets.{IsWithin, admits, holds};
ghost use Rattle.facts.specs.declared.contexts.Context.{Context as Context3};
ghost use Rattle.facts.specs.declared.contexts.Fact.TheVariants as said;
ghost use Rattle.normal_forms.specs.declared.forms.Class2.TheVariants as classes;
ghost use Rattle.std.specs.Prelude.{◌↔◌, ◌≡◌, Contains, IfOk, Some, true};

use crate::context_set::ContextSet;
use axioms::{ExprId, Memory, Ontology};
use engine::Closed;
use facts::{Context, Fact, StoredFact};
use normal_forms::Class2;
use std::alloc::Global;

/// The contexts with `owl:Thing`, and those with `owl:Nothing`.
#[derive(Drop)]
pub(crate) struct Satisfiable {
    pub things: ContextSet,
    pub nothings: ContextSet,
}

/// The context that has the class by the fact, if the fact is of the class.
fn context_with(class: ExprId, fact: &StoredFact) -> Option<Context>
    ensures { (x : Context3) → (result ≡ Some x) ↔ (fact.now ≡ said.In (classes.Expr class) x) }
{
    match fact.get() {
        Fact::In(Class2::Expr(other), context) if other == class => Some(context),
        _ => None,
    }
}

fn contexts_with(
    alloc: Global,
    ontology: &Ontology,
    facts: &[StoredFact],
    class: ExprId,
) -> Result<ContextSet, Memory>
    requires { (x : Context3) → Contains facts.now (said.In (classes.Expr class) x) → IsWithin ontology.now (context_of x) }
    ensures { IfOk result (λ s. (x : Context3) → (holds s (context_of x) ≡ true) ↔ Contains facts.now (said.In (classes.Expr class) x)) }
{
    let expressions = ontology.expression_count();
    let mut set = ContextSet::new(alloc, expressions, ontology.individuals().len())?;
    for fact in facts {
        if let Some(context) = context_with(class, fact) {
            set.put(context);
        }
    }
    Ok(set)
}

impl Satisfiable {
    /// What the facts say of contexts.
    pub(crate) fn of(closed: &Closed<'_>) -> Result<Satisfiable, Memory>
        ensures { IfOk result (λ s. (x : Context2) → (admits s x ≡ true) ↔ IsSatisfiable closed.now.ontology closed.now.saturation.normal.asked x) }
    {
        let ontology = closed.ontology();
        let alloc = closed.allocator();
        closed.well_formed();
        let facts = closed.facts();
        let things = contexts_with(alloc, ontology, facts, ExprId::THING)?;
        let nothings = contexts_with(alloc, ontology, facts, ExprId::NOTHING)?;
        Ok(Satisfiable { things, nothings })
    }

    /// These contexts alone, which are satisfiable.
    pub(crate) fn only(alloc: Global, contexts: ContextSet) -> Result<Satisfiable, Memory>
        ensures { IfOk result (λ s. (x : Context2) → admits s x ≡ holds contexts x) }
    {
        let nothings = ContextSet::new(alloc, 0, 0)?;
        Ok(Satisfiable {
            things: contexts,
            nothings,
        })
    }

    /// Whether the context is satisfiable.
    pub(crate) fn contains(&self, context: Context) -> bool
        ensures { result ≡ admits self.now (context_of context) }
    {
        self.things.contains(context) && !self.nothings.contains(context)
    }
}
