//! The contexts that edges lead to.
ghost use Rattle.axioms.specs.Ontology.{Ontology as Ontology2};
ghost use Rattle.closure.specs.Closure.{Context as Context2};
ghost use Rattle.closure.specs.Denotations.{context_of};
ghost use Rattle.countermodel.specs.Elements.{leader};
ghost use Rattle.countermodel.specs.Leading.{AreGroupsOf, AreLinks, LeadsBy};
ghost use Rattle.countermodel.specs.Reached.{IsReachedFrom};
ghost use Rattle.countermodel.specs.Searching.{AddsContexts, IsEdgeTo, IsSearch, IsStart, LeadByFacts};
ghost use Rattle.countermodel.specs.Sets.{IsWithin, holds};
ghost use Rattle.facts.specs.declared.contexts.Context.{Context as Context3};
ghost use Rattle.facts.specs.declared.contexts.Fact.TheVariants as said;
ghost use Rattle.normal_forms.specs.declared.forms.Class2.TheVariants as classes;
ghost use Rattle.std.specs.Prelude.{◌<◌, ◌↔◌, ◌≡◌, [], All, Contains, IfOk, IsTrue, List, MatchOption, OnOk, length, true, ℕ};

use crate::context_set::ContextSet;
use axioms::{ExprId, IndId, Memory, Ontology};
use engine::Indexed;
use facts::{Context, Fact, StoredFact};
use indexes::Groups;
use normal_forms::{Class2, PropId2};
use std::alloc::Global;

/// The contexts that were found so far, in order, and the same as a set.
#[derive(Drop)]
pub(crate) struct ContextSearch {
    pub found: Vec<Context>,
    pub seen: ContextSet,
}

impl ContextSearch {
    /// None is found yet.
    fn new(alloc: Global, ontology: &Ontology) -> Result<ContextSearch, Memory>
        ensures search { IfOk result (IsSearch ontology.now) }
        ensures none { IfOk result (λ s. s.found.items ≡ []) }
    {
        let individuals = ontology.individuals().len();
        Ok(ContextSearch {
            found: Vec::new(alloc),
            seen: ContextSet::new(alloc, ontology.expression_count(), individuals)?,
        })
    }

    /// Adds the context, unless it is there.
    fn add(&mut self, context: Context) -> Result<(), Memory>
        ensures search { OnOk result ((o : Ontology2) → IsWithin o (context_of context) → IsSearch o self.old → IsSearch o self.new) }
        ensures adds { OnOk result ((o : Ontology2) → IsSearch o self.old → AddsContexts (λ x. x ≡ context) self.old.found.items self.new.found.items) }
    {
        if !self.seen.contains(context) {
            self.found.push(context)?;
            self.seen.put(context);
        }
        Ok(())
    }
}

/// The context that has the element of this one.
pub(crate) fn leader_of(groups: &Groups, context: Context) -> Context
    requires { AreLinks groups.now }
    ensures { (o : Ontology2) (asked : List ℕ) → AreGroupsOf o asked groups.now → context_of result ≡ leader o (context_of context) }
{
    match context {
        Context::Expr(_) => context,
        Context::Individual(individual) => Context::Individual(groups.least(individual)),
    }
}

/// Whether it has an element of its own, where it is satisfiable.
fn leads(groups: &Groups, context: Context) -> bool
    requires { AreLinks groups.now }
    ensures { IsTrue result ↔ LeadsBy groups.now (context_of context) }
{
    match context {
        Context::Expr(_) => true,
        Context::Individual(individual) => groups.least(individual) == individual,
    }
}

/// Whether the context has `owl:Nothing`.
fn has_nothing(indexed: &Indexed<'_>, context: Context) -> bool
    ensures { IsTrue result ↔ Contains indexed.now.saturation.state.facts (said.In (classes.Expr (record { 0 = 1 })) context) }
{
    let nothing = Fact::In(Class2::Expr(ExprId::NOTHING), context);
    indexed.find(nothing).is_some()
}

/// Where the fact leads to, if it is an edge of a property to a context that has an element.
fn target_of(indexed: &Indexed<'_>, groups: &Groups, fact: &StoredFact) -> Option<Context>
    requires groups { AreGroupsOf indexed.now.ontology indexed.now.saturation.normal.asked groups.now }
    requires there { Contains indexed.now.saturation.state.facts fact.now }
    ensures { MatchOption result ((y : Context3) → IsEdgeTo indexed.now.ontology indexed.now.saturation.normal.asked fact.now y → ⊥)
        (IsEdgeTo indexed.now.ontology indexed.now.saturation.normal.asked fact.now) }
{
    let closed = indexed.closed();
    closed.well_formed();
    let Fact::Edge(_, property, target) = fact.get() else {
        return None;
    };
    let PropId2::Property(_) = property else {
        return None;
    };
    if leads(groups, target) && !has_nothing(indexed, target) {
        return Some(target);
    }
    None
}

/// Adds the contexts with elements that the facts of these numbers lead to.
fn follow(
    search: &mut ContextSearch,
    indexed: &Indexed<'_>,
    groups: &Groups,
    numbers: &[u32],
) -> Result<(), Memory>
    requires groups { AreGroupsOf indexed.now.ontology indexed.now.saturation.normal.asked groups.now }
    requires there { All (λ n. n < length indexed.now.saturation.state.facts) numbers.now }
    requires search { IsSearch indexed.now.ontology search.old }
    ensures search { OnOk result (IsSearch indexed.now.ontology search.new) }
    ensures adds { OnOk result
        (AddsContexts (LeadByFacts indexed.now.ontology indexed.now.saturation.normal.asked indexed.now.saturation.state.facts numbers.now) search.old.found.items search.new.found.items) }
{
    let closed = indexed.closed();
    closed.well_formed();
    let facts = closed.facts();
    for number in numbers {
        let fact = &facts[*number as usize];
        if let Some(target) = target_of(indexed, groups, fact) {
            search.add(target)?;
        }
    }
    Ok(())
}

/// The context and the least individual of each group are found.
fn begun(
    alloc: Global,
    ontology: &Ontology,
    groups: &Groups,
    from: Context,
) -> Result<ContextSearch, Memory>
    requires groups { (asked : List ℕ) × AreGroupsOf ontology.now asked groups.now }
    requires within { IsWithin ontology.now (context_of from) }
    ensures search { IfOk result (IsSearch ontology.now) }
    ensures started { IfOk result (λ s. (x : Context3) → Contains s.found.items x ↔ IsStart ontology.now from (length ontology.now.names.individuals) x) }
{
    ontology.bounded();
    let mut search = ContextSearch::new(alloc, ontology)?;
    search.add(from)?;
    for number in 0..ontology.individuals().len() {
        let least = groups.least(IndId(number as u32));
        search.add(Context::Individual(least))?;
    }
    Ok(search)
}

/// The search that has found the contexts that edges lead to from the context, which has an element, and from individuals.
pub(crate) fn reached_from(
    indexed: &Indexed<'_>,
    groups: &Groups,
    from: Context,
) -> Result<ContextSearch, Memory>
    requires groups { AreGroupsOf indexed.now.ontology indexed.now.saturation.normal.asked groups.now }
    requires within { IsWithin indexed.now.ontology (context_of from) }
    ensures search { IfOk result (IsSearch indexed.now.ontology) }
    ensures reached { IfOk result
        (λ s. (x : Context2) → (holds s.seen x ≡ true) ↔ IsReachedFrom indexed.now.ontology indexed.now.saturation.normal.asked (context_of from) x) }
{
    let closed = indexed.closed();
    let ontology = closed.ontology();
    let alloc = closed.allocator();
    closed.well_formed();
    let mut search = begun(alloc, ontology, groups, from)?;
    for next in 0..usize::MAX {
        if next >= search.found.len() {
            return Ok(search);
        }
        let edges = indexed.edges_from(search.found[next]);
        follow(&mut search, indexed, groups, edges)?;
    }
    Ok(search)
}
