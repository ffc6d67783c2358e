//! Contexts as elements.
ghost use Rattle.certificate.specs.Writability.{Ascends};
ghost use Rattle.closure.specs.Closure.{Context as Context2, Expression as Expression2, Individual as Individual2};
ghost use Rattle.exactness.specs.ListedInterpretation.{AreSatisfiableContexts};
ghost use Rattle.closure.specs.Denotations.{context_of};
ghost use Rattle.countermodel.specs.Elements.{contexts_of};
ghost use Rattle.countermodel.specs.ContextLists.{AreAll, AreBefore, PlacesExpressions, PlacesIndividuals, place_in};
ghost use Rattle.countermodel.specs.Leading.{AreGroupsOf, AreLinks, IsElementBy};
ghost use Rattle.countermodel.specs.Sets.{IsAdmitted, IsWithin};
ghost use Rattle.std.specs.Prelude.{◌≡◌, ◌<◌, ◌≤◌, ◌^◌, ◌↔◌, [], Contains, IfOk, IsTrue, MatchOption, OnOk, Some, List, length, slice_get, ℕ};

use crate::expressions::place_expressions;
use crate::groups::groups_of;
use crate::satisfiable::Satisfiable;
use axioms::{ExprId, IndId, Memory, Ontology};
use engine::Closed;
use facts::Context;
use indexes::Groups;
use std::alloc::Global;
use std::marker::Model;

/// The satisfiable contexts in order: expressions by number, and then individuals, of each group its least. Their places are the
/// elements.
#[derive(Drop)]
pub struct Elements {
    contexts: Vec<Context>,
    // of each expression how many elements come before it: its place, if it is an element
    expressions: Vec<u32>,
    // of each individual how many elements come before it: its place, if it is an element
    individuals: Vec<u32>,
}

impl Model for Elements {
    ghost use Rattle.std.specs.Prelude.{List, length, ◌<◌, ◌^◌};
    ghost use Rattle.closure.specs.Closure.{Context as Context2};
    ghost use Rattle.countermodel.specs.Elements.{contexts_of};
    ghost use Rattle.countermodel.specs.ContextLists.{IsKept};

    ghost Value = { List Context2 };

    ghost view = { λ e. contexts_of e.contexts.items };

    ghost invariant = { λ e. IsKept e };
}

/// How many contexts there are.
fn count(contexts: &[Context]) -> Result<u32, Memory>
    ensures { IfOk result (λ n. n ≡ length contexts.now) }
{
    if contexts.len() >= u32::MAX as usize {
        return Err(Memory);
    }
    Ok(contexts.len() as u32)
}

/// Adds the expressions that are contexts, in order. The list gets the number of contexts before each expression.
fn list_expressions(
    contexts: &mut Vec<Context>,
    places: &mut Vec<u32>,
    satisfiable: &Satisfiable,
    expressions: usize,
) -> Result<(), Memory>
    requires bounded { expressions ≤ 2 ^ 32 }
    requires contexts { contexts.old.items ≡ [] }
    requires places { places.old.items ≡ [] }
    ensures listed { OnOk result (AreBefore (IsAdmitted satisfiable.now) (Expression2 expressions) (contexts_of contexts.new.items)) }
    ensures placed { OnOk result (PlacesExpressions contexts.new.items places.new.items) }
{
    for number in 0..expressions {
        let context = Context::Expr(ExprId(number as u32));
        places.push(count(contexts)?)?;
        if satisfiable.contains(context) {
            contexts.push(context)?;
        }
    }
    Ok(())
}

/// Whether the individual is a context, and the least of its group.
fn is_element(satisfiable: &Satisfiable, groups: &Groups, individual: IndId) -> bool
    requires { AreLinks groups.now }
    ensures { IsTrue result ↔ IsElementBy satisfiable.now groups.now (Individual2 individual.0) }
{
    satisfiable.contains(Context::Individual(individual)) && groups.least(individual) == individual
}

/// Adds the individuals that are elements, in order. The list gets the number of contexts before each individual.
fn list_individuals(
    contexts: &mut Vec<Context>,
    places: &mut Vec<u32>,
    satisfiable: &Satisfiable,
    groups: &Groups,
    individuals: usize,
) -> Result<(), Memory>
    requires bounded { individuals ≤ 2 ^ 32 }
    requires groups { AreLinks groups.now }
    requires contexts { AreBefore (IsElementBy satisfiable.now groups.now) (Individual2 0) (contexts_of contexts.old.items) }
    requires places { places.old.items ≡ [] }
    ensures listed { OnOk result (AreBefore (IsElementBy satisfiable.now groups.now) (Individual2 individuals) (contexts_of contexts.new.items)) }
    ensures placed { OnOk result (PlacesIndividuals contexts.new.items places.new.items) }
    ensures kept { OnOk result ((table : List ℕ) → PlacesExpressions contexts.old.items table → PlacesExpressions contexts.new.items table) }
{
    for number in 0..individuals {
        let individual = IndId(number as u32);
        places.push(count(contexts)?)?;
        if is_element(satisfiable, groups, individual) {
            contexts.push(Context::Individual(individual))?;
        }
    }
    Ok(())
}

/// The place that the tables have for the context.
fn place_of(expressions: &[u32], individuals: &[u32], context: Context) -> Option<u32>
    ensures { result ≡ place_in expressions.now individuals.now context }
{
    let (table, number) = match context {
        Context::Expr(expression) => (expressions, expression.index()),
        Context::Individual(individual) => (individuals, individual.index()),
    };
    if number < table.len() {
        Some(table[number])
    } else {
        None
    }
}

fn stands_at(contexts: &[Context], place: u32, context: Context) -> bool
    ensures { IsTrue result ↔ (slice_get contexts.now place ≡ Some context) }
{
    let place = place as usize;
    place < contexts.len() && contexts[place] == context
}

impl Elements {
    /// The elements of a saturation.
    ///
    /// # Errors
    ///
    /// `Memory` where memory was refused, or there are 2^32 elements.
    pub fn of(closed: &Closed<'_>) -> Result<Elements, Memory>
        ensures { IfOk result (λ e. AreSatisfiableContexts closed.now.ontology closed.now.saturation.normal.asked e) }
    {
        let groups = groups_of(closed);
        Elements::by(closed, groups)
    }

    // The elements of a saturation, where the individuals form these groups.
    pub(crate) fn by(closed: &Closed<'_>, groups: &Groups) -> Result<Elements, Memory>
        requires groups { AreGroupsOf closed.now.ontology closed.now.saturation.normal.asked groups.now }
        ensures { IfOk result (λ e. AreSatisfiableContexts closed.now.ontology closed.now.saturation.normal.asked e) }
    {
        let ontology = closed.ontology();
        let alloc = closed.allocator();
        closed.well_formed();
        let satisfiable = Satisfiable::of(closed)?;
        Elements::among(alloc, ontology, &satisfiable, groups)
    }

    // Those of these contexts that are the least where the individuals form these groups.
    pub(crate) fn among(
        alloc: Global,
        ontology: &Ontology,
        satisfiable: &Satisfiable,
        groups: &Groups,
    ) -> Result<Elements, Memory>
        requires within { (x : Context2) → IsAdmitted satisfiable.now x → IsWithin ontology.now x }
        requires groups { AreLinks groups.now }
        ensures { IfOk result (AreAll (IsElementBy satisfiable.now groups.now)) }
    {
        ontology.bounded();
        let mut contexts = Vec::new(alloc);
        let mut expressions = Vec::new(alloc);
        let mut individuals = Vec::new(alloc);
        let many = ontology.expression_count();
        list_expressions(&mut contexts, &mut expressions, satisfiable, many)?;
        let many = ontology.individuals().len();
        list_individuals(&mut contexts, &mut individuals, satisfiable, groups, many)?;
        count(&contexts)?;
        Ok(Elements {
            contexts,
            expressions,
            individuals,
        })
    }

    // The expressions of these numbers, and the individuals that are the least where the individuals form these groups: those of these
    // contexts. What it costs goes by them, but for a table of the expressions.
    pub(crate) fn of_expressions(
        alloc: Global,
        ontology: &Ontology,
        numbers: &[u32],
        satisfiable: &Satisfiable,
        groups: &Groups,
    ) -> Result<Elements, Memory>
        requires within { (x : Context2) → IsAdmitted satisfiable.now x → IsWithin ontology.now x }
        requires groups { AreLinks groups.now }
        requires ascend { Ascends numbers.now }
        requires numbers { (e : ℕ) → Contains numbers.now e ↔ IsAdmitted satisfiable.now (Expression2 e) }
        ensures { IfOk result (AreAll (IsElementBy satisfiable.now groups.now)) }
    {
        ontology.bounded();
        if numbers.len() >= u32::MAX as usize {
            return Err(Memory);
        }
        let mut contexts = Vec::new(alloc);
        let mut expressions = vec![in alloc; 0u32; ontology.expression_count()]?;
        let mut individuals = Vec::new(alloc);
        place_expressions(&mut contexts, &mut expressions, numbers)?;
        let count_individuals = ontology.individuals().len();
        list_individuals(
            &mut contexts,
            &mut individuals,
            satisfiable,
            groups,
            count_individuals,
        )?;
        count(&contexts)?;
        Ok(Elements {
            contexts,
            expressions,
            individuals,
        })
    }

    /// The contexts, by element.
    pub fn contexts(&self) -> &[Context]
        ensures contexts { contexts_of result.now ≡ self.now }
    {
        &self.contexts
    }

    /// How many elements there are, fewer than 2^32.
    pub fn len(&self) -> u32
        ensures { result ≡ length self.now }
    {
        self.contexts.len() as u32
    }

    /// The element of the context; `None` where it is not satisfiable, or not the least of its group.
    pub fn element(&self, context: Context) -> Option<u32>
        ensures { MatchOption result ((m : ℕ) → slice_get self.now m ≡ Some (context_of context) → ⊥)
            (λ m. slice_get self.now m ≡ Some (context_of context)) }
    {
        let Some(place) = place_of(&self.expressions, &self.individuals, context) else {
            return None;
        };
        if stands_at(&self.contexts, place, context) {
            Some(place)
        } else {
            None
        }
    }
}
