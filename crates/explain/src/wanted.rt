//! The facts that are wanted.
ghost use Rattle.axioms.specs.View.{expr_numbers};
ghost use Rattle.explain.specs.Marks.{FindsGoal, IsClass, IsClassOrAsked, IsContradictoryFact, IsMarked, IsNamedOrAsked, IsTopContext, IsWantedFact};
ghost use Rattle.facts.specs.declared.contexts.Fact.{Fact as Fact2};
ghost use Rattle.std.specs.Prelude.{◌↔◌, ◌≡◌, Contains, IfOk, IsTrue, Some, length, slice_get, ℕ};

use axioms::{ExprId, Memory, Ontology};
use engine::Indexed;
use facts::{Context, Fact, FactId, StoredFact};
use normal_forms::Class2;
use number_sets::Row;
use std::alloc::Global;

// Whether the expression is a named class.
fn is_class(ontology: &Ontology, expression: ExprId) -> bool
    ensures { IsTrue result ↔ IsClass ontology.now expression.0 }
{
    ontology.class_of(expression).is_some()
}

// Whether the expression is asked about.
fn is_asked(asked: &[ExprId], expression: ExprId) -> bool
    ensures { IsTrue result ↔ Contains (expr_numbers asked.now) expression.0 }
{
    asked.contains(&expression)
}

// Whether the expression is a named class or asked about.
fn is_class_or_asked(ontology: &Ontology, asked: &[ExprId], expression: ExprId) -> bool
    ensures { IsTrue result ↔ IsClassOrAsked ontology.now (expr_numbers asked.now) expression.0 }
{
    is_class(ontology, expression) || is_asked(asked, expression)
}

// Whether the context is a named class, an individual or an expression that is asked about.
fn is_named_or_asked(ontology: &Ontology, asked: &[ExprId], context: Context) -> bool
    ensures { IsTrue result ↔ IsNamedOrAsked ontology.now (expr_numbers asked.now) context }
{
    match context {
        Context::Expr(expression) => is_class_or_asked(ontology, asked, expression),
        Context::Individual(individual) => individual.index() < ontology.individuals().len(),
    }
}

// Whether the fact puts a named class, an individual or an expression that is asked about into a named class or into such an
// expression.
fn is_wanted(ontology: &Ontology, asked: &[ExprId], fact: Fact) -> bool
    ensures { IsTrue result ↔ IsWantedFact ontology.now (expr_numbers asked.now) fact }
{
    match fact {
        Fact::In(Class2::Expr(class), context) => {
            is_class_or_asked(ontology, asked, class) && is_named_or_asked(ontology, asked, context)
        }
        _ => false,
    }
}

// Whether the context is owl:Thing or an individual.
fn is_top(ontology: &Ontology, context: Context) -> bool
    ensures { IsTrue result ↔ IsTopContext ontology.now context }
{
    match context {
        Context::Expr(expression) => expression == ExprId::THING,
        Context::Individual(individual) => individual.index() < ontology.individuals().len(),
    }
}

// Whether the fact puts all things or an individual into owl:Nothing.
fn is_contradictory(ontology: &Ontology, fact: Fact) -> bool
    ensures { IsTrue result ↔ IsContradictoryFact ontology.now fact }
{
    match fact {
        Fact::In(Class2::Expr(class), context) => {
            class == ExprId::NOTHING && is_top(ontology, context)
        }
        _ => false,
    }
}

/// A mark on each fact that is wanted, where these expressions are asked about.
///
/// # Errors
///
/// `Memory` where memory was refused.
pub(crate) fn wanted(
    alloc: Global,
    ontology: &Ontology,
    asked: &[ExprId],
    facts: &[StoredFact],
) -> Result<Row, Memory>
    ensures long { IfOk result (λ r. length r ≡ length facts.now) }
    ensures exact { IfOk result (λ r. (n : ℕ) (f : Fact2) → slice_get facts.now n ≡ Some f → IsMarked r n ↔ IsWantedFact ontology.now (expr_numbers asked.now) f) }
{
    let mut marks = Row::new(alloc, facts.len())?;
    for number in 0..facts.len() {
        if is_wanted(ontology, asked, facts[number].get()) {
            marks.put(number);
        }
    }
    Ok(marks)
}

/// The number of the first fact that is a contradiction, counted from 1, if there is one.
pub fn first_contradiction(ontology: &Ontology, facts: &[StoredFact]) -> Option<usize>
    ensures { FindsGoal (IsContradictoryFact ontology.now) facts.now result }
{
    for place in 0..facts.len() {
        if is_contradictory(ontology, facts[place].get()) {
            return Some(place + 1);
        }
    }
    None
}

/// The number of the fact, counted from 1, if it is there.
pub(crate) fn number_of(indexed: &Indexed<'_>, wanted: Fact) -> Option<usize>
    ensures { FindsGoal (λ f. f ≡ wanted) indexed.now.saturation.state.facts result }
{
    let FactId(number) = indexed.find(wanted)?;
    Some(number as usize + 1)
}
