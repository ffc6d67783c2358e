//! Marks on the numbers that facts answer with.
ghost use Rattle.answers.specs.Names.{IsMarked};
ghost use Rattle.answers.specs.Neighbours.{AreMarksAmong, AreMarksOf};
ghost use Rattle.answers.specs.Selections.{Answers, AreGiven, FollowsFor, IsAnswer, IsEvery, IsOnly, PutsClass, PutsContext, PutsExpression, PutsInClass, PutsIndividual, context_asked, names_asked};
ghost use Rattle.answers.specs.declared.selection.Selection.TheVariants as asked;
ghost use Rattle.axioms.specs.Ontology.{nothing};
ghost use Rattle.classification.specs.Lists.{SomeFact};
ghost use Rattle.closure.specs.Closure.{IsRoot};
ghost use Rattle.std.specs.Prelude.{◌<◌, ◌≤◌, ◌^◌, ◌↔◌, ◌≡◌, ◌⊎◌, IfOk, IsTrue, MatchOption, Some, length, ℕ};

use crate::named::class_numbered;
use crate::selection::Selection;
use axioms::{ExprId, IndId, Memory, Ontology};
use classification::is_consistent;
use engine::{Closed, Indexed};
use facts::{Context, Fact, StoredFact};
use inference::Predicate;
use normal_forms::Class2;
use number_sets::Row;

// ---- by one fact

/// The expression that the fact puts in the class; `None` where it puts none in it.
fn expression_in(fact: &StoredFact, class: ExprId) -> Option<ExprId>
    ensures { MatchOption result ((e : ℕ) → PutsExpression fact.now e class.0 → ⊥) (λ e. PutsExpression fact.now e.0 class.0) }
{
    match fact.context_in(Class2::Expr(class))? {
        Context::Expr(expression) => Some(expression),
        Context::Individual(_) => None,
    }
}

/// The class below the expression by the fact.
fn below(ontology: &Ontology, above: ExprId, fact: &StoredFact) -> Option<usize>
    ensures { IsOnly (PutsClass ontology.now above.0 fact.now) result }
{
    let below = expression_in(fact, above)?;
    let class = ontology.class_of(below)?;
    Some(class.index())
}

/// The individual that the fact puts in the class; `None` where it puts none in it.
fn individual_in(fact: &StoredFact, class: ExprId) -> Option<IndId>
    ensures { MatchOption result ((a : ℕ) → PutsIndividual fact.now a class.0 → ⊥) (λ a. PutsIndividual fact.now a.0 class.0) }
{
    match fact.context_in(Class2::Expr(class))? {
        Context::Expr(_) => None,
        Context::Individual(individual) => Some(individual),
    }
}

/// The individual in the expression by the fact.
fn member(ontology: &Ontology, expression: ExprId, fact: &StoredFact) -> Option<usize>
    ensures { IsAnswer ontology.now (asked.Members expression) fact.now result }
{
    let individual = individual_in(fact, expression)?;
    Some(individual.index())
}

/// The expression that the fact puts the context in; `None` where it puts it in none.
fn expression_above(fact: &StoredFact, context: Context) -> Option<ExprId>
    ensures { MatchOption result ((f : ℕ) → PutsContext fact.now context f → ⊥) (λ f. PutsContext fact.now context f.0) }
{
    match fact.get() {
        Fact::In(Class2::Expr(above), below) if below == context => Some(above),
        _ => None,
    }
}

/// The class above the context by the fact.
fn above(ontology: &Ontology, context: Context, fact: &StoredFact) -> Option<usize>
    ensures { IsOnly (PutsInClass ontology.now context fact.now) result }
{
    let above = expression_above(fact, context)?;
    let class = ontology.class_of(above)?;
    Some(class.index())
}

/// Marks the number, if it is one of those that have marks.
pub(crate) fn mark(marks: &mut Row, n: Option<usize>)
    ensures long { length marks.new ≡ length marks.old }
    ensures exact { (m : ℕ) → m < length marks.old → IsMarked marks.new m ↔ (IsMarked marks.old m ⊎ (n ≡ Some m)) }
{
    if let Some(n) = n {
        marks.put(n);
    }
}

// ---- by the facts of one context, and by those of one class

/// Of the marked classes, marks on those that a fact puts the context in. Others may have marks, too.
fn marked_above(indexed: &Indexed<'_>, context: Context, marks: &Row) -> Result<Row, Memory>
    ensures { IfOk result (λ found. AreGiven (PutsInClass indexed.now.ontology context) indexed.now.saturation.state.facts marks.now found) }
{
    let closed = indexed.closed();
    let ontology = closed.ontology();
    let facts = closed.facts();
    let mut found = Row::new(closed.allocator(), marks.len())?;
    for number in indexed.classes_in(context) {
        let fact = &facts[*number as usize];
        mark(&mut found, above(ontology, context, fact));
    }
    Ok(found)
}

/// Marks the classes that a fact puts in the expression.
fn mark_below(indexed: &Indexed<'_>, above: ExprId, found: &mut Row)
    ensures long { length found.new ≡ length found.old }
    ensures exact { (n : ℕ) → n < length found.old → IsMarked found.new n ↔ (IsMarked found.old n ⊎ SomeFact indexed.now.saturation.state.facts (λ fact. PutsClass indexed.now.ontology above.0 fact n)) }
{
    let closed = indexed.closed();
    let ontology = closed.ontology();
    let facts = closed.facts();
    let mut next = indexed.last_of(Predicate::Class(Class2::Expr(above)));
    while let Some(number) = next {
        let fact = &facts[number as usize];
        mark(found, below(ontology, above, fact));
        next = indexed.before(number);
    }
}

/// Of the marked classes, marks on those that a fact puts in the expression or in `owl:Nothing`. Others may have marks, too.
fn marked_below(indexed: &Indexed<'_>, expression: ExprId, marks: &Row) -> Result<Row, Memory>
    ensures { IfOk result (λ found. AreGiven (Answers indexed.now.ontology (asked.Below expression)) indexed.now.saturation.state.facts marks.now found) }
{
    let mut found = Row::new(indexed.closed().allocator(), marks.len())?;
    mark_below(indexed, expression, &mut found);
    mark_below(indexed, ExprId::NOTHING, &mut found);
    Ok(found)
}

/// Of the marked individuals, marks on those that a fact puts in the expression. Others may have marks, too.
fn marked_members(indexed: &Indexed<'_>, expression: ExprId, marks: &Row) -> Result<Row, Memory>
    ensures { IfOk result (λ found. AreGiven (Answers indexed.now.ontology (asked.Members expression)) indexed.now.saturation.state.facts marks.now found) }
{
    let closed = indexed.closed();
    let ontology = closed.ontology();
    let facts = closed.facts();
    let mut found = Row::new(closed.allocator(), marks.len())?;
    let mut next = indexed.last_of(Predicate::Class(Class2::Expr(expression)));
    while let Some(number) = next {
        let fact = &facts[number as usize];
        mark(&mut found, member(ontology, expression, fact));
        next = indexed.before(number);
    }
    Ok(found)
}

// ---- by the search for a fact

/// Whether a fact puts the expression in the other one.
fn is_put(indexed: &Indexed<'_>, expression: ExprId, above: ExprId) -> bool
    ensures { IsTrue result ↔ SomeFact indexed.now.saturation.state.facts (λ fact. PutsExpression fact expression.0 above.0) }
{
    let wanted = Fact::In(Class2::Expr(above), Context::Expr(expression));
    indexed.find(wanted).is_some()
}

/// Whether the expression has no element in any interpretation: a fact puts it in `owl:Nothing`.
fn is_empty(indexed: &Indexed<'_>, expression: ExprId) -> bool
    ensures { IsTrue result ↔ SomeFact indexed.now.saturation.state.facts (λ fact. PutsExpression fact expression.0 nothing) }
{
    is_put(indexed, expression, ExprId::NOTHING)
}

/// Whether a fact puts the class of that number in the expression or in `owl:Nothing`.
fn is_found_below(indexed: &Indexed<'_>, expression: ExprId, number: u32) -> bool
    ensures { IsTrue result ↔ SomeFact indexed.now.saturation.state.facts (λ fact. Answers indexed.now.ontology (asked.Below expression) fact number) }
{
    match class_numbered(indexed, number) {
        Some(below) => is_put(indexed, below, expression) || is_empty(indexed, below),
        None => false,
    }
}

/// Whether a fact puts the individual of that number in the expression.
fn is_found_member(indexed: &Indexed<'_>, expression: ExprId, number: u32) -> bool
    ensures { IsTrue result ↔ SomeFact indexed.now.saturation.state.facts (λ fact. PutsIndividual fact number expression.0) }
{
    let wanted = Fact::In(Class2::Expr(expression), Context::Individual(IndId(number)));
    indexed.find(wanted).is_some()
}

/// As `marked_below`, where each marked class is looked for.
fn found_below(indexed: &Indexed<'_>, expression: ExprId, marks: &Row) -> Result<Row, Memory>
    requires { length marks.now ≤ 2 ^ 32 }
    ensures { IfOk result (λ found. AreGiven (Answers indexed.now.ontology (asked.Below expression)) indexed.now.saturation.state.facts marks.now found) }
{
    let mut found = Row::new(indexed.closed().allocator(), marks.len())?;
    for n in 0..marks.len() {
        if marks.contains(n) && is_found_below(indexed, expression, n as u32) {
            found.put(n);
        }
    }
    Ok(found)
}

/// As `marked_members`, where each marked individual is looked for.
fn found_members(indexed: &Indexed<'_>, expression: ExprId, marks: &Row) -> Result<Row, Memory>
    requires { length marks.now ≤ 2 ^ 32 }
    ensures { IfOk result (λ found. AreGiven (Answers indexed.now.ontology (asked.Members expression)) indexed.now.saturation.state.facts marks.now found) }
{
    let mut found = Row::new(indexed.closed().allocator(), marks.len())?;
    for n in 0..marks.len() {
        if marks.contains(n) && is_found_member(indexed, expression, n as u32) {
            found.put(n);
        }
    }
    Ok(found)
}

// ---- by what costs less

/// Each marked name is looked for where there is fewer than one for so many facts. It decides nothing.
const FACTS_A_SEARCH: usize = 1024;

/// Whether looking for each marked number costs less than going over the facts of the class, as a rule.
fn are_few(closed: &Closed<'_>, marks: &Row) -> bool
    ensures { IsTrue result → length marks.now ≤ 2 ^ 32 }
{
    marks.len() <= u32::MAX as usize && marks.count() < closed.facts().len() / FACTS_A_SEARCH
}

/// Of the marked numbers, marks on those that a fact answers with, by what costs less. Others may have marks, too.
fn answers_among(indexed: &Indexed<'_>, question: Selection, marks: &Row) -> Result<Row, Memory>
    ensures { IfOk result (λ found. AreGiven (Answers indexed.now.ontology question) indexed.now.saturation.state.facts marks.now found) }
{
    let closed = indexed.closed();
    match question {
        Selection::Above(expression) => marked_above(indexed, Context::Expr(expression), marks),
        Selection::Types(individual) => marked_above(
            indexed,
            Context::Individual(individual),
            marks,
        ),
        Selection::Below(expression) if are_few(closed, marks) => found_below(
            indexed, expression, marks,
        ),
        Selection::Below(expression) => marked_below(indexed, expression, marks),
        Selection::Members(expression) if are_few(closed, marks) => found_members(
            indexed, expression, marks,
        ),
        Selection::Members(expression) => marked_members(indexed, expression, marks),
    }
}

// ---- what follows

/// Whether every name is an answer, since there is no interpretation or the expression has no element in any.
fn is_every(indexed: &Indexed<'_>, question: Selection) -> bool
    ensures { IsTrue result ↔ IsEvery indexed.now.ontology indexed.now.saturation question }
{
    if !is_consistent(indexed) {
        return true;
    }
    match question {
        Selection::Above(expression) => is_empty(indexed, expression),
        Selection::Below(_) | Selection::Members(_) | Selection::Types(_) => false,
    }
}

/// Of the marked names, marks on those that answer the question. Others may have marks, too.
///
/// # Errors
///
/// `Memory` where memory was refused.
pub(crate) fn marks_among(
    indexed: &Indexed<'_>,
    question: Selection,
    marks: &Row,
) -> Result<Row, Memory>
    requires root { IsRoot indexed.now.ontology indexed.now.saturation.normal.asked (context_asked question) }
    requires long { length marks.now ≡ length (names_asked indexed.now.ontology question) }
    ensures { IfOk result (λ v. AreMarksAmong marks.now (names_asked indexed.now.ontology question) (FollowsFor indexed.now.ontology question) v) }
{
    let closed = indexed.closed();
    closed.well_formed();
    if is_every(indexed, question) {
        return marks.copy(closed.allocator());
    }
    answers_among(indexed, question, marks)
}

/// How many names there are among which the answers are.
fn count_asked(ontology: &Ontology, question: Selection) -> usize
    ensures { result ≡ length (names_asked ontology.now question) }
{
    match question {
        Selection::Above(_) | Selection::Below(_) | Selection::Types(_) => ontology.classes().len(),
        Selection::Members(_) => ontology.individuals().len(),
    }
}

/// Marks on the names that answer the question.
///
/// # Errors
///
/// `Memory` where memory was refused.
pub(crate) fn marks_of(indexed: &Indexed<'_>, question: Selection) -> Result<Row, Memory>
    requires root { IsRoot indexed.now.ontology indexed.now.saturation.normal.asked (context_asked question) }
    ensures { IfOk result (λ v. AreMarksOf (names_asked indexed.now.ontology question) (FollowsFor indexed.now.ontology question) v) }
{
    let closed = indexed.closed();
    let names = count_asked(closed.ontology(), question);
    let all = Row::full(closed.allocator(), names)?;
    marks_among(indexed, question, &all)
}
