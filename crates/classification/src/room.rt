//! Empty lists for classes and individuals, with room for the classes that facts put there.
ghost use Rattle.std.specs.Prelude.{◌≡◌, ◌+◌, ◌-◌, ◌^◌, [], IfOk, length, min, replicate, slice_index, slice_set};

use axioms::{ClassId, Memory, Ontology};
use facts::{Context, Fact, StoredFact};
use normal_forms::Class2;
use number_sets::OpenLists;
use std::alloc::Global;

/// Counts one more at that number, if there is one; but never more than 2^32 - 1.
fn count(counts: &mut [u32], number: usize)
    ensures { counts.new ≡ slice_set counts.old number (min (slice_index counts.old number + 1) (2 ^ 32 - 1)) }
{
    if number < counts.len() {
        counts[number] = counts[number].saturating_add(1);
    }
}

/// For each expression how many facts put it below an expression. The numbers decide nothing but how much memory is asked for at once.
fn expression_counts(
    alloc: Global,
    ontology: &Ontology,
    facts: &[StoredFact],
) -> Result<Vec<u32>, Memory>
    ensures { IfOk result (λ counts. length counts.items ≡ length ontology.now.nodes) }
{
    let mut counts = vec![in alloc; 0u32; ontology.expression_count()]?;
    for fact in facts {
        if let Fact::In(Class2::Expr(_), Context::Expr(expression)) = fact.get() {
            count(&mut counts, expression.index());
        }
    }
    Ok(counts)
}

/// For each class the number that is given for its expression.
fn class_counts(alloc: Global, ontology: &Ontology, counts: &[u32]) -> Result<Vec<u32>, Memory>
    ensures { IfOk result (λ room. length room.items ≡ length ontology.now.names.classes) }
{
    ontology.bounded();
    let classes = ontology.classes().len();
    let mut room = Vec::with_capacity(alloc, classes)?;
    for number in 0..classes {
        let items = match ontology.class_expr(ClassId(number as u32)) {
            Some(expression) => counts.get(expression.index()).copied().unwrap_or(0),
            None => 0,
        };
        room.push(items)?;
    }
    Ok(room)
}

/// For each individual how many facts put it into an expression.
fn individual_counts(
    alloc: Global,
    ontology: &Ontology,
    facts: &[StoredFact],
) -> Result<Vec<u32>, Memory>
    ensures { IfOk result (λ counts. length counts.items ≡ length ontology.now.names.individuals) }
{
    let mut counts = vec![in alloc; 0u32; ontology.individuals().len()]?;
    if counts.is_empty() {
        return Ok(counts);
    }
    for fact in facts {
        if let Fact::In(Class2::Expr(_), Context::Individual(individual)) = fact.get() {
            count(&mut counts, individual.index());
        }
    }
    Ok(counts)
}

/// An empty list for each class, with room for the classes that the facts put above it.
pub(crate) fn lists_of_classes(
    alloc: Global,
    ontology: &Ontology,
    facts: &[StoredFact],
) -> Result<OpenLists, Memory>
    ensures { IfOk result (λ lists. lists ≡ replicate (length ontology.now.names.classes) []) }
{
    let counts = expression_counts(alloc, ontology, facts)?;
    let room = class_counts(alloc, ontology, &counts)?;
    Ok(OpenLists::with_room(alloc, &room)?)
}

/// An empty list for each individual, with room for the classes that the facts put it into.
pub(crate) fn lists_of_individuals(
    alloc: Global,
    ontology: &Ontology,
    facts: &[StoredFact],
) -> Result<OpenLists, Memory>
    ensures { IfOk result (λ lists. lists ≡ replicate (length ontology.now.names.individuals) []) }
{
    let room = individual_counts(alloc, ontology, facts)?;
    Ok(OpenLists::with_room(alloc, &room)?)
}
