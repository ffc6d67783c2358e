//! The superclasses of some classes, as lists.
ghost use Rattle.answers.specs.Neighbours.{PutsMarked, PutsOneBelow};
ghost use Rattle.classification.specs.Lists.{AreListsBy, PutsBelow, SomeFact};
ghost use Rattle.std.specs.Prelude.{◌<◌, ◌≡◌, ◌↔◌, Contains, IfOk, length, ℕ};
ghost use Rattle.taxonomy.specs.Relation.{is_listed};

use crate::named::{class_numbered, few_classes};
use axioms::{Memory, Ontology};
use classification::class_pair;
use engine::Indexed;
use facts::{Context, StoredFact};
use number_sets::{PackedLists, Row};
use std::alloc::Global;

/// The classes that the facts of these numbers put above one.
fn classes_by(
    alloc: Global,
    ontology: &Ontology,
    facts: &[StoredFact],
    numbers: &[u32],
) -> Result<Vec<u32>, Memory>
    requires { (n : ℕ) → Contains numbers.now n → n < length facts.now }
    ensures { IfOk result (λ v. (d : ℕ) → Contains v.items d ↔ PutsOneBelow ontology.now facts.now numbers.now d) }
{
    let mut found = Vec::new(alloc);
    for number in numbers {
        if let Some((_, above)) = class_pair(ontology, &facts[*number as usize]) {
            found.push(above.0)?;
        }
    }
    Ok(found)
}

/// The classes that facts put above the class.
fn classes_above(indexed: &Indexed<'_>, class: usize) -> Result<Vec<u32>, Memory>
    requires { class < length indexed.now.ontology.names.classes }
    ensures { IfOk result (λ v. (d : ℕ) → Contains v.items d ↔ SomeFact indexed.now.saturation.state.facts (λ fact. PutsBelow indexed.now.ontology fact class d)) }
{
    let closed = indexed.closed();
    closed.well_formed();
    few_classes(indexed);
    let Some(expression) = class_numbered(indexed, class as u32) else {
        // Each class of the ontology is an expression of it.
        unreachable!()
    };
    let numbers = indexed.classes_in(Context::Expr(expression));
    classes_by(
        closed.allocator(),
        closed.ontology(),
        closed.facts(),
        numbers,
    )
}

/// The same where the class is marked, and else no class.
fn list_of(indexed: &Indexed<'_>, marks: &Row, class: usize) -> Result<Vec<u32>, Memory>
    requires class { class < length marks.now }
    requires long { length marks.now ≡ length indexed.now.ontology.names.classes }
    ensures { IfOk result (λ v. (d : ℕ) → Contains v.items d ↔ SomeFact indexed.now.saturation.state.facts (λ fact. PutsMarked indexed.now.ontology marks.now fact class d)) }
{
    if marks.contains(class) {
        classes_above(indexed, class)
    } else {
        Ok(Vec::new(indexed.closed().allocator()))
    }
}

/// For each class the list of the classes that a fact puts above it, where it is marked.
///
/// # Errors
///
/// `Memory` where memory was refused.
pub(crate) fn lists_above(indexed: &Indexed<'_>, marks: &Row) -> Result<PackedLists, Memory>
    requires { length marks.now ≡ length indexed.now.ontology.names.classes }
    ensures { IfOk result
        (AreListsBy (PutsMarked indexed.now.ontology marks.now) (length indexed.now.ontology.names.classes) indexed.now.saturation.state.facts) }
{
    let mut lists = PackedLists::new(indexed.closed().allocator());
    for class in 0..marks.len() {
        let list = list_of(indexed, marks, class)?;
        lists.push_list(&list)?;
    }
    Ok(lists)
}

/// Whether the other class is in the list of the class.
pub(crate) fn has(lists: &PackedLists, class: usize, above: usize) -> bool
    ensures { result ≡ is_listed lists.now class above }
{
    lists
        .at(class)
        .iter()
        .any(|number| *number as usize == above)
}
