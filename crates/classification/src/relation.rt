//! Which named classes lie below which.
ghost use Rattle.classification.specs.Lists.{Adds, AreClassLists, IsTaxonomyOf, PutsBelow};
ghost use Rattle.engine.specs.Saturations.{IsUnasked};
ghost use Rattle.std.specs.Prelude.{◌≡◌, IfOk, OnOk, length};

use crate::pairs::class_pair;
use crate::room::lists_of_classes;
use axioms::{Memory, Ontology};
use engine::Closed;
use facts::StoredFact;
use number_sets::{OpenLists, PackedLists};
use std::alloc::Global;
use taxonomy::{Relation, Taxonomy, reduce};

/// Adds the class that the fact puts above a class.
fn put_below(ontology: &Ontology, lists: &mut OpenLists, fact: &StoredFact) -> Result<(), Memory>
    requires { length lists.old ≡ length ontology.now.names.classes }
    ensures { OnOk result (Adds (PutsBelow ontology.now fact.now) lists.old lists.new) }
{
    match class_pair(ontology, fact) {
        Some((class, above)) => lists.push(class.index(), above.0)?,
        None => {}
    }
    Ok(())
}

/// For each class the list of the classes that a fact puts above it.
fn class_lists(
    alloc: Global,
    ontology: &Ontology,
    facts: &[StoredFact],
) -> Result<PackedLists, Memory>
    ensures { IfOk result (λ lists. AreClassLists ontology.now facts.now lists) }
{
    let mut lists = lists_of_classes(alloc, ontology, facts)?;
    for fact in facts {
        put_below(ontology, &mut lists, fact)?;
    }
    Ok(lists.packed(alloc)?)
}

/// The relation of the closure.
fn relation_of(closed: &Closed<'_>) -> Result<Relation, Memory>
    requires unasked { IsUnasked closed.now.saturation }
    ensures { IfOk result (IsTaxonomyOf closed.now.ontology) }
{
    let alloc = closed.allocator();
    closed.well_formed();
    let lists = class_lists(alloc, closed.ontology(), closed.facts())?;
    let relation = Relation::of_superclasses(alloc, &lists)?;
    Ok(relation)
}

/// The taxonomy of the closure.
pub(crate) fn taxonomy_of(closed: &Closed<'_>) -> Result<Taxonomy, Memory>
    requires unasked { IsUnasked closed.now.saturation }
    ensures { IfOk result (IsTaxonomyOf closed.now.ontology) }
{
    let alloc = closed.allocator();
    closed.well_formed();
    let relation = relation_of(closed)?;
    reduce(alloc, &relation)
}
