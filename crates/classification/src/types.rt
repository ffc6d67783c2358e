//! Which individuals belong to which named classes.
ghost use Rattle.classification.specs.Lists.{Adds, AreTypeLists, AreTypesOf, IsAboutIndividualOf, PutsInto};
ghost use Rattle.engine.specs.Saturations.{IsUnasked};
ghost use Rattle.std.specs.Prelude.{◌≡◌, All, IfOk, OnOk, length};

use crate::pairs::type_pair;
use crate::room::lists_of_individuals;
use axioms::{Memory, Ontology};
use engine::Closed;
use facts::StoredFact;
use number_sets::{OpenLists, PackedLists};
use std::alloc::Global;

/// Adds the class that the fact puts an individual into.
fn put_into(ontology: &Ontology, lists: &mut OpenLists, fact: &StoredFact) -> Result<(), Memory>
    requires within { IsAboutIndividualOf ontology.now fact.now }
    requires long { length lists.old ≡ length ontology.now.names.individuals }
    ensures { OnOk result (Adds (PutsInto ontology.now fact.now) lists.old lists.new) }
{
    match type_pair(ontology, fact) {
        Some((individual, class)) => lists.push(individual.index(), class.0)?,
        None => {}
    }
    Ok(())
}

/// For each individual the list of the classes that a fact puts it into.
fn type_lists(
    alloc: Global,
    ontology: &Ontology,
    facts: &[StoredFact],
) -> Result<PackedLists, Memory>
    requires { All (IsAboutIndividualOf ontology.now) facts.now }
    ensures { IfOk result (λ lists. AreTypeLists ontology.now facts.now lists) }
{
    let mut lists = lists_of_individuals(alloc, ontology, facts)?;
    if lists.len() == 0 {
        return Ok(lists.packed(alloc)?);
    }
    for fact in facts {
        put_into(ontology, &mut lists, fact)?;
    }
    Ok(lists.packed(alloc)?)
}

/// For each individual the list of the classes that it belongs to by the closure.
pub(crate) fn types_of(closed: &Closed<'_>) -> Result<PackedLists, Memory>
    requires unasked { IsUnasked closed.now.saturation }
    ensures { IfOk result (λ lists. AreTypesOf closed.now.ontology lists) }
{
    closed.well_formed();
    type_lists(closed.allocator(), closed.ontology(), closed.facts())
}
