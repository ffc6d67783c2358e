//! What the lines of the instances say of individuals.
ghost use Rattle.inferred_text.specs.Inferred.{individual_axioms, is_no_top, type_axiom};
ghost use Rattle.statements_text.specs.Texts.{statement_line};
ghost use Rattle.std.specs.List.{All, filter, flat_map};
ghost use Rattle.std.specs.Prelude.{◌++◌, ◌<◌, ◌≡◌, OnOk, length, map};
ghost use Rattle.taxonomy.specs.Relation.{is_listed, lies_below};

use crate::lines::push_type;
use axioms::{ClassId, Memory, Ontology};
use number_sets::PackedLists;
use std::alloc::Global;
use taxonomy::{Groups, in_byte_order};

/// Adds that the individual is in each of the classes that is not in the group of owl:Thing.
fn push_types(
    out: &mut Vec<u8>,
    ontology: &Ontology,
    groups: &Groups<'_>,
    individual: usize,
    classes: &[usize],
) -> Result<(), Memory>
    requires individual { individual < length ontology.now.names.individuals }
    requires classes { All (λ c. c < length ontology.now.names.classes) classes.now }
    ensures { OnOk result
        (out.new.items
        ≡ out.old.items
        ++ flat_map statement_line (map (type_axiom ontology.now.names individual) (filter (is_no_top (lies_below groups.now.rows)) classes.now))) }
{
    for class in classes {
        if !groups.is_same(*class, ClassId::THING.0 as usize) {
            push_type(out, ontology, individual, *class)?;
        }
    }
    Ok(())
}

/// Adds what the lines of the instances say: `types` has the list of classes of each individual.
pub(crate) fn push_individuals(
    alloc: Global,
    out: &mut Vec<u8>,
    ontology: &Ontology,
    groups: &mut Groups<'_>,
    types: &PackedLists,
) -> Result<(), Memory>
    requires { groups.old.names ≡ ontology.now.names.classes }
    ensures { OnOk result
        (out.new.items
        ≡ out.old.items ++ flat_map statement_line (individual_axioms ontology.now.names (lies_below groups.old.rows) (is_listed types.now))) }
{
    let order = in_byte_order(alloc, ontology.individuals())?;
    for individual in &order {
        let least = groups.least(types.at(*individual))?;
        push_types(out, ontology, groups, *individual, &least)?;
    }
    Ok(())
}
