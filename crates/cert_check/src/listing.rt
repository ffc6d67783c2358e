//! The interpretation that a certificate lists.
ghost use Rattle.listed_model.specs.Listing.{IsListing};
ghost use Rattle.cert_check.specs.Additions.{AddsMembers, AddsPairs, IsListedMember, IsListedPair, PutsIndividuals, ListsMember, ListsPair};
ghost use Rattle.certificate.specs.Writability.{IsListedOf};
ghost use Rattle.certificate.specs.View.{class_row_of, listed_of, pair_row_of};
ghost use Rattle.interpretation_spec.specs.NamedInterpretation.{interpretation_of as by_names};
ghost use Rattle.interpretation_spec.specs.NumberedInterpretation.{IsMadeFor};
ghost use Rattle.std.specs.Prelude.{◌<◌, ◌≤◌, ◌^◌, length, IfOk, OnOk, map};

use axioms::{IndId, Memory, Ontology};
use certificate::{ClassRow, Listed, PairRow};
use interpretation_spec::Interpretation;
use std::alloc::Global;

// Adds the elements of a class.
fn put_elements(
    ontology: &Ontology,
    interpretation: &mut Interpretation,
    row: &ClassRow,
) -> Result<(), Memory>
    ensures { OnOk result (AddsMembers (ListsMember ontology.now (class_row_of row.now)) interpretation.old interpretation.new) }
{
    let Some(class) = ontology.class_of(row.class) else {
        return Ok(());
    };
    for element in &row.elements {
        interpretation.well_formed();
        // What is listed is in range, so nothing but memory is refused.
        if interpretation.put_class(class, *element as usize).is_err() {
            return Err(Memory);
        }
    }
    Ok(())
}

// Adds the elements that an element leads to by a property.
fn put_targets(interpretation: &mut Interpretation, row: &PairRow) -> Result<(), Memory>
    ensures { OnOk result (AddsPairs (ListsPair (pair_row_of row.now)) interpretation.old interpretation.new) }
{
    for target in row.targets.as_slice() {
        interpretation.well_formed();
        if interpretation
            .put_pair(row.property, row.source as usize, *target as usize)
            .is_err()
        {
            return Err(Memory);
        }
    }
    Ok(())
}

fn put_classes(
    ontology: &Ontology,
    interpretation: &mut Interpretation,
    rows: &[ClassRow],
) -> Result<(), Memory>
    ensures { OnOk result (AddsMembers (IsListedMember ontology.now (map class_row_of rows.now)) interpretation.old interpretation.new) }
{
    for row in rows {
        put_elements(ontology, interpretation, row)?;
    }
    Ok(())
}

fn put_pairs(interpretation: &mut Interpretation, rows: &[PairRow]) -> Result<(), Memory>
    ensures { OnOk result (AddsPairs (IsListedPair (map pair_row_of rows.now)) interpretation.old interpretation.new) }
{
    for row in rows {
        put_targets(interpretation, row)?;
    }
    Ok(())
}

fn put_individuals(interpretation: &mut Interpretation, elements: &[u32]) -> Result<(), Memory>
    requires { length elements.now ≤ 2 ^ 32 }
    ensures { OnOk result (PutsIndividuals elements.now interpretation.old interpretation.new) }
{
    for (i, element) in elements.iter().enumerate() {
        if interpretation
            .put_individual(IndId(i as u32), *element as usize)
            .is_err()
        {
            return Err(Memory);
        }
    }
    Ok(())
}

/// The listed interpretation, as a value: by names it is the one that the members list. Fails where memory is refused.
pub fn interpretation_of(
    alloc: Global,
    ontology: &Ontology,
    listed: &Listed,
) -> Result<Interpretation, Memory>
    requires { IsListedOf ontology.now (listed_of listed.now) }
    ensures made { IfOk result (IsMadeFor ontology.now.names) }
    ensures listing { IfOk result (λ i. IsListing ontology.now (listed_of listed.now) (by_names ontology.now.names i)) }
{
    // Owl:Thing and owl:Nothing are among its classes.
    ontology.well_formed();
    ontology.bounded();
    let mut interpretation = match Interpretation::new(alloc, ontology, listed.domain as usize) {
        Ok(interpretation) => interpretation,
        Err(_) => return Err(Memory),
    };
    put_classes(ontology, &mut interpretation, &listed.classes)?;
    put_pairs(&mut interpretation, &listed.pairs)?;
    put_individuals(&mut interpretation, &listed.individuals)?;
    Ok(interpretation)
}
