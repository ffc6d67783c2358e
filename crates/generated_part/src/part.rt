//! The interpretation that is made of chosen elements.
ghost use Rattle.axioms.specs.declared.ids.PropId.{PropId as PropId2};
ghost use Rattle.cert_check.specs.Additions.{AddsMembers, AddsPairs, PutsIndividuals};
ghost use Rattle.generated_part.specs.Elements.{class_id};
ghost use Rattle.generated_part.specs.Part.{IsMemberAt, IsPairAt, IsPart, LeadsFrom};
ghost use Rattle.interpretation_spec.specs.NumberedInterpretation.{IsMadeFor};
ghost use Rattle.number_sets.specs.Pieces.{list_at};
ghost use Rattle.std.specs.Prelude.{◌<◌, ◌≡◌, ◌≤◌, ◌^◌, All, Contains, IfOk, OnOk, length, map, slice_index, ℕ};

use crate::by_element::ByElement;
use crate::chosen::Chosen;
use axioms::{ClassId, IndId, Memory, Ontology, PropId};
use interpretation_spec::Interpretation;
use number_sets::PackedLists;
use std::alloc::Global;

/// Puts the element into the classes.
fn put_classes_of(
    part: &mut Interpretation,
    element: usize,
    classes: &[ClassId],
) -> Result<(), Memory>
    ensures { OnOk result (AddsMembers (λ c m. (m ≡ element) × Contains classes.now (class_id c)) part.old part.new) }
{
    for class in classes {
        part.well_formed();
        // What is said is in range, so nothing but memory is refused.
        if part.put_class(*class, element).is_err() {
            return Err(Memory);
        }
    }
    Ok(())
}

/// Puts the elements, by their places, into their classes.
fn put_classes(
    part: &mut Interpretation,
    classes: &PackedLists<ClassId>,
    elements: &[usize],
) -> Result<(), Memory>
    ensures { OnOk result (AddsMembers (IsMemberAt classes.now elements.now) part.old part.new) }
{
    for (place, element) in elements.iter().enumerate() {
        put_classes_of(part, place, classes.at(*element))?;
    }
    Ok(())
}

/// Joins the source to the places that the pairs lead to.
fn put_pairs_of(
    part: &mut Interpretation,
    source: usize,
    pairs: &[(PropId, usize)],
    places: &[usize],
) -> Result<(), Memory>
    requires { All (λ pair. pair.1 < length places.now) pairs.now }
    ensures { OnOk result (AddsPairs (λ r m n. (m ≡ source) × LeadsFrom pairs.now places.now r n) part.old part.new) }
{
    for pair in pairs {
        part.well_formed();
        if part.put_pair(pair.0, source, places[pair.1]).is_err() {
            return Err(Memory);
        }
    }
    Ok(())
}

/// Joins the elements, by their places, as their pairs do.
fn put_pairs(
    part: &mut Interpretation,
    pairs: &PackedLists<(PropId, usize)>,
    chosen: &Chosen,
) -> Result<(), Memory>
    requires { (x y : ℕ) (r : PropId2) → Contains (list_at pairs.now x) (r, y) → y < length chosen.now.places.items }
    ensures { OnOk result (AddsPairs (IsPairAt pairs.now chosen.now.elements.items chosen.now.places.items) part.old part.new) }
{
    for (place, element) in chosen.elements.iter().enumerate() {
        put_pairs_of(part, place, pairs.at(*element), &chosen.places)?;
    }
    Ok(())
}

/// Makes each individual the element at its place.
fn put_individuals(
    part: &mut Interpretation,
    individuals: &[usize],
    places: &[usize],
) -> Result<(), Memory>
    requires bounded { length individuals.now ≤ 2 ^ 32 }
    requires there { All (λ x. x < length places.now) individuals.now }
    ensures { OnOk result (PutsIndividuals (map (slice_index places.now) individuals.now) part.old part.new) }
{
    for (number, element) in individuals.iter().enumerate() {
        if part
            .put_individual(IndId(number as u32), places[*element])
            .is_err()
        {
            return Err(Memory);
        }
    }
    Ok(())
}

/// The chosen elements, which have pairs to one another alone, as an interpretation of their own.
///
/// # Errors
///
/// `Memory` where memory was refused.
pub(crate) fn part_of(
    alloc: Global,
    ontology: &Ontology,
    rows: &ByElement,
    chosen: &Chosen,
) -> Result<Interpretation, Memory>
    requires pairs { (x y : ℕ) (r : PropId2) → Contains (list_at rows.now.pairs x) (r, y) → y < length chosen.now.places.items }
    requires individuals { All (λ x. x < length chosen.now.places.items) rows.now.individuals.items }
    requires each { length rows.now.individuals.items ≡ length ontology.now.names.individuals }
    ensures made { IfOk result (IsMadeFor ontology.now.names) }
    ensures part { IfOk result (IsPart rows.now chosen.now.elements.items chosen.now.places.items) }
{
    ontology.well_formed();
    ontology.bounded();
    let mut part = match Interpretation::new(alloc, ontology, chosen.elements.len()) {
        Ok(part) => part,
        Err(_) => return Err(Memory),
    };
    put_classes(&mut part, &rows.classes, &chosen.elements)?;
    put_pairs(&mut part, &rows.pairs, chosen)?;
    put_individuals(&mut part, &rows.individuals, &chosen.places)?;
    Ok(part)
}
