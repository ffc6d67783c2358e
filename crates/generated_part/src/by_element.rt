//! Interpretations by their elements.
ghost use Rattle.generated_part.specs.Elements.{AddsTargets, AreClassesAt, ArePairsAt, IsByElement};
ghost use Rattle.interpretation_spec.specs.NamedInterpretation.{interpretation_of};
ghost use Rattle.interpretation_spec.specs.NumberedInterpretation.{IsMadeFor};
ghost use Rattle.std.specs.Prelude.{◌<◌, ◌≡◌, ◌≤◌, ◌^◌, IfOk, OnOk, length};

use axioms::{ClassId, IndId, Memory, Ontology, PropId};
use interpretation_spec::Interpretation;
use number_sets::PackedLists;
use std::alloc::Global;

/// An interpretation by its elements: of each the classes that it is in, but for `owl:Thing`, and its pairs; and the element of
/// each individual.
#[derive(Drop)]
pub(crate) struct ByElement {
    pub classes: PackedLists<ClassId>,
    // by property and target
    pub pairs: PackedLists<(PropId, usize)>,
    pub individuals: Vec<usize>,
}

/// The classes of the element among so many, but for `owl:Thing`.
fn classes_at(
    alloc: Global,
    interpretation: &Interpretation,
    classes: usize,
    element: usize,
) -> Result<Vec<ClassId>, Memory>
    requires some { 2 ≤ classes }
    requires bounded { classes ≤ 2 ^ 32 }
    ensures { IfOk result (λ v. AreClassesAt interpretation.now classes element v.items) }
{
    let mut found = Vec::new(alloc);
    for number in 2..classes {
        let class = ClassId(number as u32);
        if interpretation.is_member(class, element) {
            found.push(class)?;
        }
    }
    Ok(found)
}

/// Adds the pairs of the property to these targets.
fn push_targets(
    found: &mut Vec<(PropId, usize)>,
    property: PropId,
    targets: &[usize],
) -> Result<(), Memory>
    ensures { OnOk result (AddsTargets found.old.items property targets.now found.new.items) }
{
    for target in targets {
        found.push((property, *target))?;
    }
    Ok(())
}

/// The pairs of the element by so many properties.
fn pairs_at(
    alloc: Global,
    interpretation: &Interpretation,
    properties: usize,
    element: usize,
) -> Result<Vec<(PropId, usize)>, Memory>
    requires { properties ≤ 2 ^ 32 }
    ensures { IfOk result (λ v. ArePairsAt interpretation.now properties element v.items) }
{
    let mut found = Vec::new(alloc);
    for number in 0..properties {
        let property = PropId(number as u32);
        push_targets(
            &mut found,
            property,
            interpretation.targets_at(property, element),
        )?;
    }
    Ok(found)
}

/// The elements of so many individuals.
fn individual_elements(
    alloc: Global,
    interpretation: &Interpretation,
    individuals: usize,
) -> Result<Vec<usize>, Memory>
    requires all { individuals ≡ length interpretation.now.individuals }
    requires bounded { individuals ≤ 2 ^ 32 }
    ensures { IfOk result (λ v. v.items ≡ interpretation.now.individuals) }
{
    let mut elements = Vec::new(alloc);
    for number in 0..individuals {
        elements.push(interpretation.element_at(IndId(number as u32)))?;
    }
    Ok(elements)
}

impl ByElement {
    /// The interpretation, which was made for the ontology, by its elements.
    ///
    /// # Errors
    ///
    /// `Memory` where memory was refused.
    pub(crate) fn of_interpretation(
        alloc: Global,
        ontology: &Ontology,
        interpretation: &Interpretation,
    ) -> Result<ByElement, Memory>
        requires { IsMadeFor ontology.now.names interpretation.now }
        ensures { IfOk result (λ rows. IsByElement ontology.now (interpretation_of ontology.now.names interpretation.now) rows) }
    {
        ontology.well_formed();
        ontology.bounded();
        interpretation.well_formed();
        let named = ontology.classes().len();
        let properties = ontology.properties().len();
        let count = ontology.individuals().len();
        let mut classes = PackedLists::new(alloc);
        let mut pairs = PackedLists::new(alloc);
        for element in 0..interpretation.size() {
            classes.push_list(&classes_at(alloc, interpretation, named, element)?)?;
            pairs.push_list(&pairs_at(alloc, interpretation, properties, element)?)?;
        }
        let individuals = individual_elements(alloc, interpretation, count)?;
        Ok(ByElement {
            classes,
            pairs,
            individuals,
        })
    }
}
