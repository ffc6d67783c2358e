//! What a graph has beside each element.
ghost use Rattle.answer_texts.specs.Labels.{AreLabels, classes_at, individuals_at};
ghost use Rattle.interpretation_spec.specs.NumberedInterpretation.{IsMadeFor};
ghost use Rattle.number_sets.specs.Pieces.{list_at};
ghost use Rattle.number_sets.specs.Transposition.{copies};
ghost use Rattle.std.specs.Prelude.{◌<◌, ◌≡◌, ◌++◌, IfOk, OnOk, length, ℕ};

use crate::looking::class_members;
use axioms::{ClassId, IndId, Memory, Ontology};
use interpretation_spec::Interpretation;
use number_sets::OpenLists;
use std::alloc::{AllocError, Global};

/// For each element the numbers of its classes but `owl:Thing`, and of the individuals whose element it is, ascending.
#[derive(Drop)]
pub(crate) struct Labels {
    pub classes: OpenLists,
    pub individuals: OpenLists,
}

// Adds the number at the end of the list of each of these elements.
fn add_to_each(lists: &mut OpenLists, elements: &[usize], number: u32) -> Result<(), AllocError>
    ensures long { OnOk result (length lists.new ≡ length lists.old) }
    ensures each { OnOk result
        ((x : ℕ) → x < length lists.old → list_at lists.new x ≡ list_at lists.old x ++ copies number x elements.now) }
{
    for element in elements {
        lists.push(*element, number)?;
    }
    Ok(())
}

// For each element its classes but owl:Thing. No class without elements is looked at.
fn classes_by_element(
    alloc: Global,
    ontology: &Ontology,
    interpretation: &Interpretation,
) -> Result<OpenLists, Memory>
    requires { IsMadeFor ontology.now.names interpretation.now }
    ensures { IfOk result (λ lists. (x : ℕ) → list_at lists x ≡ classes_at interpretation.now x) }
{
    ontology.bounded();
    interpretation.well_formed();
    let mut lists = OpenLists::new(alloc, interpretation.size())?;
    let classes = interpretation.classes_with_elements(alloc)?;
    for number in &classes {
        let number = *number as u32;
        let members = class_members(alloc, interpretation, ClassId(number))?;
        add_to_each(&mut lists, &members, number)?;
    }
    Ok(lists)
}

// For each element the individuals whose element it is.
fn individuals_by_element(
    alloc: Global,
    ontology: &Ontology,
    interpretation: &Interpretation,
) -> Result<OpenLists, Memory>
    requires { IsMadeFor ontology.now.names interpretation.now }
    ensures { IfOk result (λ lists. (x : ℕ) → list_at lists x ≡ individuals_at interpretation.now.individuals x) }
{
    ontology.bounded();
    let mut lists = OpenLists::new(alloc, interpretation.size())?;
    for number in 0..ontology.individuals().len() {
        let number = number as u32;
        let element = interpretation.element_at(IndId(number));
        lists.push(element, number)?;
    }
    Ok(lists)
}

impl Labels {
    /// Those of the interpretation, which was made for the ontology. What it costs goes by what is said of classes and individuals.
    ///
    /// # Errors
    ///
    /// `Memory` where memory was refused.
    pub(crate) fn of(
        alloc: Global,
        ontology: &Ontology,
        interpretation: &Interpretation,
    ) -> Result<Labels, Memory>
        requires { IsMadeFor ontology.now.names interpretation.now }
        ensures { IfOk result (AreLabels interpretation.now) }
    {
        let classes = classes_by_element(alloc, ontology, interpretation)?;
        let individuals = individuals_by_element(alloc, ontology, interpretation)?;
        Ok(Labels {
            classes,
            individuals,
        })
    }
}
