//! An interpretation and one of its elements, as people read them.
ghost use Rattle.answer_texts.specs.Names.{spaced_numbers};
ghost use Rattle.answer_texts.specs.Reached.{individual_in, reached_text};
ghost use Rattle.answer_texts.specs.Refutation as text;
ghost use Rattle.answer_texts.specs.Told.{told_elements};
ghost use Rattle.axioms.specs.Ontology.{name_at};
ghost use Rattle.interpretation_spec.specs.NumberedInterpretation.{IsMadeFor};
ghost use Rattle.number_sets.specs.Members.{has};
ghost use Rattle.std.specs.List.{enumerate_from, filter, flat_map, range_with_len};
ghost use Rattle.std.specs.Prelude.{◌++◌, ◌-◌, ◌≡◌, IfOk, OnOk, length, option_map};

use crate::looking::{Told, class_members};
use crate::names::{push_name, push_number};
use crate::pairs::{PairText, push_properties};
use axioms::{ClassId, IndId, Memory, Ontology};
use interpretation_spec::Interpretation;
use number_sets::EpochSet;
use std::alloc::{AllocError, Global};

// Those of the elements that are in the class, each tested by itself.
fn tested_elements(
    alloc: Global,
    interpretation: &Interpretation,
    elements: &[usize],
    class: ClassId,
) -> Result<Vec<usize>, Memory>
    ensures { IfOk result (λ v. v.items ≡ text.elements_of interpretation.now elements.now class.0) }
{
    let mut members = Vec::new(alloc);
    for element in elements {
        if interpretation.is_member(class, *element) {
            members.push(*element)?;
        }
    }
    Ok(members)
}

// Those of the numbers that the set has.
fn those_in(alloc: Global, numbers: &[usize], set: &EpochSet) -> Result<Vec<usize>, Memory>
    ensures { IfOk result (λ v. v.items ≡ filter (has set.now) numbers.now) }
{
    let numbers = numbers.iter().copied();
    Ok(
        numbers
            .filter(|number| set.contains(*number))
            .collect(alloc)?,
    )
}

// Those of the elements that are reached, or of all, that are in the class, by the members of its row.
fn listed_elements(
    alloc: Global,
    interpretation: &Interpretation,
    reached: Option<&EpochSet>,
    class: ClassId,
) -> Result<Vec<usize>, Memory>
    ensures { IfOk result
        (λ v. v.items
        ≡ text.elements_of interpretation.now (told_elements interpretation.now (option_map (λ set. set.now) reached.entry)) class.0) }
{
    let members = class_members(alloc, interpretation, class)?;
    match reached {
        Some(set) => those_in(alloc, &members, set),
        None => Ok(members),
    }
}

// Those of the elements that are told of that are in the class. Where these are few beside all, each is tested.
fn elements_of(alloc: Global, told: &Told<'_>, class: ClassId) -> Result<Vec<usize>, Memory>
    ensures { IfOk result (λ v. v.items ≡ text.elements_of told.now.interpretation.now told.now.elements.items class.0) }
{
    if told.elements.len() < told.interpretation.size() / 64 {
        return tested_elements(alloc, told.interpretation, &told.elements, class);
    }
    listed_elements(alloc, told.interpretation, told.reached, class)
}

// Adds the numbers, each behind a space.
fn push_elements(out: &mut Vec<u8>, elements: &[usize]) -> Result<(), AllocError>
    ensures { OnOk result (out.new.items ≡ out.old.items ++ spaced_numbers elements.now) }
{
    for element in elements {
        push_number(out, b" ", *element as u64)?;
    }
    Ok(())
}

// Adds the line of the class of that number, where there are members.
fn push_class(
    out: &mut Vec<u8>,
    ontology: &Ontology,
    class: ClassId,
    members: &[usize],
) -> Result<(), AllocError>
    ensures { OnOk result (out.new.items ≡ out.old.items ++ text.members_text (name_at ontology.now.names.classes class.0) members.now) }
{
    if members.is_empty() {
        return Ok(());
    }
    out.extend_from_slice(b"class ")?;
    push_name(out, ontology.classes(), class.index())?;
    push_elements(out, members)?;
    out.extend_from_slice(b"\n")
}

// Adds the lines of all classes but owl:Thing, with those of the elements that are in them. Of a class without elements there is none.
fn push_classes(
    alloc: Global,
    out: &mut Vec<u8>,
    ontology: &Ontology,
    told: &Told<'_>,
) -> Result<(), Memory>
    requires { IsMadeFor ontology.now.names told.now.interpretation.now }
    ensures { OnOk result
        (out.new.items
        ≡ out.old.items ++ flat_map (text.class_text ontology.now.names told.now.interpretation.now told.now.elements.items) (range_with_len 1 (length ontology.now.names.classes - 1))) }
{
    ontology.bounded();
    let classes = told.interpretation.classes_with_elements(alloc)?;
    for number in &classes {
        let class = ClassId(*number as u32);
        let members = elements_of(alloc, told, class)?;
        push_class(out, ontology, class, &members)?;
    }
    Ok(())
}

/// A line for each pair.
struct PairLine;

impl PairText for PairLine {
    ghost pair = { text.pair_text };

    fn push_pair(
        out: &mut Vec<u8>,
        properties: &[String],
        property: usize,
        source: usize,
        target: usize,
    ) -> Result<(), AllocError> {
        out.extend_from_slice(b"pair ")?;
        push_name(out, properties, property)?;
        push_number(out, b" ", source as u64)?;
        push_number(out, b" ", target as u64)?;
        out.extend_from_slice(b"\n")
    }
}

// Adds the line of an individual.
fn push_individual(
    out: &mut Vec<u8>,
    ontology: &Ontology,
    individual: usize,
    element: usize,
) -> Result<(), AllocError>
    ensures { OnOk result (out.new.items ≡ out.old.items ++ text.individual_text ontology.now.names (individual, element)) }
{
    out.extend_from_slice(b"individual ")?;
    push_name(out, ontology.individuals(), individual)?;
    push_number(out, b" ", element as u64)?;
    out.extend_from_slice(b"\n")
}

// Adds a line for each individual.
fn push_individuals(
    out: &mut Vec<u8>,
    ontology: &Ontology,
    interpretation: &Interpretation,
) -> Result<(), AllocError>
    requires { IsMadeFor ontology.now.names interpretation.now }
    ensures { OnOk result
        (out.new.items ≡ out.old.items ++ flat_map (text.individual_text ontology.now.names) (enumerate_from 0 interpretation.now.individuals)) }
{
    ontology.bounded();
    for number in 0..ontology.individuals().len() {
        let element = interpretation.element_at(IndId(number as u32));
        push_individual(out, ontology, number, element)?;
    }
    Ok(())
}

// Adds a line for each individual whose element is in the set.
fn push_individuals_in(
    out: &mut Vec<u8>,
    ontology: &Ontology,
    interpretation: &Interpretation,
    reached: &EpochSet,
) -> Result<(), AllocError>
    requires { IsMadeFor ontology.now.names interpretation.now }
    ensures { OnOk result
        (out.new.items
        ≡ out.old.items ++ flat_map (individual_in ontology.now.names reached.now) (enumerate_from 0 interpretation.now.individuals)) }
{
    ontology.bounded();
    for number in 0..ontology.individuals().len() {
        let element = interpretation.element_at(IndId(number as u32));
        if reached.contains(element) {
            push_individual(out, ontology, number, element)?;
        }
    }
    Ok(())
}

// Adds the answer, the size, and what is said of the elements by classes and pairs.
fn push_rows(
    alloc: Global,
    out: &mut Vec<u8>,
    ontology: &Ontology,
    told: &Told<'_>,
) -> Result<(), Memory>
    requires { IsMadeFor ontology.now.names told.now.interpretation.now }
    ensures { OnOk result (out.new.items ≡ out.old.items ++ text.rows_text ontology.now.names told.now.interpretation.now told.now.elements.items) }
{
    push_number(out, b"no\ndomain ", told.interpretation.size() as u64)?;
    out.extend_from_slice(b"\n")?;
    push_classes(alloc, out, ontology, told)?;
    push_properties::<PairLine>(out, ontology, told.interpretation, &told.elements)?;
    Ok(())
}

// Adds the line of the element that refutes.
fn push_element(out: &mut Vec<u8>, element: usize) -> Result<(), AllocError>
    ensures { OnOk result (out.new.items ≡ out.old.items ++ text.element_text element) }
{
    push_number(out, b"element ", element as u64)?;
    out.extend_from_slice(b"\n")
}

/// Adds the whole text.
pub(crate) fn push_refutation(
    alloc: Global,
    out: &mut Vec<u8>,
    ontology: &Ontology,
    interpretation: &Interpretation,
    element: usize,
) -> Result<(), Memory>
    requires { IsMadeFor ontology.now.names interpretation.now }
    ensures { OnOk result (out.new.items ≡ out.old.items ++ text.refutation_text ontology.now.names interpretation.now element) }
{
    let told = Told::all(alloc, interpretation)?;
    push_rows(alloc, out, ontology, &told)?;
    push_individuals(out, ontology, interpretation)?;
    push_element(out, element)?;
    Ok(())
}

/// What the text has of the elements in the set, and how many others there are.
pub(crate) fn text_of_reached(
    alloc: Global,
    ontology: &Ontology,
    interpretation: &Interpretation,
    reached: &EpochSet,
    element: usize,
) -> Result<Vec<u8>, Memory>
    requires { IsMadeFor ontology.now.names interpretation.now }
    ensures { IfOk result (λ v. v.items ≡ reached_text ontology.now.names interpretation.now reached.now element) }
{
    let told = Told::those(alloc, interpretation, reached)?;
    let others = interpretation.size() - told.elements.len();
    let mut out = Vec::new(alloc);
    push_rows(alloc, &mut out, ontology, &told)?;
    push_individuals_in(&mut out, ontology, interpretation, reached)?;
    push_element(&mut out, element)?;
    push_number(&mut out, b"others ", others as u64)?;
    out.extend_from_slice(b"\n")?;
    Ok(out)
}
