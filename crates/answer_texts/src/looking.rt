//! Which elements of an interpretation a text tells of.
ghost use Rattle.answer_texts.specs.Pairs.{all_elements as all};
ghost use Rattle.answer_texts.specs.Reached.{elements_in as in_set};
ghost use Rattle.answer_texts.specs.Refutation.{elements_of};
ghost use Rattle.answer_texts.specs.Told.{told_elements};
ghost use Rattle.std.specs.Prelude.{◌≡◌, ◌≤◌, IfOk, length, option_map};

use axioms::{ClassId, Memory};
use interpretation_spec::{Interpretation, members};
use number_sets::EpochSet;
use std::alloc::Global;

/// An interpretation and its elements that a text tells of, ascending: those that are reached, or all where nothing says which are.
#[derive(Drop)]
pub(crate) struct Told<'a> {
    pub interpretation: &'a Interpretation,
    pub elements: Vec<usize>,
    pub reached: Option<&'a EpochSet>,
    ghost are: { elements.items ≡ told_elements interpretation.now (option_map (λ set. set.now) reached) },
}

impl<'a> Told<'a> {
    /// All elements are told of.
    pub(crate) fn all(alloc: Global, interpretation: &'a Interpretation) -> Result<Told<'a>, Memory>
        ensures of { IfOk result (λ told. told.interpretation.now ≡ interpretation.now) }
        ensures elements { IfOk result (λ told. told.elements.items ≡ all interpretation.now) }
    {
        let elements = all_elements(alloc, interpretation)?;
        Ok(Told {
            interpretation,
            elements,
            reached: None,
        })
    }

    /// Those of the set are.
    pub(crate) fn those(
        alloc: Global,
        interpretation: &'a Interpretation,
        reached: &'a EpochSet,
    ) -> Result<Told<'a>, Memory>
        ensures of { IfOk result (λ told. told.interpretation.now ≡ interpretation.now) }
        ensures elements { IfOk result (λ told. told.elements.items ≡ in_set interpretation.now reached.now) }
        ensures few { IfOk result (λ told. length told.elements.items ≤ interpretation.now.size) }
    {
        let elements = elements_in(alloc, interpretation, reached)?;
        Ok(Told {
            interpretation,
            elements,
            reached: Some(reached),
        })
    }
}

/// All elements.
pub(crate) fn all_elements(
    alloc: Global,
    interpretation: &Interpretation,
) -> Result<Vec<usize>, Memory>
    ensures { IfOk result (λ v. v.items ≡ all interpretation.now) }
{
    let mut elements = Vec::new(alloc);
    for element in 0..interpretation.size() {
        elements.push(element)?;
    }
    Ok(elements)
}

/// The elements of the set.
pub(crate) fn elements_in(
    alloc: Global,
    interpretation: &Interpretation,
    set: &EpochSet,
) -> Result<Vec<usize>, Memory>
    ensures are { IfOk result (λ v. v.items ≡ in_set interpretation.now set.now) }
    ensures few { IfOk result (λ v. length v.items ≤ interpretation.now.size) }
{
    let mut elements = Vec::new(alloc);
    for element in 0..interpretation.size() {
        if set.contains(element) {
            elements.push(element)?;
        }
    }
    Ok(elements)
}

/// The elements of the class, ascending.
pub(crate) fn class_members(
    alloc: Global,
    interpretation: &Interpretation,
    class: ClassId,
) -> Result<Vec<usize>, Memory>
    ensures { IfOk result (λ v. v.items ≡ elements_of interpretation.now (all interpretation.now) class.0) }
{
    interpretation.well_formed();
    match interpretation.holders(class) {
        Some(row) => members(alloc, row),
        None => Ok(Vec::new(alloc)),
    }
}
