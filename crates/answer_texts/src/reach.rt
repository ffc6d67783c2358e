//! The elements that pairs lead to from one.
ghost use Rattle.answer_texts.specs.Reached.{IsReached, all_targets};
ghost use Rattle.interpretation_spec.specs.NumberedInterpretation.{IsMadeFor};
ghost use Rattle.number_sets.specs.Members.{has};
ghost use Rattle.number_sets.specs.Search.{search_of, with_number, with_starts};
ghost use Rattle.std.specs.Prelude.{◌<◌, ◌↔◌, ◌≡◌, ◌^◌, ◌≤◌, IfOk, OnOk, true, ℕ};

use axioms::{Memory, Ontology, PropId};
use interpretation_spec::Interpretation;
use number_sets::{EpochSet, NumberSearch};
use std::alloc::{AllocError, Global};

// Adds the element, unless it is there.
fn add(search: &mut NumberSearch<usize>, element: usize) -> Result<(), AllocError>
    ensures { OnOk result (search_of search.new ≡ with_number (search_of search.old) element element) }
{
    if !search.seen.contains(element) {
        search.found.push(element)?;
        search.seen.put(element);
    }
    Ok(())
}

// Adds each of these.
fn add_all(search: &mut NumberSearch<usize>, elements: &[usize]) -> Result<(), AllocError>
    ensures { OnOk result (search_of search.new ≡ with_starts (λ x. x) (search_of search.old) elements.now) }
{
    for element in elements {
        add(search, *element)?;
    }
    Ok(())
}

// Adds what pairs of so many properties lead to from the element.
fn follow(
    search: &mut NumberSearch<usize>,
    interpretation: &Interpretation,
    properties: usize,
    element: usize,
) -> Result<(), AllocError>
    requires { properties ≤ 2 ^ 32 }
    ensures { OnOk result
        (search_of search.new ≡ with_starts (λ x. x) (search_of search.old) (all_targets interpretation.now properties element)) }
{
    for number in 0..properties {
        let property = PropId(number as u32);
        add_all(search, interpretation.targets_at(property, element))?;
    }
    Ok(())
}

/// The elements that pairs lead to from this one: it, those that its pairs lead to, and so on. The cost goes by them and by what
/// pairs they have.
///
/// # Errors
///
/// `Memory` where memory was refused.
pub(crate) fn reached(
    alloc: Global,
    ontology: &Ontology,
    interpretation: &Interpretation,
    from: usize,
) -> Result<EpochSet, Memory>
    requires { IsMadeFor ontology.now.names interpretation.now }
    ensures { IfOk result (λ s. (y : ℕ) → (has s y ≡ true) ↔ IsReached interpretation.now from y) }
{
    ontology.bounded();
    interpretation.well_formed();
    let properties = ontology.properties().len();
    let seen = EpochSet::new(alloc, interpretation.size())?;
    if from >= interpretation.size() {
        return Ok(seen);
    }
    let found = Vec::new(alloc);
    let mut search = NumberSearch { found, seen };
    add(&mut search, from)?;
    for next in 0..interpretation.size() {
        if next >= search.found.len() {
            return Ok(search.seen);
        }
        let element = search.found[next];
        follow(&mut search, interpretation, properties, element)?;
    }
    Ok(search.seen)
}
