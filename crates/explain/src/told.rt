//! Which forms lead from each number to which. They are found in the index of the forms, so that no other form is looked at.
ghost use Rattle.explain.specs.Search.{AddsTold, AreLeadsWithin, AreTold, AreToldOf, IsLinkOf, LeadsOver, LeadsUp};
ghost use Rattle.indexes.specs.FormsUnderKeys.{IsUnder};
ghost use Rattle.indexes.specs.Keys.{by_plain, property_key};
ghost use Rattle.normal_forms.specs.declared.forms.PropId2.TheVariants.{Property};
ghost use Rattle.std.specs.Prelude.{◌↔◌, ◌≤◌, ◌^◌, Contains, IfOk, OnOk, ℕ};

use axioms::{IndId, Memory, PropId};
use indexes::IndexedProblem;
use normal_forms::{Form, PropId2};
use number_sets::{PackedLists, sort_ascending};
use std::alloc::{AllocError, Global};

/// The number of a form, and that of the property or individual that it leads to.
#[derive(Clone, Copy, PartialEq, Eq)]
pub(crate) struct Told {
    pub form: u32,
    pub to: u32,
}

// Adds what the plain form of that number leads to from the property.
fn tell_up(
    problem: &IndexedProblem,
    property: PropId,
    form: u32,
    told: &mut Vec<Told>,
) -> Result<(), AllocError>
    requires { IsUnder by_plain problem.now.forms (property_key (Property property)) form }
    ensures { OnOk result (AddsTold (LeadsUp problem.now.forms) form property.0 told.old.items told.new.items) }
{
    if let Some(Form::N5(_, above)) = problem.form(form) {
        told.push(Told { form, to: above.0 })?;
    }
    Ok(())
}

// The plain forms that lead from the property, in the order in which they are listed.
fn told_from(
    alloc: Global,
    problem: &IndexedProblem,
    property: PropId,
) -> Result<Vec<Told>, AllocError>
    ensures { IfOk result (λ v. AreToldOf (LeadsUp problem.now.forms) property.0 v.items) }
{
    let mut told = Vec::new(alloc);
    for form in problem.plain_from(PropId2::Property(property)) {
        tell_up(problem, property, *form, &mut told)?;
    }
    Ok(told)
}

/// For each property the plain forms that lead from it.
pub(crate) fn all_told(
    alloc: Global,
    properties: usize,
    problem: &IndexedProblem,
) -> Result<PackedLists<Told>, Memory>
    requires numbers { properties ≤ 2 ^ 32 }
    requires within { AreLeadsWithin properties (LeadsUp problem.now.forms) }
    ensures { IfOk result (λ l. AreTold properties (LeadsUp problem.now.forms) l) }
{
    let mut told = PackedLists::new(alloc);
    for number in 0..properties {
        let list = told_from(alloc, problem, PropId(number as u32))?;
        told.push_list(&list)?;
    }
    Ok(told)
}

// The numbers of the forms that make the individual one with another, ascending.
fn links_of(
    alloc: Global,
    problem: &IndexedProblem,
    individual: IndId,
) -> Result<Vec<u32>, AllocError>
    ensures { IfOk result (λ v. (n : ℕ) → Contains v.items n ↔ IsLinkOf problem.now.forms individual n) }
{
    let mut numbers = Vec::new(alloc);
    numbers.extend_from_slice(problem.linked_first(individual))?;
    numbers.extend_from_slice(problem.linked_second(individual))?;
    sort_ascending(&mut numbers);
    Ok(numbers)
}

// Adds which individual the form of that number makes one with this one.
fn tell_over(
    problem: &IndexedProblem,
    individual: IndId,
    form: u32,
    links: &mut Vec<Told>,
) -> Result<(), AllocError>
    requires { IsLinkOf problem.now.forms individual form }
    ensures { OnOk result (AddsTold (LeadsOver problem.now.forms) form individual.0 links.old.items links.new.items) }
{
    if let Some(Form::N10(first, second)) = problem.form(form) {
        let other = if first == individual { second } else { first };
        links.push(Told { form, to: other.0 })?;
    }
    Ok(())
}

// The forms that make the individual one with another, in the order of their numbers.
fn links_from(
    alloc: Global,
    problem: &IndexedProblem,
    individual: IndId,
) -> Result<Vec<Told>, AllocError>
    ensures { IfOk result (λ v. AreToldOf (LeadsOver problem.now.forms) individual.0 v.items) }
{
    let numbers = links_of(alloc, problem, individual)?;
    let mut links = Vec::new(alloc);
    for form in &numbers {
        tell_over(problem, individual, *form, &mut links)?;
    }
    Ok(links)
}

/// For each individual the forms that make it one with another.
pub(crate) fn all_links(
    alloc: Global,
    individuals: usize,
    problem: &IndexedProblem,
) -> Result<PackedLists<Told>, Memory>
    requires numbers { individuals ≤ 2 ^ 32 }
    requires within { AreLeadsWithin individuals (LeadsOver problem.now.forms) }
    ensures { IfOk result (λ l. AreTold individuals (LeadsOver problem.now.forms) l) }
{
    let mut links = PackedLists::new(alloc);
    for number in 0..individuals {
        let list = links_from(alloc, problem, IndId(number as u32))?;
        links.push_list(&list)?;
    }
    Ok(links)
}
