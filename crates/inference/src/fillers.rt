//! For which classes an edge may carry something to its source, and the restrictions on each property.
ghost use Rattle.std.specs.Prelude.{◌≡◌, ◌↔◌, ◌+◌, ◌<◌, ◌^◌, ℕ, Contains, IfOk, IsTrue, OnOk, length, slice_get, Some};
ghost use Rattle.facts.specs.Closure.{nothing};
ghost use Rattle.indexes.specs.Keys.{by_restricted};
ghost use Rattle.indexes.specs.declared.keys.Key.TheVariants as keys;
ghost use Rattle.normal_forms.specs.declared.forms.Class2.TheVariants as the_classes;
ghost use Rattle.inference.specs.Marks.{AreRestrictions, AreRestrictionsBefore, AreRestrictionsWithin, HasFilled, HasFilledAt};
ghost use Rattle.inference.specs.Joins.{AreFillers};

use crate::conclusions::NOTHING;
use crate::joins::bit;
use axioms::{ExprId, Memory};
use indexes::IndexedProblem;
use normal_forms::{Class2, Form, FormList, PropId2};
use number_sets::{OpenLists, PackedLists};
use std::alloc::{AllocError, Global};

/// For each expression a mask of the properties of the restrictions that it fills, and for each property the numbers of the restrictions
/// on it.
#[derive(Drop)]
pub struct Fillers {
    pub(crate) filled: Vec<u64>,
    pub(crate) restrictions: PackedLists,
}

/// The bit of the property of the form of that number, if it is a restriction.
fn restriction(problem: &IndexedProblem, number: u32) -> u64
    ensures { HasFilledAt problem.now.forms result number }
{
    match problem.form(number) {
        Some(Form::N4(property, ..)) => bit(PropId2::Property(property)),
        _ => 0,
    }
}

/// The bits of the properties of those of the forms that are restrictions.
fn restrictions(problem: &IndexedProblem, numbers: &[u32]) -> u64
    ensures { (n : ℕ) → Contains numbers.now n → HasFilledAt problem.now.forms result n }
{
    let mut mask = 0;
    for number in numbers {
        mask |= restriction(problem, *number);
    }
    mask
}

/// Whether the class is `owl:Nothing`.
fn is_nothing(class: Class2) -> bool
    ensures { IsTrue result ↔ (class ≡ nothing) }
{
    class == NOTHING
}

/// The bits of the properties of the restrictions that the class fills; all for `owl:Nothing`, which each edge carries.
fn filled_by(problem: &IndexedProblem, class: Class2) -> u64
    ensures { HasFilled problem.now.forms result class }
{
    if is_nothing(class) {
        u64::MAX
    } else {
        restrictions(problem, problem.with_filler(class))
    }
}

/// The masks of the expressions up to the last that fills a restriction.
fn all_filled(alloc: Global, problem: &IndexedProblem) -> Result<Vec<u64>, Memory>
    ensures { IfOk result (λ masks. (n mask : ℕ) → slice_get masks.items n ≡ Some mask → HasFilled problem.now.forms mask (the_classes.Expr (record { 0 = n }))) }
{
    let end = problem.fillers_end().min(u32::MAX as usize);
    let mut masks = Vec::with_capacity(alloc, end)?;
    for number in 0..end {
        let class = Class2::Expr(ExprId(number as u32));
        masks.push(filled_by(problem, class))?;
    }
    Ok(masks)
}

/// A number above that of the property that the form is a restriction on; 0 where it is none.
fn end_by(form: Form) -> usize
    ensures { (r : ℕ) → by_restricted form ≡ Some (keys.Whole r) → r < result }
{
    match form {
        Form::N4(property, ..) => property.index() + 1,
        _ => 0,
    }
}

/// A number above that of each property that one of the forms is a restriction on.
fn restrictions_end(forms: &FormList) -> usize
    ensures { AreRestrictionsWithin forms.now result }
{
    let mut end = 0;
    for number in 0..forms.len() {
        end = end.max(end_by(forms.at(number)));
    }
    end
}

/// Adds the number of a form to the list of the property that it is a restriction on, if it is one.
fn list_restriction(
    forms: &FormList,
    number: usize,
    lists: &mut OpenLists,
) -> Result<(), AllocError>
    requires few { length forms.now < 2 ^ 32 }
    requires there { number < length forms.now }
    requires within { AreRestrictionsWithin forms.now (length lists.old) }
    requires before { AreRestrictionsBefore forms.now number lists.old }
    ensures long { OnOk result (length lists.new ≡ length lists.old) }
    ensures listed { OnOk result (AreRestrictionsBefore forms.now (number + 1) lists.new) }
{
    if let Form::N4(property, ..) = forms.at(number) {
        lists.push(property.index(), number as u32)?;
    }
    Ok(())
}

/// For each property up to the last that a restriction is on the numbers of the restrictions on it.
fn all_restrictions(alloc: Global, forms: &FormList) -> Result<PackedLists, Memory>
    ensures { IfOk result (AreRestrictions forms.now) }
{
    if forms.len() > u32::MAX as usize {
        return Err(Memory);
    }
    let mut lists = OpenLists::new(alloc, restrictions_end(forms))?;
    for number in 0..forms.len() {
        list_restriction(forms, number, &mut lists)?;
    }
    Ok(lists.packed(alloc)?)
}

impl Fillers {
    /// What the restrictions of the problem need.
    pub(crate) fn of(alloc: Global, problem: &IndexedProblem) -> Result<Fillers, Memory>
        ensures { IfOk result (AreFillers problem.now.forms) }
    {
        let restrictions = all_restrictions(alloc, problem.forms())?;
        let filled = all_filled(alloc, problem)?;
        Ok(Fillers {
            filled,
            restrictions,
        })
    }
}
