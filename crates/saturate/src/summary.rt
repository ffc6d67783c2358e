//! What forms come to, whatever the facts are, and which further forms leave it as it is.
ghost use Rattle.inference.specs.Joins.{AreJoins, HasMask};
ghost use Rattle.inference.specs.PropertyClosures.{IsClosureOf};
ghost use Rattle.inference.specs.Sameness.{AreGroupsOf};
ghost use Rattle.normal_forms.specs.declared.forms.PropId2.TheVariants as properties;
ghost use Rattle.property_closure.specs.PropertyClosures.{Has};
ghost use Rattle.saturate.specs.Growth.{EachFrom};
ghost use Rattle.saturate.specs.Summaries.{IsSummaryOf, LeavesClosure, LeavesFillers, LeavesGroups, LeavesJoins};
ghost use Rattle.std.specs.Prelude.{◌≡◌, ◌↔◌, ◌≤◌, IfOk, IsTrue, drop, length, take};

use crate::counts::{Counts, counted};
use axioms::{Memory, PropId};
use indexes::{Groups, IndexedProblem};
use inference::Joins;
use normal_forms::{Form, FormList, PropId2};
use property_closure::{PropertyClosure, close};
use std::alloc::Global;
use std::rc::Rc;

/// What the forms say of properties, which individuals they make one, and which edges their chains join: each in memory that summaries
/// of more forms may share.
#[derive(Drop)]
pub(crate) struct Summary {
    pub closure: Rc<PropertyClosure>,
    pub groups: Rc<Groups>,
    pub joins: Rc<Joins>,
}

/// What the forms say of properties.
fn closed(alloc: Global, forms: &FormList) -> Result<PropertyClosure, Memory>
    ensures { IfOk result (λ c. IsClosureOf forms.now c) }
{
    let counts = counted(Counts::none(), forms);
    close(alloc, counts.properties, counts.partials, forms)
}

/// Whether the closure has the property.
pub(crate) fn has(closure: &PropertyClosure, property: PropId2) -> bool
    ensures { IsTrue result ↔ Has closure.now property }
{
    !closure.supers(property).is_empty()
}

/// Whether the form leaves that closure as it is.
fn leaves_closure(closure: &PropertyClosure, form: Form) -> bool
    ensures { IsTrue result ↔ LeavesClosure closure.now form }
{
    match form {
        Form::N3(_, property, _) | Form::N9(_, property, _) => {
            has(closure, PropId2::Property(property))
        }
        Form::N5(..) | Form::N6(..) | Form::N7(..) => false,
        _ => true,
    }
}

/// Whether the forms from that number on leave that closure as it is.
fn leave_closure(closure: &PropertyClosure, forms: &FormList, from: usize) -> bool
    ensures { IsTrue result ↔ EachFrom (LeavesClosure closure.now) from forms.now }
{
    for number in from..forms.len() {
        if !leaves_closure(closure, forms.at(number)) {
            return false;
        }
    }
    true
}

/// Whether the form leaves it as it is which individuals are one.
fn leaves_groups(form: Form) -> bool
    ensures { IsTrue result ↔ LeavesGroups form }
{
    !matches!(form, Form::N10(..))
}

/// Whether the forms from that number on leave it as it is which individuals are one.
fn leave_groups(forms: &FormList, from: usize) -> bool
    ensures { IsTrue result ↔ EachFrom LeavesGroups from forms.now }
{
    for number in from..forms.len() {
        if !leaves_groups(forms.at(number)) {
            return false;
        }
    }
    true
}

/// Whether the property has no mask, and the closure does not have it.
fn is_fresh(closure: &PropertyClosure, joins: &Joins, property: PropId) -> bool
    ensures { IsTrue result ↔ (¬ HasMask joins.now property.0 × ¬ Has closure.now (properties.Property property)) }
{
    !joins.has_mask(property) && !has(closure, PropId2::Property(property))
}

/// Whether the form leaves these joins as they are.
fn leaves_joins(closure: &PropertyClosure, joins: &Joins, form: Form) -> bool
    ensures { IsTrue result ↔ LeavesJoins closure.now joins.now form }
{
    match form {
        Form::N4(..) | Form::N6(..) => false,
        Form::N5(property, _) => is_fresh(closure, joins, property),
        _ => true,
    }
}

/// Whether the forms from that number on leave these joins as they are.
fn leave_joins(closure: &PropertyClosure, joins: &Joins, forms: &FormList, from: usize) -> bool
    ensures { IsTrue result ↔ EachFrom (LeavesJoins closure.now joins.now) from forms.now }
{
    for number in from..forms.len() {
        if !leaves_joins(closure, joins, forms.at(number)) {
            return false;
        }
    }
    true
}

/// Whether the form is no restriction.
fn leaves_fillers(form: Form) -> bool
    ensures { IsTrue result ↔ LeavesFillers form }
{
    !matches!(form, Form::N4(..))
}

/// Whether none of the forms from that number on is a restriction.
fn leave_fillers(forms: &FormList, from: usize) -> bool
    ensures { IsTrue result ↔ EachFrom LeavesFillers from forms.now }
{
    for number in from..forms.len() {
        if !leaves_fillers(forms.at(number)) {
            return false;
        }
    }
    true
}

/// The forms from that number on.
fn forms_from(alloc: Global, forms: &FormList, from: usize) -> Result<FormList, Memory>
    requires { from ≤ length forms.now }
    ensures { IfOk result (λ rest. rest ≡ drop from forms.now) }
{
    let mut rest = FormList::new(alloc);
    for number in from..forms.len() {
        rest.push(forms.at(number))?;
    }
    Ok(rest)
}

/// The closure with the forms from that number on: lists that do not change are in the same memory.
fn grown(
    alloc: Global,
    closure: &PropertyClosure,
    forms: &FormList,
    from: usize,
) -> Result<PropertyClosure, Memory>
    requires from { from ≤ length forms.now }
    requires closure { IsClosureOf (take from forms.now) closure.now }
    ensures { IfOk result (λ c. IsClosureOf forms.now c) }
{
    let added = forms_from(alloc, forms, from)?;
    let counts = counted(Counts::of(closure), &added);
    let mut grown = closure.copy()?;
    grown.grow(counts.properties, counts.partials, &added)?;
    Ok(grown)
}

impl Summary {
    /// What the forms of the problem come to.
    pub(crate) fn of(alloc: Global, problem: &IndexedProblem) -> Result<Summary, Memory>
        ensures { IfOk result (IsSummaryOf problem.now.forms) }
    {
        let groups = Groups::of(alloc, problem.forms())?;
        let closure = closed(alloc, problem.forms())?;
        let joins = Joins::of(alloc, problem, &closure)?;
        Ok(Summary {
            closure: Rc::new(alloc, closure)?,
            groups: Rc::new(alloc, groups)?,
            joins: Rc::new(alloc, joins)?,
        })
    }

    /// What the forms say of properties, of which those before that number come to this summary.
    fn closure_with(
        &self,
        alloc: Global,
        forms: &FormList,
        from: usize,
    ) -> Result<Rc<PropertyClosure>, Memory>
        requires from { from ≤ length forms.now }
        requires closure { IsClosureOf (take from forms.now) self.now.closure.value }
        ensures { IfOk result (λ c. IsClosureOf forms.now c.value) }
    {
        let closure = self.closure.as_ref();
        if leave_closure(closure, forms, from) {
            return Ok(self.closure.clone()?);
        }
        Ok(Rc::new(alloc, grown(alloc, closure, forms, from)?)?)
    }

    /// Which individuals the forms make one, of which those before that number come to this summary.
    fn groups_with(
        &self,
        alloc: Global,
        forms: &FormList,
        from: usize,
    ) -> Result<Rc<Groups>, Memory>
        requires from { from ≤ length forms.now }
        requires groups { AreGroupsOf (take from forms.now) self.now.groups.value }
        ensures { IfOk result (λ g. AreGroupsOf forms.now g.value) }
    {
        if leave_groups(forms, from) {
            return Ok(self.groups.clone()?);
        }
        Ok(Rc::new(alloc, Groups::of(alloc, forms)?)?)
    }

    /// Which edges the chains of the problem join, where its forms before that number come to this summary, and this is the closure of
    /// all.
    fn joins_with(
        &self,
        alloc: Global,
        problem: &IndexedProblem,
        closure: &PropertyClosure,
        from: usize,
    ) -> Result<Rc<Joins>, Memory>
        requires from { from ≤ length problem.now.forms }
        requires before { IsSummaryOf (take from problem.now.forms) self.now }
        requires closure { IsClosureOf problem.now.forms closure.now }
        ensures { IfOk result (λ j. AreJoins problem.now.forms j.value) }
    {
        let before = self.closure.as_ref();
        before.well_formed();
        if leave_joins(before, self.joins.as_ref(), problem.forms(), from) {
            return Ok(self.joins.clone()?);
        }
        if leave_fillers(problem.forms(), from) {
            let joins = self.joins.as_ref().with_chains(alloc, problem, closure)?;
            return Ok(Rc::new(alloc, joins)?);
        }
        Ok(Rc::new(alloc, Joins::of(alloc, problem, closure)?)?)
    }

    /// What the forms of the problem come to, of which those before that number come to this summary. What the others leave as it is
    /// stays in the same memory.
    pub(crate) fn continued(
        &self,
        alloc: Global,
        problem: &IndexedProblem,
        from: usize,
    ) -> Result<Summary, Memory>
        requires from { from ≤ length problem.now.forms }
        requires before { IsSummaryOf (take from problem.now.forms) self.now }
        ensures { IfOk result (IsSummaryOf problem.now.forms) }
    {
        let closure = self.closure_with(alloc, problem.forms(), from)?;
        let groups = self.groups_with(alloc, problem.forms(), from)?;
        let joins = self.joins_with(alloc, problem, closure.as_ref(), from)?;
        Ok(Summary {
            closure,
            groups,
            joins,
        })
    }
}
