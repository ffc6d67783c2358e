//! The forms of intersections that occur left and of chains, step by step over their prefixes.
ghost use Rattle.std.specs.Prelude.{◌≡◌, ℕ, ◌+◌, ◌<◌, IfOk, OnOk, length, take};
ghost use Rattle.axioms.specs.View.{expr_numbers, prop_numbers};
ghost use Rattle.normal_forms.specs.Origins.{AndGives, ChainGives};
ghost use Rattle.normalise.specs.FreshNames.{prefixes_of};
ghost use Rattle.normalise.specs.Steps.{ChainStep, MoreOperands, MoreSteps, NumbersBehind, OperandStep};
ghost use Rattle.normalise.specs.View.{Adds, From, StartsClass, StartsProperty, class_number, property_number};

use crate::lists::{expr_at, prop_at};
use crate::made::Made;
use axioms::{ExprId, Memory, PropId};
use normal_forms::{Class2, Form, Origin, PropId2};

// The number of a fresh name.
fn number_of_class(class: Class2) -> Option<u32>
    ensures { result ≡ class_number class }
{
    match class {
        Class2::Expr(_) => None,
        Class2::Partial(number) => Some(number),
    }
}

// The number of a fresh name.
fn number_of_property(property: PropId2) -> Option<u32>
    ensures { result ≡ property_number property }
{
    match property {
        PropId2::Property(_) => None,
        PropId2::Partial(number) => Some(number),
    }
}

impl Made {
    // The class of the first k + 1 operands, where the shorter one is that of the first k.
    fn more_operands(
        &mut self,
        operands: &[ExprId],
        whole: ExprId,
        k: usize,
        shorter: Class2,
    ) -> Result<Class2, Memory>
        requires first { 0 < k }
        requires within { k < length operands.now }
        requires starts { StartsClass self.old.operands shorter (take k (expr_numbers operands.now)) }
        ensures { IfOk result (λ c. MoreOperands self.old self.new (expr_numbers operands.now) whole.0 k c) }
    {
        if k + 1 == operands.len() {
            return Ok(Class2::Expr(whole));
        }
        let number = self
            .operands
            .longer(number_of_class(shorter), &operands[..k + 1])?;
        Ok(Class2::Partial(number))
    }

    // The class of the first k operands and the k-th are below that of the first k + 1.
    fn operand(
        &mut self,
        operands: &[ExprId],
        whole: ExprId,
        k: usize,
        shorter: Class2,
        origin: Origin,
    ) -> Result<Class2, Memory>
        requires first { 0 < k }
        requires within { k < length operands.now }
        requires starts { StartsClass self.old.operands shorter (take k (expr_numbers operands.now)) }
        ensures { IfOk result (λ c. OperandStep self.old self.new (expr_numbers operands.now) whole.0 k origin c) }
    {
        let all = self.more_operands(operands, whole, k, shorter)?;
        let next = Class2::Expr(expr_at(operands, k));
        self.add(Form::N2(shorter, next, all), origin)?;
        Ok(all)
    }

    // An intersection that occurs left.
    pub(crate) fn left_and(
        &mut self,
        operands: &[ExprId],
        whole: ExprId,
        origin: Origin,
    ) -> Result<(), Memory>
        ensures { OnOk result (Adds self.old self.new (From origin (λ g. (n : ℕ) × AndGives (expr_numbers operands.now) whole.0 n g))) }
    {
        if operands.is_empty() {
            return Ok(());
        }
        let mut shorter = Class2::Expr(expr_at(operands, 0));
        for k in 1..operands.len() {
            shorter = self.operand(operands, whole, k, shorter, origin)?;
        }
        Ok(())
    }

    // The property of the first k + 1 steps, where the shorter one is that of the first k.
    fn more_steps(
        &mut self,
        steps: &[PropId],
        whole: PropId,
        k: usize,
        shorter: PropId2,
    ) -> Result<PropId2, Memory>
        requires first { 0 < k }
        requires within { k < length steps.now }
        requires starts { StartsProperty self.old.steps shorter (take k (prop_numbers steps.now)) }
        ensures { IfOk result (λ q. MoreSteps self.old self.new (prop_numbers steps.now) whole.0 k q) }
    {
        if k + 1 == steps.len() {
            return Ok(PropId2::Property(whole));
        }
        let number = self
            .steps
            .longer(number_of_property(shorter), &steps[..k + 1])?;
        Ok(PropId2::Partial(number))
    }

    // The first k steps and then the k-th are below the first k + 1.
    fn step(
        &mut self,
        steps: &[PropId],
        whole: PropId,
        k: usize,
        shorter: PropId2,
        origin: Origin,
    ) -> Result<PropId2, Memory>
        requires first { 0 < k }
        requires within { k < length steps.now }
        requires starts { StartsProperty self.old.steps shorter (take k (prop_numbers steps.now)) }
        ensures { IfOk result (λ q. ChainStep self.old self.new (prop_numbers steps.now) whole.0 k origin q) }
    {
        let all = self.more_steps(steps, whole, k, shorter)?;
        let next = PropId2::Property(prop_at(steps, k));
        self.add(Form::N6(shorter, next, all), origin)?;
        Ok(all)
    }

    // A chain of properties.
    pub(crate) fn chain(
        &mut self,
        steps: &[PropId],
        whole: PropId,
        origin: Origin,
    ) -> Result<(), Memory>
        ensures forms { OnOk result (Adds self.old self.new (From origin (λ g. (n : ℕ) × ChainGives (prop_numbers steps.now) whole.0 n g))) }
        ensures names { OnOk result (NumbersBehind self.old.steps (prefixes_of (prop_numbers steps.now)) self.new.steps) }
    {
        if steps.is_empty() {
            return Ok(());
        }
        let mut shorter = PropId2::Property(prop_at(steps, 0));
        for k in 1..steps.len() {
            shorter = self.step(steps, whole, k, shorter, origin)?;
        }
        Ok(())
    }
}
