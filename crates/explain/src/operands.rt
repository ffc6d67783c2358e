//! What classes and properties of facts stand for.
ghost use Rattle.explain.specs.Exchanges.{AreOperandsOf, AreStepsOf};
ghost use Rattle.normalise.specs.Problem.{prefixes_of};
ghost use Rattle.std.specs.Prelude.{IfOk};

use axioms::{ExprId, Memory, PropId};
use normal_forms::{Class2, PropId2};
use normalise::Normal;
use std::alloc::Global;

/// The class itself, or the operands of the prefix.
///
/// # Errors
///
/// `Memory` where memory was refused.
pub(crate) fn operands(alloc: Global, normal: &Normal, class: Class2) -> Result<Vec<ExprId>, Memory>
    ensures { IfOk result (λ v. AreOperandsOf (prefixes_of normal.now) class v.items) }
{
    let mut operands = Vec::new(alloc);
    match class {
        Class2::Expr(expression) => operands.push(expression)?,
        Class2::Partial(number) => {
            if let Some(list) = normal.operands(number as usize) {
                operands.extend_from_slice(list)?;
            }
        }
    }
    Ok(operands)
}

/// The property itself, or the steps of the prefix.
///
/// # Errors
///
/// `Memory` where memory was refused.
pub(crate) fn steps(
    alloc: Global,
    normal: &Normal,
    property: PropId2,
) -> Result<Vec<PropId>, Memory>
    ensures { IfOk result (λ v. AreStepsOf (prefixes_of normal.now) property v.items) }
{
    let mut steps = Vec::new(alloc);
    match property {
        PropId2::Property(property) => steps.push(property)?,
        PropId2::Partial(number) => {
            if let Some(list) = normal.steps(number as usize) {
                steps.extend_from_slice(list)?;
            }
        }
    }
    Ok(steps)
}
