//! The expressions among contexts.
ghost use Rattle.certificate.specs.Writability.{Ascends};
ghost use Rattle.countermodel.specs.ContextLists.{PlacesExpressions, expression_at};
ghost use Rattle.std.specs.Prelude.{◌↔◌, ◌≡◌, ◌<◌, ◌^◌, [], All, Contains, IfOk, OnOk, length, map, ℕ};

use crate::ascending::ascending;
use axioms::{ExprId, Memory};
use facts::Context;
use std::alloc::Global;

/// The numbers of the expressions among the contexts, ascending, each once.
pub(crate) fn expressions_among(alloc: Global, contexts: &[Context]) -> Result<Vec<u32>, Memory>
    ensures ascend { IfOk result (λ v. Ascends v.items) }
    ensures same { IfOk result (λ v. (e : ℕ) → Contains v.items e ↔ Contains contexts.now (expression_at e)) }
{
    let mut expressions = Vec::new(alloc);
    for context in contexts {
        if let Context::Expr(expression) = context {
            expressions.push(expression.0)?;
        }
    }
    ascending(alloc, &expressions)
}

/// Adds the expressions of these numbers, which ascend. The table gets the place of each.
pub(crate) fn place_expressions(
    contexts: &mut Vec<Context>,
    places: &mut [u32],
    expressions: &[u32],
) -> Result<(), Memory>
    requires ascend { Ascends expressions.now }
    requires within { All (λ e. e < length places.old) expressions.now }
    requires few { length expressions.now < 2 ^ 32 }
    requires contexts { contexts.old.items ≡ [] }
    ensures listed { OnOk result (contexts.new.items ≡ map expression_at expressions.now) }
    ensures placed { OnOk result (PlacesExpressions contexts.new.items places.new) }
{
    for (place, expression) in expressions.iter().enumerate() {
        places[*expression as usize] = place as u32;
        contexts.push(Context::Expr(ExprId(*expression)))?;
    }
    Ok(())
}
