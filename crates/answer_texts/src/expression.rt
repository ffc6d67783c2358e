//! Class expressions in texts.
ghost use Rattle.answer_texts.specs.Names.{expression_text};
ghost use Rattle.axioms.specs.Ontology.{expression as expression_of};
ghost use Rattle.std.specs.Prelude.{◌++◌, ◌<◌, ◌≡◌, OnOk, length};

use crate::names::push_name;
use axioms::{Expr, ExprId, Ontology};
use std::alloc::AllocError;

/// Adds the expression in the functional syntax, with full IRIs and single spaces.
pub(crate) fn push_expression(
    out: &mut Vec<u8>,
    ontology: &Ontology,
    expression: ExprId,
) -> Result<(), AllocError>
    requires { expression.0 < length ontology.now.nodes }
    ensures { OnOk result (out.new.items ≡ out.old.items ++ expression_text (expression_of ontology.now expression.0)) }
{
    match ontology.expr(expression) {
        Some(Expr::Class(class)) => push_name(out, ontology.classes(), class.index()),
        Some(Expr::And(operands)) => {
            let mut lead: &[u8] = b"ObjectIntersectionOf(";
            for operand in operands {
                out.extend_from_slice(lead)?;
                push_expression(out, ontology, *operand)?;
                lead = b" ";
            }
            out.extend_from_slice(b")")
        }
        Some(Expr::Some(property, filler)) => {
            out.extend_from_slice(b"ObjectSomeValuesFrom(")?;
            push_name(out, ontology.properties(), property.index())?;
            out.extend_from_slice(b" ")?;
            push_expression(out, ontology, *filler)?;
            out.extend_from_slice(b")")
        }
        None => unreachable!(),
    }
}
