//! Conditions for a class in texts.
ghost use Rattle.answer_texts.specs.Conditions.{axiom_number_line, having_word, part_line};
ghost use Rattle.std.specs.Prelude.{◌++◌, ◌<◌, ◌≡◌, OnOk, length};

use crate::expression::push_expression;
use crate::names::push_number;
use axioms::{ExprId, Memory, Ontology};

/// Adds the line of the axiom that states a condition, by its number.
///
/// # Errors
///
/// `Memory` where memory was refused; then some of the line may be there.
pub fn push_axiom_number(out: &mut Vec<u8>, number: usize) -> Result<(), Memory>
    ensures { OnOk result (out.new.items ≡ out.old.items ++ axiom_number_line number) }
{
    push_number(out, b"axiom ", number as u64)?;
    out.push(b'\n')?;
    Ok(())
}

// The word for whether something has it.
fn having_word(has: bool) -> &'static [u8]
    ensures { result.now ≡ having_word has }
{
    if has { b"has " } else { b"lacks " }
}

/// Adds the line of a part of a condition: whether something has it, and the expression in the functional syntax with full IRIs and
/// single spaces.
///
/// # Errors
///
/// `Memory` where memory was refused; then some of the line may be there.
pub fn push_part(
    out: &mut Vec<u8>,
    ontology: &Ontology,
    part: ExprId,
    has: bool,
) -> Result<(), Memory>
    requires { part.0 < length ontology.now.nodes }
    ensures { OnOk result (out.new.items ≡ out.old.items ++ part_line ontology.now has part.0) }
{
    out.extend_from_slice(having_word(has))?;
    push_expression(out, ontology, part)?;
    out.push(b'\n')?;
    Ok(())
}
