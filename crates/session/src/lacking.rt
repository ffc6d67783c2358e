//! What is lacked, as lines.
ghost use Rattle.session.specs.TextAnswers.{condition_lines, conditions_text, lacking_text, part_lines};
ghost use Rattle.session.specs.Texts.{IsWithin};
ghost use Rattle.std.specs.List.{flat_map};
ghost use Rattle.std.specs.Prelude.{◌++◌, ◌<◌, ◌≡◌, All, IfOk, OnOk, length};

use answer_texts::{push_axiom_number, push_part};
use answers::{Condition, Lacking, Part};
use axioms::{Memory, Ontology};
use std::alloc::Global;

/// Adds a line for each part of a condition.
fn push_parts(out: &mut Vec<u8>, ontology: &Ontology, parts: &[Part]) -> Result<(), Memory>
    requires { All (λ part. part.expression.0 < length ontology.now.nodes) parts.now }
    ensures { OnOk result (out.new.items ≡ out.old.items ++ part_lines ontology.now parts.now) }
{
    for part in parts {
        push_part(out, ontology, part.expression, part.has)?;
    }
    Ok(())
}

/// Adds the line of the axiom that states the condition, and those of its parts.
fn push_condition(
    out: &mut Vec<u8>,
    ontology: &Ontology,
    condition: &Condition,
) -> Result<(), Memory>
    requires { All (λ part. part.expression.0 < length ontology.now.nodes) condition.now.parts.items }
    ensures { OnOk result (out.new.items ≡ out.old.items ++ condition_lines ontology.now condition.now) }
{
    push_axiom_number(out, condition.axiom)?;
    push_parts(out, ontology, &condition.parts)
}

/// Adds the lines of the conditions.
fn push_conditions(
    out: &mut Vec<u8>,
    ontology: &Ontology,
    conditions: &[Condition],
) -> Result<(), Memory>
    requires { All (λ condition. All (λ part. part.expression.0 < length ontology.now.nodes) condition.parts.items) conditions.now }
    ensures { OnOk result (out.new.items ≡ out.old.items ++ flat_map (condition_lines ontology.now) conditions.now) }
{
    for condition in conditions {
        push_condition(out, ontology, condition)?;
    }
    Ok(())
}

/// The lines of all conditions, or that there is none.
fn text_of_conditions(
    alloc: Global,
    ontology: &Ontology,
    conditions: &[Condition],
) -> Result<Vec<u8>, Memory>
    requires { All (λ condition. All (λ part. part.expression.0 < length ontology.now.nodes) condition.parts.items) conditions.now }
    ensures { IfOk result (λ v. v.items ≡ conditions_text ontology.now conditions.now) }
{
    let mut out = Vec::new(alloc);
    match conditions {
        [] => out.extend_from_slice(b"no condition\n")?,
        [first, later @ ..] => {
            push_condition(&mut out, ontology, first)?;
            push_conditions(&mut out, ontology, later)?;
        }
    }
    Ok(out)
}

/// That nothing is lacked, or the lines of all conditions.
pub(crate) fn text_of_lacking(
    alloc: Global,
    ontology: &Ontology,
    lacking: &Lacking,
) -> Result<Vec<u8>, Memory>
    requires { IsWithin ontology.now lacking.now }
    ensures { IfOk result (λ v. v.items ≡ lacking_text ontology.now lacking.now) }
{
    match lacking {
        Lacking::Nothing => {
            let mut out = Vec::new(alloc);
            out.extend_from_slice(b"yes\n")?;
            Ok(out)
        }
        Lacking::Conditions(conditions) => text_of_conditions(alloc, ontology, conditions),
    }
}
