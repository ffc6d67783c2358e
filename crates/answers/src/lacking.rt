//! What of the conditions for a class something has, and what it lacks.
ghost use Rattle.answers.specs.Conditions.{AreConditions, IsLacking, IsRightOf, parts_of};
ghost use Rattle.answers.specs.Explanations.{IsKnown};
ghost use Rattle.answers.specs.Findings.{FollowsByFacts, IsFactOf, IsLackingOf};
ghost use Rattle.axioms.specs.View.{expr_numbers};
ghost use Rattle.closure.specs.Denotations.{context_of};
ghost use Rattle.std.specs.Prelude.{◌↔◌, ◌≡◌, All, Contains, IfOk, IfSome, IsSome, IsTrue, map};

use crate::condition::{Condition, Lacking, Part};
use crate::conditions::conditions_for;
use crate::named::{class_named, subject_named};
use axioms::{Expr, ExprId, Memory};
use classification::is_consistent;
use engine::Indexed;
use facts::{Context, Fact};
use normal_forms::Class2;
use program::Asked;

/// Whether the expression is a fact of the subject.
fn is_fact(indexed: &Indexed<'_>, subject: Context, expression: ExprId) -> bool
    ensures { IsTrue result ↔ IsFactOf indexed.now.ontology indexed.now.saturation.normal.asked (context_of subject) expression.0 }
{
    indexed.closed().well_formed();
    let wanted = Fact::In(Class2::Expr(expression), subject);
    indexed.find(wanted).is_some()
}

/// Whether the closure says that the subject is in the class.
fn follows(indexed: &Indexed<'_>, subject: Context, class: ExprId) -> bool
    ensures { IsTrue result ↔ FollowsByFacts indexed.now.ontology indexed.now.saturation.normal.asked (context_of subject) class.0 }
{
    !is_consistent(indexed)
        || is_fact(indexed, subject, ExprId::NOTHING)
        || is_fact(indexed, subject, class)
}

/// The expression as a part of a condition, with whether the subject has it.
fn part_of(indexed: &Indexed<'_>, subject: Context, expression: ExprId) -> Part
    ensures number { result.expression.0 ≡ expression.0 }
    ensures right { IsRightOf (IsFactOf indexed.now.ontology indexed.now.saturation.normal.asked (context_of subject)) result }
{
    Part {
        expression,
        has: is_fact(indexed, subject, expression),
    }
}

/// The expressions as parts of a condition, each with whether the subject has it.
fn parts_among(
    indexed: &Indexed<'_>,
    subject: Context,
    expressions: &[ExprId],
) -> Result<Vec<Part>, Memory>
    ensures numbers { IfOk result (λ v. map (λ part. part.expression.0) v.items ≡ expr_numbers expressions.now) }
    ensures right { IfOk result (λ v. All (IsRightOf (IsFactOf indexed.now.ontology indexed.now.saturation.normal.asked (context_of subject))) v.items) }
{
    let mut parts = Vec::new(indexed.closed().allocator());
    for expression in expressions {
        parts.push(part_of(indexed, subject, *expression))?;
    }
    Ok(parts)
}

/// The parts of the condition, each with whether the subject has it.
fn parts_for(
    indexed: &Indexed<'_>,
    subject: Context,
    condition: ExprId,
) -> Result<Vec<Part>, Memory>
    ensures numbers { IfOk result (λ v. map (λ part. part.expression.0) v.items ≡ parts_of indexed.now.ontology condition.0) }
    ensures right { IfOk result (λ v. All (IsRightOf (IsFactOf indexed.now.ontology indexed.now.saturation.normal.asked (context_of subject))) v.items) }
{
    match indexed.closed().ontology().expr(condition) {
        Some(Expr::And(operands)) => parts_among(indexed, subject, operands),
        _ => parts_among(indexed, subject, &[condition]),
    }
}

/// The conditions that axioms state for the class, with what the subject has of each.
fn conditions_with_parts(
    indexed: &Indexed<'_>,
    subject: Context,
    class: ExprId,
) -> Result<Vec<Condition>, Memory>
    ensures { IfOk result (λ v. AreConditions indexed.now.ontology class.0 (IsFactOf indexed.now.ontology indexed.now.saturation.normal.asked (context_of subject)) v.items) }
{
    let closed = indexed.closed();
    let alloc = closed.allocator();
    let conditions = conditions_for(alloc, closed.ontology(), class)?;
    let mut found = Vec::new(alloc);
    for stated in &conditions {
        let parts = parts_for(indexed, subject, stated.condition)?;
        found.push(Condition {
            axiom: stated.axiom,
            parts,
        })?;
    }
    Ok(found)
}

/// What the subject lacks to be in the class.
fn lacking_of(indexed: &Indexed<'_>, subject: Context, class: ExprId) -> Result<Lacking, Memory>
    ensures { IfOk result (IsLackingOf indexed.now.ontology (context_of subject) class.0) }
{
    indexed.closed().well_formed();
    if follows(indexed, subject, class) {
        return Ok(Lacking::Nothing);
    }
    let conditions = conditions_with_parts(indexed, subject, class)?;
    Ok(Lacking::Conditions(conditions))
}

/// What it is that is asked of lacks to be in the class of that name, by what holds in every finite interpretation in which the axioms
/// hold. `None` where the ontology has no class or individual of one of the names.
///
/// # Errors
///
/// `Memory` where memory was refused.
pub(crate) fn lacked(
    indexed: &Indexed<'_>,
    asked: Asked<'_>,
    class: &str,
) -> Result<Option<Lacking>, Memory>
    ensures known { IfOk result (λ answer. IsSome answer ↔ (IsKnown indexed.now.ontology asked.entry × Contains indexed.now.ontology.names.classes class.now)) }
    ensures exact { IfOk result (λ answer. IfSome answer (IsLacking indexed.now.ontology asked.entry class.now)) }
{
    let Some(subject) = subject_named(indexed, asked) else {
        return Ok(None);
    };
    let Some(class) = class_named(indexed, class) else {
        return Ok(None);
    };
    let lacking = lacking_of(indexed, subject, class)?;
    Ok(Some(lacking))
}
