//! Explanations.
ghost use Rattle.closure.specs.Closure.{Expression, IsRoot};
ghost use Rattle.exactness.specs.ListedInterpretation.{IsConsistent};
ghost use Rattle.closure.specs.Denotations.{context_of};
ghost use Rattle.engine.specs.Saturations.{IsUnasked};
ghost use Rattle.answers.specs.Explanations.{Explains, IsKnown};
ghost use Rattle.answers.specs.Findings.{ExplainsOf};
ghost use Rattle.std.specs.Prelude.{◌↔◌, Contains, IfOk, IfSome, IsSome};

use crate::derived::{derivation_of, derived_contradiction};
use crate::explanation::Explanation;
use crate::named::{class_named, subject_named};
use crate::refuted::part_for;
use axioms::{ExprId, Memory};
use classification::is_consistent;
use engine::Indexed;
use facts::Context;
use program::Asked;

/// Whether, and why, the subject is in the class, where there is an interpretation of the axioms.
///
/// # Errors
///
/// `Memory` where memory was refused, or 32 bits do not count the facts.
fn explanation_where_consistent(
    indexed: &Indexed<'_>,
    subject: Context,
    class: ExprId,
) -> Result<Explanation, Memory>
    requires unasked { IsUnasked indexed.now.saturation }
    requires consistent { IsConsistent indexed.now.ontology indexed.now.saturation.normal.asked }
    requires subject { IsRoot indexed.now.ontology indexed.now.saturation.normal.asked (context_of subject) }
    requires class { IsRoot indexed.now.ontology indexed.now.saturation.normal.asked (Expression class.0) }
    ensures { IfOk result (ExplainsOf indexed.now.ontology (context_of subject) class.0) }
{
    let closed = indexed.closed();
    closed.well_formed();
    match derivation_of(indexed, subject, class)? {
        Some(lines) => Ok(Explanation::Yes(lines)),
        None => {
            let (part, element) = part_for(indexed, subject)?;
            part.well_formed();
            Ok(Explanation::No(part, element))
        }
    }
}

/// Whether, and why, the subject is in the class.
///
/// # Errors
///
/// `Memory` where memory was refused, or 32 bits do not count the facts.
fn explanation_of(
    indexed: &Indexed<'_>,
    subject: Context,
    class: ExprId,
) -> Result<Explanation, Memory>
    requires unasked { IsUnasked indexed.now.saturation }
    requires subject { IsRoot indexed.now.ontology indexed.now.saturation.normal.asked (context_of subject) }
    requires class { IsRoot indexed.now.ontology indexed.now.saturation.normal.asked (Expression class.0) }
    ensures { IfOk result (ExplainsOf indexed.now.ontology (context_of subject) class.0) }
{
    if is_consistent(indexed) {
        explanation_where_consistent(indexed, subject, class)
    } else {
        let lines = derived_contradiction(indexed.closed())?;
        Ok(Explanation::Contradictory(lines))
    }
}

/// Whether, and why, the subject is in the class of that name in every finite interpretation in which the axioms hold, by a saturation
/// in which nothing is asked about. `None` where the ontology has no class or individual of one of the names.
///
/// # Errors
///
/// `Memory` where memory was refused, or 32 bits do not count the facts.
pub(crate) fn explained(
    indexed: &Indexed<'_>,
    asked: Asked<'_>,
    class: &str,
) -> Result<Option<Explanation>, Memory>
    requires unasked { IsUnasked indexed.now.saturation }
    ensures known { IfOk result (λ answer. IsSome answer ↔ (IsKnown indexed.now.ontology asked.entry × Contains indexed.now.ontology.names.classes class.now)) }
    ensures explains { IfOk result (λ answer. IfSome answer (Explains indexed.now.ontology asked.entry class.now)) }
{
    let Some(subject) = subject_named(indexed, asked) else {
        return Ok(None);
    };
    let Some(class) = class_named(indexed, class) else {
        return Ok(None);
    };
    Ok(Some(explanation_of(indexed, subject, class)?))
}
