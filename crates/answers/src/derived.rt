//! Derivations that end in what is asked.
ghost use Rattle.certificate.specs.Certificate.{Sub};
ghost use Rattle.certificate.specs.View.{lines_of, subject_of as subject_in};
ghost use Rattle.closure.specs.Closure.{Expression, IsRoot};
ghost use Rattle.exactness.specs.ListedInterpretation.{IsConsistent};
ghost use Rattle.exactness.specs.Derivability.{subject_of as subject_by};
ghost use Rattle.closure.specs.Denotations.{context_of};
ghost use Rattle.explain.specs.Needs.{Derives};
ghost use Rattle.answers.specs.Explanations.{ShowsContradiction};
ghost use Rattle.answers.specs.Findings.{IsRefutable, line_from_nothing};
ghost use Rattle.std.specs.Prelude.{◌≡◌, ◌++◌, ◌∷◌, [], IfOk, MatchOption, length};

use axioms::{ExprId, Memory};
use certificate::{Conclusion, Line, Rule, Subject};
use engine::{Closed, Indexed};
use explain::{contradiction, lines_of};
use facts::Context;
use std::alloc::Global;

/// The context as the subject of lines.
fn subject_of(context: Context) -> Subject
    ensures { subject_in result ≡ subject_by (context_of context) }
{
    match context {
        Context::Expr(expression) => Subject::Expr(expression),
        Context::Individual(individual) => Subject::Individual(individual),
    }
}

/// The lines, which end in that the subject lies in `owl:Nothing`, and that it therefore lies in the class.
fn with_class(
    alloc: Global,
    mut lines: Vec<Line>,
    subject: Subject,
    class: ExprId,
) -> Result<Vec<Line>, Memory>
    ensures { IfOk result
        (λ v. lines_of v.items ≡ lines_of lines.items ++ line_from_nothing (subject_in subject) class.0 (length lines.items) ∷ []) }
{
    let mut premises = Vec::new(alloc);
    premises.push(lines.len() as u64)?;
    lines.push(Line {
        conclusion: Conclusion::Sub(subject, class),
        rule: Rule::K3,
        axiom: None,
        premises,
    })?;
    Ok(lines)
}

/// A derivation that ends in that the subject lies in the class, where that or that it lies in `owl:Nothing` is a fact.
///
/// # Errors
///
/// `Memory` where memory was refused, or 32 bits do not count the facts.
pub(crate) fn derivation_of(
    indexed: &Indexed<'_>,
    subject: Context,
    class: ExprId,
) -> Result<Option<Vec<Line>>, Memory>
    requires subject { IsRoot indexed.now.ontology indexed.now.saturation.normal.asked (context_of subject) }
    requires class { IsRoot indexed.now.ontology indexed.now.saturation.normal.asked (Expression class.0) }
    ensures { IfOk result (λ found. MatchOption found (IsRefutable indexed.now.ontology indexed.now.saturation.normal.asked (context_of subject) class.0)
        (λ v. Derives indexed.now.ontology (Sub (subject_by (context_of subject)) class.0) (lines_of v.items))) }
{
    let closed = indexed.closed();
    let alloc = closed.allocator();
    closed.well_formed();
    if let Some(lines) = lines_of(indexed, subject, class)? {
        return Ok(Some(lines));
    }
    match lines_of(indexed, subject, ExprId::NOTHING)? {
        Some(lines) => Ok(Some(with_class(alloc, lines, subject_of(subject), class)?)),
        None => Ok(None),
    }
}

/// A derivation that ends in a contradiction.
///
/// # Errors
///
/// `Memory` where memory was refused, or 32 bits do not count the facts.
pub(crate) fn derived_contradiction(closed: &Closed<'_>) -> Result<Vec<Line>, Memory>
    requires contradictory { IsConsistent closed.now.ontology closed.now.saturation.normal.asked → ⊥ }
    ensures { IfOk result (λ v. ShowsContradiction closed.now.ontology (lines_of v.items)) }
{
    closed.well_formed();
    let lines = contradiction(closed)?;
    Ok(lines)
}
