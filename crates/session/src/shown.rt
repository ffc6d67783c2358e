//! Answers as texts.
ghost use Rattle.answer_texts.specs.Proof.{proof_text};
ghost use Rattle.answers.specs.Questions.{IsAnswerTo};
ghost use Rattle.certificate.specs.Writability.{IsLineOf};
ghost use Rattle.certificate.specs.View.{lines_of};
ghost use Rattle.interpretation_spec.specs.NumberedInterpretation.{IsMadeFor};
ghost use Rattle.session.specs.TextAnswers.{IsAnswerText, IsDerivationShown, IsRefutationShown, IsShown};
ghost use Rattle.session.specs.Texts.{HasText};
ghost use Rattle.std.specs.Prelude.{◌≡◌, ◌++◌, All, IfOk, false, true};

use crate::lacking::text_of_lacking;
use crate::listed::{lines_of_groups, lines_of_names};
use answer_texts::{
    cited_bytes, proof_bytes, proof_graph_bytes, reached_refutation_bytes,
    reached_refutation_graph_bytes, refutation_bytes, refutation_graph_bytes,
};
use answers::{Answer, Explanation};
use axioms::{Memory, Ontology};
use certificate::Line;
use interpretation_spec::Interpretation;
use program::{Question, Shown};
use std::alloc::Global;

/// The answer, and behind it the lines of a derivation.
fn answer_and_lines(
    alloc: Global,
    ontology: &Ontology,
    answer: &[u8],
    lines: &[Line],
) -> Result<Vec<u8>, Memory>
    requires { All (IsLineOf ontology.now) (lines_of lines.now) }
    ensures { IfOk result (λ v. v.items ≡ answer.now ++ proof_text ontology.now (lines_of lines.now)) }
{
    let mut out = Vec::new(alloc);
    let proof = proof_bytes(alloc, ontology, lines)?;
    out.extend_from_slice(answer)?;
    out.extend_from_slice(&proof)?;
    Ok(out)
}

/// The answer, behind it the lines of a derivation, and behind them those of the axioms that they cite.
fn answer_with_axioms(
    alloc: Global,
    ontology: &Ontology,
    answer: &[u8],
    lines: &[Line],
) -> Result<Vec<u8>, Memory>
    requires { All (IsLineOf ontology.now) (lines_of lines.now) }
    ensures { IfOk result (λ v. IsDerivationShown false true answer.now ontology.now (lines_of lines.now) v.items) }
{
    let cited = cited_bytes(alloc, ontology, lines)?;
    let mut out = answer_and_lines(alloc, ontology, answer, lines)?;
    out.extend_from_slice(&cited)?;
    Ok(out)
}

/// A derivation as a graph, or as lines behind the answer.
fn shown_derivation(
    alloc: Global,
    ontology: &Ontology,
    answer: &[u8],
    lines: &[Line],
    shown: Shown,
) -> Result<Vec<u8>, Memory>
    requires { All (IsLineOf ontology.now) (lines_of lines.now) }
    ensures { IfOk result (λ v. IsDerivationShown shown.graph shown.axioms answer.now ontology.now (lines_of lines.now) v.items) }
{
    match (shown.graph, shown.axioms) {
        (true, _) => proof_graph_bytes(alloc, ontology, lines),
        (false, false) => answer_and_lines(alloc, ontology, answer, lines),
        (false, true) => answer_with_axioms(alloc, ontology, answer, lines),
    }
}

/// A refutation in the way that is asked for.
fn shown_refutation(
    alloc: Global,
    ontology: &Ontology,
    interpretation: &Interpretation,
    element: usize,
    shown: Shown,
) -> Result<Vec<u8>, Memory>
    requires { IsMadeFor ontology.now.names interpretation.now }
    ensures { IfOk result (λ v. IsRefutationShown shown.graph shown.reached ontology.now interpretation.now element v.items) }
{
    match (shown.graph, shown.reached) {
        (false, false) => refutation_bytes(alloc, ontology, interpretation, element),
        (true, false) => refutation_graph_bytes(alloc, ontology, interpretation, element),
        (false, true) => reached_refutation_bytes(alloc, ontology, interpretation, element),
        (true, true) => reached_refutation_graph_bytes(alloc, ontology, interpretation, element),
    }
}

/// The explanation in the way that is asked for.
fn shown_explanation(
    alloc: Global,
    ontology: &Ontology,
    explanation: &Explanation,
    shown: Shown,
) -> Result<Vec<u8>, Memory>
    requires { HasText ontology.now explanation.now }
    ensures { IfOk result (λ v. IsShown ontology.now shown explanation.now v.items) }
{
    match explanation {
        Explanation::Yes(lines) => { shown_derivation(alloc, ontology, b"yes\n", lines, shown) }
        Explanation::No(interpretation, element) => {
            shown_refutation(alloc, ontology, interpretation, *element, shown)
        }
        Explanation::Contradictory(lines) => {
            shown_derivation(alloc, ontology, b"contradictory\n", lines, shown)
        }
    }
}

/// The text of the answer to a question: a line for each name, in angle brackets; a line for each group, with an equals sign between two
/// names; the explanation in the way that the question asks for; or what is lacked, with a line for the axiom of each condition and for
/// each of its parts.
///
/// # Errors
///
/// `Memory` where memory was refused.
pub fn answer_text(
    alloc: Global,
    ontology: &Ontology,
    question: Question<'_>,
    answer: &Answer<'_>,
) -> Result<Vec<u8>, Memory>
    requires { IsAnswerTo ontology.now question answer.now }
    ensures { IfOk result (λ v. IsAnswerText ontology.now question.entry answer.now v.items) }
{
    match (question, answer) {
        (
            Question::Names(_, _) | Question::Unsatisfiable | Question::Types(_),
            Answer::Names(names),
        ) => lines_of_names(alloc, names),
        (Question::Groups(_, _) | Question::DirectTypes(_), Answer::Groups(groups)) => {
            lines_of_groups(alloc, groups)
        }
        (Question::Why(_, _, shown), Answer::Why(explanation)) => {
            shown_explanation(alloc, ontology, explanation, shown)
        }
        (Question::Lacks(_, _), Answer::Lacks(lacking)) => {
            ontology.well_formed();
            text_of_lacking(alloc, ontology, lacking)
        }
        _ => unreachable!(),
    }
}
