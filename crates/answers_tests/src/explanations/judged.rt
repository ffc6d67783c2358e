//! Explanations as others judge them: derivations as certificates of their own, by the checker; refutations by the axioms, one by one,
//! and by what is in the two classes.
ghost use Rattle.interpretation_spec.specs.NumberedInterpretation.{IsMadeFor};
ghost use Rattle.answers.specs.Explanations.{Explains};
ghost use Rattle.program.specs.declared.question.Asked.{Asked as Asked2};
ghost use Rattle.std.specs.Prelude.{List, ℕ};

use answers::Explanation;
use axioms::{ClassId, IndId, Memory, Ontology};
use cert_check::{Reason, Verdict, check};
use certificate::{Certificate, Format, Line};
use certificate_text::certificate_bytes;
use interpretation_spec::Interpretation;
use program::Asked;
use std::alloc::Global;

/// What the checker says of the lines as a certificate of a contradiction: only that there is none, where they are right and end in no
/// contradiction.
fn verdict_on(alloc: Global, ontology: &Ontology, lines: Vec<Line>) -> Option<Verdict> {
    let certificate = Certificate::new(ontology, lines, None).ok()?;
    let text = certificate_bytes(alloc, &certificate, Format::Two).ok()?;
    let taxonomy = b"eltax 1 inconsistent\n";
    let instances = b"elinst 1 inconsistent\n";
    check(alloc, ontology, taxonomy, instances, &text).ok()
}

/// The number of the name among these, if it is there.
fn number_of(names: &[String], name: &str) -> Option<usize> {
    names.iter().position(|other| other.as_str() == name)
}

/// Whether the element is in the class of that name; none where there is no such class or memory was refused.
fn is_in(ontology: &Ontology, part: &Interpretation, class: &str, element: usize) -> Option<bool>
    requires { IsMadeFor ontology.now.names part.now }
{
    ontology.well_formed();
    let class = u32::try_from(number_of(ontology.classes(), class)?).ok()?;
    let expression = ontology.class_expr(ClassId(class))?;
    if expression.0 as usize >= ontology.expression_count() {
        return None;
    }
    let members = part.extension(ontology, expression).ok()?;
    Some(members.contains(element))
}

/// Whether the element is of the subject.
fn is_of(
    ontology: &Ontology,
    part: &Interpretation,
    asked: Asked<'_>,
    element: usize,
) -> Option<bool>
    requires { IsMadeFor ontology.now.names part.now }
{
    match asked {
        Asked::Class(name) => is_in(ontology, part, name, element),
        Asked::Individual(name) => {
            let individual = u32::try_from(number_of(ontology.individuals(), name)?).ok()?;
            Some(part.element(IndId(individual)) == Some(element))
        }
    }
}

/// Whether all axioms hold in the interpretation.
fn is_model(ontology: &Ontology, part: &Interpretation) -> Result<bool, Memory>
    requires { IsMadeFor ontology.now.names part.now }
{
    Ok(part.first_unsatisfied(ontology)?.is_none())
}

/// Whether the axioms hold in the interpretation, and the element is of the subject and outside the class.
fn is_refuted(
    ontology: &Ontology,
    part: &Interpretation,
    element: usize,
    asked: Asked<'_>,
    class: &str,
) -> bool
    requires { IsMadeFor ontology.now.names part.now }
{
    is_model(ontology, part) == Ok(true)
        && is_of(ontology, part, asked, element) == Some(true)
        && is_in(ontology, part, class, element) == Some(false)
}

/// Whether the explanation is judged right.
pub(crate) fn is_right_of(
    alloc: Global,
    ontology: &Ontology,
    found: Explanation,
    asked: Asked<'_>,
    class: &str,
) -> bool
    requires { (asked : Asked2) × (class : List ℕ) × Explains ontology.now asked class found }
{
    match found {
        Explanation::Yes(lines) => {
            verdict_on(alloc, ontology, lines) == Some(Verdict::Rejected(Reason::NoContradiction))
        }
        Explanation::No(part, element) => is_refuted(ontology, &part, element, asked, class),
        Explanation::Contradictory(lines) => {
            verdict_on(alloc, ontology, lines) == Some(Verdict::Accepted)
        }
    }
}
