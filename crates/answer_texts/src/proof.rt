//! The lines of a derivation as people read them.
ghost use Rattle.answer_texts.specs.Proof as text;
ghost use Rattle.certificate.specs.Writability.{IsConclusionOf, IsLineOf, IsSubjectOf};
ghost use Rattle.certificate.specs.View.{conclusion_of, line_of, lines_of, subject_of};
ghost use Rattle.std.specs.List.{enumerate_from, flat_map};
ghost use Rattle.std.specs.Prelude.{◌++◌, ◌≡◌, All, OnOk, codes};
ghost use Rattle.std.specs.Fmt.{decimal};

use crate::expression::push_expression;
use crate::names::{push_name, push_number};
use axioms::Ontology;
use certificate::{Conclusion, Line, Subject};
use std::alloc::AllocError;

fn push_subject(out: &mut Vec<u8>, ontology: &Ontology, subject: Subject) -> Result<(), AllocError>
    requires { IsSubjectOf ontology.now (subject_of subject) }
    ensures { OnOk result (out.new.items ≡ out.old.items ++ text.subject_text ontology.now (subject_of subject)) }
{
    match subject {
        Subject::Expr(expression) => push_expression(out, ontology, expression),
        Subject::Individual(individual) => {
            out.extend_from_slice(b"individual ")?;
            push_name(out, ontology.individuals(), individual.index())
        }
    }
}

fn push_conclusion(
    out: &mut Vec<u8>,
    ontology: &Ontology,
    conclusion: Conclusion,
) -> Result<(), AllocError>
    requires { IsConclusionOf ontology.now (conclusion_of conclusion) }
    ensures { OnOk result (out.new.items ≡ out.old.items ++ text.conclusion_text ontology.now (conclusion_of conclusion)) }
{
    match conclusion {
        Conclusion::Sub(subject, class) => {
            out.extend_from_slice(b"sub ")?;
            push_subject(out, ontology, subject)?;
            out.extend_from_slice(b" ")?;
            push_expression(out, ontology, class)
        }
        Conclusion::Edge(source, property, target) => {
            out.extend_from_slice(b"edge ")?;
            push_subject(out, ontology, source)?;
            out.extend_from_slice(b" ")?;
            push_name(out, ontology.properties(), property.index())?;
            out.extend_from_slice(b" ")?;
            push_subject(out, ontology, target)
        }
        Conclusion::Same(first, second) => {
            out.extend_from_slice(b"same ")?;
            push_subject(out, ontology, Subject::Individual(first))?;
            out.extend_from_slice(b" ")?;
            push_subject(out, ontology, Subject::Individual(second))
        }
    }
}

fn push_citation(out: &mut Vec<u8>, number: Option<usize>) -> Result<(), AllocError>
    ensures { OnOk result (out.new.items ≡ out.old.items ++ text.citation_text number) }
{
    match number {
        None => Ok(()),
        Some(number) => push_number(out, b" axiom ", number as u64),
    }
}

// Adds the numbers, each behind a comma.
fn push_later(out: &mut Vec<u8>, numbers: &[u64]) -> Result<(), AllocError>
    ensures { OnOk result (out.new.items ≡ out.old.items ++ flat_map (λ m. codes ", " ++ decimal m) numbers.now) }
{
    for number in numbers {
        push_number(out, b", ", *number)?;
    }
    Ok(())
}

fn push_premises(out: &mut Vec<u8>, premises: &[u64]) -> Result<(), AllocError>
    ensures { OnOk result (out.new.items ≡ out.old.items ++ text.premises_text premises.now) }
{
    match premises.split_first() {
        None => Ok(()),
        Some((first, later)) => {
            push_number(out, b" from ", *first)?;
            push_later(out, later)
        }
    }
}

/// Adds a line of that number, but for its end.
pub(crate) fn push_numbered(
    out: &mut Vec<u8>,
    ontology: &Ontology,
    number: u64,
    line: &Line,
) -> Result<(), AllocError>
    requires { IsLineOf ontology.now (line_of line.now) }
    ensures { OnOk result (out.new.items ≡ out.old.items ++ text.numbered_text ontology.now (number, line_of line.now)) }
{
    push_number(out, b"", number)?;
    out.extend_from_slice(b". ")?;
    push_conclusion(out, ontology, line.conclusion)?;
    push_number(out, b" by K", line.rule.number())?;
    push_citation(out, line.axiom)?;
    push_premises(out, &line.premises)
}

fn push_line(
    out: &mut Vec<u8>,
    ontology: &Ontology,
    number: u64,
    line: &Line,
) -> Result<(), AllocError>
    requires { IsLineOf ontology.now (line_of line.now) }
    ensures { OnOk result (out.new.items ≡ out.old.items ++ text.line_text ontology.now (number, line_of line.now)) }
{
    push_numbered(out, ontology, number, line)?;
    out.extend_from_slice(b"\n")
}

/// Adds the lines, counted from 1.
pub(crate) fn push_lines(
    out: &mut Vec<u8>,
    ontology: &Ontology,
    lines: &[Line],
) -> Result<(), AllocError>
    requires { All (IsLineOf ontology.now) (lines_of lines.now) }
    ensures { OnOk result (out.new.items ≡ out.old.items ++ flat_map (text.line_text ontology.now) (enumerate_from 1 (lines_of lines.now))) }
{
    for place in 0..lines.len() {
        push_line(out, ontology, place as u64 + 1, &lines[place])?;
    }
    Ok(())
}
