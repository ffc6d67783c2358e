//! Whether lines and rows may stand in a text: their numbers are those of the ontology, in the text's order.

ghost use Rattle.std.specs.Prelude.{◌≡◌, ◌&&◌, None, map, nat_le, nat_lt};
ghost use Rattle.std.specs.List.{list_all};
ghost use Rattle.certificate.specs.HeldReading.{Ascended, read_in};
ghost use Rattle.certificate.specs.Tests.{fits_property, fits_subject, fits_conclusion, fits_axiom, is_premise, fits_line, is_named, is_after, ascend, are_elements, fits_class, is_pair_after, fits_pairs, fits_claim, fit_classes, fit_pairs, fit_claims, fit_individuals, fits_listed, fits_certificate};
ghost use Rattle.certificate.specs.View.{subject_of, conclusion_of, line_of, lines_of, class_row_of, pair_row_of, targets_in, claim_of, listed_of, certificate_from};

use crate::format::Format;
use crate::line::{Conclusion, Line, Subject};
use crate::listed::{Claim, ClassRow, Listed, PairRow};
use axioms::{ExprId, Ontology, PropId};

fn fits_subject(ontology: &Ontology, subject: Subject) -> bool
    ensures { result ≡ fits_subject ontology.now (subject_of subject) }
{
    match subject {
        Subject::Expr(expr) => expr.index() < ontology.expression_count(),
        Subject::Individual(individual) => { individual.index() < ontology.individuals().len() }
    }
}

pub(crate) fn fits_conclusion(ontology: &Ontology, conclusion: Conclusion) -> bool
    ensures { result ≡ fits_conclusion ontology.now (conclusion_of conclusion) }
{
    match conclusion {
        Conclusion::Sub(subject, class) => {
            fits_subject(ontology, subject) && fits_subject(ontology, Subject::Expr(class))
        }
        Conclusion::Edge(source, property, target) => {
            fits_subject(ontology, source)
                && property.index() < ontology.properties().len()
                && fits_subject(ontology, target)
        }
        Conclusion::Same(first, second) => {
            fits_subject(ontology, Subject::Individual(first))
                && fits_subject(ontology, Subject::Individual(second))
        }
    }
}

pub(crate) fn fits_axiom(ontology: &Ontology, number: Option<usize>) -> bool
    ensures { result ≡ fits_axiom ontology.now number }
{
    ontology.bounded();
    match number {
        None => true,
        Some(number) => 1 <= number && number <= ontology.axioms().len(),
    }
}

/// Whether the numbers may be those of lines.
pub fn are_premises(numbers: &[u64]) -> bool
    ensures { result ≡ list_all is_premise numbers.now }
{
    numbers.iter().all(|number| 1 <= *number)
}

/// Whether the line's numbers name something of the ontology, and lines.
pub(crate) fn fits_line(ontology: &Ontology, line: &Line) -> bool
    ensures { result ≡ fits_line ontology.now (line_of line.now) }
{
    fits_conclusion(ontology, line.conclusion)
        && fits_axiom(ontology, line.axiom)
        && are_premises(&line.premises)
}

/// Whether the expression is a class, whose number then fits a text.
fn is_named(ontology: &Ontology, expression: ExprId) -> bool
    ensures { result ≡ is_named ontology.now expression.0 }
{
    ontology.class_of(expression).is_some()
}

fn is_after(last: Option<u32>, number: u32) -> bool
    ensures { result ≡ is_after last number }
{
    match last {
        None => true,
        Some(last) => last < number,
    }
}

fn ascend(domain: u32, elements: &[u32]) -> bool
    ensures { result ≡ ascend domain None elements.now }
{
    let mut last = None;
    for element in elements {
        if *element >= domain || !is_after(last, *element) {
            return false;
        }
        last = Some(*element);
    }
    true
}

fn are_elements(domain: u32, elements: &[u32]) -> bool
    ensures { result ≡ are_elements domain elements.now }
{
    !elements.is_empty() && ascend(domain, elements)
}

// Whether the elements, as they are read in the format, are elements of the domain, at least one, ascending. Runs are ascending where
// they are read.
#[inline(always)]
fn are_read_elements(format: Format, domain: u32, numbers: &[u32]) -> bool
    requires { Ascended format domain numbers.now }
    ensures { result ≡ are_elements domain (read_in format numbers.now) }
{
    match format {
        Format::One => are_elements(domain, numbers),
        Format::Two => !numbers.is_empty(),
    }
}

// Whether a row of the class may stand after one of the class `last`.
#[inline(always)]
fn may_follow_class(ontology: &Ontology, last: Option<u32>, class: ExprId) -> bool
    ensures { result ≡ (is_named ontology.now class.0 && nat_le 2 class.0 && is_after last class.0) }
{
    is_named(ontology, class) && 2 <= class.0 && is_after(last, class.0)
}

/// Whether the row, as it is read in the format, may stand after one of the class `last`.
#[inline(always)]
pub(crate) fn fits_read_class(
    ontology: &Ontology,
    format: Format,
    domain: u32,
    last: Option<u32>,
    row: &ClassRow,
) -> bool
    requires { Ascended format domain row.now.elements.items }
    ensures { result ≡ fits_class ontology.now domain last (row.now.class.0, read_in format row.now.elements.items) }
{
    may_follow_class(ontology, last, row.class) && are_read_elements(format, domain, &row.elements)
}

/// Whether the row may stand after one of the class `last`.
pub fn fits_class(ontology: &Ontology, domain: u32, last: Option<u32>, row: &ClassRow) -> bool
    ensures { result ≡ fits_class ontology.now domain last (class_row_of row.now) }
{
    may_follow_class(ontology, last, row.class) && are_elements(domain, &row.elements)
}

fn is_pair_after(last: Option<(u32, u32)>, property: u32, source: u32) -> bool
    ensures { result ≡ is_pair_after last property source }
{
    match last {
        None => true,
        Some((r, x)) => r < property || (r == property && x < source),
    }
}

// Whether a row of the property and the source may stand after one of those that are `last`.
#[inline(always)]
fn may_follow_pairs(
    ontology: &Ontology,
    domain: u32,
    last: Option<(u32, u32)>,
    property: PropId,
    source: u32,
) -> bool
    ensures { result ≡ (fits_property ontology.now property.0 && nat_lt source domain && is_pair_after last property.0 source) }
{
    property.index() < ontology.properties().len()
        && source < domain
        && is_pair_after(last, property.0, source)
}

/// Whether the row, as it is read in the format, may stand after one of the property and the source `last`.
#[inline(always)]
pub(crate) fn fits_read_pairs(
    ontology: &Ontology,
    format: Format,
    domain: u32,
    last: Option<(u32, u32)>,
    row: &PairRow,
) -> bool
    requires { Ascended format domain (targets_in row.now.targets) }
    ensures { result ≡ fits_pairs ontology.now domain last (row.now.property.0, row.now.source, read_in format (targets_in row.now.targets)) }
{
    may_follow_pairs(ontology, domain, last, row.property, row.source)
        && are_read_elements(format, domain, row.targets.as_slice())
}

/// Whether the row may stand after one of the property and the source `last`.
pub fn fits_pairs(ontology: &Ontology, domain: u32, last: Option<(u32, u32)>, row: &PairRow) -> bool
    ensures { result ≡ fits_pairs ontology.now domain last (pair_row_of row.now) }
{
    may_follow_pairs(ontology, domain, last, row.property, row.source)
        && are_elements(domain, row.targets.as_slice())
}

/// Whether the claim may stand after one of the class `last`.
pub(crate) fn fits_claim(ontology: &Ontology, domain: u32, last: Option<u32>, claim: Claim) -> bool
    ensures { result ≡ fits_claim ontology.now domain last (claim_of claim) }
{
    is_named(ontology, claim.class) && claim.element < domain && is_after(last, claim.class.0)
}

fn are_classes(ontology: &Ontology, domain: u32, rows: &[ClassRow]) -> bool
    ensures { result ≡ fit_classes ontology.now domain None (map class_row_of rows.now) }
{
    let mut last = None;
    for row in rows {
        if !fits_class(ontology, domain, last, row) {
            return false;
        }
        last = Some(row.class.0);
    }
    true
}

fn are_pairs(ontology: &Ontology, domain: u32, rows: &[PairRow]) -> bool
    ensures { result ≡ fit_pairs ontology.now domain None (map pair_row_of rows.now) }
{
    let mut last = None;
    for row in rows {
        if !fits_pairs(ontology, domain, last, row) {
            return false;
        }
        last = Some((row.property.0, row.source));
    }
    true
}

fn are_claims(ontology: &Ontology, domain: u32, claims: &[Claim]) -> bool
    ensures { result ≡ fit_claims ontology.now domain None (map claim_of claims.now) }
{
    let mut last = None;
    for claim in claims {
        if !fits_claim(ontology, domain, last, *claim) {
            return false;
        }
        last = Some(claim.class.0);
    }
    true
}

fn are_below(domain: u32, elements: &[u32]) -> bool
    ensures { result ≡ list_all (λ x. nat_lt x domain) elements.now }
{
    elements.iter().all(|element| *element < domain)
}

fn are_individuals(ontology: &Ontology, domain: u32, elements: &[u32]) -> bool
    ensures { result ≡ fit_individuals ontology.now domain elements.now }
{
    elements.len() == ontology.individuals().len()
        && elements.len() <= 1 << 32
        && are_below(domain, elements)
}

fn fits_listed(ontology: &Ontology, listed: &Listed) -> bool
    ensures { result ≡ fits_listed ontology.now (listed_of listed.now) }
{
    1 <= listed.domain
        && are_classes(ontology, listed.domain, &listed.classes)
        && are_pairs(ontology, listed.domain, &listed.pairs)
        && are_individuals(ontology, listed.domain, &listed.individuals)
        && are_claims(ontology, listed.domain, &listed.claims)
}

fn are_lines(ontology: &Ontology, lines: &[Line]) -> bool
    ensures { result ≡ list_all (fits_line ontology.now) (lines_of lines.now) }
{
    for line in lines {
        if !fits_line(ontology, line) {
            return false;
        }
    }
    true
}

/// Whether there is a text of these lines and of this interpretation, if there is one.
pub(crate) fn have_text(ontology: &Ontology, lines: &[Line], listed: &Option<Listed>) -> bool
    ensures { result ≡ fits_certificate ontology.now (certificate_from lines.now listed.now) }
{
    are_lines(ontology, lines)
        && match listed {
            None => true,
            Some(listed) => fits_listed(ontology, listed),
        }
}
