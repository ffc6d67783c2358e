//! The text of a certificate.

ghost use Rattle.std.specs.Prelude.{◌≡◌, ◌↔◌, ◌<◌, ◌≤◌, ◌++◌, List, ℕ, codes, map, IsTrue, MatchOption, OnOk, IfOk, IfErr, OnErr, IsErrOf};
ghost use Rattle.std.specs.Fmt.{decimal};
ghost use Rattle.std.specs.Io.KnownBytes.{Appends, Keeps};
ghost use Rattle.std.specs.List.{All, flat_map, enumerate_from};
ghost use Rattle.device.specs.Device.{AppendsPrefix, HasFailed};
ghost use Rattle.certificate.specs.Runs.{distances};
ghost use Rattle.certificate.specs.Writability.{AreEarlier, HasNumbers, HasText};
ghost use Rattle.certificate_text.specs.LaterPremises.{IsFirstLater, IsLater};
ghost use Rattle.certificate.specs.Text as text;
ghost use Rattle.certificate.specs.View.{subject_of, conclusion_of, line_of, lines_of, class_row_of, pair_row_of, claim_of, listed_of};

use crate::digits::push_digits;
use crate::fault::CertWriteFault;
use crate::run::push_runs;
use axioms::{Memory, Ontology};
use certificate::{
    Certificate, Claim, ClassRow, Conclusion, Format, Line, Listed, PairRow, Subject,
};
use device::{Sink, write_all};
use std::alloc::{AllocError, Global};

/// The word and then the number.
#[inline(always)]
pub(crate) fn push_number(out: &mut Vec<u8>, word: &[u8], number: u64) -> Result<(), AllocError>
    ensures { OnOk result (out.new.items ≡ out.old.items ++ text.lettered_number word.now number) }
{
    out.extend_from_slice(word)?;
    push_digits(out, number)
}

fn push_subject(out: &mut Vec<u8>, subject: Subject) -> Result<(), AllocError>
    ensures { OnOk result (out.new.items ≡ out.old.items ++ text.subject_text (subject_of subject)) }
{
    match subject {
        Subject::Expr(expr) => push_number(out, b"e", expr.0 as u64),
        Subject::Individual(individual) => push_number(out, b"i", individual.0 as u64),
    }
}

fn push_conclusion(out: &mut Vec<u8>, conclusion: Conclusion) -> Result<(), AllocError>
    ensures { OnOk result (out.new.items ≡ out.old.items ++ text.conclusion_text (conclusion_of conclusion)) }
{
    match conclusion {
        Conclusion::Sub(subject, class) => {
            out.extend_from_slice(b"sub ")?;
            push_subject(out, subject)?;
            push_number(out, b" e", class.0 as u64)
        }
        Conclusion::Edge(source, property, target) => {
            out.extend_from_slice(b"edge ")?;
            push_subject(out, source)?;
            push_number(out, b" p", property.0 as u64)?;
            out.extend_from_slice(b" ")?;
            push_subject(out, target)
        }
        Conclusion::Same(first, second) => {
            push_number(out, b"same i", first.0 as u64)?;
            push_number(out, b" i", second.0 as u64)
        }
    }
}

fn push_axiom(out: &mut Vec<u8>, number: Option<usize>) -> Result<(), AllocError>
    ensures { OnOk result (out.new.items ≡ out.old.items ++ text.axiom_text number) }
{
    match number {
        None => Ok(()),
        Some(number) => push_number(out, b" a", number as u64),
    }
}

/// What a text of certificates has, as a value.
pub(crate) trait Spelled {
    /// How it is spelled.
    ghost text: { Self → List ℕ };

    /// Adds it to the text. Fails where memory is refused; then a part of it may stand there.
    fn push_to(&self, out: &mut Vec<u8>) -> Result<(), AllocError>
        ensures { OnOk result (out.new.items ≡ out.old.items ++ text self.now) };
}

/// Adds them to the text, one after another.
pub(crate) fn push_each<T: Spelled>(out: &mut Vec<u8>, items: &[T]) -> Result<(), AllocError>
    ensures { OnOk result (out.new.items ≡ out.old.items ++ flat_map T.text items.now) }
{
    for item in items {
        item.push_to(out)?;
    }
    Ok(())
}

/// The number of a line, as a premise.
impl Spelled for u64 {
    ghost text = { λ n. codes " " ++ decimal n };

    fn push_to(&self, out: &mut Vec<u8>) -> Result<(), AllocError> {
        push_number(out, b" ", *self)
    }
}

/// An element.
impl Spelled for u32 {
    ghost text = { λ n. codes " " ++ decimal n };

    fn push_to(&self, out: &mut Vec<u8>) -> Result<(), AllocError> {
        push_number(out, b" ", u64::from(*self))
    }
}

impl Spelled for Claim {
    ghost text = { λ claim. text.claim_text (claim_of claim) };

    fn push_to(&self, out: &mut Vec<u8>) -> Result<(), AllocError> {
        push_number(out, b"claim e", self.class.0 as u64)?;
        push_number(out, b" ", u64::from(self.element))?;
        out.extend_from_slice(b"\n")
    }
}

// The numbers that stand for the premises of the line of that number, as distances.
fn push_distances(out: &mut Vec<u8>, number: u64, premises: &[u64]) -> Result<(), AllocError>
    ensures { OnOk result (out.new.items ≡ out.old.items ++ text.spaced_numbers (distances number premises.now)) }
{
    for premise in premises {
        push_number(out, b" ", number.saturating_sub(*premise))?;
    }
    Ok(())
}

fn push_premises(
    out: &mut Vec<u8>,
    format: Format,
    number: u64,
    premises: &[u64],
) -> Result<(), AllocError>
    ensures { OnOk result (out.new.items ≡ out.old.items ++ text.spaced_numbers (text.written_premises format number premises.now)) }
{
    match format {
        Format::One => push_each(out, premises),
        Format::Two => push_distances(out, number, premises),
    }
}

/// Adds the line of that number.
#[tactic(auto, using(crate::proofs::Seen::written_line_text))]
pub(crate) fn push_line(
    out: &mut Vec<u8>,
    format: Format,
    number: u64,
    line: &Line,
) -> Result<(), AllocError>
    ensures { OnOk result (out.new.items ≡ out.old.items ++ text.line_text (text.written format number (line_of line.now))) }
{
    push_conclusion(out, line.conclusion)?;
    push_number(out, b" K", line.rule.number())?;
    push_axiom(out, line.axiom)?;
    push_premises(out, format, number, &line.premises)?;
    out.extend_from_slice(b"\n")
}

fn push_lines(out: &mut Vec<u8>, format: Format, lines: &[Line]) -> Result<(), AllocError>
    ensures { OnOk result (out.new.items ≡ out.old.items ++ text.lines_text format 1 (lines_of lines.now)) }
{
    for place in 0..lines.len() {
        push_line(out, format, place as u64 + 1, &lines[place])?;
    }
    Ok(())
}

/// Adds the elements.
fn push_elements(out: &mut Vec<u8>, format: Format, elements: &[u32]) -> Result<(), AllocError>
    ensures { OnOk result (out.new.items ≡ out.old.items ++ text.elements_text format elements.now) }
{
    match format {
        Format::One => push_each(out, elements),
        Format::Two => push_runs(out, elements),
    }
}

/// Adds the row of a class.
pub(crate) fn push_class(
    out: &mut Vec<u8>,
    format: Format,
    row: &ClassRow,
) -> Result<(), AllocError>
    ensures { OnOk result (out.new.items ≡ out.old.items ++ text.class_text format (class_row_of row.now)) }
{
    push_number(out, b"class e", row.class.0 as u64)?;
    push_elements(out, format, &row.elements)?;
    out.extend_from_slice(b"\n")
}

/// Adds the row of a property and an element.
pub(crate) fn push_pairs(out: &mut Vec<u8>, format: Format, row: &PairRow) -> Result<(), AllocError>
    ensures { OnOk result (out.new.items ≡ out.old.items ++ text.pairs_text format (pair_row_of row.now)) }
{
    push_number(out, b"succ p", row.property.0 as u64)?;
    push_number(out, b" ", u64::from(row.source))?;
    push_elements(out, format, row.targets.as_slice())?;
    out.extend_from_slice(b"\n")
}

fn push_class_rows(out: &mut Vec<u8>, format: Format, rows: &[ClassRow]) -> Result<(), AllocError>
    ensures { OnOk result (out.new.items ≡ out.old.items ++ flat_map (text.class_text format) (map class_row_of rows.now)) }
{
    for row in rows {
        push_class(out, format, row)?;
    }
    Ok(())
}

fn push_pair_rows(out: &mut Vec<u8>, format: Format, rows: &[PairRow]) -> Result<(), AllocError>
    ensures { OnOk result (out.new.items ≡ out.old.items ++ flat_map (text.pairs_text format) (map pair_row_of rows.now)) }
{
    for row in rows {
        push_pairs(out, format, row)?;
    }
    Ok(())
}

fn push_individual(out: &mut Vec<u8>, number: usize, element: u32) -> Result<(), AllocError>
    ensures { OnOk result (out.new.items ≡ out.old.items ++ text.individual_text (number, element)) }
{
    push_number(out, b"ind i", number as u64)?;
    push_number(out, b" ", u64::from(element))?;
    out.extend_from_slice(b"\n")
}

/// Adds a line for the element of each individual.
pub(crate) fn push_individuals(out: &mut Vec<u8>, elements: &[u32]) -> Result<(), AllocError>
    ensures { OnOk result (out.new.items ≡ out.old.items ++ flat_map text.individual_text (enumerate_from 0 elements.now)) }
{
    for number in 0..elements.len() {
        push_individual(out, number, elements[number])?;
    }
    Ok(())
}

/// Adds the line that says how many elements there are.
pub(crate) fn push_domain(out: &mut Vec<u8>, domain: u32) -> Result<(), AllocError>
    ensures { OnOk result (out.new.items ≡ out.old.items ++ (text.lettered_number (codes "domain ") domain ++ text.line_feed)) }
{
    push_number(out, b"domain ", u64::from(domain))?;
    out.extend_from_slice(b"\n")
}

pub(crate) fn push_listed(
    out: &mut Vec<u8>,
    format: Format,
    listed: &Listed,
) -> Result<(), AllocError>
    ensures { OnOk result (out.new.items ≡ out.old.items ++ text.listed_text format (Some (listed_of listed.now))) }
{
    push_domain(out, listed.domain)?;
    push_class_rows(out, format, &listed.classes)?;
    push_pair_rows(out, format, &listed.pairs)?;
    push_individuals(out, &listed.individuals)?;
    push_each(out, &listed.claims)
}

/// Adds the first line.
pub(crate) fn push_first(
    out: &mut Vec<u8>,
    format: Format,
    is_consistent: bool,
) -> Result<(), AllocError>
    ensures { OnOk result (out.new.items ≡ out.old.items ++ text.first_text format is_consistent) }
{
    match (format, is_consistent) {
        (Format::One, true) => out.extend_from_slice(b"elcert 1 consistent\n"),
        (Format::One, false) => out.extend_from_slice(b"elcert 1 inconsistent\n"),
        (Format::Two, true) => out.extend_from_slice(b"elcert 2 consistent\n"),
        (Format::Two, false) => out.extend_from_slice(b"elcert 2 inconsistent\n"),
    }
}

/// The text of the certificate in the format, in memory.
pub fn certificate_bytes(
    alloc: Global,
    certificate: &Certificate,
    format: Format,
) -> Result<Vec<u8>, Memory>
    ensures { IfOk result (λ v. v.items ≡ text.certificate_text format certificate.now) }
{
    let mut out = Vec::new(alloc);
    match certificate.listed() {
        None => {
            push_first(&mut out, format, false)?;
            push_lines(&mut out, format, certificate.lines())?;
        }
        Some(listed) => {
            push_first(&mut out, format, true)?;
            push_lines(&mut out, format, certificate.lines())?;
            push_listed(&mut out, format, listed)?;
        }
    }
    out.extend_from_slice(b"end\n")?;
    Ok(out)
}

// Whether each premise of the line of that number is an earlier one.
pub(crate) fn is_earlier(number: u64, premises: &[u64]) -> bool
    ensures { IsTrue result ↔ All (λ p. p < number) premises.now }
{
    premises.iter().all(|premise| *premise < number)
}

// The number of the first line with a premise that is not earlier, if there is one.
fn first_later(lines: &[Line]) -> Option<usize>
    ensures { MatchOption result (AreEarlier 1 (lines_of lines.now)) (IsFirstLater (lines_of lines.now)) }
{
    for place in 0..lines.len() {
        if !is_earlier(place as u64 + 1, &lines[place].premises) {
            return Some(place + 1);
        }
    }
    None
}

// The number of the first line that keeps the lines from being written in the format, if there is one.
fn first_unwritten(format: Format, lines: &[Line]) -> Option<usize>
    ensures { MatchOption result (HasNumbers format (lines_of lines.now)) (λ line. (format ≡ Format.Two) × IsFirstLater (lines_of lines.now) line) }
{
    match format {
        Format::One => None,
        Format::Two => first_later(lines),
    }
}

/// Writes the certificate's text in the format; the certificate was made or read for this ontology.
///
/// `LaterPremise` comes exactly where the format is 2 and a line has a premise that is not earlier, at the first such line; then
/// nothing is written. `Io` comes only where the sink failed in this call. After `Memory` it did not fail and has taken nothing. After
/// each of them it has taken a prefix of the text.
pub fn write_certificate<S: Sink>(
    alloc: Global,
    ontology: &Ontology,
    certificate: &Certificate,
    format: Format,
    sink: &mut S,
) -> Result<(), CertWriteFault>
    requires { HasText ontology.now Format.One certificate.now }
    ensures text { OnOk result (HasText ontology.now format certificate.now) }
    ensures later { IfErr result (IsLater format certificate.now.lines) }
    ensures ok { OnOk result (Appends (S.taken sink.old) (S.taken sink.new) (text.certificate_text format certificate.now)) }
    ensures begun { AppendsPrefix (S.taken sink.old) (S.taken sink.new) (text.certificate_text format certificate.now) }
    ensures io { IsErrOf result CertWriteFault.Io → HasFailed (S.failures sink.old) (S.failures sink.new) }
    ensures untouched { ¬ IsErrOf result CertWriteFault.Io → OnErr result (Keeps (S.taken sink.old) (S.taken sink.new)) }
    ensures unfailed { ¬ IsErrOf result CertWriteFault.Io → S.failures sink.new ≡ S.failures sink.old }
    ensures count { S.failures sink.old ≤ S.failures sink.new }
    ensures path { S.path sink.new ≡ S.path sink.old }
{
    if let Some(line) = first_unwritten(format, certificate.lines()) {
        return Err(CertWriteFault::LaterPremise { line });
    }
    let text = certificate_bytes(alloc, certificate, format)?;
    write_all(sink, &text)?;
    Ok(())
}
