//! The text of the lines of a derivation.

ghost use Rattle.std.specs.Prelude.{◌≡◌, ◌↔◌, ◌<◌, ◌^◌, ◌++◌, ◌∷◌, [], IfOk, IsTrue, None, OnErr, OnOk, length, map, option_map, true};
ghost use Rattle.axioms.specs.View.{at_number};
ghost use Rattle.certificate.specs.Certificate.{source_of};
ghost use Rattle.certificate.specs.Text.{certificate_text};
ghost use Rattle.certificate.specs.View.{conclusion_of, line_of, subject_of};
ghost use Rattle.certificate_text.specs.LineText as spec;
ghost use Rattle.certificate_text.specs.LineText.{HasNumbersOf, text_to_domain};

use crate::listed_text::ListedText;
use crate::writing::{is_earlier, push_domain, push_first, push_line};
use axioms::Memory;
use certificate::{Conclusion, Format, FormatType, Line, Subject, are_premises};
use std::alloc::Global;
use std::marker::{Model, PhantomData};

/// Lines of a derivation, numbered from 1, as the text of a certificate of a format, of which nothing is kept beside but what each
/// speaks of. It is seen as its lines.
#[derive(Drop)]
pub struct LineText<F: FormatType> {
    /// The first line of the text of a consistent certificate, and then the lines.
    text: Vec<u8>,
    sources: Vec<Subject>,
    /// Room for the text of the line that comes next.
    room: Vec<u8>,
    format: PhantomData<F>,
}

impl<F: FormatType> Model for LineText<F> {
    ghost use Rattle.std.specs.Prelude.{List};
    ghost use Rattle.certificate.specs.Certificate as certificates;
    ghost use Rattle.certificate_text.specs.LineText.{IsLineText, lines_in};

    ghost Value = { List certificates.Line };

    ghost view = { λ t. lines_in F.format t.text.items };

    ghost invariant = { λ t. IsLineText F.format t.text.items t.sources.items };
}

/// The numbers of a subject have 32 bits.
fn small_subject(subject: Subject)
    ensures { spec.is_small_subject (subject_of subject) ≡ true }
{
    match subject {
        Subject::Expr(_) => {}
        Subject::Individual(_) => {}
    }
}

/// The numbers of a conclusion have 32 bits.
fn small_conclusion(conclusion: Conclusion)
    ensures { spec.is_small_conclusion (conclusion_of conclusion) ≡ true }
{
    match conclusion {
        Conclusion::Sub(subject, _) => small_subject(subject),
        Conclusion::Edge(source, _, target) => {
            small_subject(source);
            small_subject(target);
        }
        Conclusion::Same(_, _) => {}
    }
}

fn is_small_axiom(number: Option<usize>) -> bool
    ensures { result ≡ spec.is_small_axiom number }
{
    match number {
        None => true,
        Some(number) => number < 1 << 32,
    }
}

/// Whether the line's numbers are those of a text.
fn fits_types(line: &Line) -> bool
    ensures { result ≡ spec.fits_types (line_of line.now) }
{
    small_conclusion(line.conclusion);
    is_small_axiom(line.axiom) && are_premises(&line.premises)
}

/// Whether the format has numbers for premises of the line of that number.
fn has_numbers(format: Format, number: u64, premises: &[u64]) -> bool
    ensures { IsTrue result ↔ HasNumbersOf format number premises.now }
{
    match format {
        Format::One => true,
        Format::Two => is_earlier(number, premises),
    }
}

impl<F: FormatType> LineText<F> {
    /// No lines.
    ///
    /// # Errors
    ///
    /// `Memory` where memory was refused.
    pub fn new(alloc: Global) -> Result<LineText<F>, Memory>
        ensures { IfOk result (λ t. t ≡ []) }
    {
        let mut text = Vec::new(alloc);
        push_first(&mut text, F::format(), true)?;
        Ok(LineText {
            text,
            sources: Vec::new(alloc),
            room: Vec::new(alloc),
            format: PhantomData,
        })
    }

    /// How many lines there are.
    pub fn len(&self) -> usize
        ensures { result ≡ length self.now }
    {
        self.sources.len()
    }

    /// Memory counts the lines.
    pub fn bounded(&self)
        ensures { length self.now < 2 ^ 64 }
    {
        self.len();
    }

    /// Adds a line.
    ///
    /// # Errors
    ///
    /// `Memory` where memory was refused, or a number of the line is none of a text: that of the axiom has more than 32 bits, that of a
    /// premise is 0, or, in format 2, it is that of no earlier line. Then nothing changes.
    pub fn push(&mut self, line: &Line) -> Result<(), Memory>
        ensures ok { OnOk result (self.new ≡ self.old ++ line_of line.now ∷ []) }
        ensures err { OnErr result (self.new ≡ self.old) }
    {
        let Some(number) = (self.sources.len() as u64).checked_add(1) else {
            return Err(Memory);
        };
        if !fits_types(line) || !has_numbers(F::format(), number, &line.premises) {
            return Err(Memory);
        }
        self.room.clear();
        push_line(&mut self.room, F::format(), number, line)?;
        self.sources.reserve(1)?;
        self.text.extend_from_slice(&self.room)?;
        self.sources.push_reserved(line.conclusion.source());
        Ok(())
    }

    /// What the line of that number speaks of: its subject, the start of its edge, or the first of two that are one.
    pub fn source(&self, number: u64) -> Option<Subject>
        ensures { option_map subject_of result ≡ option_map source_of (at_number (map (λ l. l.conclusion) self.now) number) }
    {
        if number == 0 || (self.sources.len() as u64) < number {
            return None;
        }
        Some(self.sources[(number - 1) as usize])
    }

    /// The text of the certificate of these lines and of an interpretation with so many elements, whose rows come next.
    ///
    /// # Errors
    ///
    /// `Memory` where memory was refused.
    pub fn with_domain(self, domain: u32) -> Result<ListedText<F>, Memory>
        ensures { IfOk result (λ t. t ≡ text_to_domain F.format self domain) }
    {
        let mut text = self.text;
        push_domain(&mut text, domain)?;
        Ok(ListedText {
            text,
            format: PhantomData,
        })
    }

    /// The text of the certificate of these lines alone, of a contradictory ontology.
    ///
    /// # Errors
    ///
    /// `Memory` where memory was refused.
    pub fn alone(&self, alloc: Global) -> Result<Vec<u8>, Memory>
        ensures { IfOk result (λ v. v.items ≡ certificate_text F.format (record { lines = self.now; listed = None })) }
    {
        let mut text = Vec::new(alloc);
        push_first(&mut text, F::format(), false)?;
        text.extend_from_slice(&self.text[20..])?;
        text.extend_from_slice(b"end\n")?;
        Ok(text)
    }
}
