//! Single lines of a text: the first, the line of the domain, the last, and lines of the derivation.

ghost use Rattle.std.specs.Prelude.{◌≡◌, ◌↔◌, ◌&&◌, ◌++◌, ◌∷◌, [], List, ℕ, IsTrue, IfOk, nat_le, option_map};
ghost use Rattle.certificate.specs.LineValues.{IsFirstLine, IsDomainLine};
ghost use Rattle.certificate.specs.SingleLines.{front_at, is_back, read_premise, AreKept};
ghost use Rattle.certificate.specs.SourceReading.{IsLineRead, premises_kept};
ghost use Rattle.certificate.specs.Text.{line_feed};
ghost use Rattle.certificate.specs.TextLines.{LastLine, text_of};
ghost use Rattle.certificate.specs.View.{conclusion_of, line_of};

use crate::fitting::{fits_axiom, fits_conclusion};
use crate::format::Format;
use crate::line::{Conclusion, Line, Rule};
use crate::line_reading::{axiom_at, conclusion_at, premise_at, rule_at};
use crate::listed_reading::domain_at;
use axioms::{Memory, Ontology};
use std::alloc::AllocError;

/// The format that the first line of a text names, and whether it is that of a consistent ontology's certificate, where the bytes are
/// a first line.
pub(crate) fn first_line(bytes: &[u8]) -> Option<(Format, bool)>
    ensures { IsFirstLine bytes.now result }
{
    if bytes == b"elcert 1 consistent\n".as_slice() {
        return Some((Format::One, true));
    }
    if bytes == b"elcert 1 inconsistent\n".as_slice() {
        return Some((Format::One, false));
    }
    if bytes == b"elcert 2 consistent\n".as_slice() {
        return Some((Format::Two, true));
    }
    if bytes == b"elcert 2 inconsistent\n".as_slice() {
        return Some((Format::Two, false));
    }
    None
}

/// Whether the bytes are the last line of a text.
pub(crate) fn is_last_line(bytes: &[u8]) -> bool
    ensures { IsTrue result ↔ (text_of LastLine ≡ bytes.now) }
{
    bytes == b"end\n".as_slice()
}

/// The domain whose line the bytes are.
pub(crate) fn domain_line(bytes: &[u8]) -> Option<u32>
    ensures { IsDomainLine bytes.now result }
{
    let Some((domain, rest)) = domain_at(bytes) else {
        return None;
    };
    if !rest.is_empty() {
        return None;
    }
    Some(domain)
}

// The conclusion, the rule and the axiom at the front.
#[tactic(auto, unfolding(crate::specs::SingleLines::front_at))]
#[inline(always)]
fn front_at(bytes: &[u8]) -> Option<(Conclusion, Rule, Option<usize>, &[u8])>
    ensures { option_map (λ x. ((conclusion_of x.0, (x.1, x.2)), x.3.now)) result ≡ front_at bytes.now }
{
    let (conclusion, rest) = conclusion_at(bytes)?;
    let (rule, rest) = rule_at(rest)?;
    let (axiom, rest) = axiom_at(rest)?;
    Some((conclusion, rule, axiom, rest))
}

// One premise more, which is kept unless there are more than the most.
fn keep(most: Option<usize>, kept: &mut Vec<u64>, number: u64) -> Result<(), AllocError>
    ensures { IfOk result (λ _. (all : List ℕ) → kept.old.items ≡ premises_kept most all → kept.new.items ≡ premises_kept most (all ++ number ∷ [])) }
{
    if let Some(most) = most {
        if kept.len() > most {
            return Ok(());
        }
    }
    kept.push(number)?;
    Ok(())
}

// The premise of the line of that number for which the other stands.
fn read_premise(format: Format, number: u64, premise: u64) -> u64
    ensures { result ≡ read_premise format number premise }
{
    match format {
        Format::One => premise,
        Format::Two => number.saturating_sub(premise),
    }
}

// Whether the number stands for a premise of the line of that number.
fn is_read(format: Format, number: u64, premise: u64) -> bool
    ensures { result ≡ (nat_le 1 premise && is_back format number premise) }
{
    match format {
        Format::One => 1 <= premise,
        Format::Two => 1 <= premise && premise < number,
    }
}

// Of the premises at the front no more than are kept, in the list, whose room is used again, and whether each is one.
#[inline(always)]
fn kept_premises(
    room: Vec<u64>,
    most: Option<usize>,
    format: Format,
    number: u64,
    bytes: &[u8],
) -> Result<(Vec<u64>, bool, &[u8]), AllocError>
    ensures { IfOk result (λ x. AreKept format number most bytes.now x.0.items x.1 x.2.now) }
{
    let mut kept = room;
    kept.clear();
    let mut fit = true;
    let mut rest = bytes;
    while let Some((premise, others)) = premise_at(rest) {
        keep(most, &mut kept, read_premise(format, number, premise))?;
        fit = fit && is_read(format, number, premise);
        rest = others;
    }
    Ok((kept, fit, rest))
}

fn is_line_feed(bytes: &[u8]) -> bool
    ensures { IsTrue result ↔ (line_feed ≡ bytes.now) }
{
    bytes == b"\n".as_slice()
}

/// The line of the derivation, of that number, that the bytes are, where it names what the ontology has and its premises can be.
///
/// Of its premises one more than the most at most is kept, in the room of the list; all are kept where there is no most.
#[inline(always)]
pub(crate) fn derived_line(
    room: Vec<u64>,
    most_premises: Option<usize>,
    ontology: &Ontology,
    format: Format,
    number: u64,
    bytes: &[u8],
) -> Result<Option<Line>, Memory>
    ensures { IfOk result (λ line. IsLineRead ontology.now format number most_premises bytes.now (option_map line_of line)) }
{
    let Some((conclusion, rule, axiom, rest)) = front_at(bytes) else {
        return Ok(None);
    };
    if !fits_conclusion(ontology, conclusion) {
        return Ok(None);
    }
    if !fits_axiom(ontology, axiom) {
        return Ok(None);
    }
    let (premises, fit, rest) = kept_premises(room, most_premises, format, number, rest)?;
    if !fit {
        return Ok(None);
    }
    if !is_line_feed(rest) {
        return Ok(None);
    }
    let line = Line {
        conclusion,
        rule,
        axiom,
        premises,
    };
    Ok(Some(line))
}
