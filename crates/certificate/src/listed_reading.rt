//! Rows of a listed interpretation at the front of bytes.

ghost use Rattle.std.specs.Prelude.{◌≡◌, ℕ, Some, option_map, IfOk, IfSome};
ghost use Rattle.certificate.specs.Certificate.{One};
ghost use Rattle.certificate.specs.Held.{held_class, held_pairs};
ghost use Rattle.certificate.specs.HeldReading.{AreReadElements, HoldsElements, HoldsRuns};
ghost use Rattle.certificate.specs.ListedReading.{element_at, elements_at, end_at, fits_run, next_run_at, run_at, fitting_class_at, fitting_pairs_at, individual_at, fitting_claim_at, domain_at};
ghost use Rattle.certificate.specs.View.{class_row_of, pair_row_of, claim_of, run_of};
ghost use Rattle.certificate.specs.Outcome.{Gives};

use crate::fault::{ReadFault, stopped};
use crate::fitting::{fits_claim, fits_read_class, fits_read_pairs};
use crate::format::Format;
use crate::listed::{Claim, ClassRow, PairRow, Targets};
use crate::listed_runs::{numbers_between, push_run};
use crate::number::{after, small_at};
use crate::run::Run;
use axioms::{ExprId, Ontology, PropId};
use smallvec::SmallVec;
use std::alloc::{AllocError, Global};

#[tactic(auto, unfolding(crate::specs::ListedReading::element_at))]
fn element_at(bytes: &[u8]) -> Option<(u32, &[u8])>
    ensures { option_map (λ x. (x.0, x.1.now)) result ≡ element_at bytes.now }
{
    small_at(after(b" ", bytes)?)
}

// Elements one by one.
fn single_elements_at(alloc: Global, bytes: &[u8]) -> Result<(SmallVec<u32, 4>, &[u8]), AllocError>
    ensures { IfOk result (λ x. (d : ℕ) → elements_at One d bytes.now ≡ Some (x.0.items, x.1.now)) }
{
    let mut items = SmallVec::new(alloc);
    let mut rest = bytes;
    while let Some((element, others)) = element_at(rest) {
        items.push(element)?;
        rest = others;
    }
    Ok((items, rest))
}

// The end of a run that begins with that number.
#[inline(always)]
#[tactic(auto, unfolding(crate::specs::ListedReading::end_at))]
fn end_at(first: u32, bytes: &[u8]) -> Option<(u32, &[u8])>
    ensures { option_map (λ x. (x.0, x.1.now)) result ≡ end_at first bytes.now }
{
    let Some(rest) = after(b"-", bytes) else {
        return Some((first, bytes));
    };
    let (last, rest) = small_at(rest)?;
    if last <= first {
        return None;
    }
    Some((last, rest))
}

#[inline(always)]
#[tactic(auto, unfolding(crate::specs::ListedReading::run_at))]
fn run_at(bytes: &[u8]) -> Option<(Run, &[u8])>
    ensures { option_map (λ x. (run_of x.0, x.1.now)) result ≡ run_at bytes.now }
{
    let (first, rest) = element_at(bytes)?;
    let (last, rest) = end_at(first, rest)?;
    Some((Run { first, last }, rest))
}

// Whether the run lies below the domain, and apart from the one before it.
#[inline(always)]
fn fits_run(domain: u32, before: Option<Run>, run: Run) -> bool
    ensures { result ≡ fits_run domain (option_map run_of before) (run_of run) }
{
    match before {
        None => run.last < domain,
        Some(before) => run.last < domain && u64::from(before.last) + 1 < u64::from(run.first),
    }
}

// The run that comes behind another, if one does.
#[inline(always)]
fn next_run_at(domain: u32, before: Option<Run>, bytes: &[u8]) -> Option<(Run, &[u8])>
    ensures { option_map (λ x. (run_of x.0, x.1.now)) result ≡ next_run_at domain (option_map run_of before) bytes.now }
{
    let (run, rest) = run_at(bytes)?;
    if !fits_run(domain, before, run) {
        return None;
    }
    Some((run, rest))
}

// The last and the first number of each run, and how many numbers the runs have.
fn run_ends_at<'a>(
    alloc: Global,
    domain: u32,
    bytes: &'a [u8],
) -> Result<(SmallVec<u32, 4>, usize, &'a [u8]), AllocError>
    ensures { IfOk result (λ x. HoldsRuns domain bytes.now x.0.items x.2.now) }
{
    let mut ends = SmallVec::new(alloc);
    let mut count: usize = 0;
    let mut before = None;
    let mut rest = bytes;
    while let Some((run, others)) = next_run_at(domain, before, rest) {
        ends.push(run.last)?;
        ends.push(run.first)?;
        count = count.saturating_add((run.last - run.first) as usize + 1);
        before = Some(run);
        rest = others;
    }
    Ok((ends, count, rest))
}

// Elements by runs, written out as they are read; none where at the end of some run they take more room than the ends so far.
fn few_elements_at(
    alloc: Global,
    domain: u32,
    bytes: &[u8],
) -> Result<Option<(SmallVec<u32, 4>, &[u8])>, AllocError>
    ensures { IfOk result (λ few. IfSome few (λ x. HoldsElements domain bytes.now x.0.items x.1.now)) }
{
    let mut elements = SmallVec::new(alloc);
    let mut room: usize = 0;
    let mut before = None;
    let mut rest = bytes;
    while let Some((run, others)) = next_run_at(domain, before, rest) {
        room = room.saturating_add(2);
        if room <= (run.last - run.first) as usize {
            return Ok(None);
        }
        push_run(&mut elements, &mut room, run.first, run.last)?;
        before = Some(run);
        rest = others;
    }
    Ok(Some((elements, rest)))
}

// Elements by runs: the elements themselves where they take no more room than the ends of their runs, and else these.
fn run_elements_at(
    alloc: Global,
    domain: u32,
    bytes: &[u8],
) -> Result<(SmallVec<u32, 4>, &[u8]), AllocError>
    ensures { IfOk result (λ x. HoldsElements domain bytes.now x.0.items x.1.now) }
{
    if let Some(few) = few_elements_at(alloc, domain, bytes)? {
        return Ok(few);
    }
    let (ends, count, rest) = run_ends_at(alloc, domain, bytes)?;
    if count > ends.len() {
        return Ok((ends, rest));
    }
    let mut left = count;
    let elements = numbers_between(alloc, &mut left, &ends)?;
    Ok((elements, rest))
}

// Elements in the format.
fn elements_at(
    alloc: Global,
    format: Format,
    domain: u32,
    bytes: &[u8],
) -> Result<(SmallVec<u32, 4>, &[u8]), AllocError>
    ensures { IfOk result (λ x. AreReadElements format domain bytes.now x.0.items x.1.now) }
{
    match format {
        Format::One => single_elements_at(alloc, bytes),
        Format::Two => run_elements_at(alloc, domain, bytes),
    }
}

#[tactic(auto, unfolding(crate::specs::ListedReading::class_row_at, crate::specs::ListedReading::fitting_class_at))]
pub(crate) fn fitting_class_at<'a>(
    alloc: Global,
    ontology: &Ontology,
    format: Format,
    domain: u32,
    last: Option<u32>,
    bytes: &'a [u8],
) -> Result<(ClassRow, &'a [u8]), ReadFault>
    ensures { Gives (λ x. (held_class (class_row_of x.0), x.1.now)) result (fitting_class_at ontology.now format domain last bytes.now) }
{
    let rest = after(b"class e", bytes).ok_or(stopped(bytes))?;
    let (class, rest) = small_at(rest).ok_or(stopped(bytes))?;
    let (elements, rest) = elements_at(alloc, format, domain, rest)?;
    let rest = after(b"\n", rest).ok_or(stopped(bytes))?;
    let class = ExprId(class);
    let elements = Vec::from_slice(alloc, &elements)?;
    let row = ClassRow { class, elements };
    if !fits_read_class(ontology, format, domain, last, &row) {
        return Err(stopped(bytes));
    }
    Ok((row, rest))
}

#[tactic(auto, unfolding(crate::specs::ListedReading::pair_row_at, crate::specs::ListedReading::fitting_pairs_at))]
pub(crate) fn fitting_pairs_at<'a>(
    alloc: Global,
    ontology: &Ontology,
    format: Format,
    domain: u32,
    last: Option<(u32, u32)>,
    bytes: &'a [u8],
) -> Result<(PairRow, &'a [u8]), ReadFault>
    ensures { Gives (λ x. (held_pairs (pair_row_of x.0), x.1.now)) result (fitting_pairs_at ontology.now format domain last bytes.now) }
{
    let rest = after(b"succ p", bytes).ok_or(stopped(bytes))?;
    let (property, rest) = small_at(rest).ok_or(stopped(bytes))?;
    let (source, rest) = element_at(rest).ok_or(stopped(bytes))?;
    let (targets, rest) = elements_at(alloc, format, domain, rest)?;
    let rest = after(b"\n", rest).ok_or(stopped(bytes))?;
    let property = PropId(property);
    let targets = Targets::from_slice(alloc, &targets)?;
    let row = PairRow {
        property,
        source,
        targets,
    };
    if !fits_read_pairs(ontology, format, domain, last, &row) {
        return Err(stopped(bytes));
    }
    Ok((row, rest))
}

#[tactic(auto, unfolding(crate::specs::ListedReading::individual_at))]
pub(crate) fn individual_at(domain: u32, number: usize, bytes: &[u8]) -> Option<(u32, &[u8])>
    ensures { option_map (λ x. (x.0, x.1.now)) result ≡ individual_at domain number bytes.now }
{
    let (individual, rest) = small_at(after(b"ind i", bytes)?)?;
    let (element, rest) = element_at(rest)?;
    let rest = after(b"\n", rest)?;
    if individual as usize != number || element >= domain {
        return None;
    }
    Some((element, rest))
}

#[tactic(auto, unfolding(crate::specs::ListedReading::claim_row_at, crate::specs::ListedReading::fitting_claim_at))]
pub(crate) fn fitting_claim_at<'a>(
    ontology: &Ontology,
    domain: u32,
    last: Option<u32>,
    bytes: &'a [u8],
) -> Option<(Claim, &'a [u8])>
    ensures { option_map (λ x. (claim_of x.0, x.1.now)) result ≡ fitting_claim_at ontology.now domain last bytes.now }
{
    let (class, rest) = small_at(after(b"claim e", bytes)?)?;
    let (element, rest) = element_at(rest)?;
    let rest = after(b"\n", rest)?;
    let class = ExprId(class);
    let claim = Claim { class, element };
    if !fits_claim(ontology, domain, last, claim) {
        return None;
    }
    Some((claim, rest))
}

#[tactic(auto, unfolding(crate::specs::ListedReading::domain_at))]
pub(crate) fn domain_at(bytes: &[u8]) -> Option<(u32, &[u8])>
    ensures { option_map (λ x. (x.0, x.1.now)) result ≡ domain_at bytes.now }
{
    let (domain, rest) = small_at(after(b"domain ", bytes)?)?;
    let rest = after(b"\n", rest)?;
    if domain == 0 {
        return None;
    }
    Some((domain, rest))
}
