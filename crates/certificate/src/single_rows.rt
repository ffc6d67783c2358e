//! Single lines of a listed interpretation.

ghost use Rattle.std.specs.Prelude.{◌≡◌, ◌&&◌, IfOk, length, map, nat_lt, option_map};
ghost use Rattle.certificate.specs.Certificate.{Format as Format2};
ghost use Rattle.certificate.specs.LineValues.{TakesRow};
ghost use Rattle.certificate.specs.SingleLines.{IsTextOfOne, TakesKind, individual_line};
ghost use Rattle.certificate.specs.Tests.{is_small, fits_class, fits_pairs, fits_claim, key, pair_key};
ghost use Rattle.certificate.specs.Text.{class_text, pairs_text, individual_text, claim_text};
ghost use Rattle.certificate.specs.TextLines.{ClassLine, PairLine, ClaimLine, last_of, is_empty, has_individuals};
ghost use Rattle.certificate.specs.View.{claim_of, class_row_of, held_pair_row, held_row, listing_of, pair_row_of};

use crate::fault::ReadFault;
use crate::format::Format;
use crate::listed::{Claim, ClassRow, PairRow};
use crate::listed_reading::{fitting_claim_at, fitting_class_at, fitting_pairs_at, individual_at};
use crate::listed_runs::ListedRuns;
use axioms::{Memory, Ontology};
use std::alloc::Global;

fn last_class(rows: &[ClassRow]) -> Option<u32>
    ensures { result ≡ key (last_of (map class_row_of rows.now)) }
{
    match rows {
        [.., row] => Some(row.class.0),
        [] => None,
    }
}

fn last_pair(rows: &[PairRow]) -> Option<(u32, u32)>
    ensures { result ≡ pair_key (last_of (map pair_row_of rows.now)) }
{
    match rows {
        [.., row] => Some((row.property.0, row.source)),
        [] => None,
    }
}

fn last_claim(claims: &[Claim]) -> Option<u32>
    ensures { result ≡ key (last_of (map claim_of claims.now)) }
{
    match claims {
        [.., claim] => Some(claim.class.0),
        [] => None,
    }
}

// The row of a class that the bytes are, where it may stand after one of the class `last`.
#[inline(always)]
fn class_line(
    alloc: Global,
    ontology: &Ontology,
    format: Format,
    domain: u32,
    last: Option<u32>,
    bytes: &[u8],
) -> Result<Option<ClassRow>, Memory>
    ensures { IfOk result (λ row. IsTextOfOne (class_text format) (fits_class ontology.now domain last) bytes.now (option_map held_row row)) }
{
    match fitting_class_at(alloc, ontology, format, domain, last, bytes) {
        Ok((row, rest)) => {
            if !rest.is_empty() {
                return Ok(None);
            }
            Ok(Some(row))
        }
        Err(ReadFault::Text { .. }) => Ok(None),
        Err(ReadFault::Memory) => Err(Memory),
    }
}

// The row of pairs that the bytes are, where it may stand after one of the property and the source `last`.
#[inline(always)]
fn pair_line(
    alloc: Global,
    ontology: &Ontology,
    format: Format,
    domain: u32,
    last: Option<(u32, u32)>,
    bytes: &[u8],
) -> Result<Option<PairRow>, Memory>
    ensures { IfOk result (λ row. IsTextOfOne (pairs_text format) (fits_pairs ontology.now domain last) bytes.now (option_map held_pair_row row)) }
{
    match fitting_pairs_at(alloc, ontology, format, domain, last, bytes) {
        Ok((row, rest)) => {
            if !rest.is_empty() {
                return Ok(None);
            }
            Ok(Some(row))
        }
        Err(ReadFault::Text { .. }) => Ok(None),
        Err(ReadFault::Memory) => Err(Memory),
    }
}

// The element of the individual, whose line the bytes are.
fn element_line(domain: u32, number: usize, bytes: &[u8]) -> Option<u32>
    ensures { IsTextOfOne (λ x. individual_text (number, x)) (λ x. is_small number && nat_lt x domain) bytes.now result }
{
    let Some((element, rest)) = individual_at(domain, number, bytes) else {
        return None;
    };
    if !rest.is_empty() {
        return None;
    }
    Some(element)
}

// The claim that the bytes are, where it may stand after one of the class `last`.
fn claim_line(ontology: &Ontology, domain: u32, last: Option<u32>, bytes: &[u8]) -> Option<Claim>
    ensures { IsTextOfOne claim_text (fits_claim ontology.now domain last) bytes.now (option_map claim_of result) }
{
    let Some((claim, rest)) = fitting_claim_at(ontology, domain, last, bytes) else {
        return None;
    };
    if !rest.is_empty() {
        return None;
    }
    Some(claim)
}

// Whether a row of a class may come.
fn may_take_class(listed: &ListedRuns) -> bool
    ensures { result ≡ is_empty (listing_of listed.now).pairs && is_empty (listing_of listed.now).individuals && is_empty (listing_of listed.now).claims }
{
    listed.rows.pairs.is_empty()
        && listed.rows.individuals.is_empty()
        && listed.rows.claims.is_empty()
}

// Whether a row of pairs may come.
fn may_take_pairs(listed: &ListedRuns) -> bool
    ensures { result ≡ is_empty (listing_of listed.now).individuals && is_empty (listing_of listed.now).claims }
{
    listed.rows.individuals.is_empty() && listed.rows.claims.is_empty()
}

// Whether the element of an individual may come.
fn may_take_individual(ontology: &Ontology, listed: &ListedRuns) -> bool
    ensures { result ≡ is_empty (listing_of listed.now).claims && nat_lt (length (listing_of listed.now).individuals) (length ontology.now.names.individuals) }
{
    listed.rows.claims.is_empty() && listed.rows.individuals.len() < ontology.individuals().len()
}

// Whether a claim may come.
fn may_take_claim(ontology: &Ontology, listed: &ListedRuns) -> bool
    ensures { result ≡ has_individuals ontology.now (listing_of listed.now) }
{
    listed.rows.individuals.len() == ontology.individuals().len()
}

#[inline(always)]
fn class_row(
    alloc: Global,
    ontology: &Ontology,
    format: Format,
    listed: &mut ListedRuns,
    bytes: &[u8],
) -> Result<bool, Memory>
    ensures { IfOk result (λ taken. TakesKind (ClassLine format) ontology.now format (listing_of listed.old) bytes.now taken (listing_of listed.new)) }
{
    if !may_take_class(listed) {
        return Ok(false);
    }
    let last = last_class(&listed.rows.classes);
    let Some(row) = class_line(alloc, ontology, format, listed.rows.domain, last, bytes)? else {
        return Ok(false);
    };
    listed.rows.classes.push(row)?;
    Ok(true)
}

#[inline(always)]
fn pair_row(
    alloc: Global,
    ontology: &Ontology,
    format: Format,
    listed: &mut ListedRuns,
    bytes: &[u8],
) -> Result<bool, Memory>
    ensures { IfOk result (λ taken. TakesKind (PairLine format) ontology.now format (listing_of listed.old) bytes.now taken (listing_of listed.new)) }
{
    if !may_take_pairs(listed) {
        return Ok(false);
    }
    let last = last_pair(&listed.rows.pairs);
    let Some(row) = pair_line(alloc, ontology, format, listed.rows.domain, last, bytes)? else {
        return Ok(false);
    };
    listed.rows.pairs.push(row)?;
    Ok(true)
}

#[inline(always)]
fn individual_row(
    ontology: &Ontology,
    listed: &mut ListedRuns,
    bytes: &[u8],
) -> Result<bool, Memory>
    ensures { IfOk result (λ taken. (format : Format2) → TakesKind individual_line ontology.now format (listing_of listed.old) bytes.now taken (listing_of listed.new)) }
{
    if !may_take_individual(ontology, listed) {
        return Ok(false);
    }
    let Some(element) = element_line(listed.rows.domain, listed.rows.individuals.len(), bytes)
    else {
        return Ok(false);
    };
    listed.rows.individuals.push(element)?;
    Ok(true)
}

#[inline(always)]
fn claim_row(ontology: &Ontology, listed: &mut ListedRuns, bytes: &[u8]) -> Result<bool, Memory>
    ensures { IfOk result (λ taken. (format : Format2) → TakesKind ClaimLine ontology.now format (listing_of listed.old) bytes.now taken (listing_of listed.new)) }
{
    if !may_take_claim(ontology, listed) {
        return Ok(false);
    }
    let last = last_claim(&listed.rows.claims);
    let Some(claim) = claim_line(ontology, listed.rows.domain, last, bytes) else {
        return Ok(false);
    };
    listed.rows.claims.push(claim)?;
    Ok(true)
}

/// Whether the bytes are a row that may follow those of the interpretation, which then has it too.
#[inline(always)]
pub(crate) fn take_row(
    alloc: Global,
    ontology: &Ontology,
    format: Format,
    listed: &mut ListedRuns,
    bytes: &[u8],
) -> Result<bool, Memory>
    ensures { IfOk result (λ taken. TakesRow ontology.now format (listing_of listed.old) bytes.now taken (listing_of listed.new)) }
{
    if class_row(alloc, ontology, format, listed, bytes)? {
        return Ok(true);
    }
    if pair_row(alloc, ontology, format, listed, bytes)? {
        return Ok(true);
    }
    if individual_row(ontology, listed, bytes)? {
        return Ok(true);
    }
    claim_row(ontology, listed, bytes)
}
