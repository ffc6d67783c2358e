//! What of a document is of the profile, and its report, which tells lines and columns where these are asked for.
ghost use Rattle.profile.specs.Faults.{HaveFaults, Refuses};
ghost use Rattle.restricting.specs.Reports.{AreReported, report_by};
ghost use Rattle.shapes.specs.View.{faults_of};
ghost use Rattle.statements_text.specs.Restrictions.{IsNotRestricted, fault_line, report_text};
ghost use Rattle.std.specs.Prelude.{◌≡◌, ◌++◌, ℕ, IfErr, IfNone, IfOk, IfSome, List, string_bytes, true};
ghost use Rattle.std.specs.List.{flat_map};

use profile::{DocumentFault, Version, read_bytes};
use receiving::lined_faults;
use shapes::Fault;
use statements_text::{Restriction, restricted};
use std::alloc::{AllocError, Global};
use std::hash::RandomState;

/// A line for each fault, as it is told without its line.
fn plain_faults(alloc: Global, faults: &[Fault]) -> Result<String, AllocError>
    ensures { IfOk result (λ s. string_bytes s ≡ flat_map fault_line (faults_of faults.now)) }
{
    let mut text = String::new(alloc);
    for fault in faults {
        let line = format!(in alloc; "{fault}\n")?;
        text.push_str(&line)?;
    }
    Ok(text)
}

/// What stands behind the text that another begins with.
fn behind<'a>(text: &'a str, front: &str) -> Option<&'a str>
    ensures some { IfSome result (λ rest. text.now ≡ front.now ++ rest.now) }
    ensures none { IfNone result ((rest : List ℕ) → text.now ≡ front.now ++ rest → ⊥) }
{
    text.strip_prefix(front)
}

/// The line of the counts, behind the faults of a report.
fn counts_of<'a>(report: &'a str, faults: &str) -> &'a str
    ensures { (counts : List ℕ) → report.now ≡ faults.now ++ counts → result.now ≡ counts }
{
    match behind(report, faults) {
        Some(counts) => counts,
        None => report,
    }
}

/// The report of the faults, each with its line and its column in the bytes.
fn lined_report(
    alloc: Global,
    report: &str,
    faults: &[Fault],
    bytes: &[u8],
) -> Result<String, AllocError>
    ensures { (kept left_out : ℕ) → report.now ≡ report_text (faults_of faults.now) kept left_out
        → IfOk result (λ s. string_bytes s ≡ report_by true bytes.now (faults_of faults.now) kept left_out) }
{
    let plain = plain_faults(alloc, faults)?;
    let mut lined = lined_faults(alloc, faults, bytes)?;
    lined.push_str(counts_of(report, plain.as_str()))?;
    Ok(lined)
}

/// What of the document that has these faults is of the profile, and its report by lines.
fn faulty(
    alloc: Global,
    bytes: &[u8],
    faults: &[Fault],
    version: Version,
    state: RandomState,
) -> Result<Restriction, DocumentFault>
    requires { HaveFaults version bytes.now faults.now }
    ensures restricted { IfOk result (AreReported true version bytes.now) }
    ensures refused { IfErr result (λ e. IsNotRestricted version e bytes.now) }
{
    let Restriction { text, report } = match restricted(alloc, bytes, version, state) {
        Ok(plain) => plain,
        Err(fault) => return Err(fault),
    };
    match lined_report(alloc, report.as_str(), faults, bytes) {
        Ok(report) => Ok(Restriction { text, report }),
        Err(_) => Err(DocumentFault::Memory),
    }
}

/// The same of a document that is refused for the fault.
fn by_fault(
    alloc: Global,
    bytes: &[u8],
    fault: DocumentFault,
    version: Version,
    state: RandomState,
) -> Result<Restriction, DocumentFault>
    requires { Refuses version fault bytes.now }
    ensures restricted { IfOk result (AreReported true version bytes.now) }
    ensures refused { IfErr result (λ e. IsNotRestricted version e bytes.now) }
{
    match fault {
        DocumentFault::Faults(faults) => faulty(alloc, bytes, &faults, version, state),
        DocumentFault::TooManyNames => restricted(alloc, bytes, version, state),
        DocumentFault::NotUtf8 { at } => Err(DocumentFault::NotUtf8 { at }),
        DocumentFault::Lex(fault) => Err(DocumentFault::Lex(fault)),
        DocumentFault::Parse(fault) => Err(DocumentFault::Parse(fault)),
        DocumentFault::TooLarge | DocumentFault::Io | DocumentFault::Memory => {
            Err(DocumentFault::Memory)
        }
    }
}

/// The same of any document. It is read for its faults before.
fn by_lines(
    alloc: Global,
    bytes: &[u8],
    version: Version,
    state: RandomState,
) -> Result<Restriction, DocumentFault>
    ensures restricted { IfOk result (AreReported true version bytes.now) }
    ensures refused { IfErr result (λ e. IsNotRestricted version e bytes.now) }
{
    match read_bytes(alloc, bytes, version, state) {
        Ok(_) => {}
        Err(fault) => return by_fault(alloc, bytes, fault, version, state),
    }
    restricted(alloc, bytes, version, state)
}

/// What of the document whose text the bytes are is of the profile, in this version. The report tells the line and the column of each fault
/// where lines are asked for; the document is read twice then.
///
/// # Errors
///
/// Those of `restricted`.
pub fn reported(
    alloc: Global,
    bytes: &[u8],
    lines: bool,
    version: Version,
    state: RandomState,
) -> Result<Restriction, DocumentFault>
    ensures restricted { IfOk result (AreReported lines version bytes.now) }
    ensures refused { IfErr result (λ e. IsNotRestricted version e bytes.now) }
{
    if lines {
        by_lines(alloc, bytes, version, state)
    } else {
        restricted(alloc, bytes, version, state)
    }
}
