//! Documents whose faults are told with their lines and columns.
ghost use Rattle.profile.specs.Messages.{fault_text, status_of};
ghost use Rattle.receiving.specs.Checks.{AreKnown};
ghost use Rattle.receiving.specs.Lines.{IsFileRead, IsLinedTold, IsReadOrRefused, IsReadable, IsUnread};
ghost use Rattle.receiving.specs.Places.{IsLinedText, lined_fault, lined_text as text_lined, place_text};
ghost use Rattle.shapes.specs.View.{faults_of};
ghost use Rattle.source_lines.specs.Sources.{source_state};
ghost use Rattle.std.specs.Prelude.{◌≡◌, ◌+◌, ◌++◌, ◌<◌, ◌≤◌, [], IfErr, IfOk, IsErrOf, OnOk, length, option_map, string_bytes};
ghost use Rattle.std.specs.List.{flat_map};
ghost use Rattle.profile.specs.declared.fault.DocumentFault.TheVariants as faults;
ghost use Rattle.telling.specs.Devices.{IsReadIn, seen};

use crate::asked::{Means, Reading};
use crate::places::{first_place, place_at, place_in_trees, place_of};
use crate::sources::source_of;
use device::{ReadFault, Sink, Source, read_all};
use profile::{DocumentFault, Limits, read_bytes};
use shapes::Fault;
use std::alloc::{AllocError, Global};
use system_files::Files;
use telling::{Message, document_message, message_of, tell};

/// A line for each fault of a document's trees, with the line and the column of its place in the bytes.
pub fn lined_faults(alloc: Global, faults: &[Fault], bytes: &[u8]) -> Result<String, AllocError>
    ensures { IfOk result (λ s. string_bytes s ≡ flat_map (lined_fault bytes.now) (faults_of faults.now)) }
{
    let mut text = String::new(alloc);
    let mut place = first_place();
    for fault in faults {
        place = place_at(bytes, place, place_in_trees(fault));
        let number = place.line;
        let column = place.column;
        let line = format!(in alloc; "{fault} line {number} column {column}\n")?;
        text.push_str(&line)?;
    }
    Ok(text)
}

/// The line of a fault of the whole document, with the line and the column of this place in the bytes.
fn lined_at(
    alloc: Global,
    fault: &DocumentFault,
    at: Option<usize>,
    bytes: &[u8],
) -> Result<Option<String>, AllocError>
    ensures { IfOk result (λ s. option_map string_bytes s ≡ option_map (λ place. fault_text fault.now ++ place_text bytes.now place) at) }
{
    let Some(at) = at else {
        return Ok(None);
    };
    let place = place_at(bytes, first_place(), at);
    let number = place.line;
    let column = place.column;
    let line = format!(in alloc; "{fault} line {number} column {column}\n")?;
    Ok(Some(line))
}

/// The lines of the fault of a document, each with the line and the column of its place in the bytes. None where it has no place.
fn lined_text(
    alloc: Global,
    fault: &DocumentFault,
    bytes: &[u8],
) -> Result<Option<String>, AllocError>
    ensures { IfOk result (λ s. option_map string_bytes s ≡ text_lined bytes.now fault.now) }
{
    match fault {
        DocumentFault::Faults(found) => Ok(Some(lined_faults(alloc, found, bytes)?)),
        DocumentFault::NotUtf8 { .. }
        | DocumentFault::TooLarge
        | DocumentFault::Io
        | DocumentFault::Lex(_)
        | DocumentFault::Parse(_)
        | DocumentFault::TooManyNames
        | DocumentFault::Memory => lined_at(alloc, fault, place_of(fault), bytes),
    }
}

/// What to tell of a document of these bytes that is not read: each fault with its line and its column.
pub fn lined_message(
    alloc: Global,
    fault: &DocumentFault,
    bytes: &[u8],
    path: &str,
    limits: &Limits,
) -> Result<Message, AllocError>
    ensures { IfOk result (λ m. IsLinedText path.now limits.now.max_bytes bytes.now fault.now (string_bytes m.text) × (m.status ≡ status_of fault.now)) }
{
    match lined_text(alloc, fault, bytes) {
        Ok(Some(text)) => message_of(Ok(text), fault.status()),
        Ok(None) => document_message(alloc, fault, path, limits),
        Err(error) => Err(error),
    }
}

/// All the bytes of the document, which are at most as many as its limit.
///
/// # Errors
///
/// `TooLarge` where there are more, `Io` where the source failed, and `Memory` where memory was refused.
pub fn document_bytes<D: Source>(
    alloc: Global,
    document: &mut D,
    limits: &Limits,
) -> Result<Vec<u8>, DocumentFault>
    ensures known { IfOk result (λ v. AreKnown (D.left document.old) v.items) }
    ensures within { IfOk result (λ v. length v.items ≤ limits.now.max_bytes) }
    ensures unread { IfErr result (IsUnread limits.now.max_bytes (D.left document.old)) }
    ensures beyond { IsErrOf result faults.TooLarge → D.most document.new + limits.now.max_bytes < D.most document.old }
    ensures read { IsReadIn result (source_state D.Source document.old) (source_state D.Source document.new) }
{
    match read_all(alloc, document, limits.max_bytes as usize) {
        Ok(bytes) => Ok(bytes),
        Err(ReadFault::TooLarge) => Err(DocumentFault::TooLarge),
        Err(ReadFault::Failed) => Err(DocumentFault::Io),
        Err(ReadFault::Memory) => Err(DocumentFault::Memory),
    }
}

/// All the bytes of the file at the path, which are at most as many as the limit.
fn file_bytes<F: Files>(reading: &Reading<'_>, files: &F) -> Result<Vec<u8>, DocumentFault>
    ensures { IsFileRead reading.now.limits.max_bytes F.reads_fail (F.is_known files.now) (F.content files.now reading.now.path.now) result }
{
    let Ok(mut document) = source_of(files, reading.path) else {
        return Err(DocumentFault::Memory);
    };
    document_bytes(reading.means.alloc, &mut document, &reading.limits)
}

/// Why a document does not read as an ontology, and its bytes, where they were all read.
#[derive(Drop)]
struct Refusal {
    fault: DocumentFault,
    bytes: Vec<u8>,
}

/// A refusal for what is no fault of the bytes of a document.
fn unplaced(alloc: Global, fault: DocumentFault) -> Refusal
    ensures fault { result.fault ≡ fault }
    ensures bytes { result.bytes.items ≡ [] }
{
    Refusal {
        fault,
        bytes: Vec::new(alloc),
    }
}

/// Reads the document at the path as an ontology, and gives back its bytes where it is one.
fn read_again<F: Files>(reading: &Reading<'_>, files: &F) -> Result<(), Refusal>
    ensures { IsReadOrRefused reading.now.limits.version reading.now.limits.max_bytes F.reads_fail (F.is_known files.now) (F.content files.now reading.now.path.now) result }
{
    let Means { alloc, state } = reading.means;
    let bytes = match file_bytes(reading, files) {
        Ok(bytes) => bytes,
        Err(fault) => return Err(unplaced(alloc, fault)),
    };
    match read_bytes(alloc, &bytes, reading.limits.version, state) {
        Ok(_) => {}
        Err(fault) => return Err(Refusal { fault, bytes }),
    }
    match files.give_back(reading.path, bytes) {
        Ok(()) => Ok(()),
        Err(_) => Err(unplaced(alloc, DocumentFault::Memory)),
    }
}

/// Reads the document at the path, which a run reads behind this again. Where it does not read as an ontology, `err` is told why, each fault
/// with its line and its column in the bytes that were read, and the status is given.
pub fn read_by_lines<F: Files, E: Sink>(
    reading: &Reading<'_>,
    files: &F,
    err: &mut E,
) -> Result<(), u8>
    ensures read { OnOk result (IsReadable reading.now.limits.version reading.now.limits.max_bytes (F.content files.now reading.now.path.now)) }
    ensures quiet { OnOk result (err.new ≡ err.old) }
    ensures told { IfErr result (IsLinedTold reading.now.path.now reading.now.limits.version reading.now.limits.max_bytes F.reads_fail (F.is_known files.now) (F.content files.now reading.now.path.now) (seen E.Sink err.old) (seen E.Sink err.new)) }
{
    match read_again(reading, files) {
        Ok(()) => Ok(()),
        Err(refusal) => {
            let message = lined_message(
                reading.means.alloc,
                &refusal.fault,
                &refusal.bytes,
                reading.path,
                &reading.limits,
            );
            Err(tell(err, message))
        }
    }
}
