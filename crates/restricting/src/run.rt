//! Runs that write what of a document is of the profile.
ghost use Rattle.profile.specs.Messages.{status_of};
ghost use Rattle.receiving.specs.Files.{store};
ghost use Rattle.restricting.specs.Runs.{IsOutOfMemory, IsRestrictTold, IsRestrictionMade, IsTextBy, RunsRestrict};
ghost use Rattle.std.specs.Prelude.{◌≡◌, IfOk, string_bytes};
ghost use Rattle.telling.specs.Printing.{outputs};

use crate::fault::RestrictionFault;
use crate::restricting::restrict_document;
use device::Sink;
use profile::DocumentFault;
use program::Status;
use receiving::{Reading, lined_message, source_of};
use statements_text::Restriction;
use std::alloc::{AllocError, Global};
use system_files::Files;
use telling::{Message, document_message, print, tell, unwritten_message};

/// A restriction of a document to the profile, which is written into another file, or the same.
#[derive(Clone, Copy)]
pub struct RestrictRun<'a> {
    pub reading: Reading<'a>,
    /// The path of the file that is written.
    pub output: &'a str,
    /// Whether faults of the document are told with their lines and columns.
    pub lines: bool,
}

/// That memory was refused before any of the document was read.
fn unread(alloc: Global) -> RestrictionFault
    ensures { IsOutOfMemory result }
{
    RestrictionFault::Document {
        fault: DocumentFault::Memory,
        bytes: Vec::new(alloc),
    }
}

/// Reads the document, and writes what of it is of the profile into the other file.
fn restricted_file<F: Files>(
    run: &RestrictRun<'_>,
    files: &mut F,
) -> Result<Restriction, RestrictionFault>
    ensures { IsRestrictionMade run.now.lines run.now.reading.path.now run.now.output.now run.now.reading.limits (store F.Files files.old files.new) (F.content files.old) (F.content files.new) result }
{
    let reading = &run.reading;
    let alloc = reading.means.alloc;
    let Ok(mut document) = source_of(files, reading.path) else {
        return Err(unread(alloc));
    };
    let Ok(mut written) = files.writer(run.output) else {
        return Err(unread(alloc));
    };
    let answer = restrict_document(
        alloc,
        &mut document,
        &mut written,
        &reading.limits,
        run.lines,
        reading.means.state,
    );
    files.close(written);
    answer
}

/// What to tell of a document of these bytes that is not restricted.
fn refusal_message(
    run: &RestrictRun<'_>,
    fault: &DocumentFault,
    bytes: &[u8],
) -> Result<Message, AllocError>
    ensures { IfOk result (λ m. IsTextBy run.now.lines run.now.reading.path.now run.now.reading.limits.max_bytes bytes.now fault.now (string_bytes m.text) × (m.status ≡ status_of fault.now)) }
{
    let reading = &run.reading;
    let alloc = reading.means.alloc;
    if run.lines {
        lined_message(alloc, fault, bytes, reading.path, &reading.limits)
    } else {
        document_message(alloc, fault, reading.path, &reading.limits)
    }
}

/// Prints what of the document is not of the profile; or why nothing is written into the other file.
fn tell_restricted<O: Sink, E: Sink>(
    run: &RestrictRun<'_>,
    answer: Result<Restriction, RestrictionFault>,
    out: &mut O,
    err: &mut E,
) -> u8
    ensures { IsRestrictTold run.now.lines run.now.reading.path.now run.now.output.now run.now.reading.limits.max_bytes answer
        (outputs O.Sink E.Sink out.old err.old) (outputs O.Sink E.Sink out.new err.new) result }
{
    match answer {
        Ok(restriction) => print(out, restriction.report.as_str(), Status::Done),
        Err(RestrictionFault::Document { fault, bytes }) => {
            tell(err, refusal_message(run, &fault, &bytes))
        }
        Err(RestrictionFault::Unwritten) => {
            tell(err, unwritten_message(run.reading.means.alloc, run.output))
        }
    }
}

/// Writes what of the document is of the profile into the other file, and prints what is not, each fault with its line and its column where
/// lines are asked for. The status is given.
pub fn perform_restrict<F: Files, O: Sink, E: Sink>(
    run: &RestrictRun<'_>,
    files: &mut F,
    out: &mut O,
    err: &mut E,
) -> u8
    ensures { RunsRestrict F.Files O.Sink E.Sink run.now (files.old, out.old, err.old) (files.new, out.new, err.new) result }
{
    let answer = restricted_file(run, files);
    tell_restricted(run, answer, out, err)
}
