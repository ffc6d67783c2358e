//! What of a document is of the profile, written into a sink.
ghost use Rattle.restricting.specs.Restrictions.{IsRestrictionRead, IsTooLarge, Restricts};
ghost use Rattle.source_lines.specs.Sources.{source_state};
ghost use Rattle.std.specs.Prelude.{◌≡◌, ◌+◌, ◌<◌, IfErr};

use crate::fault::RestrictionFault;
use crate::report::reported;
use device::{Sink, Source, write_all};
use profile::Limits;
use receiving::document_bytes;
use statements_text::Restriction;
use std::alloc::Global;
use std::hash::RandomState;

/// Reads the document, and writes what of it is of the profile, as a document. All is made in memory before anything is written. The report
/// tells the line and the column of each fault where lines are asked for.
///
/// # Errors
///
/// `Document` where the bytes are no document, what is kept of them has too many names, there are more of them than the limit, their
/// source failed, or memory was refused; then nothing is written. `Unwritten` where the sink failed. Faults of the document are no error.
pub fn restrict_document<D: Source, S: Sink>(
    alloc: Global,
    document: &mut D,
    output: &mut S,
    limits: &Limits,
    lines: bool,
    state: RandomState,
) -> Result<Restriction, RestrictionFault>
    // What the answer says of the document, and what the sink has taken.
    ensures answered { Restricts S.Sink lines limits.now (D.left document.old) output.old output.new result }
    // Of a source that does not tell its bytes, too: it gave more than the limit.
    ensures beyond { IfErr result (λ e. IsTooLarge e → D.most document.new + limits.now.max_bytes < D.most document.old) }
    // What was read of the document; its source has not failed but where that is the fault.
    ensures read { IsRestrictionRead result (source_state D.Source document.old) (source_state D.Source document.new) }
    ensures path { S.path output.new ≡ S.path output.old }
{
    let bytes = match document_bytes(alloc, document, limits) {
        Ok(bytes) => bytes,
        Err(fault) => {
            let bytes = Vec::new(alloc);
            return Err(RestrictionFault::Document { fault, bytes });
        }
    };
    let restriction = match reported(alloc, &bytes, lines, limits.version, state) {
        Ok(restriction) => restriction,
        Err(fault) => return Err(RestrictionFault::Document { fault, bytes }),
    };
    match write_all(output, &restriction.text) {
        Ok(()) => Ok(restriction),
        Err(_) => Err(RestrictionFault::Unwritten),
    }
}
