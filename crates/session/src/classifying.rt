//! The texts of a document.
ghost use Rattle.engine.specs.Saturations.{IsFinished};
ghost use Rattle.profile.specs.declared.fault.DocumentFault.TheVariants as reading;
ghost use Rattle.session.specs.Answers.{IsMade};
ghost use Rattle.session.specs.Classifications.{IsClassified};
ghost use Rattle.telling.specs.Devices.{seen};
ghost use Rattle.telling.specs.Progress.{IsProgress};
ghost use Rattle.source_lines.specs.Sources.{source_state};
ghost use Rattle.session.specs.Run.{IsRunFault, IsRunRead};
ghost use Rattle.session.specs.WrittenTexts.{texts_of};
ghost use Rattle.session.specs.declared.run_fault.RunFault.TheVariants as run_faults;
ghost use Rattle.std.specs.Prelude.{◌+◌, ◌<◌, IfErr, IfOk, IsErrOf};

use crate::opening::run_telling;
use crate::run_fault::RunFault;
use crate::session::Session;
use axioms::Memory;
use certificate::Format;
use classification::{Classification, classified};
use device::{Sink, Source};
use profile::Limits;
use std::alloc::Global;
use std::hash::RandomState;
use telling::{Stage, tell_stage};

/// How many line feeds the text has.
fn line_feeds(text: &[u8]) -> usize {
    let mut lines: usize = 0;
    for byte in text {
        if *byte == b'\n' {
            lines = lines.saturating_add(1);
        }
    }
    lines
}

/// Tells that the texts are made, where progress is told.
fn tell_made<W: Sink>(made: &Classification, told: bool, sink: &mut W)
    ensures { IsProgress told (seen W.Sink sink.old) (seen W.Sink sink.new) }
{
    if !told {
        return;
    }
    let lines = line_feeds(&made.certificate);
    let bytes = made.certificate.len();
    tell_stage(sink, told, &Stage::Made { lines, bytes });
}

/// The three texts of a session that is run to its end, with a certificate in the format, and the counts. The prefixes and the tables
/// that find facts are let go before they are made.
fn made_of(session: Session, format: Format) -> Result<Classification, Memory>
    requires { IsFinished session.saturation }
    ensures { IfOk result (λ c. IsMade session format c.summary (texts_of c)) }
{
    session.well_formed();
    let Session {
        ontology,
        prefixes,
        saturation,
        ..
    } = session;
    drop(prefixes);
    let finished = saturation.finish();
    classified(&finished.closed(&ontology), format)
}

/// The taxonomy, the instances and the certificate, which is in the format, of the document that the source gives, in memory, and its
/// counts. Nothing else of it is kept. Where progress is told, the sink is told how far it is.
///
/// # Errors
///
/// `Document` where the document is not read as an ontology; `Limit` where its closure has more facts than the limit; `Memory` where
/// memory was refused.
pub fn classification_of<S: Source, W: Sink>(
    alloc: Global,
    source: &mut S,
    limits: &Limits,
    format: Format,
    told: bool,
    sink: &mut W,
    state: RandomState,
) -> Result<Classification, RunFault>
    // The texts and the counts are those of the document, or the fault says why there are none; and what was read of the document.
    ensures classified { IfOk result (λ c. IsClassified limits.now.version format limits.now.max_bytes limits.now.max_facts (S.left source.old) c.summary (texts_of c)) }
    ensures fault { IfErr result (IsRunFault limits.now (S.left source.old)) }
    // Of a source that does not tell its bytes, too: it gave more than the limit.
    ensures beyond { IsErrOf result (run_faults.Document reading.TooLarge) → S.most source.new + limits.now.max_bytes < S.most source.old }
    ensures read { IsRunRead result (source_state S.Source source.old) (source_state S.Source source.new) }
    // Where progress is told, the sink takes lines of stages; where it is not, nothing.
    ensures progress { IsProgress told (seen W.Sink sink.old) (seen W.Sink sink.new) }
{
    let session = match run_telling(alloc, source, limits, told, sink, state) {
        Ok(session) => session,
        Err(fault) => return Err(fault),
    };
    match made_of(session, format) {
        Ok(made) => {
            tell_made(&made, told, sink);
            Ok(made)
        }
        Err(_) => Err(RunFault::Memory),
    }
}
