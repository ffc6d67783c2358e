//! What is inferred of a document, in a file.
ghost use Rattle.receiving.specs.Files.{store};
ghost use Rattle.cli.specs.Inferring.{Infers, IsInferenceRead};
ghost use Rattle.telling.specs.Printing.{outputs};
ghost use Rattle.cli.specs.Runs.{IsInferMade, IsInferTold, Runs};
ghost use Rattle.cli.specs.declared.fault.InferenceFault.TheVariants as faults;
ghost use Rattle.profile.specs.declared.fault.DocumentFault.TheVariants as document_faults;
ghost use Rattle.session.specs.declared.run_fault.RunFault.TheVariants as run_faults;
ghost use Rattle.source_lines.specs.Sources.{source_state};
ghost use Rattle.std.specs.Prelude.{◌≡◌, ◌+◌, ◌<◌, IsErrOf};

use crate::fault::InferenceFault;
use crate::printing::print_summary;
use classification::Summary;
use command_line::Command;
use device::{Sink, Source, write_all};
use profile::{DocumentFault, Limits};
use receiving::{Reading, source_of};
use session::{RunFault, as_question_fault, inference_of};
use speech::question_message;
use std::alloc::Global;
use std::hash::RandomState;
use system_files::Files;
use telling::{tell, unwritten_message};

/// What is inferred of a document, which is written into another file, or the same.
#[derive(Clone, Copy)]
pub(crate) struct InferRun<'a> {
    pub reading: Reading<'a>,
    /// The path of the file that is written.
    pub output: &'a str,
}

/// Reads the document, and writes what is inferred of it, as a document: what `inference_of` gives. All is made in memory before anything
/// is written. It gives the counts.
///
/// # Errors
///
/// `Run` where the document is not read as an ontology, its closure has more facts than the limit, or memory was refused; then nothing is
/// written. `Unwritten` where the sink failed.
pub fn infer_document<D: Source, S: Sink>(
    alloc: Global,
    document: &mut D,
    output: &mut S,
    limits: &Limits,
    state: RandomState,
) -> Result<Summary, InferenceFault>
    // What the answer says of the document, and what the sink has taken.
    ensures answered { Infers S.Sink limits.now (D.left document.old) output.old output.new result }
    // Of a source that does not tell its bytes, too: it gave more than the limit.
    ensures beyond { IsErrOf result (faults.Run (run_faults.Document document_faults.TooLarge)) → D.most document.new + limits.now.max_bytes < D.most document.old }
    // What was read of the document; its source has not failed but where that is the fault.
    ensures read { IsInferenceRead result (source_state D.Source document.old) (source_state D.Source document.new) }
    ensures path { S.path output.new ≡ S.path output.old }
{
    let inferred = match inference_of(alloc, document, limits, state) {
        Ok(inferred) => inferred,
        Err(fault) => return Err(InferenceFault::Run(fault)),
    };
    match write_all(output, &inferred.text) {
        Ok(()) => Ok(inferred.summary),
        Err(_) => Err(InferenceFault::Unwritten),
    }
}

/// Reads the document, and writes what is inferred of it into the other file.
fn inferred_file<F: Files>(run: &InferRun<'_>, files: &mut F) -> Result<Summary, InferenceFault>
    ensures { IsInferMade run.now.reading.path.now run.now.output.now run.now.reading.limits (store F.Files files.old files.new) (F.content files.old) (F.content files.new) result }
{
    let reading = &run.reading;
    let Ok(mut document) = source_of(files, reading.path) else {
        return Err(InferenceFault::Run(RunFault::Document(DocumentFault::Memory)));
    };
    let Ok(mut written) = files.writer(run.output) else {
        return Err(InferenceFault::Run(RunFault::Document(DocumentFault::Memory)));
    };
    let answer = infer_document(
        reading.means.alloc,
        &mut document,
        &mut written,
        &reading.limits,
        reading.means.state,
    );
    files.close(written);
    answer
}

/// Prints the counts of the document; or why nothing is written into the other file.
fn tell_inferred<O: Sink, E: Sink>(
    run: &InferRun<'_>,
    answer: Result<Summary, InferenceFault>,
    out: &mut O,
    err: &mut E,
) -> u8
    ensures { IsInferTold run.now.reading.path.now run.now.output.now run.now.reading.limits answer
        (outputs O.Sink E.Sink out.old err.old) (outputs O.Sink E.Sink out.new err.new) result }
{
    let reading = &run.reading;
    let alloc = reading.means.alloc;
    match answer {
        Ok(summary) => print_summary(out, &summary),
        Err(InferenceFault::Run(fault)) => tell(
            err,
            question_message(
                alloc,
                &as_question_fault(fault),
                reading.path,
                &reading.limits,
            ),
        ),
        Err(InferenceFault::Unwritten) => tell(err, unwritten_message(alloc, run.output)),
    }
}

/// Writes what is inferred of the document into the other file, and prints the counts.
pub(crate) fn perform_infer<F: Files, O: Sink, E: Sink>(
    run: &InferRun<'_>,
    files: &mut F,
    out: &mut O,
    err: &mut E,
) -> u8
    ensures { Runs F.Files O.Sink E.Sink (Command.Infer run.now.reading.path run.now.output) run.now.reading.limits
        (files.old, out.old, err.old) (files.new, out.new, err.new) result }
{
    let answer = inferred_file(run, files);
    tell_inferred(run, answer, out, err)
}
