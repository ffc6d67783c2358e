//! Classification of a document, and of one in files.
ghost use Rattle.cli.specs.Classifications.{Classifies, IsDocumentRead};
ghost use Rattle.cli.specs.Runs.{IsClassifyMade, IsClassifyTold, RunsTelling};
ghost use Rattle.cli.specs.declared.fault.ClassifyFault.TheVariants as faults;
ghost use Rattle.profile.specs.declared.fault.DocumentFault.TheVariants as document_faults;
ghost use Rattle.receiving.specs.Files.{store};
ghost use Rattle.receiving.specs.Runs.{format_of as format_with};
ghost use Rattle.session.specs.WrittenTexts.{KeepPaths};
ghost use Rattle.source_lines.specs.Sources.{source_state};
ghost use Rattle.std.specs.Prelude.{◌+◌, ◌<◌, IsErrOf};
ghost use Rattle.telling.specs.Devices.{seen};
ghost use Rattle.telling.specs.Printing.{outputs};
ghost use Rattle.telling.specs.Progress.{IsProgress};

use crate::fault::ClassifyFault;
use crate::printing::{classify_message, print_summary};
use crate::sinks::sinks_of;
use certificate::Format;
use classification::Summary;
use command_line::{Command, FormatNumber, Paths};
use device::{Sink, Source};
use profile::{DocumentFault, Limits};
use receiving::{Means, format_of, source_of};
use session::{RunFault, classification_of, write_texts};
use std::alloc::Global;
use std::hash::RandomState;
use system_files::Files;
use telling::{Stage, tell, tell_stage};

/// A classification of a document, whose texts are written into files.
#[derive(Clone, Copy)]
pub(crate) struct ClassifyRun<'a> {
    pub means: Means,
    pub paths: Paths<'a>,
    /// That of the certificate.
    pub format: FormatNumber,
    pub limits: Limits,
    /// Whether it tells how far it is.
    pub progress: bool,
}

/// Reads the document, classifies it, and writes the taxonomy, the instances and the certificate, which is in the format,
/// in this order. All three are made in memory before anything is written. Where progress is told, the sink is told how far it is.
///
/// # Errors
///
/// `Document` where the document is refused or its source failed; `Limit` where its closure has more facts than the limit; `Memory`
/// where memory was refused; `Io` with the number, from 1, of a text's sink that failed. Before the last nothing is written.
pub fn classify_document<S: Source, T: Sink, I: Sink, C: Sink, W: Sink>(
    alloc: Global,
    source: &mut S,
    taxonomy: &mut T,
    instances: &mut I,
    certificate: &mut C,
    limits: &Limits,
    format: Format,
    told: bool,
    sink: &mut W,
    state: RandomState,
) -> Result<Summary, ClassifyFault>
    // What the answer says of the document, and what each sink has taken; a sink is named only where it failed.
    ensures answered { Classifies T.Sink I.Sink C.Sink limits.now format (S.left source.old)
        (taxonomy.old, instances.old, certificate.old) (taxonomy.new, instances.new, certificate.new) result }
    // Of a source that does not tell its bytes, too: it gave more than the limit.
    ensures beyond { IsErrOf result (faults.Document document_faults.TooLarge) → S.most source.new + limits.now.max_bytes < S.most source.old }
    // What was read of the document; its source has not failed but where that is the fault.
    ensures read { IsDocumentRead result (source_state S.Source source.old) (source_state S.Source source.new) }
    ensures paths { KeepPaths T.Sink I.Sink C.Sink (taxonomy.old, instances.old, certificate.old) (taxonomy.new, instances.new, certificate.new) }
    // Where progress is told, the sink takes lines of stages; where it is not, nothing.
    ensures progress { IsProgress told (seen W.Sink sink.old) (seen W.Sink sink.new) }
{
    let made = match classification_of(alloc, source, limits, format, told, sink, state) {
        Ok(made) => made,
        Err(RunFault::Document(fault)) => return Err(ClassifyFault::Document(fault)),
        Err(RunFault::Limit) => return Err(ClassifyFault::Limit),
        Err(RunFault::Memory) => return Err(ClassifyFault::Memory),
    };
    match write_texts(&made, taxonomy, instances, certificate) {
        Ok(()) => {
            let taxonomy = made.taxonomy.len();
            let certificate = made.certificate.len();
            tell_stage(
                sink,
                told,
                &Stage::Written {
                    taxonomy,
                    certificate,
                },
            );
            Ok(made.summary)
        }
        Err(number) => Err(ClassifyFault::Io(number)),
    }
}

/// Classifies the document, and writes its texts into their files, the certificate in the format. Where progress is told, `err` is
/// told how far it is.
fn classified_files<F: Files, E: Sink>(
    run: &ClassifyRun<'_>,
    files: &mut F,
    err: &mut E,
) -> Result<Summary, ClassifyFault>
    ensures made { IsClassifyMade run.now.paths (format_with run.now.format) run.now.limits (store F.Files files.old files.new) (F.content files.old) (F.content files.new) result }
    ensures progress { IsProgress run.now.progress (seen E.Sink err.old) (seen E.Sink err.new) }
{
    let Ok(mut document) = source_of(files, run.paths.document) else {
        return Err(ClassifyFault::Document(DocumentFault::Memory));
    };
    let Ok(mut sinks) = sinks_of(files, &run.paths) else {
        return Err(ClassifyFault::Document(DocumentFault::Memory));
    };
    let classified = classify_document(
        run.means.alloc,
        &mut document,
        &mut sinks.taxonomy,
        &mut sinks.instances,
        &mut sinks.certificate,
        &run.limits,
        format_of(run.format),
        run.progress,
        err,
        run.means.state,
    );
    files.close(sinks.taxonomy);
    files.close(sinks.instances);
    files.close(sinks.certificate);
    classified
}

/// Prints the counts, or why the document is not classified.
fn tell_classified<O: Sink, E: Sink>(
    run: &ClassifyRun<'_>,
    answer: Result<Summary, ClassifyFault>,
    out: &mut O,
    err: &mut E,
) -> u8
    ensures { IsClassifyTold run.now.paths run.now.limits answer (outputs O.Sink E.Sink out.old err.old) (outputs O.Sink E.Sink out.new err.new) result }
{
    match answer {
        Ok(summary) => print_summary(out, &summary),
        Err(fault) => tell(
            err,
            classify_message(run.means.alloc, &fault, &run.paths, &run.limits),
        ),
    }
}

/// Classifies the document, writes its texts, and prints the counts.
pub(crate) fn perform_classify<F: Files, O: Sink, E: Sink>(
    run: &ClassifyRun<'_>,
    files: &mut F,
    out: &mut O,
    err: &mut E,
) -> u8
    ensures { RunsTelling F.Files O.Sink E.Sink run.now.progress (Command.Classify run.now.paths run.now.format) run.now.limits (files.old, out.old, err.old) (files.new, out.new, err.new) result }
{
    let answer = classified_files(run, files, err);
    tell_classified(run, answer, out, err)
}
