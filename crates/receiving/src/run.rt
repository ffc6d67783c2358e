//! Runs of a check and of a conversion over files.
ghost use Rattle.receiving.specs.Files.{ChecksFiles};
ghost use Rattle.receiving.specs.Runs.{IsCheckTold, IsCheckedFiles, IsConvertTold, IsUnconvertedTold, RunsCheck, RunsConversion};
ghost use Rattle.telling.specs.Devices.{seen};
ghost use Rattle.telling.specs.Printing.{outputs};
ghost use Rattle.telling.specs.Progress.{IsProgress};

use crate::asked::{CheckRun, ConversionRun};
use crate::checking::{Checked, check_document};
use crate::converting::converted_file;
use crate::fault::{CheckFault, ConversionFault};
use crate::printing::{check_message, print_numbered, print_unconverted, print_verdict};
use crate::sources::check_sources;
use certificate_text::ConvertFault;
use device::Sink;
use profile::DocumentFault;
use program::Status;
use std::alloc::Global;
use system_files::Files;
use telling::{document_message, tell, tell_out_of_memory, unread_message, unwritten_message};

/// Checks the texts in the files. Where progress is told, `err` is told how far it is.
fn checked_files<F: Files, E: Sink>(
    run: &CheckRun<'_>,
    files: &F,
    err: &mut E,
) -> Result<Checked, CheckFault>
    ensures checked { IsCheckedFiles run.now.paths run.now.limits.version run.now.limits.max_bytes (F.content files.now) result }
    ensures blames { ChecksFiles F.reads_fail (F.is_known files.now) (F.content files.now) run.now.paths result }
    ensures progress { IsProgress run.now.progress (seen E.Sink err.old) (seen E.Sink err.new) }
{
    let Ok(mut sources) = check_sources(files, &run.paths) else {
        return Err(CheckFault::Document(DocumentFault::Memory));
    };
    check_document(
        run.means.alloc,
        &mut sources.document,
        &mut sources.taxonomy,
        &mut sources.instances,
        &mut sources.certificate,
        &run.limits,
        run.progress,
        err,
        run.means.state,
    )
}

/// Prints the verdict, or why there is none.
fn tell_checked<O: Sink, E: Sink>(
    run: &CheckRun<'_>,
    answer: Result<Checked, CheckFault>,
    out: &mut O,
    err: &mut E,
) -> u8
    ensures { IsCheckTold run.now.paths run.now.limits.max_bytes answer
        (outputs O.Sink E.Sink out.old err.old) (outputs O.Sink E.Sink out.new err.new) result }
{
    match answer {
        Ok(checked) => print_verdict(out, &checked.ontology, &checked.verdict),
        Err(fault) => tell(
            err,
            check_message(run.means.alloc, &fault, &run.paths, &run.limits),
        ),
    }
}

/// Checks the texts of the document, and prints the verdict, or why there is none. Where progress is told, `err` is told how far it is.
/// The status is that of the verdict, or of the fault.
pub fn perform_check<F: Files, O: Sink, E: Sink>(
    run: &CheckRun<'_>,
    files: &F,
    out: &mut O,
    err: &mut E,
) -> u8
    ensures { RunsCheck F.Files O.Sink E.Sink run.now (files.now, out.old, err.old) (files.now, out.new, err.new) result }
{
    let answer = checked_files(run, files, err);
    tell_checked(run, answer, out, err)
}

/// Tells why the certificate is not converted into the file at the path.
fn tell_unconverted<O: Sink, E: Sink>(
    alloc: Global,
    fault: &ConvertFault,
    path: &str,
    out: &mut O,
    err: &mut E,
) -> u8
    ensures { IsUnconvertedTold path.now fault.now (outputs O.Sink E.Sink out.old err.old) (outputs O.Sink E.Sink out.new err.new) result }
{
    match fault {
        ConvertFault::BadText { at } => print_numbered(out, "C1 at byte ", *at),
        ConvertFault::LaterPremise { line } => print_unconverted(out, *line),
        ConvertFault::Io => tell(err, unwritten_message(alloc, path)),
        ConvertFault::Memory => tell_out_of_memory(err),
    }
}

/// Prints nothing, or why the certificate is not converted.
fn tell_converted<O: Sink, E: Sink>(
    run: &ConversionRun<'_>,
    answer: Result<(), ConversionFault>,
    out: &mut O,
    err: &mut E,
) -> u8
    ensures { IsConvertTold run.now.conversion run.now.limits.max_bytes answer (outputs O.Sink E.Sink out.old err.old) (outputs O.Sink E.Sink out.new err.new) result }
{
    let alloc = run.means.alloc;
    let conversion = &run.conversion;
    match answer {
        Ok(()) => Status::Done.code(),
        Err(ConversionFault::Document(fault)) => tell(
            err,
            document_message(alloc, &fault, conversion.document, &run.limits),
        ),
        Err(ConversionFault::Unread) => tell(err, unread_message(alloc, conversion.certificate)),
        Err(ConversionFault::Certificate(fault)) => tell_unconverted(
            alloc,
            &fault,
            conversion.output,
            out,
            err,
        ),
    }
}

/// Writes the certificate of the document again, in the format that is asked for, and prints nothing, or why it is not written.
pub fn perform_convert<F: Files, O: Sink, E: Sink>(
    run: &ConversionRun<'_>,
    files: &mut F,
    out: &mut O,
    err: &mut E,
) -> u8
    ensures { RunsConversion F.Files O.Sink E.Sink run.now (files.old, out.old, err.old) (files.new, out.new, err.new) result }
{
    let answer = converted_file(run, files);
    tell_converted(run, answer, out, err)
}
