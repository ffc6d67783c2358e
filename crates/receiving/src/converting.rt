//! Certificates that are written again in a format.
ghost use Rattle.receiving.specs.Conversions.{ConvertsInto, ReadsBoth, conversion_fault as as_conversion};
ghost use Rattle.receiving.specs.Files.{store};
ghost use Rattle.receiving.specs.Runs.{IsConversionMade};
ghost use Rattle.receiving.specs.declared.fault.ConversionFault.TheVariants as faults;
ghost use Rattle.profile.specs.declared.fault.DocumentFault.TheVariants as document_faults;
ghost use Rattle.std.specs.Prelude.{◌≡◌, ◌+◌, ◌<◌, IsErrOf};

use crate::asked::ConversionRun;
use crate::checking::bytes_of;
use crate::fault::{CheckFault, ConversionFault};
use crate::formats::format_of;
use crate::sources::both_sources;
use certificate::Format;
use certificate_text::{ConvertFault, convert};
use device::{Sink, Source};
use profile::{DocumentFault, Limits, read_document};
use std::alloc::Global;
use std::hash::RandomState;
use system_files::Files;

/// As a fault of a conversion: the source that failed is the certificate's.
fn conversion_fault(fault: CheckFault) -> ConversionFault
    ensures { result ≡ as_conversion fault }
{
    match fault {
        CheckFault::Document(fault) => ConversionFault::Document(fault),
        CheckFault::Memory => ConversionFault::Certificate(ConvertFault::Memory),
        CheckFault::Io(_) => ConversionFault::Unread,
    }
}

/// Reads the document and then the certificate, whose format its first line tells, and writes the certificate again in
/// the format. Both are read whole before anything is written. Whether the certificate shows anything is not asked.
///
/// # Errors
///
/// `Document` where the document is refused or its source failed; `Unread` where the certificate's source failed; of
/// `Certificate`, `BadText` where the text is that of no certificate of the document's ontology, `LaterPremise` where that
/// certificate has no text in the format, `Io` where the sink failed, and `Memory` where memory was refused once the
/// document was read.
pub fn convert_certificate<D: Source, C: Source, S: Sink>(
    alloc: Global,
    document: &mut D,
    certificate: &mut C,
    converted: &mut S,
    limits: &Limits,
    format: Format,
    state: RandomState,
) -> Result<(), ConversionFault>
    // What the answer says of the document and of the certificate's text, and what the sink has taken.
    ensures answered { ConvertsInto S.Sink limits.now format (D.left document.old) (C.left certificate.old) converted.old converted.new result }
    // Of a source that does not tell its bytes, too: it gave more than the limit.
    ensures beyond { IsErrOf result (faults.Document document_faults.TooLarge) → D.most document.new + limits.now.max_bytes < D.most document.old }
    // What was read of the two; a source has not failed but where that is the fault.
    ensures read { ReadsBoth D.Source C.Source (document.old, certificate.old) (document.new, certificate.new) result }
    ensures path { S.path converted.new ≡ S.path converted.old }
{
    let ontology = match read_document(alloc, document, limits, state) {
        Ok(ontology) => ontology,
        Err(fault) => return Err(ConversionFault::Document(fault)),
    };
    ontology.well_formed();
    let text = match bytes_of(alloc, certificate, 2) {
        Ok(text) => text,
        Err(fault) => return Err(conversion_fault(fault)),
    };
    match convert(alloc, &ontology, &text, format, converted) {
        Ok(()) => Ok(()),
        Err(fault) => Err(ConversionFault::Certificate(fault)),
    }
}

/// Reads the document and then the certificate, and writes the certificate into the third file, which may be one of the two.
pub(crate) fn converted_file<F: Files>(
    run: &ConversionRun<'_>,
    files: &mut F,
) -> Result<(), ConversionFault>
    ensures { IsConversionMade run.now.conversion run.now.limits (store F.Files files.old files.new) (F.content files.old) (F.content files.new) result }
{
    let Ok(mut sources) = both_sources(files, &run.conversion) else {
        return Err(ConversionFault::Document(DocumentFault::Memory));
    };
    let Ok(mut converted) = files.writer(run.conversion.output) else {
        return Err(ConversionFault::Document(DocumentFault::Memory));
    };
    let answer = convert_certificate(
        run.means.alloc,
        &mut sources.document,
        &mut sources.certificate,
        &mut converted,
        &run.limits,
        format_of(run.conversion.format),
        run.means.state,
    );
    files.close(converted);
    answer
}
