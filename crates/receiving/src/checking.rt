//! The check of a document's texts.
ghost use Rattle.receiving.specs.Checks.{AreKnown, AreTwoTextsRead, IsCertificateJudged, IsCertificateRead, IsCheckAnswer, IsTextRead, IsUnjudged, Reads, StopsInCertificate};
ghost use Rattle.receiving.specs.declared.fault.CheckFault.TheVariants as faults;
ghost use Rattle.profile.specs.declared.fault.DocumentFault.TheVariants as document_faults;
ghost use Rattle.telling.specs.Devices.{seen};
ghost use Rattle.telling.specs.Progress.{IsProgress};
ghost use Rattle.source_lines.specs.Sources.{source_state};
ghost use Rattle.std.specs.Prelude.{◌+◌, ◌<◌, IfErr, IfOk, IsErrOf};

use crate::asked::Means;
use crate::fault::CheckFault;
use crate::reading::read_telling;
use axioms::Ontology;
use cert_check::{StreamFault, Verdict, check_from};
use device::{ReadFault, Sink, Source, read_all};
use profile::Limits;
use std::alloc::Global;
use std::hash::RandomState;
use telling::{Stage, tell_stage};

/// The verdict on the texts of a document, and the ontology that it is on: a reason names what that has by its number.
#[derive(Drop)]
pub struct Checked {
    pub ontology: Ontology,
    pub verdict: Verdict,
}

/// All the bytes of the source of that number.
pub(crate) fn bytes_of<S: Source>(
    alloc: Global,
    source: &mut S,
    number: usize,
) -> Result<Vec<u8>, CheckFault>
    ensures known { IfOk result (λ v. AreKnown (S.left source.old) v.items) }
    ensures read { IsTextRead number result (source_state S.Source source.old) (source_state S.Source source.new) }
{
    match read_all(alloc, source, usize::MAX) {
        Ok(bytes) => Ok(bytes),
        Err(ReadFault::Failed) => Err(CheckFault::Io(number)),
        Err(ReadFault::Memory | ReadFault::TooLarge) => Err(CheckFault::Memory),
    }
}

/// The texts of a taxonomy and of instances.
#[derive(Drop)]
pub(crate) struct Texts {
    pub taxonomy: Vec<u8>,
    pub instances: Vec<u8>,
}

/// The texts of the two sources, which are numbered from 2 and read in their order.
fn texts_of<T: Source, I: Source>(
    alloc: Global,
    taxonomy: &mut T,
    instances: &mut I,
) -> Result<Texts, CheckFault>
    ensures taxonomy { IfOk result (λ t. AreKnown (T.left taxonomy.old) t.taxonomy.items) }
    ensures instances { IfOk result (λ t. AreKnown (I.left instances.old) t.instances.items) }
    ensures read { AreTwoTextsRead result (source_state T.Source taxonomy.old, source_state I.Source instances.old)
        (source_state T.Source taxonomy.new, source_state I.Source instances.new) }
{
    let taxonomy = match bytes_of(alloc, taxonomy, 2) {
        Ok(taxonomy) => taxonomy,
        Err(fault) => return Err(fault),
    };
    let instances = match bytes_of(alloc, instances, 3) {
        Ok(instances) => instances,
        Err(fault) => return Err(fault),
    };
    Ok(Texts {
        taxonomy,
        instances,
    })
}

/// The verdict on the two texts and that of the certificate's source, which is the fourth.
fn judged<C: Source>(
    alloc: Global,
    ontology: &Ontology,
    texts: &Texts,
    certificate: &mut C,
) -> Result<Verdict, CheckFault>
    ensures judged { IfOk result (IsCertificateJudged ontology.now texts.now.taxonomy.items texts.now.instances.items (C.left certificate.old)) }
    ensures read { IfOk result (λ verdict. IsCertificateRead verdict (source_state C.Source certificate.old) (source_state C.Source certificate.new)) }
    ensures fault { IfErr result (IsUnjudged ontology.now (source_state C.Source certificate.old) (source_state C.Source certificate.new)) }
{
    match check_from(
        alloc,
        ontology,
        &texts.taxonomy,
        &texts.instances,
        certificate,
    ) {
        Ok(verdict) => Ok(verdict),
        Err(StreamFault::Io) => Err(CheckFault::Io(4)),
        Err(StreamFault::Memory) => Err(CheckFault::Memory),
    }
}

/// Reads the document and the three texts, in this order up to the first fault, and answers whether the certificate
/// shows that the other two are right. The certificate is not held in memory: it is checked as it is read, and behind a
/// line that cannot follow those before it it is read no further. Where progress is told, the sink is told how far it is.
///
/// # Errors
///
/// `Document` where the document is refused or its source failed; `Io` with the number of a text's source that failed;
/// `Memory` where memory was refused. No verdict is given after a failed read.
pub fn check_document<D: Source, T: Source, I: Source, C: Source, W: Sink>(
    alloc: Global,
    document: &mut D,
    taxonomy: &mut T,
    instances: &mut I,
    certificate: &mut C,
    limits: &Limits,
    told: bool,
    sink: &mut W,
    state: RandomState,
) -> Result<Checked, CheckFault>
    // The document reads as the ontology in the version of the limits, and the verdict is on that ontology and the three
    // texts; or a fault of the document is one.
    ensures answered { IsCheckAnswer limits.now.version limits.now.max_bytes
        (D.left document.old) (T.left taxonomy.old) (I.left instances.old) (C.left certificate.old) result }
    // Of a source that does not tell its bytes, too: it gave more than the limit.
    ensures beyond { IsErrOf result (faults.Document document_faults.TooLarge) → D.most document.new + limits.now.max_bytes < D.most document.old }
    // After a verdict each source was read to its end, and none failed; but where the certificate's text is that of none,
    // its source may have more. A fault names a source only where it failed: those before it were read to their ends, and
    // those behind it are not touched.
    ensures read { Reads D.Source T.Source I.Source C.Source
        (document.old, taxonomy.old, instances.old, certificate.old) (document.new, taxonomy.new, instances.new, certificate.new) result }
    // The certificate's source is at fault only where every whole line that it gave can follow those before it.
    ensures stops { IsErrOf result (faults.Io 4) → StopsInCertificate limits.now.version limits.now.max_bytes (D.left document.old)
        (source_state C.Source certificate.old) (source_state C.Source certificate.new) }
    // Where progress is told, the sink takes lines of stages; where it is not, nothing.
    ensures progress { IsProgress told (seen W.Sink sink.old) (seen W.Sink sink.new) }
{
    let means = Means { alloc, state };
    let ontology = match read_telling(means, document, limits, told, sink) {
        Ok(ontology) => ontology,
        Err(fault) => return Err(CheckFault::Document(fault)),
    };
    ontology.well_formed();
    let texts = match texts_of(alloc, taxonomy, instances) {
        Ok(texts) => texts,
        Err(fault) => return Err(fault),
    };
    let read = Stage::TextsRead {
        taxonomy: texts.taxonomy.len(),
        instances: texts.instances.len(),
    };
    tell_stage(sink, told, &read);
    match judged(alloc, &ontology, &texts, certificate) {
        Ok(verdict) => Ok(Checked { ontology, verdict }),
        Err(fault) => Err(fault),
    }
}
