//! Certificates from their texts.

ghost use Rattle.std.specs.Prelude.{◌≡◌, ◌↔◌, ◌<◌, ◌≤◌, ◌^◌, List, ℕ, IfOk, IfErr, length, option_map};
ghost use Rattle.axioms.specs.Ontology as numbered;
ghost use Rattle.source_lines.specs.Sources.{source_state};
ghost use Rattle.certificate.specs.Certificate as spec;
ghost use Rattle.certificate.specs.Writability.{AreEarlier, HasText, IsSomeTextOf, IsTextOf};
ghost use Rattle.certificate.specs.Outcome.{IsRefused};
ghost use Rattle.certificate.specs.View.{listed_of, listing_of};
ghost use Rattle.certificate.specs.Text.{certificate_text};
ghost use Rattle.certificate.specs.SourceReading.{IsReadAs, IsStopped};

use crate::certificate::Certificate;
use crate::fault::{CertFault, TextFault};
use crate::format::Format;
use crate::line_reader::LineReader;
use crate::listed::Listed;
use crate::listed_runs::ListedRuns;
use axioms::{Memory, Ontology};
use device::{SliceSource, Source};
use std::alloc::Global;

// The interpretation, if there is one, with each element in its row.
fn written_out(alloc: Global, listed: Option<ListedRuns>) -> Result<Option<Listed>, Memory>
    ensures { IfOk result (λ written. option_map listed_of written ≡ option_map listing_of listed) }
{
    match listed {
        None => Ok(None),
        Some(listed) => Ok(Some(listed.expanded(alloc)?)),
    }
}

/// The certificate whose text is all that the source gives.
fn certificate_from<S: Source>(
    alloc: Global,
    ontology: &Ontology,
    source: &mut S,
) -> Result<Certificate, TextFault>
    ensures found { IfOk result (λ c. IsReadAs ontology.now (source_state S.Source source.old) (source_state S.Source source.new) c) }
    ensures fault { IfErr result (λ fault. IsStopped fault ontology.now (source_state S.Source source.old) (source_state S.Source source.new)) }
    ensures count { S.failures source.old ≤ S.failures source.new }
{
    let mut reader = LineReader::new(alloc, ontology, None, source)?;
    let mut lines = Vec::new(alloc);
    while let Some(line) = reader.next(source, Vec::new(alloc))? {
        lines.push(line)?;
    }
    let listed = written_out(alloc, reader.finish(alloc, source)?)?;
    Ok(Certificate { lines, listed })
}

/// The certificate whose text the bytes are.
///
/// Its text, in the format that the first line names, is the whole of the bytes, and names what the ontology has. Refused with `BadText` exactly where the bytes
/// are the text of no certificate of the ontology, and with `Memory` only where memory was refused, or where its runs have more than
/// [`MOST_ELEMENTS`](crate::MOST_ELEMENTS) elements.
pub fn read_certificate(
    alloc: Global,
    ontology: &Ontology,
    bytes: &[u8],
) -> Result<Certificate, CertFault>
    ensures found { IfOk result (λ c. IsSomeTextOf ontology.now bytes.now c) }
    ensures text { IfOk result (λ c. HasText ontology.now Format.One c) }
    ensures refused { IfErr result (λ fault. IsRefused fault ontology.now bytes.now) }
{
    let mut source = SliceSource::new(bytes);
    match certificate_from(alloc, ontology, &mut source) {
        Ok(certificate) => Ok(certificate),
        Err(TextFault::BadText { at }) => Err(CertFault::BadText { at }),
        Err(TextFault::Io | TextFault::Memory) => Err(CertFault::Memory),
    }
}

/// A text is that of one certificate, in one format.
pub fn one_certificate()
    ensures { (o : numbered.Ontology) (f g : spec.Format) (bytes : List ℕ) (c d : spec.Certificate) → IsTextOf o f bytes c → IsTextOf o g bytes d → (f ≡ g) × (c ≡ d) }
{}

/// A certificate has one text in a format, where it has any.
pub fn one_text()
    ensures { (o : numbered.Ontology) (f : spec.Format) (bytes others : List ℕ) (c : spec.Certificate) → IsTextOf o f bytes c → IsTextOf o f others c → bytes ≡ others }
{}

/// A certificate that has a text in format 1 has one in format 2 exactly where each premise is an earlier line, and 64 bits count the
/// lines; one that has a text in format 2 has one in format 1.
pub fn texts()
    ensures two { (o : numbered.Ontology) (c : spec.Certificate) → HasText o spec.Two c ↔ (HasText o spec.One c × (length c.lines < 2 ^ 64) × AreEarlier 1 c.lines) }
    ensures has { (o : numbered.Ontology) (f : spec.Format) (c : spec.Certificate) → HasText o f c → IsTextOf o f (certificate_text f c) c }
{}

/// From one format to another and back a text is the same bytes.
pub fn there_and_back()
    ensures { (o : numbered.Ontology) (f g : spec.Format) (bytes others again : List ℕ) (c d e : spec.Certificate) → IsTextOf o f bytes c → IsTextOf o g others d
        → c ≡ d → IsTextOf o f again e → IsTextOf o g others e → again ≡ bytes }
{}
