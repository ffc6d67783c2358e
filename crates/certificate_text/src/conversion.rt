//! Certificates from one format to another.

ghost use Rattle.certificate_text.specs.Conversions.{IsBegun, IsConvertFault, IsConverted, fault_of_reading, fault_of_writing};
ghost use Rattle.device.specs.Device.{HasFailed};
ghost use Rattle.std.specs.Io.KnownBytes.{Keeps};
ghost use Rattle.std.specs.Prelude.{◌≡◌, ◌≤◌, IfErr, IsErrOf, OnErr, OnOk};

use crate::fault::CertWriteFault;
use crate::writing::write_certificate;
use axioms::Ontology;
use certificate::{CertFault, Format, read_certificate};
use device::Sink;
use std::alloc::Global;
use thiserror::Error;

/// Why a certificate is not converted.
#[derive(Clone, Copy, Debug, PartialEq, Eq, Error)]
pub enum ConvertFault {
    /// The text is that of none. The first line that cannot follow those before it begins at that byte; where the last line
    /// is missing it is the number of bytes.
    #[error("no certificate: byte {at}")]
    BadText { at: usize },
    /// The line of that number, counted from 1, is the first with a premise that is no line before it: it has no text in format 2.
    #[error("line {line} has a later premise")]
    LaterPremise { line: usize },
    /// The sink failed.
    #[error("the sink failed")]
    Io,
    /// A growth of memory was refused, or runs have more than [`MOST_ELEMENTS`](crate::MOST_ELEMENTS) elements.
    #[error("out of memory")]
    Memory,
}

impl From<CertFault> for ConvertFault {
    ghost from_gives = { λ fault e. e ≡ fault_of_reading fault };

    fn from(error: CertFault) -> ConvertFault {
        match error {
            CertFault::BadText { at } => ConvertFault::BadText { at },
            CertFault::Memory => ConvertFault::Memory,
        }
    }
}

impl From<CertWriteFault> for ConvertFault {
    ghost from_gives = { λ fault e. e ≡ fault_of_writing fault };

    fn from(error: CertWriteFault) -> ConvertFault {
        match error {
            CertWriteFault::LaterPremise { line } => ConvertFault::LaterPremise { line },
            CertWriteFault::Io => ConvertFault::Io,
            CertWriteFault::Memory => ConvertFault::Memory,
        }
    }
}

/// Writes the certificate of the text, whichever format that is in, in this format. Whether the certificate shows anything is not asked.
///
/// `BadText` comes exactly where the text is that of no certificate of the ontology, and `LaterPremise` exactly where that certificate has
/// no text in this format. The text is read whole before anything is written: only after `Io` has the sink taken something, a prefix of
/// what was to be written. `Io` comes only where the sink failed in this call, and `Memory` only where memory was refused or runs
/// have more than [`MOST_ELEMENTS`](crate::MOST_ELEMENTS) elements.
pub fn convert<S: Sink>(
    alloc: Global,
    ontology: &Ontology,
    text: &[u8],
    format: Format,
    sink: &mut S,
) -> Result<(), ConvertFault>
    ensures ok { OnOk result (IsConverted ontology.now text.now format (S.taken sink.old) (S.taken sink.new)) }
    ensures fault { IfErr result (IsConvertFault ontology.now text.now format) }
    ensures begun { IsErrOf result ConvertFault.Io → IsBegun ontology.now text.now format (S.taken sink.old) (S.taken sink.new) }
    ensures io { IsErrOf result ConvertFault.Io → HasFailed (S.failures sink.old) (S.failures sink.new) }
    ensures untouched { ¬ IsErrOf result ConvertFault.Io → OnErr result (Keeps (S.taken sink.old) (S.taken sink.new)) }
    ensures unfailed { ¬ IsErrOf result ConvertFault.Io → S.failures sink.new ≡ S.failures sink.old }
    ensures count { S.failures sink.old ≤ S.failures sink.new }
    ensures path { S.path sink.new ≡ S.path sink.old }
{
    let certificate = read_certificate(alloc, ontology, text)?;
    write_certificate(alloc, ontology, &certificate, format, sink)?;
    Ok(())
}
