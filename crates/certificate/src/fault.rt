//! Why a certificate is not made or read.

ghost use Rattle.std.specs.Prelude.{◌≡◌, length};
ghost use Rattle.certificate.specs.declared.fault.CertFault.TheVariants as cert_faults;
ghost use Rattle.certificate.specs.declared.fault.ReadFault.TheVariants as read_faults;
ghost use Rattle.certificate.specs.declared.fault.TextFault.TheVariants as text_faults;
ghost use Rattle.certificate.specs.SourceFaults.{stream_fault_as_text};

use axioms::Memory;
use source_lines::StreamFault;
use std::alloc::{AllocError, AllocFailed};
use thiserror::Error;

/// Why there is no certificate of some lines and an interpretation.
#[derive(Clone, Copy, Debug, PartialEq, Eq, Error)]
pub enum MakeFault {
    /// They have no text: they name what the ontology does not have, or are not in the order of the text.
    #[error("these lines and this interpretation have no text")]
    NoText,
    /// A growth of memory was refused.
    #[error("out of memory")]
    Memory,
}

/// Why bytes are not read as a certificate.
#[derive(Clone, Copy, Debug, PartialEq, Eq, Error)]
pub enum CertFault {
    /// They are the text of none. The first line that cannot follow those before it begins at that byte; where the
    /// last line is missing it is the number of bytes.
    #[error("no certificate: byte {at}")]
    BadText { at: usize },
    /// A growth of memory was refused, or runs have more than [`MOST_ELEMENTS`](crate::MOST_ELEMENTS) elements.
    #[error("out of memory")]
    Memory,
}

impl From<Memory> for CertFault {
    ghost from_gives = { λ _ e. e ≡ cert_faults.Memory };

    fn from(_error: Memory) -> CertFault {
        CertFault::Memory
    }
}

/// Why a certificate is not read from a source.
#[derive(Clone, Copy, Debug, PartialEq, Eq, Error)]
pub enum TextFault {
    /// The source gives the text of none. The first line that cannot follow those before it begins at that byte; where the
    /// last line is missing it is the number of bytes.
    #[error("no certificate: byte {at}")]
    BadText { at: usize },
    /// The source failed.
    #[error("the source failed")]
    Io,
    /// A growth of memory was refused, or runs have more than [`MOST_ELEMENTS`](crate::MOST_ELEMENTS) elements that were to be written out.
    #[error("out of memory")]
    Memory,
}

impl From<StreamFault> for TextFault {
    ghost from_gives = { λ s e. e ≡ stream_fault_as_text s };

    fn from(error: StreamFault) -> TextFault {
        match error {
            StreamFault::Io => TextFault::Io,
            StreamFault::Memory => TextFault::Memory,
        }
    }
}

impl From<Memory> for TextFault {
    ghost from_gives = { λ _ e. e ≡ text_faults.Memory };

    fn from(_error: Memory) -> TextFault {
        TextFault::Memory
    }
}

impl From<AllocError> for TextFault {
    ghost from_gives = { λ _ e. e ≡ text_faults.Memory };

    fn from(_error: AllocError) -> TextFault {
        TextFault::Memory
    }
}

impl<T: Drop> From<AllocFailed<T>> for TextFault {
    ghost from_gives = { λ _ e. e ≡ text_faults.Memory };

    fn from(_error: AllocFailed<T>) -> TextFault {
        TextFault::Memory
    }
}

/// Why reading stopped.
#[derive(Clone, Copy, Debug, PartialEq, Eq)]
pub(crate) enum ReadFault {
    /// The last bytes, so many, do not go on as they should.
    Text { left: usize },
    /// A growth of memory was refused.
    Memory,
}

impl From<AllocError> for ReadFault {
    ghost from_gives = { λ _ e. e ≡ read_faults.Memory };

    fn from(_error: AllocError) -> ReadFault {
        ReadFault::Memory
    }
}

impl<T: Drop> From<AllocFailed<T>> for ReadFault {
    ghost from_gives = { λ _ e. e ≡ read_faults.Memory };

    fn from(_error: AllocFailed<T>) -> ReadFault {
        ReadFault::Memory
    }
}

/// Reading stopped before these bytes.
pub(crate) fn stopped(rest: &[u8]) -> ReadFault
    ensures { result ≡ ReadFault.Text (length rest.now) }
{
    ReadFault::Text { left: rest.len() }
}
