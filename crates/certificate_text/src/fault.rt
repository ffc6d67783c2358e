//! Why a certificate is not written.

ghost use Rattle.std.specs.Prelude.{◌≡◌};
ghost use Rattle.certificate_text.specs.declared.fault.CertWriteFault.TheVariants as write_faults;

use axioms::Memory;
use device::Failed;
use thiserror::Error;

/// Why a certificate is not written.
#[derive(Clone, Copy, Debug, PartialEq, Eq, Error)]
pub enum CertWriteFault {
    /// The line of that number, counted from 1, is the first with a premise that is no line before it: it has no text in format 2.
    #[error("line {line} has a later premise")]
    LaterPremise { line: usize },
    /// The sink failed.
    #[error("the sink failed")]
    Io,
    /// A growth of memory was refused.
    #[error("out of memory")]
    Memory,
}

impl From<Failed> for CertWriteFault {
    ghost from_gives = { λ _ e. e ≡ write_faults.Io };

    fn from(_error: Failed) -> CertWriteFault {
        CertWriteFault::Io
    }
}

impl From<Memory> for CertWriteFault {
    ghost from_gives = { λ _ e. e ≡ write_faults.Memory };

    fn from(_error: Memory) -> CertWriteFault {
        CertWriteFault::Memory
    }
}
