//! Why a source was not read to the end of a line.
ghost use Rattle.std.specs.Prelude.{◌≡◌};
ghost use Rattle.source_lines.specs.declared.fault.StreamFault.TheVariants as faults;

use device::{Failed, Memory};
use std::alloc::AllocError;
use thiserror::Error;

/// Why a text was not read from a source.
#[derive(Clone, Copy, Debug, PartialEq, Eq, Error)]
pub enum StreamFault {
    /// The source failed.
    #[error("the source failed")]
    Io,
    /// A growth of memory was refused.
    #[error("out of memory")]
    Memory,
}

impl From<Failed> for StreamFault {
    ghost from_gives = { λ _ e. e ≡ faults.Io };

    fn from(_error: Failed) -> StreamFault {
        StreamFault::Io
    }
}

impl From<Memory> for StreamFault {
    ghost from_gives = { λ _ e. e ≡ faults.Memory };

    fn from(_error: Memory) -> StreamFault {
        StreamFault::Memory
    }
}

impl From<AllocError> for StreamFault {
    ghost from_gives = { λ _ e. e ≡ faults.Memory };

    fn from(_error: AllocError) -> StreamFault {
        StreamFault::Memory
    }
}
