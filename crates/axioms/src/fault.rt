//! Why an ontology could not grow.
ghost use Rattle.std.specs.Prelude.{◌≡◌};
ghost use Rattle.axioms.specs.declared.fault.BuildFault.TheVariants as faults;

use device::Memory;
use std::alloc::{AllocError, AllocFailed};
use thiserror::Error;

/// Why a name was not declared.
#[derive(Clone, Copy, Debug, PartialEq, Eq, Error)]
pub enum BuildFault {
    /// A growth of memory was refused.
    #[error("out of memory")]
    Memory,
    /// The kind would have more than 1,000,000 names.
    #[error("more than 1000000 names")]
    TooManyNames,
}

impl From<AllocError> for BuildFault {
    ghost from_gives = { λ _ e. e ≡ faults.Memory };

    fn from(_error: AllocError) -> BuildFault {
        BuildFault::Memory
    }
}

impl<T: Drop> From<AllocFailed<T>> for BuildFault {
    ghost from_gives = { λ _ e. e ≡ faults.Memory };

    fn from(_error: AllocFailed<T>) -> BuildFault {
        BuildFault::Memory
    }
}

impl From<Memory> for BuildFault {
    ghost from_gives = { λ _ e. e ≡ faults.Memory };

    fn from(_error: Memory) -> BuildFault {
        BuildFault::Memory
    }
}
