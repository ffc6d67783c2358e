//! Why an interpretation was refused, or something said of it.
ghost use Rattle.std.specs.Prelude.{◌≡◌};
ghost use Rattle.interpretation_spec.specs.declared.fault.InterpretationFault.TheVariants as faults;

use axioms::Memory;
use std::alloc::AllocError;
use thiserror::Error;

/// Why an interpretation was not made, or did not take what was said of it.
#[derive(Clone, Copy, Debug, PartialEq, Eq, Error)]
pub enum InterpretationFault {
    /// A domain has at least one element (OWL 2 Direct Semantics, section 2.2).
    #[error("a domain has at least one element")]
    EmptyDomain,
    /// A number of an element, a class, a property or an individual is out of range.
    #[error("a number is out of range")]
    OutOfDomain,
    /// A growth of memory was refused.
    #[error("out of memory")]
    Memory,
    /// `owl:Thing` is all elements and `owl:Nothing` is none.
    #[error("owl:Thing and owl:Nothing are fixed")]
    FixedClass,
}

impl From<AllocError> for InterpretationFault {
    ghost from_gives = { λ _ e. e ≡ faults.Memory };

    fn from(_error: AllocError) -> InterpretationFault {
        InterpretationFault::Memory
    }
}

impl From<Memory> for InterpretationFault {
    ghost from_gives = { λ _ e. e ≡ faults.Memory };

    fn from(_error: Memory) -> InterpretationFault {
        InterpretationFault::Memory
    }
}
