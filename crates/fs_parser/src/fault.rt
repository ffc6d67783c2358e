//! Why tokens are no document.

ghost use Rattle.std.specs.Prelude.{◌≡◌};
ghost use Rattle.fs_parser.specs.declared.fault.ParseFault.TheVariants.{Memory};

use std::alloc::{AllocError, AllocFailed};
use std::fmt;
use thiserror::Error;

/// Why tokens are no document, with the first place from the left where they fail.
#[derive(Clone, Copy, Debug, PartialEq, Eq, Error)]
pub enum ParseFault {
    /// This token does not fit here.
    Unexpected { at: usize },
    /// The tokens end too early: where the last one ends, or 0 where there is none.
    UnexpectedEnd { at: usize },
    /// This name has a prefix that is not declared.
    UnknownPrefix { at: usize },
    /// This prefix was declared before.
    PrefixTwice { at: usize },
    /// This prefix is declared from the start, as another IRI.
    StandardPrefixChanged { at: usize },
    /// This parenthesis would be one too many of those open at once.
    TooDeep { at: usize },
    /// There was no memory for the document.
    Memory,
}

impl fmt::Display for ParseFault {
    ghost use Rattle.std.specs.Prelude.{Some};
    ghost use Rattle.fs_parser.specs.Messages.{fault_text};

    ghost output = { λ fault. Some (fault_text fault) };

    fn fmt<W: fmt::Write>(&self, f: &mut fmt::Formatter<W>) -> fmt::Result {
        match self {
            ParseFault::Unexpected { at } => write!(f, "P1 at byte {at}"),
            ParseFault::UnexpectedEnd { at } => write!(f, "P2 at byte {at}"),
            ParseFault::UnknownPrefix { at } => write!(f, "P3 at byte {at}"),
            ParseFault::PrefixTwice { at } => write!(f, "P4 at byte {at}"),
            ParseFault::StandardPrefixChanged { at } => write!(f, "P5 at byte {at}"),
            ParseFault::TooDeep { at } => write!(f, "P6 at byte {at}"),
            ParseFault::Memory => write!(f, "out of memory"),
        }
    }
}

impl From<AllocError> for ParseFault {
    ghost from_gives = { λ _ e. e ≡ Memory };

    fn from(_e: AllocError) -> ParseFault {
        ParseFault::Memory
    }
}

impl<T: Drop> From<AllocFailed<T>> for ParseFault {
    ghost from_gives = { λ _ e. e ≡ Memory };

    fn from(_e: AllocFailed<T>) -> ParseFault {
        ParseFault::Memory
    }
}
