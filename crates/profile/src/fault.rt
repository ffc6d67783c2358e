//! Why a document is not read.
ghost use Rattle.std.specs.Prelude.{◌≡◌};

use crate::acceptance::Refusal;
use fs_lexer::LexFault;
use fs_parser::ParseFault;
use program::Status;
use shapes::Fault;
use std::fmt;
use thiserror::Error;

/// Why a document is not read as an ontology. Places count the bytes before them.
#[derive(Debug, Drop, Error)]
pub enum DocumentFault {
    /// The bytes are not UTF-8: the length of the longest prefix that is.
    NotUtf8 { at: usize },
    /// There are more bytes than the limit.
    TooLarge,
    /// The source failed.
    Io,
    /// The text spells no tokens.
    Lex(LexFault),
    /// The tokens are no document.
    Parse(ParseFault),
    /// The document has these faults, which are all, in the order of the text.
    Faults(Vec<Fault>),
    /// A kind would have more than 1,000,000 names.
    TooManyNames,
    /// Memory was refused.
    Memory,
}

impl DocumentFault {
    ghost use Rattle.profile.specs.Messages.{status_of};

    /// The status of a program that is stopped by this fault.
    pub fn status(&self) -> Status
        ensures { result ≡ status_of self.now }
    {
        match self {
            DocumentFault::TooLarge | DocumentFault::TooManyNames => Status::Limit,
            DocumentFault::Io => Status::File,
            DocumentFault::Memory => Status::Memory,
            DocumentFault::NotUtf8 { .. }
            | DocumentFault::Lex(_)
            | DocumentFault::Parse(_)
            | DocumentFault::Faults(_) => Status::Refused,
        }
    }
}

impl fmt::Display for DocumentFault {
    ghost use Rattle.std.specs.Prelude.{Some};
    ghost use Rattle.profile.specs.Messages.{fault_text};

    ghost output = { λ fault. Some (fault_text fault) };

    fn fmt<W: fmt::Write>(&self, f: &mut fmt::Formatter<W>) -> fmt::Result {
        match self {
            DocumentFault::NotUtf8 { at } => write!(f, "U1 at byte {at}"),
            DocumentFault::TooLarge => write!(f, "U2"),
            DocumentFault::Io => write!(f, "U3"),
            DocumentFault::Lex(fault) => write!(f, "{fault}"),
            DocumentFault::Parse(fault) => write!(f, "{fault}"),
            DocumentFault::Faults(found) => match found.split_first() {
                Some((first, later)) => {
                    let later = LaterLines(later);
                    write!(f, "{first}{later}")
                }
                None => Ok(()),
            },
            DocumentFault::TooManyNames => write!(f, "A2"),
            DocumentFault::Memory => write!(f, "out of memory"),
        }
    }
}

/// Faults behind the first one: each on a line of its own.
#[derive(Drop)]
pub(crate) struct LaterLines<'a>(pub(crate) &'a [Fault]);

impl fmt::Display for LaterLines<'_> {
    ghost use Rattle.std.specs.Prelude.{Some, flat_map};
    ghost use Rattle.profile.specs.Messages.{later_line};

    ghost output = { λ lines. Some (flat_map later_line lines.0.now) };

    fn fmt<W: fmt::Write>(&self, f: &mut fmt::Formatter<W>) -> fmt::Result {
        for fault in self.0 {
            write!(f, "\n{fault}")?;
        }
        Ok(())
    }
}

impl From<LexFault> for DocumentFault {
    ghost use Rattle.profile.specs.Faults.{of_lexing};

    ghost from_gives = { λ f e. e ≡ of_lexing f };

    fn from(fault: LexFault) -> DocumentFault {
        match fault {
            LexFault::Memory => DocumentFault::Memory,
            fault => DocumentFault::Lex(fault),
        }
    }
}

impl From<ParseFault> for DocumentFault {
    ghost use Rattle.profile.specs.Faults.{of_parsing};

    ghost from_gives = { λ f e. e ≡ of_parsing f };

    fn from(fault: ParseFault) -> DocumentFault {
        match fault {
            ParseFault::Memory => DocumentFault::Memory,
            fault => DocumentFault::Parse(fault),
        }
    }
}

impl From<Refusal> for DocumentFault {
    ghost use Rattle.profile.specs.Faults.{of_refusal};

    ghost from_gives = { λ r e. e ≡ of_refusal r };

    fn from(refusal: Refusal) -> DocumentFault {
        match refusal {
            Refusal::Faults(found) => DocumentFault::Faults(found),
            Refusal::TooManyNames => DocumentFault::TooManyNames,
            Refusal::Memory => DocumentFault::Memory,
        }
    }
}
