//! Why a document is not run to its end.
ghost use Rattle.session.specs.Run.{question_fault as told_as};
ghost use Rattle.std.specs.Prelude.{◌≡◌};

use crate::question_fault::QuestionFault;
use profile::DocumentFault;
use thiserror::Error;

/// Why a document is not read and run to its end.
#[derive(Debug, Drop, Error)]
pub enum RunFault {
    /// The document was not read.
    #[error(transparent)]
    Document(DocumentFault),
    /// The closure has more facts than the limit.
    #[error("more facts than the limit")]
    Limit,
    /// Memory was refused once the document was read.
    #[error("out of memory")]
    Memory,
}

/// The fault as one of a question about the document.
pub fn as_question_fault<'n>(fault: RunFault) -> QuestionFault<'n>
    ensures { result ≡ told_as fault }
{
    match fault {
        RunFault::Document(fault) => QuestionFault::Document(fault),
        RunFault::Limit => QuestionFault::Limit,
        RunFault::Memory => QuestionFault::Memory,
    }
}
