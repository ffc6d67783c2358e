//! Why a question is not answered.

use profile::DocumentFault;
use thiserror::Error;

/// Why a question about a document is not answered.
#[derive(Debug, Drop, Error)]
pub enum QuestionFault<'n> {
    /// The document was not read.
    #[error(transparent)]
    Document(DocumentFault),
    /// The closure has more facts than the limit.
    #[error("more facts than the limit")]
    Limit,
    /// The ontology has no such name, which is the first such from the left in the question.
    #[error("unknown name <{0}>")]
    UnknownName(&'n str),
    /// The expression was not read: places count its bytes.
    #[error(transparent)]
    Expression(DocumentFault),
    /// Memory was refused once the document was read.
    #[error("out of memory")]
    Memory,
}
