//! Why a document is not classified, or nothing inferred of it.

use profile::DocumentFault;
use session::RunFault;
use thiserror::Error;

/// Why a document was not classified.
#[derive(Debug, Drop, Error)]
pub enum ClassifyFault {
    /// The document was not read. Nothing is written.
    #[error(transparent)]
    Document(DocumentFault),
    /// Memory was refused once the document was read. Nothing is written.
    #[error("out of memory")]
    Memory,
    /// The closure has more facts than the limit. Nothing is written.
    #[error("more facts than the limit")]
    Limit,
    /// The sink of that number failed: 1 is the taxonomy's, 2 the instances', 3 the certificate's. Those before it have
    /// taken their whole text, this one a prefix of its text, those behind it nothing.
    #[error("sink {0} failed")]
    Io(usize),
}

/// Why what is inferred of a document was not written.
#[derive(Debug, Drop, Error)]
pub enum InferenceFault {
    /// The document was not read and run to its end. Nothing is written.
    #[error(transparent)]
    Run(RunFault),
    /// The sink failed. It has taken a prefix of the text.
    #[error("the text's sink failed")]
    Unwritten,
}
