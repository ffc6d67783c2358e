//! Why what of a document is of the profile is not written.

use profile::DocumentFault;
use thiserror::Error;

/// Why what of a document is of the profile was not written.
#[derive(Debug, Drop, Error)]
pub enum RestrictionFault {
    /// The document was not read, or too many names of it are kept. Nothing is written.
    #[error("{fault}")]
    Document {
        fault: DocumentFault,
        /// Those of the document, where they were all read.
        bytes: Vec<u8>,
    },
    /// The sink failed. It has taken a prefix of the text.
    #[error("the text's sink failed")]
    Unwritten,
}
