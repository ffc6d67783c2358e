//! Why a document is not checked, or its certificate not converted.

use certificate_text::ConvertFault;
use profile::DocumentFault;
use thiserror::Error;

/// Why texts were not checked. No verdict is given.
#[derive(Debug, Drop, Error)]
pub enum CheckFault {
    /// The document was not read.
    #[error(transparent)]
    Document(DocumentFault),
    /// Memory was refused once the document was read.
    #[error("out of memory")]
    Memory,
    /// The source of that number failed: 2 is the taxonomy's, 3 the instances', 4 the certificate's. (That of the
    /// document, the first, is told inside `Document`.) Those before it were read to their ends, those behind it not at all.
    #[error("source {0} failed")]
    Io(usize),
}

/// Why a certificate of a document was not converted.
#[derive(Debug, Drop, Error)]
pub enum ConversionFault {
    /// The document was not read.
    #[error(transparent)]
    Document(DocumentFault),
    /// The certificate's source failed.
    #[error("the certificate's source failed")]
    Unread,
    /// It has no text in the format, or the sink failed; or memory was refused once the document was read.
    #[error(transparent)]
    Certificate(ConvertFault),
}
