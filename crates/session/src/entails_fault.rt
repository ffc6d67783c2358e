//! Why it is not told whether axioms follow.

use profile::DocumentFault;
use thiserror::Error;

/// Why it is not told whether axioms follow.
#[derive(Debug, Drop, Error)]
pub enum EntailsFault {
    /// Facts are pending: no `resume` ended with `Ok`.
    #[error("facts are pending")]
    Unfinished,
    /// The text is none of axioms and declarations, or too large. Places count the bytes of this text.
    #[error(transparent)]
    Statements(DocumentFault),
    /// The text has this name, which the ontology lacks.
    #[error("unknown name <{0}>")]
    UnknownName(String),
    /// With the individuals by which one of the axioms is tested there would be more than 1,000,000.
    #[error("more than 1000000 names")]
    TooManyNames,
    /// The closure with what one of the axioms is tested by has more facts than the limit.
    #[error("more facts than the limit")]
    Limit,
    /// Memory was refused once the text was read.
    #[error("out of memory")]
    Memory,
}
