//! Why a query is not answered.

use profile::DocumentFault;
use thiserror::Error;

/// Why a query is not answered.
#[derive(Debug, Drop, Error)]
pub enum QueryFault {
    /// Facts are pending: no `resume` ended with `Ok`.
    #[error("facts are pending")]
    Unfinished,
    /// The text is no class expression over names of the ontology, or too large. Places count the bytes of this text.
    #[error(transparent)]
    Expression(DocumentFault),
    /// The closure with the expression has more facts than the limit.
    #[error("more facts than the limit")]
    Limit,
    /// Memory was refused once the expression was read.
    #[error("out of memory")]
    Memory,
}
