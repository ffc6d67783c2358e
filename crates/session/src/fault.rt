//! Why a session does not answer.

use thiserror::Error;

/// Why a session does not answer a question.
#[derive(Clone, Copy, Debug, PartialEq, Eq, Error)]
pub enum AskFault<'n> {
    /// Facts are pending: no `resume` ended with `Ok`.
    #[error("facts are pending")]
    Unfinished,
    /// The ontology has no such name, which is the first such from the left in the question.
    #[error("unknown name <{0}>")]
    UnknownName(&'n str),
    /// Memory was refused.
    #[error("out of memory")]
    Memory,
}

/// Why the texts of a session are not written.
#[derive(Clone, Copy, Debug, PartialEq, Eq, Error)]
pub enum WritingFault {
    /// Facts are pending: no `resume` ended with `Ok`. Nothing is written.
    #[error("facts are pending")]
    Unfinished,
    /// Memory was refused. Nothing is written.
    #[error("out of memory")]
    Memory,
    /// The sink of that number failed: 1 is the taxonomy's, 2 the instances', 3 the certificate's. Those before it have
    /// taken their whole text, this one a prefix of its text, those behind it nothing.
    #[error("sink {0} failed")]
    Io(usize),
}
