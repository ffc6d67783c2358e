//! Why it is not told whether a claim follows.

use thiserror::Error;

/// Why it is not told whether axioms entail others.
#[derive(Clone, Copy, Debug, PartialEq, Eq, Error)]
pub enum TestFault {
    /// The closure of what is tested has more facts than the limit.
    #[error("more facts than the limit")]
    Limit,
    /// With the individuals of a test there would be more than 1,000,000.
    #[error("more than 1000000 names")]
    TooManyNames,
    /// Memory was refused.
    #[error("out of memory")]
    Memory,
}
