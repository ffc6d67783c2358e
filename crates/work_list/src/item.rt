//! One piece of pending work.

/// The number of a fact that waits for its turn, and the number of a context, which facts are grouped by. A list may make room for
/// all such numbers up to the largest, so contexts that come first are to have small ones.
#[derive(Clone, Copy, Debug, PartialEq, Eq)]
pub struct Item {
    pub fact: u32,
    pub context: u32,
}
