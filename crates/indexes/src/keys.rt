//! Keys of two kinds.

/// A number of one of two kinds.
#[derive(Clone, Copy, Debug, PartialEq, Eq)]
pub enum Key {
    Whole(u32),
    Partial(u32),
}
