//! What a prefix is longer than.

/// What a prefix is longer than by one member: a member alone, or another prefix.
#[derive(Clone, Copy, PartialEq, Eq, Hash)]
pub(crate) enum Start {
    One(u32),
    Longer(u32),
}
