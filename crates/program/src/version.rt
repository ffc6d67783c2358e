//! Versions of the profile.

/// Which constructs a document may have.
#[derive(Clone, Copy, Debug, PartialEq, Eq)]
pub enum Version {
    /// The first version.
    One,
    /// Besides these, individuals that are one, individuals that differ, and pairs that are denied.
    Two,
}
