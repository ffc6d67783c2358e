//! Edges in parts.
use facts::Context;
use normal_forms::PropId2;

/// Where an edge begins, and where it ends.
#[derive(Clone, Copy)]
pub(crate) struct Ends {
    pub(crate) source: Context,
    pub(crate) target: Context,
}

/// An edge: its property, and between what it is.
#[derive(Clone, Copy)]
pub(crate) struct Edge {
    pub(crate) property: PropId2,
    pub(crate) ends: Ends,
}
