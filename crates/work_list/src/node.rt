//! Nodes of chains.

/// A fact, and what stands for the node behind it: one more than its place, or 0 where there is none.
#[derive(Clone, Copy)]
pub(crate) struct Node {
    pub fact: u32,
    pub next: u32,
}
