//! What lines are made from.
use engine::Closed;
use std::alloc::Global;

/// An ontology with the facts of its closure, and what gives memory.
#[derive(Drop)]
pub(crate) struct Basis<'a> {
    pub(crate) alloc: Global,
    pub(crate) closed: &'a Closed<'a>,
}
