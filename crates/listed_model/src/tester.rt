//! What axioms are tested over.
use crate::kept::Kept;
use axioms::Ontology;
use certificate::Listed;
use std::alloc::Global;

/// An ontology, a listed interpretation of its names, and what is kept of its elements.
#[derive(Clone, Copy)]
pub(crate) struct Tester<'a> {
    pub alloc: Global,
    pub ontology: &'a Ontology,
    pub listed: &'a Listed,
    pub kept: &'a Kept,
}
