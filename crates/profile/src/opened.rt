//! What is kept of a document.
use axioms::Ontology;
use fs_parser::Prefixes;
use program::Version;

/// A document that was read, and may be added to: the ontology that it states, what its names were expanded with, the version of
/// the profile that it was read in, and how many bytes it had.
#[derive(Drop)]
pub struct Opened {
    pub ontology: Ontology,
    pub prefixes: Prefixes,
    pub version: Version,
    pub bytes: usize,
}
