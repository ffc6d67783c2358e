//! Ontologies that documents state.

use axioms::Ontology;
use profile::{Version, read_bytes};
use std::hash::RandomState;
use std::random::RandomSource;
use std::test::Fail;

/// The ontology that the document states.
pub(crate) fn ontology_of<R: AllocGlobal + RandomSource>(
    rt: &R,
    document: &str,
) -> Result<Ontology, Fail> {
    let state = RandomState::new(rt)?;
    Ok(read_bytes(rt.alloc(), document.as_bytes(), Version::Two, state)?)
}
