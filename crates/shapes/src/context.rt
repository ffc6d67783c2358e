//! What a walk over trees is given.

ghost use Rattle.std.specs.Prelude.{◌≡◌, IfOk, Some};
ghost use Rattle.fs_parser.specs.View.{iri_of};
ghost use Rattle.shapes.specs.Names.{is_there};
ghost use Rattle.shapes.specs.View.{names_of};

use crate::expected::Expected;
use axioms::{Memory, Ontology};
use fs_parser::Iri;
use program::Version;
use std::alloc::Global;
use std::hash::RandomState;

/// Where memory comes from, how the tables of operands hash, the version of the profile, and the ontology of whose names alone there may be any.
#[derive(Clone, Copy)]
pub(crate) struct Context<'o> {
    pub(crate) alloc: Global,
    pub(crate) state: RandomState,
    pub(crate) version: Version,
    pub(crate) ontology: Option<&'o Ontology>,
}

impl Context<'_> {
    /// Whether there is such a name.
    #[inline(always)]
    pub(crate) fn has(&self, expected: Expected, iri: &Iri<'_>) -> Result<bool, Memory>
        ensures { IfOk result (λ there. there ≡ is_there (names_of self.now) expected (iri_of iri.now)) }
    {
        let Some(ontology) = self.ontology else {
            return Ok(true);
        };
        let Some(kind) = expected.kind() else {
            return Ok(true);
        };
        let text = iri.text(self.alloc)?;
        Ok(ontology.has_name(kind, text.as_str()))
    }
}
