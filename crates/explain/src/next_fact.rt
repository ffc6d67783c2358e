//! What the lines of a fact are made for.
use crate::lines_by_fact::LinesByFact;
use facts::{Birth, FactId};

/// The fact whose lines come next, what gave it, and which lines show the facts before it.
#[derive(Drop)]
pub(crate) struct NextFact<'a> {
    pub(crate) fact: FactId,
    pub(crate) birth: &'a Birth,
    pub(crate) shown: &'a LinesByFact,
}
