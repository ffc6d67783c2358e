//! Sessions over documents.

use device::SliceSource;
use session::{Limits, Session};
use std::alloc::Global;
use std::hash::RandomState;

/// A session over the document, of which nothing was run.
pub(crate) fn session_of(
    alloc: Global,
    state: RandomState,
    limits: &Limits,
    document: &str,
) -> Option<Session> {
    let mut source = SliceSource::new(document.as_bytes());
    Session::open(alloc, &mut source, limits, state).ok()
}
