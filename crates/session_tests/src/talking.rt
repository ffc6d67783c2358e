//! Conversations with a session over a document.

use crate::documents::session_of;
use device::{BufferSink, SliceSource};
use session::{Limits, Version};
use speech::{Ending, SessionService, converse};
use std::alloc::Global;
use std::hash::RandomState;

/// The document that is spoken of.
const DOCUMENT: &str = "Prefix(:=<x:>) Ontology(SubClassOf(:A :B))";

/// What answers commands about the document.
fn service_of(alloc: Global, state: RandomState) -> Option<SessionService> {
    let limits = Limits::new(1000, 100, Version::Two)?;
    let session = session_of(alloc, state, &limits, DOCUMENT)?;
    Some(SessionService {
        alloc,
        session,
        limits,
    })
}

/// Whether this is replied to the input, and the conversation ends so. The session is made and dropped here alone.
pub(crate) fn is_talk(
    alloc: Global,
    state: RandomState,
    input: &[u8],
    replied: &str,
    ending: Ending,
) -> bool {
    let Some(mut service) = service_of(alloc, state) else {
        return false;
    };
    let mut source = SliceSource::new(input);
    let mut sink = BufferSink::new(alloc);
    let ended = converse(alloc, &mut service, &mut source, &mut sink);
    drop(service);
    ended == ending && sink.bytes() == replied.as_bytes()
}
