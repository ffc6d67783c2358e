//! The lines of a source, one at hand at a time, however the source is cut into pieces.
#![tactic(auto)]

mod fault;
mod lines;
mod room;

pub use fault::StreamFault;
pub use lines::SourceLines;
