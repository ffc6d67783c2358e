//! Where bytes come from and where they go: sources, sinks and whole texts through them.
#![tactic(auto)]

mod adapter;
mod device;
mod fault;
mod memory;
mod whole;

pub use adapter::{ReaderSource, WriterSink};
pub use device::{Failed, Sink, Source};
pub use fault::{Memory, WriteFault};
pub use memory::{BufferSink, SliceSource};
pub use whole::{ReadFault, read_all, write_all};
