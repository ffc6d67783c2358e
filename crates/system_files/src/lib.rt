//! Files by their paths: of the system, and in memory.
#![tactic(auto)]

mod files;
mod memory;
mod system;

pub use files::Files;
pub use memory::{MemoryFiles, MemorySink, MemorySource};
pub use system::{FileReader, FileSink, SystemFiles};
