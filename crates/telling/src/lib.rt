//! What is told of documents and devices: progress, messages of faults, and texts that are printed.
#![tactic(auto)]

mod messages;
mod pieces;
mod printing;
mod progress;

pub use messages::{Message, document_message, message_of, unread_message, unwritten_message};
pub use pieces::write_pieces;
pub use printing::{print, print_bytes, print_pieces, tell, tell_out_of_memory};
pub use progress::{Stage, tell_stage};
