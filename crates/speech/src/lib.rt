//! The language that an editor speaks with a session: commands, replies, and a conversation of them.
#![tactic(auto)]

mod answering;
mod command;
mod commands;
mod conversation;
mod editing;
mod hearing;
mod input_fault;
mod line;
mod messages;
mod options;
mod reply;
mod service;
mod session_service;
mod sizes;
mod version;
mod words;

pub use answering::{consistency, unfinished_reply};
pub use command::{Command, TextPaths, Writing};
pub use commands::{MOST_LINE, command_of};
pub use conversation::{Ending, converse};
pub use editing::conversations_are_edits;
pub use input_fault::InputFault;
pub use line::{CommandFault, read_command};
pub use messages::question_message;
pub use reply::{Reply, write_reply};
pub use service::Service;
pub use session_service::SessionService;
pub use telling::{Message, document_message, message_of, unread_message};
