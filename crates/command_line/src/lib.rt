//! What the program's words ask for.
#![tactic(auto)]

mod command;
mod receiver;
mod tasks;
mod words;

pub use receiver::{ReceiverTask, Request, receiver_task};
pub use tasks::{Command, Conversion, FormatNumber, Invocation, LineFault, Paths, Task};
pub use words::invocation;
