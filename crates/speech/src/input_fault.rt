//! Why what is read is no command with its bytes.
ghost use Rattle.speech.specs.Conversations.{fault_text, status_of};
ghost use Rattle.speech.specs.Turns.{told_as};
ghost use Rattle.std.specs.Prelude.{◌≡◌};

use program::Status;
use source_lines::StreamFault;
use std::fmt;
use thiserror::Error;

/// Why what is read is no command with its bytes. Where the next command begins is then not known.
#[derive(Clone, Copy, Debug, PartialEq, Eq, Error)]
pub enum InputFault {
    /// A line does not say how many bytes follow it.
    Size,
    /// The bytes that follow a line have no line feed behind them.
    LineFeed,
    /// The input ends before the line feed of a line, or of the bytes behind it.
    Cut,
    /// The source failed.
    Unread,
    /// Memory was refused.
    Memory,
}

impl InputFault {
    /// The status with which the conversation ends.
    pub fn status(self) -> Status
        ensures { result ≡ status_of self }
    {
        match self {
            InputFault::Size | InputFault::LineFeed | InputFault::Cut => Status::Usage,
            InputFault::Unread => Status::File,
            InputFault::Memory => Status::Memory,
        }
    }

    /// What is told of it: its line, with a line feed.
    pub fn text(self) -> &'static [u8]
        ensures { result.now ≡ fault_text self }
    {
        match self {
            InputFault::Size => b"no size\n".as_slice(),
            InputFault::LineFeed => b"no line feed behind the bytes\n".as_slice(),
            InputFault::Cut => b"the input ends in a command\n".as_slice(),
            InputFault::Unread => b"cannot read the input\n".as_slice(),
            InputFault::Memory => b"out of memory\n".as_slice(),
        }
    }
}

impl fmt::Display for InputFault {
    ghost use Rattle.speech.specs.Conversations.{fault_line};
    ghost use Rattle.std.specs.Prelude.{Some};

    ghost output = { λ fault. Some (fault_line fault) };

    fn fmt<W: fmt::Write>(&self, f: &mut fmt::Formatter<W>) -> fmt::Result {
        match self {
            InputFault::Size => write!(f, "no size"),
            InputFault::LineFeed => write!(f, "no line feed behind the bytes"),
            InputFault::Cut => write!(f, "the input ends in a command"),
            InputFault::Unread => write!(f, "cannot read the input"),
            InputFault::Memory => write!(f, "out of memory"),
        }
    }
}

/// Why a line did not come, as a fault of what is read.
pub(crate) fn input_fault(fault: StreamFault) -> InputFault
    ensures { result ≡ told_as fault }
{
    match fault {
        StreamFault::Io => InputFault::Unread,
        StreamFault::Memory => InputFault::Memory,
    }
}
