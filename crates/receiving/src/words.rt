//! The words that a program is called with.
ghost use Rattle.receiving.specs.Messages.{IsLineTold};
ghost use Rattle.receiving.specs.Starts.{IsUnreadTold};
ghost use Rattle.std.specs.IoError.{error_kind};
ghost use Rattle.std.specs.Prelude.{◌≡◌, IfOk, map, string_bytes};
ghost use Rattle.telling.specs.Devices.{seen};

use command_line::LineFault;
use device::Sink;
use program::Status;
use std::alloc::{AllocError, Global};
use std::io;
use telling::{Message, message_of, print, tell, tell_out_of_memory};

/// What to tell of words that ask for nothing that the program does.
pub(crate) fn usage_message(alloc: Global, fault: &clap::Error) -> Result<Message, AllocError>
    ensures { IfOk result (λ m. m.status ≡ Status.Usage) }
{
    message_of(format!(in alloc; "{fault}"), Status::Usage)
}

/// Tells of words that ask for nothing that the program does, and gives the status.
pub fn refuse<E: Sink>(alloc: Global, fault: &LineFault, err: &mut E) -> u8
    ensures { IsLineTold fault.now (seen E.Sink err.old) (seen E.Sink err.new) result }
{
    match fault {
        LineFault::Memory => tell_out_of_memory(err),
        LineFault::Line(fault) => tell(err, usage_message(alloc, fault)),
    }
}

/// The words as slices.
pub(crate) fn slices<'a>(alloc: Global, words: &'a [String]) -> Result<Vec<&'a str>, AllocError>
    ensures { IfOk result (λ s. map (λ w. w.now) s.items ≡ map string_bytes words.now) }
{
    let mut slices = Vec::new(alloc);
    for word in words {
        slices.push(word.as_str())?;
    }
    Ok(slices)
}

/// Tells why there are no words: memory was refused, or they are no text. Gives the status.
pub(crate) fn tell_unread<E: Sink>(fault: &io::Error, err: &mut E) -> u8
    ensures { IsUnreadTold (error_kind fault.now) (seen E.Sink err.old) (seen E.Sink err.new) result }
{
    match fault.kind() {
        io::ErrorKind::OutOfMemory => tell_out_of_memory(err),
        _ => print(err, "the command line is no text\n", Status::Usage),
    }
}
