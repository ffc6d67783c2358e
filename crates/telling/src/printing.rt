//! What is printed, and its status.
ghost use Rattle.std.specs.List.{flat_map};
ghost use Rattle.telling.specs.Devices.{seen};
ghost use Rattle.telling.specs.Messages.{out_of_memory};
ghost use Rattle.telling.specs.Printing.{IsPrinted, IsToldMessage};

use crate::messages::Message;
use crate::pieces::write_pieces;
use device::{Sink, write_all};
use program::Status;
use std::alloc::AllocError;

/// Prints the bytes and gives the status; where the sink fails, that of a file.
pub fn print_bytes<W: Sink>(sink: &mut W, bytes: &[u8], status: Status) -> u8
    ensures { IsPrinted (seen W.Sink sink.old) (seen W.Sink sink.new) bytes.now status result }
{
    match write_all(sink, bytes) {
        Ok(()) => status.code(),
        Err(_) => Status::File.code(),
    }
}

/// Prints the text and gives the status; where the sink fails, that of a file.
pub fn print<W: Sink>(sink: &mut W, text: &str, status: Status) -> u8
    ensures { IsPrinted (seen W.Sink sink.old) (seen W.Sink sink.new) text.now status result }
{
    print_bytes(sink, text.as_bytes(), status)
}

/// Prints the pieces, one behind the other, and gives the status; where the sink fails, that of a file.
pub fn print_pieces<W: Sink>(sink: &mut W, pieces: &[&[u8]], status: Status) -> u8
    ensures { IsPrinted (seen W.Sink sink.old) (seen W.Sink sink.new) (flat_map (λ p. p.now) pieces.entry.now) status result }
{
    match write_pieces(sink, pieces) {
        Ok(()) => status.code(),
        Err(_) => Status::File.code(),
    }
}

/// Tells that memory was refused. It needs none.
pub fn tell_out_of_memory<E: Sink>(err: &mut E) -> u8
    ensures { IsPrinted (seen E.Sink err.old) (seen E.Sink err.new) out_of_memory Status.Memory result }
{
    print(err, "out of memory\n", Status::Memory)
}

/// Prints the message to `err`; where there was no memory for it, tells that.
pub fn tell<E: Sink>(err: &mut E, message: Result<Message, AllocError>) -> u8
    ensures { IsToldMessage (seen E.Sink err.old) (seen E.Sink err.new) message result }
{
    match message {
        Ok(message) => print(err, message.text.as_str(), message.status),
        Err(_) => tell_out_of_memory(err),
    }
}
