//! Replies.
ghost use Rattle.telling.specs.Devices.{FailsIn, Takes, seen};
ghost use Rattle.speech.specs.Replies.{done_text, refused_text, reply_text, told, too_large};
ghost use Rattle.std.specs.Prelude.{OnErr, OnOk};

use device::{Failed, Sink};
use itoa::Buffer;
use program::Status;
use telling::write_pieces;

/// What is replied to a command: the status with which a command of the program ends there, and what it prints.
#[derive(Debug, Drop)]
pub struct Reply {
    pub status: Status,
    pub text: Vec<u8>,
}

/// Writes that a command was done, and its answer behind that.
fn write_done<W: Sink>(sink: &mut W, text: &[u8]) -> Result<(), Failed>
    ensures whole { OnOk result (Takes (seen W.Sink sink.old) (seen W.Sink sink.new) (done_text text.now)) }
    ensures begun { OnErr result (FailsIn (seen W.Sink sink.old) (seen W.Sink sink.new) (done_text text.now)) }
{
    let mut digits = Buffer::new();
    let pieces = [
        b"ok ".as_slice(),
        digits.format(text.len()).as_bytes(),
        b"\n".as_slice(),
        text,
    ];
    write_pieces(sink, &pieces)
}

/// Writes that a command was not done, and behind that why.
fn write_refused<W: Sink>(sink: &mut W, status: Status, text: &[u8]) -> Result<(), Failed>
    ensures whole { OnOk result (Takes (seen W.Sink sink.old) (seen W.Sink sink.new) (refused_text status text.now)) }
    ensures begun { OnErr result (FailsIn (seen W.Sink sink.old) (seen W.Sink sink.new) (refused_text status text.now)) }
{
    let mut number = Buffer::new();
    let mut size = Buffer::new();
    let pieces = [
        b"no ".as_slice(),
        number.format(status.code()).as_bytes(),
        b" ".as_slice(),
        size.format(text.len()).as_bytes(),
        b"\n".as_slice(),
        text,
    ];
    write_pieces(sink, &pieces)
}

/// Writes a reply of this status and this text.
pub fn write_reply<W: Sink>(sink: &mut W, status: Status, text: &[u8]) -> Result<(), Failed>
    ensures whole { OnOk result (Takes (seen W.Sink sink.old) (seen W.Sink sink.new) (reply_text (told status text.now))) }
    ensures begun { OnErr result (FailsIn (seen W.Sink sink.old) (seen W.Sink sink.new) (reply_text (told status text.now))) }
{
    match status {
        Status::Done => write_done(sink, text),
        _ => write_refused(sink, status, text),
    }
}

/// Writes the reply that more bytes follow a command than there is room for. No memory is needed for it.
pub(crate) fn write_too_large<W: Sink>(sink: &mut W, room: u64) -> Result<(), Failed>
    ensures whole { OnOk result (Takes (seen W.Sink sink.old) (seen W.Sink sink.new) (reply_text (too_large room))) }
    ensures begun { OnErr result (FailsIn (seen W.Sink sink.old) (seen W.Sink sink.new) (reply_text (too_large room))) }
{
    let mut number = Buffer::new();
    let mut size = Buffer::new();
    let mut digits = Buffer::new();
    let code = number.format(Status::Limit.code()).as_bytes();
    let most = digits.format(room).as_bytes();
    let len = size.format(most.len() + 24).as_bytes();
    let pieces = [
        b"no ".as_slice(),
        code,
        b" ".as_slice(),
        len,
        b"\nlimit: more than ".as_slice(),
        most,
        b" bytes\n".as_slice(),
    ];
    write_pieces(sink, &pieces)
}
