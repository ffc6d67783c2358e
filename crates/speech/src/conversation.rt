//! A conversation: commands are read, and each is answered before the next one is read.
ghost use Rattle.source_lines.specs.Sources.{source_state};
ghost use Rattle.speech.specs.Conversations.{IsConversation, point};
ghost use Rattle.telling.specs.Devices.{FailsIn, Takes, seen};
ghost use Rattle.speech.specs.Turns.{Fits, IsNext, IsRefusalTold, IsReplied, status_of_end};
ghost use Rattle.std.specs.Prelude.{◌≡◌, OnErr, OnOk};

use crate::hearing::{Heard, hear, next_line};
use crate::input_fault::InputFault;
use crate::reply::{write_reply, write_too_large};
use crate::service::Service;
use device::{Failed, Sink, Source};
use program::Status;
use source_lines::SourceLines;
use std::alloc::Global;

/// How a conversation ends.
#[derive(Clone, Copy, Debug, PartialEq, Eq)]
pub enum Ending {
    /// The source is at its end, and all that was asked is answered.
    End,
    /// What came next is no command with its bytes, which was told.
    Refused(InputFault),
    /// The sink failed.
    Unwritten,
}

impl Ending {
    /// The status with which a program ends behind it.
    pub fn status(self) -> Status
        ensures { result ≡ status_of_end self }
    {
        match self {
            Ending::End => Status::Done,
            Ending::Refused(fault) => fault.status(),
            Ending::Unwritten => Status::File,
        }
    }
}

/// Answers what was heard, and hands the reply on.
fn respond<V: Service, O: Sink>(
    service: &mut V,
    heard: &Heard<'_>,
    sink: &mut O,
) -> Result<(), Failed>
    requires { Fits (V.room service.old) heard.now }
    ensures whole { OnOk result (IsReplied V.Service service.old heard.now service.new (Takes (seen O.Sink sink.old) (seen O.Sink sink.new))) }
    ensures begun { OnErr result (IsReplied V.Service service.old heard.now service.new (FailsIn (seen O.Sink sink.old) (seen O.Sink sink.new))) }
{
    match heard {
        Heard::Command(command, payload) => match service.answer(*command, payload) {
            Ok(reply) => write_reply(sink, reply.status, &reply.text),
            Err(_) => write_reply(sink, Status::Memory, b"out of memory\n"),
        },
        Heard::TooLarge => write_too_large(sink, service.most_payload()),
        Heard::Unknown => write_reply(sink, Status::Usage, b"unknown command\n"),
    }
}

/// Reads the next command with its bytes, answers it, and hands the reply on; or the conversation ends.
fn turn<V: Service, S: Source, O: Sink>(
    alloc: Global,
    service: &mut V,
    lines: &mut SourceLines,
    source: &mut S,
    sink: &mut O,
) -> Option<Ending>
    ensures { IsNext V.Service (point service.old lines.old.ahead (source_state S.Source source.old) (seen O.Sink sink.old))
        (point service.new lines.new.ahead (source_state S.Source source.new) (seen O.Sink sink.new)) result }
{
    let line = match next_line(alloc, lines, source) {
        Ok(Some(line)) => line,
        Ok(None) => return Some(Ending::End),
        Err(fault) => return Some(Ending::Refused(fault)),
    };
    let heard = match hear(alloc, service.most_payload(), &line, lines, source) {
        Ok(heard) => heard,
        Err(fault) => return Some(Ending::Refused(fault)),
    };
    match respond(service, &heard, sink) {
        Ok(()) => None,
        Err(_) => Some(Ending::Unwritten),
    }
}

/// Tells why no command came next.
fn refuse<O: Sink>(fault: InputFault, sink: &mut O) -> Ending
    ensures { IsRefusalTold fault (seen O.Sink sink.old) (seen O.Sink sink.new) result }
{
    match write_reply(sink, fault.status(), fault.text()) {
        Ok(()) => Ending::Refused(fault),
        Err(_) => Ending::Unwritten,
    }
}

/// Reads commands until the source ends, and answers each: its reply is handed on whole before the next line is read. Where the sink
/// fails in a reply, nothing is read and nothing is done behind that.
pub fn converse<V: Service, S: Source, O: Sink>(
    alloc: Global,
    service: &mut V,
    source: &mut S,
    sink: &mut O,
) -> Ending
    ensures { IsConversation V.Service service.old service.new (source_state S.Source source.old) (source_state S.Source source.new)
        (seen O.Sink sink.old) (seen O.Sink sink.new) result }
{
    let mut lines = SourceLines::new(alloc);
    loop {
        match turn(alloc, service, &mut lines, source, sink) {
            None => {}
            Some(Ending::Refused(fault)) => return refuse(fault, sink),
            Some(Ending::End) => return Ending::End,
            Some(Ending::Unwritten) => return Ending::Unwritten,
        }
    }
}
