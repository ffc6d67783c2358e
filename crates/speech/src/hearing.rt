//! Commands as they are read from a source.
ghost use Rattle.source_lines.specs.Sources.{source_state};
ghost use Rattle.speech.specs.Conversations.{ComesPayload, LacksPayload};
ghost use Rattle.speech.specs.Turns.{Hears, IsNextLine, IsPassed, KeepsFollowing, LacksBehind, LacksSized};
ghost use Rattle.std.specs.Prelude.{IfErr, IfOk, OnOk};

use crate::command::Command;
use crate::input_fault::{InputFault, input_fault};
use crate::line::{CommandFault, read_command};
use device::Source;
use source_lines::SourceLines;
use std::alloc::Global;

/// What a line is.
#[derive(Drop)]
pub(crate) enum Heard<'l> {
    /// A command, and the bytes that followed it.
    Command(Command<'l>, Vec<u8>),
    /// A command that more bytes followed than there is room for: they are gone.
    TooLarge,
    /// No command, and no bytes followed it.
    Unknown,
}

/// The next line, without its line feed; or that the source is at its end.
pub(crate) fn next_line<S: Source>(
    alloc: Global,
    lines: &mut SourceLines,
    source: &mut S,
) -> Result<Option<Vec<u8>>, InputFault>
    ensures { IsNextLine result lines.old.ahead lines.new.ahead (source_state S.Source source.old) (source_state S.Source source.new) }
{
    if let Err(fault) = lines.advance(source) {
        return Err(input_fault(fault));
    }
    let Some(line) = lines.line().strip_suffix(b"\n") else {
        return if lines.line().is_empty() {
            Ok(None)
        } else {
            Err(InputFault::Cut)
        };
    };
    match line.to_vec(alloc) {
        Ok(line) => Ok(Some(line)),
        Err(_) => Err(InputFault::Memory),
    }
}

/// The next so many bytes, which have a line feed behind them.
fn read_payload<S: Source>(
    alloc: Global,
    size: u64,
    lines: &mut SourceLines,
    source: &mut S,
) -> Result<Vec<u8>, InputFault>
    ensures read { IfOk result (λ v. ComesPayload size lines.old.ahead lines.new.ahead (source_state S.Source source.old) (source_state S.Source source.new) v.items) }
    ensures lacks { IfErr result (λ fault. LacksPayload fault size lines.old.ahead (source_state S.Source source.old) (source_state S.Source source.new)) }
{
    let mut payload = Vec::new(alloc);
    while payload.len() as u64 <= size {
        if let Err(fault) = lines.advance(source) {
            return Err(input_fault(fault));
        }
        if lines.line().is_empty() {
            return Err(InputFault::Cut);
        }
        if let Err(_) = payload.extend_from_slice(lines.line()) {
            return Err(InputFault::Memory);
        }
    }
    let Some(front) = payload.strip_suffix(b"\n") else {
        return Err(InputFault::LineFeed);
    };
    let len = front.len();
    if len as u64 != size {
        return Err(InputFault::LineFeed);
    }
    payload.truncate(len);
    Ok(payload)
}

/// Passes over the next so many bytes, which have a line feed behind them.
fn pass_payload<S: Source>(
    size: u64,
    lines: &mut SourceLines,
    source: &mut S,
) -> Result<(), InputFault>
    ensures passed { OnOk result (IsPassed size lines.old.ahead lines.new.ahead (source_state S.Source source.old) (source_state S.Source source.new)) }
    ensures lacks { IfErr result (λ fault. LacksPayload fault size lines.old.ahead (source_state S.Source source.old) (source_state S.Source source.new)) }
{
    let mut left = size;
    loop {
        if let Err(fault) = lines.advance(source) {
            return Err(input_fault(fault));
        }
        let line = lines.line();
        if line.is_empty() {
            return Err(InputFault::Cut);
        }
        let len = line.len() as u64;
        if len > left {
            let Some(front) = line.strip_suffix(b"\n") else {
                return Err(InputFault::LineFeed);
            };
            return if front.len() as u64 == left {
                Ok(())
            } else {
                Err(InputFault::LineFeed)
            };
        }
        left -= len;
    }
}

/// The bytes that follow a line, where so many do, and nothing else; where there is no room for them they are passed over.
fn read_behind<S: Source>(
    alloc: Global,
    room: u64,
    size: Option<u64>,
    lines: &mut SourceLines,
    source: &mut S,
) -> Result<Option<Vec<u8>>, InputFault>
    ensures read { IfOk result (KeepsFollowing room size lines.old.ahead lines.new.ahead (source_state S.Source source.old) (source_state S.Source source.new)) }
    ensures lacks { IfErr result (λ fault. LacksSized size fault lines.old.ahead (source_state S.Source source.old) (source_state S.Source source.new)) }
{
    match size {
        None => Ok(Some(Vec::new(alloc))),
        Some(size) if size <= room => match read_payload(alloc, size, lines, source) {
            Ok(payload) => Ok(Some(payload)),
            Err(fault) => Err(fault),
        },
        Some(size) => match pass_payload(size, lines, source) {
            Ok(()) => Ok(None),
            Err(fault) => Err(fault),
        },
    }
}

/// What the line asks for, with the bytes that follow it.
pub(crate) fn hear<'l, S: Source>(
    alloc: Global,
    room: u64,
    line: &'l [u8],
    lines: &mut SourceLines,
    source: &mut S,
) -> Result<Heard<'l>, InputFault>
    ensures heard { IfOk result (Hears room line.now lines.old.ahead lines.new.ahead (source_state S.Source source.old) (source_state S.Source source.new)) }
    ensures lacks { IfErr result (λ fault. LacksBehind line.now fault lines.old.ahead lines.new.ahead (source_state S.Source source.old) (source_state S.Source source.new)) }
{
    let command = match read_command(line) {
        Ok(command) => command,
        Err(CommandFault::Size) => return Err(InputFault::Size),
        Err(CommandFault::Unknown) => return Ok(Heard::Unknown),
    };
    match read_behind(alloc, room, command.payload_size(), lines, source) {
        Ok(Some(payload)) => Ok(Heard::Command(command, payload)),
        Ok(None) => Ok(Heard::TooLarge),
        Err(fault) => Err(fault),
    }
}
