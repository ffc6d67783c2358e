//! Lines as they come.
ghost use Rattle.speech.specs.Commands.{AnnouncesBytes, BeginsWith, IsNoCommand, Spells};
ghost use Rattle.std.specs.Prelude.{◌↔◌, IfErr, IfOk, IsTrue};

use crate::command::Command;
use crate::commands::command_of;
use std::str::from_utf8;
use thiserror::Error;

/// Why a line is no command.
#[derive(Clone, Copy, Debug, PartialEq, Eq, Error)]
pub enum CommandFault {
    /// It is no command.
    #[error("no command")]
    Unknown,
    /// It begins as one that bytes follow, but does not say how many.
    #[error("no size")]
    Size,
}

/// Whether the line begins with the word.
fn begins_with(word: &[u8], line: &[u8]) -> bool
    ensures { IsTrue result ↔ BeginsWith word.now line.now }
{
    let Some(rest) = line.strip_prefix(word) else {
        return false;
    };
    match rest {
        [] => true,
        [first, ..] => *first == b' ',
    }
}

/// Whether the line begins as that of a command that bytes follow.
fn announces_bytes(line: &[u8]) -> bool
    ensures { IsTrue result ↔ AnnouncesBytes line.now }
{
    begins_with(b"add", line) || begins_with(b"query", line) || begins_with(b"entails", line)
}

/// The command that the line is, without its line feed.
///
/// # Errors
///
/// `Size` where it is none and begins as one that bytes follow, and `Unknown` where it is none else.
pub fn read_command(line: &[u8]) -> Result<Command<'_>, CommandFault>
    ensures spelled { IfOk result (Spells line.now) }
    ensures refused { IfErr result (IsNoCommand line.now) }
{
    if let Ok(text) = from_utf8(line) {
        if let Some(command) = command_of(text) {
            return Ok(command);
        }
    }
    if announces_bytes(line) {
        Err(CommandFault::Size)
    } else {
        Err(CommandFault::Unknown)
    }
}
