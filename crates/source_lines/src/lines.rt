//! The lines of a source.
ghost use Rattle.std.specs.List.{Contains};
ghost use Rattle.std.specs.Prelude.{◌≡◌, ◌≤◌, [], IfErr, IfNone, IfOk, IfSome, OnOk, length, slice_range};
ghost use Rattle.source_lines.specs.Lines.{Advances, IsNoLine};
ghost use Rattle.source_lines.specs.Places.{IsLineTo, at_hand};
ghost use Rattle.source_lines.specs.Sources.{source_state};

use crate::fault::StreamFault;
use crate::room::{make_room, read_behind};
use device::Source;
use memchr::memchr;
use std::alloc::Global;
use std::marker::Model;

/// The lines of a source, one at hand. What was read behind the line at hand is kept for the lines that follow; a line has no
/// bound but memory.
#[derive(Drop)]
pub struct SourceLines {
    // the bytes that were read stand before `filled`; the line at hand from `start` to `end`, what was read behind it from `end`
    buffer: Vec<u8>,
    start: usize,
    end: usize,
    filled: usize,
}

impl Model for SourceLines {
    ghost use Rattle.source_lines.specs.Lines.{AtHand};

    ghost Value = { AtHand };

    ghost use Rattle.source_lines.specs.Fields.{hand_of, IsInOrder};

    ghost view = { hand_of };

    ghost invariant = { IsInOrder };
}

/// The end of the line that ends first, of the bytes from one place to another.
fn line_end(buffer: &[u8], from: usize, filled: usize) -> Option<usize>
    requires ordered { from ≤ filled }
    requires within { filled ≤ length buffer.now }
    ensures some { IfSome result (λ end. IsLineTo buffer.now from end filled) }
    ensures none { IfNone result (Contains (slice_range buffer.now from filled) 10 → ⊥) }
{
    let place = memchr(b'\n', &buffer[from..filled])?;
    Some(from + place + 1)
}

/// Reads on behind the bytes from `start` to `filled`, which have no line feed, and gives where the line ends that they begin: behind
/// its line feed, or at the end of the source. What was read before is not searched again.
fn read_line<S: Source>(
    source: &mut S,
    buffer: &mut Vec<u8>,
    start: &mut usize,
    filled: &mut usize,
) -> Result<usize, StreamFault>
    requires ordered { start.old ≤ filled.old }
    requires within { filled.old ≤ length buffer.old.items }
    requires none { Contains (slice_range buffer.old.items start.old filled.old) 10 → ⊥ }
    ensures ordered { start.new ≤ filled.new }
    ensures within { filled.new ≤ length buffer.new.items }
    ensures line { IfOk result (λ end. (start.new ≤ end) × (end ≤ filled.new)) }
    ensures ok { IfOk result (λ end. Advances (at_hand buffer.old.items start.old start.old filled.old) (at_hand buffer.new.items start.new end filled.new) (source_state S.Source source.old) (source_state S.Source source.new)) }
    ensures fault { IfErr result (λ fault. IsNoLine fault (at_hand buffer.old.items start.old start.old filled.old) (source_state S.Source source.old) (source_state S.Source source.new)) }
    ensures count { S.failures source.old ≤ S.failures source.new }
{
    loop {
        make_room(buffer, start, filled)?;
        let read = read_behind(source, buffer, *filled)?;
        let searched = *filled;
        *filled += read;
        if read == 0 {
            return Ok(*filled);
        }
        if let Some(end) = line_end(buffer, searched, *filled) {
            return Ok(end);
        }
    }
}

impl SourceLines {
    /// No line is at hand, and nothing was read.
    pub fn new(alloc: Global) -> SourceLines
        ensures line { result.line ≡ [] }
        ensures ahead { result.ahead ≡ [] }
    {
        SourceLines {
            buffer: Vec::new(alloc),
            start: 0,
            end: 0,
            filled: 0,
        }
    }

    /// The line at hand with its line feed; without one, what stands behind the last line feed of a source that is at its end.
    pub fn line(&self) -> &[u8]
        ensures { result.now ≡ self.now.line }
    {
        &self.buffer[self.start..self.end]
    }

    /// Lets the line at hand go and brings the next one, reading on only where no whole line was read yet.
    pub fn advance<S: Source>(&mut self, source: &mut S) -> Result<(), StreamFault>
        ensures ok { OnOk result (Advances self.old self.new (source_state S.Source source.old) (source_state S.Source source.new)) }
        ensures fault { IfErr result (λ fault. IsNoLine fault self.old (source_state S.Source source.old) (source_state S.Source source.new)) }
        ensures count { S.failures source.old ≤ S.failures source.new }
    {
        self.start = self.end;
        if let Some(end) = line_end(&self.buffer, self.start, self.filled) {
            self.end = end;
            return Ok(());
        }
        match read_line(source, &mut self.buffer, &mut self.start, &mut self.filled) {
            Ok(end) => {
                self.end = end;
                Ok(())
            }
            Err(fault) => {
                self.end = self.start;
                Err(fault)
            }
        }
    }
}
