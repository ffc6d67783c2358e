//! A source over any reader of the library, and a sink over any writer.
ghost use Rattle.std.specs.Prelude.{◌≡◌, ◌-◌, ◌^◌};

use crate::device::{Failed, Sink, Source};
use std::io::{Read, Write};

const MOST: u64 = (1 << 63) - 1;

/// A source over a reader. It can give 2^63 - 1 bytes and then fails; an error of any kind is a failure and is not
/// tried again.
#[derive(Drop)]
pub struct ReaderSource<R: Read> {
    reader: R,
    room: u64,
    failures: u64,
}

impl<R: Read> ReaderSource<R> {
    /// A source of what the reader gives.
    pub fn new(reader: R) -> Self
        ensures left { ⟦<ReaderSource<R> as Source>⟧.left result ≡ R.remaining reader }
        ensures most { ⟦<ReaderSource<R> as Source>⟧.most result ≡ 2 ^ 63 - 1 }
        ensures failures { ⟦<ReaderSource<R> as Source>⟧.failures result ≡ 0 }
    {
        ReaderSource {
            reader,
            room: MOST,
            failures: 0,
        }
    }
}

impl<R: Read> Source for ReaderSource<R> {
    ghost left = { λ s. R.remaining s.reader };

    ghost failures = { λ s. s.failures };

    ghost most = { λ s. s.room };

    fn read(&mut self, buffer: &mut [u8]) -> Result<usize, Failed> {
        let n = (buffer.len() as u64).min(self.room) as usize;
        if n > 0 || buffer.is_empty() {
            if let Ok(n) = self.reader.read(&mut buffer[..n]) {
                self.room -= n as u64;
                return Ok(n);
            }
        }
        self.failures = self.failures.saturating_add(1);
        Err(Failed)
    }
}

/// A sink over a writer. An error of any kind is a failure and is not tried again, and so is a write that takes nothing
/// of a piece that is not empty.
#[derive(Drop)]
pub struct WriterSink<W: Write> {
    writer: W,
    failures: u64,
}

impl<W: Write> WriterSink<W> {
    /// A sink that hands the bytes on to the writer.
    pub fn new(writer: W) -> Self
        ensures taken { ⟦<WriterSink<W> as Sink>⟧.taken result ≡ W.contents writer }
        ensures failures { ⟦<WriterSink<W> as Sink>⟧.failures result ≡ 0 }
    {
        WriterSink {
            writer,
            failures: 0,
        }
    }
}

impl<W: Write> Sink for WriterSink<W> {
    ghost use Rattle.std.specs.Prelude.{[]};

    ghost taken = { λ s. W.contents s.writer };

    ghost failures = { λ s. s.failures };

    ghost path = { λ _. [] };

    fn write(&mut self, piece: &[u8]) -> Result<usize, Failed> {
        if let Ok(n) = self.writer.write(piece) {
            if n > 0 || piece.is_empty() {
                return Ok(n);
            }
        }
        self.failures = self.failures.saturating_add(1);
        Err(Failed)
    }
}
