//! A source and a sink in memory, whose bytes are known.

use crate::device::{Failed, Sink, Source};
use std::alloc::Global;
use std::marker::Model;

/// A source of the bytes of a slice, seen as the bytes that are left. It never fails.
#[derive(Drop)]
pub struct SliceSource<'a> {
    rest: &'a [u8],
}

impl<'a> Model for SliceSource<'a> {
    ghost use Rattle.std.specs.Prelude.{List, ℕ};

    ghost Value = { List ℕ };

    ghost view = { λ s. s.rest.now };
}

impl<'a> SliceSource<'a> {
    ghost use Rattle.std.specs.Prelude.{◌≡◌};

    /// A source that gives the bytes of the slice.
    pub fn new(bytes: &'a [u8]) -> Self
        ensures { result ≡ bytes.now }
    {
        SliceSource { rest: bytes }
    }
}

impl<'a> Source for SliceSource<'a> {
    ghost use Rattle.std.specs.Prelude.{Some, length};

    ghost left = { λ bytes. Some bytes };

    ghost failures = { λ _. 0 };

    ghost most = { λ bytes. length bytes };

    fn read(&mut self, buffer: &mut [u8]) -> Result<usize, Failed> {
        let n = buffer.len().min(self.rest.len());
        let (head, tail) = self.rest.split_at(n);
        buffer[..n].copy_from_slice(head);
        self.rest = tail;
        Ok(n)
    }
}

/// A sink that keeps the bytes that it takes in a buffer of its own. It fails only where memory was refused.
#[derive(Drop)]
pub struct BufferSink {
    bytes: Vec<u8>,
    failures: u64,
}

impl Model for BufferSink {
    ghost use Rattle.device.specs.Device.{Buffered};

    ghost Value = { Buffered };

    ghost view = { λ s. record { bytes = s.bytes.items; failures = s.failures } };
}

impl BufferSink {
    ghost use Rattle.std.specs.Prelude.{◌≡◌, []};

    /// A sink that has taken nothing.
    pub fn new(alloc: Global) -> Self
        ensures { result ≡ record { bytes = []; failures = 0 } }
    {
        BufferSink {
            bytes: Vec::new(alloc),
            failures: 0,
        }
    }

    /// The bytes that it has taken.
    pub fn bytes(&self) -> &[u8]
        ensures { result.now ≡ self.now.bytes }
    {
        &self.bytes
    }

    /// The bytes that it has taken.
    pub fn into_bytes(self) -> Vec<u8>
        ensures { result.items ≡ self.bytes }
    {
        self.bytes
    }
}

impl Sink for BufferSink {
    ghost use Rattle.std.specs.Prelude.{Some, []};

    ghost taken = { λ s. Some s.bytes };

    ghost failures = { λ s. s.failures };

    ghost path = { λ _. [] };

    fn write(&mut self, piece: &[u8]) -> Result<usize, Failed> {
        match self.bytes.extend_from_slice(piece) {
            Ok(()) => Ok(piece.len()),
            Err(_) => {
                self.failures = self.failures.saturating_add(1);
                Err(Failed)
            }
        }
    }
}
