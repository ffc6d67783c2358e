//! Whole texts through devices that are slow or that fail.
ghost use Rattle.std.specs.Prelude.{◌≤◌, IfOk};

use device::{
    BufferSink, Failed, ReadFault, ReaderSource, Sink, SliceSource, Source, WriterSink, read_all,
    write_all,
};
use failing_devices::{FailingSink, FailingSource};
use std::alloc::Global;
use std::io;
use std::io::{ErrorKind, Read, Write};
use std::test::Fail;

/// A source of the text that gives at most one byte a read, and fails behind so many reads.
fn slow(text: &[u8], reads: usize) -> FailingSource<SliceSource<'_>> {
    FailingSource::new(SliceSource::new(text), reads, 1)
}

/// A sink that takes at most one byte a write, and fails behind so many writes.
fn slow_sink(alloc: Global, writes: usize) -> FailingSink<BufferSink> {
    FailingSink::new(BufferSink::new(alloc), writes, 1)
}

const TEXT: &[u8] = b"SubClassOf";

/// Whether the text is read from the source where it fits, and is told to be too large where it does not.
fn reads<S: Source>(alloc: Global, source: &mut S, limit: usize, fits: bool) -> bool {
    match read_all(alloc, source, limit) {
        Ok(bytes) => fits && bytes.as_slice() == TEXT,
        Err(fault) => !fits && fault == ReadFault::TooLarge,
    }
}

/// Limits, and whether the text fits into each.
const LIMITS: &[(usize, bool)] = &[(0, false), (9, false), (10, true), (11, true)];

#[test]
fn reads_up_to_the_limit(rt: HostRuntime) {
    for row in LIMITS {
        let (limit, fits) = *row;
        let whole = reads(rt.alloc(), &mut SliceSource::new(TEXT), limit, fits);
        let mut slow = slow(TEXT, usize::MAX);
        let slowly = reads(rt.alloc(), &mut slow, limit, fits);
        assert!(rt; whole, "at {limit}");
        assert!(rt; slowly, "slowly at {limit}");
    }
}

#[test]
fn reads_more_than_one_buffer(rt: HostRuntime) -> Result<(), Fail> {
    let text = [7u8; 10_000];
    let bytes = read_all(rt.alloc(), &mut SliceSource::new(&text), 10_000)?;
    assert!(rt; bytes.as_slice() == text.as_slice());
    Ok(())
}

/// What reading `abc` gives where the source fails after so many reads, and how often it has failed.
fn read_after(alloc: Global, calls: usize) -> (Result<Vec<u8>, ReadFault>, u64) {
    let mut source = slow(b"abc", calls);
    let read = read_all(alloc, &mut source, 3);
    (read, source.failures)
}

/// Whether the text is not read, and the source has failed once.
fn fails_after(alloc: Global, calls: usize) -> bool {
    let (read, failures) = read_after(alloc, calls);
    read.err() == Some(ReadFault::Failed) && failures == 1
}

#[test]
fn a_read_that_fails_is_told(rt: HostRuntime) -> Result<(), Fail> {
    for calls in 0..4 {
        assert!(rt; fails_after(rt.alloc(), calls), "after {calls} reads");
    }
    let (read, _failures) = read_after(rt.alloc(), 4);
    assert!(rt; read?.as_slice() == b"abc".as_slice());
    Ok(())
}

/// Writes a text, nothing, and another text.
fn write_parts<S: Sink>(sink: &mut S) -> Result<(), Failed> {
    write_all(sink, b"consistent")?;
    write_all(sink, b"")?;
    write_all(sink, b" classes")
}

#[test]
fn each_byte_is_written_once(rt: HostRuntime) {
    let mut sink = slow_sink(rt.alloc(), usize::MAX);
    let written = write_parts(&mut sink);
    let right = written.is_ok() && sink.inner.bytes() == b"consistent classes".as_slice();
    drop(sink);
    assert!(rt; right);
}

/// Whether a sink that fails after so many writes has taken that, and failed once.
fn leaves(alloc: Global, calls: usize, taken: &[u8]) -> bool {
    let mut sink = slow_sink(alloc, calls);
    write_all(&mut sink, b"abc") == Err(Failed) && sink.inner.bytes() == taken && sink.failures == 1
}

/// After how many writes a sink fails, and what it has taken then.
const TAKEN: &[(usize, &[u8])] = &[(0, b""), (1, b"a"), (2, b"ab")];

#[test]
fn a_write_that_fails_leaves_a_prefix(rt: HostRuntime) {
    for row in TAKEN {
        let (calls, taken) = *row;
        assert!(rt; leaves(rt.alloc(), calls, taken), "after {calls} writes");
    }
}

/// Whether the source gives `abc`, which then the sink takes.
fn hands_on<S: Source, T: Sink>(alloc: Global, source: &mut S, sink: &mut T) -> bool {
    match read_all(alloc, source, 3) {
        Ok(bytes) => bytes.as_slice() == b"abc".as_slice() && write_all(sink, &bytes).is_ok(),
        Err(_) => false,
    }
}

#[test]
fn adapters_hand_bytes_on(rt: HostRuntime) {
    let mut source = ReaderSource::new(b"abc".as_slice());
    let mut sink = WriterSink::new(Vec::new(rt.alloc()));
    let handed_on = hands_on(rt.alloc(), &mut source, &mut sink);
    drop(sink);
    assert!(rt; handed_on);
    let mut full = [0; 2];
    let mut short = WriterSink::new(full.as_mut_slice());
    assert!(rt; write_all(&mut short, b"abc") == Err(Failed));
}

#[test]
fn a_buffer_hands_its_bytes_back(rt: HostRuntime) -> Result<(), Fail> {
    let mut sink = BufferSink::new(rt.alloc());
    write_all(&mut sink, b"abc")?;
    assert!(rt; sink.into_bytes().as_slice() == b"abc".as_slice());
    Ok(())
}

/// A reader and a writer that fails at its first call, and gives or takes one byte at each later one. It counts its calls.
#[derive(Drop)]
struct FailsOnce<'a> {
    calls: &'a mut usize,
    kind: ErrorKind,
}

impl<'a> FailsOnce<'a> {
    /// Counts the call, and answers for it.
    fn called(&mut self, room: usize) -> io::Result<usize>
        ensures { IfOk result (λ n. n ≤ room) }
    {
        *self.calls = self.calls.saturating_add(1);
        if *self.calls == 1 {
            return Err(io::Error::from(self.kind));
        }
        Ok(room.min(1))
    }
}

impl<'a> Read for FailsOnce<'a> {
    fn read(&mut self, buffer: &mut [u8]) -> io::Result<usize> {
        self.called(buffer.len())
    }
}

impl<'a> Write for FailsOnce<'a> {
    fn write(&mut self, piece: &[u8]) -> io::Result<usize> {
        self.called(piece.len())
    }

    fn flush(&mut self) -> io::Result<()> {
        Ok(())
    }
}

/// Errors that some readers and writers try again after, and others.
const KINDS: &[ErrorKind] = &[
    ErrorKind::Interrupted,
    ErrorKind::WouldBlock,
    ErrorKind::TimedOut,
    ErrorKind::Other,
];

/// Whether reading fails at the first call of a reader that would answer the next, and how often that was called.
fn reads_once(alloc: Global, kind: ErrorKind, calls: &mut usize) -> bool {
    let mut source = ReaderSource::new(FailsOnce { calls, kind });
    read_all(alloc, &mut source, 100).err() == Some(ReadFault::Failed)
}

#[test]
fn a_failed_read_is_not_tried_again(rt: HostRuntime) {
    for kind in KINDS {
        let mut calls = 0;
        let failed = reads_once(rt.alloc(), *kind, &mut calls);
        assert!(rt; failed && calls == 1, "{kind:?}: {calls} calls");
    }
}

/// Whether writing fails at the first call of a writer that would answer the next.
fn writes_once(kind: ErrorKind, calls: &mut usize) -> bool {
    let mut sink = WriterSink::new(FailsOnce { calls, kind });
    write_all(&mut sink, b"abc") == Err(Failed)
}

#[test]
fn a_failed_write_is_not_tried_again(rt: HostRuntime) {
    for kind in KINDS {
        let mut calls = 0;
        let failed = writes_once(*kind, &mut calls);
        assert!(rt; failed && calls == 1, "{kind:?}: {calls} calls");
    }
}

/// A reader and a writer that failed answer the next call, which is another.
#[test]
fn a_later_call_is_answered(rt: HostRuntime) {
    let mut calls = 0;
    let mut source = ReaderSource::new(FailsOnce {
        calls: &mut calls,
        kind: ErrorKind::Interrupted,
    });
    let mut buffer = [0; 4];
    let first = source.read(&mut buffer);
    let second = source.read(&mut buffer);
    drop(source);
    assert!(rt; first == Err(Failed) && second == Ok(1) && calls == 2);
}
