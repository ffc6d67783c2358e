//! Files in memory that answer some calls, little at a time, and then fail.

use axioms::Memory;
use device::{Failed, Sink, Source};
use system_files::{Files, MemoryFiles, MemorySink, MemorySource};

/// A sink of a file in memory that takes one byte a write, and fails after some writes.
#[derive(Drop)]
pub(super) struct FailingFileSink {
    inner: MemorySink,
    writes: usize,
    failures: u64,
}

impl Sink for FailingFileSink {
    ghost taken = { λ s. ⟦<MemorySink as Sink>⟧.taken s.inner };

    ghost failures = { λ s. s.failures };

    ghost path = { λ s. ⟦<MemorySink as Sink>⟧.path s.inner };

    fn write(&mut self, piece: &[u8]) -> Result<usize, Failed> {
        let n = piece.len().min(1);
        if self.writes > 0 {
            if let Ok(n) = self.inner.write(&piece[..n]) {
                self.writes -= 1;
                return Ok(n);
            }
        }
        self.failures = self.failures.saturating_add(1);
        Err(Failed)
    }
}

/// A source of a file in memory that gives at most seven bytes a read, and fails after some reads.
#[derive(Drop)]
pub(super) struct FailingFileSource {
    inner: MemorySource,
    reads: usize,
    failures: u64,
}

impl Source for FailingFileSource {
    ghost left = { λ s. ⟦<MemorySource as Source>⟧.left s.inner };

    ghost failures = { λ s. s.failures };

    ghost most = { λ s. ⟦<MemorySource as Source>⟧.most s.inner };

    fn read(&mut self, buffer: &mut [u8]) -> Result<usize, Failed> {
        let n = buffer.len().min(7);
        if self.reads > 0 {
            if let Ok(n) = self.inner.read(&mut buffer[..n]) {
                self.reads -= 1;
                return Ok(n);
            }
        }
        self.failures = self.failures.saturating_add(1);
        Err(Failed)
    }
}

/// Files in memory, of which that at the path fails after some calls.
#[derive(Drop)]
pub(super) struct FailingFiles {
    pub(super) inner: MemoryFiles,
    pub(super) path: &'static str,
    pub(super) calls: usize,
    pub(super) failed_writes: u64,
}

impl FailingFiles {
    /// How many calls the file at the path answers.
    fn calls_of(&self, path: &str) -> usize {
        if path == self.path {
            self.calls
        } else {
            usize::MAX
        }
    }
}

impl Files for FailingFiles {
    ghost use Rattle.std.specs.Prelude.{false, true};
    ghost use Rattle.system_files.specs.Contents.{not_false, not_true};

    type In = FailingFileSource;

    type Out = FailingFileSink;

    ghost is_known = { λ f. ⟦<MemoryFiles as Files>⟧.is_known f.inner };

    ghost content = { λ f. ⟦<MemoryFiles as Files>⟧.content f.inner };

    ghost has_place = { λ f. ⟦<MemoryFiles as Files>⟧.has_place f.inner };

    ghost is_locked = { λ _. false };

    ghost is_shut = { λ _. false };

    ghost failed_writes = { λ f. f.failed_writes };

    ghost reads_fail = { true };

    ghost untaken = { λ _ shut. not_true shut };

    ghost all_known = { λ bad _. not_false bad };

    ghost unfailing = { λ bad _. not_false bad };

    fn reader(&self, path: &str) -> Result<Self::In, Memory> {
        let reads = self.calls_of(path);
        Ok(FailingFileSource {
            inner: self.inner.reader(path)?,
            reads,
            failures: 0,
        })
    }

    fn give_back(&self, path: &str, bytes: Vec<u8>) -> Result<(), Memory> {
        self.inner.give_back(path, bytes)
    }

    fn writer(&mut self, path: &str) -> Result<Self::Out, Memory> {
        let writes = self.calls_of(path);
        Ok(FailingFileSink {
            inner: self.inner.writer(path)?,
            writes,
            failures: 0,
        })
    }

    fn close(&mut self, sink: Self::Out) {
        let FailingFileSink {
            inner,
            failures,
            ..
        } = sink;
        self.failed_writes = self.failed_writes.saturating_add(failures);
        self.inner.close(inner);
    }
}
