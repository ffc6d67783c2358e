//! A source that fails from some read on.
ghost use Rattle.std.specs.Prelude.{◌≡◌};

use device::{Failed, Source};

/// A source over another, which gives at most so many bytes a read and fails once it has answered so many reads.
#[derive(Drop)]
pub struct FailingSource<S: Source + Drop> {
    /// What gives the bytes.
    pub inner: S,
    /// How many reads it still answers.
    pub reads: usize,
    /// How many bytes it gives a read at most, but at least one.
    pub piece: usize,
    /// How many calls have failed, counted to 2^64 - 1.
    pub failures: u64,
}

impl<S: Source + Drop> FailingSource<S> {
    /// A source that gives at most `piece` bytes a read, at least one, and fails behind so many reads.
    pub fn new(inner: S, reads: usize, piece: usize) -> Self
        ensures inner { result.inner ≡ inner }
        ensures reads { result.reads ≡ reads }
        ensures piece { result.piece ≡ piece }
        ensures failures { result.failures ≡ 0 }
    {
        FailingSource {
            inner,
            reads,
            piece,
            failures: 0,
        }
    }
}

impl<S: Source + Drop> Source for FailingSource<S> {
    ghost left = { λ s. S.left s.inner };

    ghost failures = { λ s. s.failures };

    ghost most = { λ s. S.most s.inner };

    fn read(&mut self, buffer: &mut [u8]) -> Result<usize, Failed> {
        let n = buffer.len().min(self.piece.max(1));
        if self.reads > 0 {
            if let Ok(n) = self.inner.read(&mut buffer[..n]) {
                self.reads -= 1;
                return Ok(n);
            }
        }
        self.failures = self.failures.saturating_add(1);
        Err(Failed)
    }
}
