//! A sink that fails from some write on.
ghost use Rattle.std.specs.Prelude.{◌≡◌};

use device::{Failed, Sink};

/// A sink over another, which takes at most so many bytes a write and fails once it has answered so many writes.
#[derive(Drop)]
pub struct FailingSink<S: Sink + Drop> {
    /// What takes the bytes.
    pub inner: S,
    /// How many writes it still answers.
    pub writes: usize,
    /// How many bytes it takes a write at most, but at least one.
    pub piece: usize,
    /// How many calls have failed, counted to 2^64 - 1.
    pub failures: u64,
}

impl<S: Sink + Drop> FailingSink<S> {
    /// A sink that takes at most `piece` bytes a write, at least one, and fails behind so many writes.
    pub fn new(inner: S, writes: usize, piece: usize) -> Self
        ensures inner { result.inner ≡ inner }
        ensures writes { result.writes ≡ writes }
        ensures piece { result.piece ≡ piece }
        ensures failures { result.failures ≡ 0 }
    {
        FailingSink {
            inner,
            writes,
            piece,
            failures: 0,
        }
    }
}

impl<S: Sink + Drop> Sink for FailingSink<S> {
    ghost taken = { λ s. S.taken s.inner };

    ghost failures = { λ s. s.failures };

    ghost path = { λ s. S.path s.inner };

    fn write(&mut self, piece: &[u8]) -> Result<usize, Failed> {
        let n = piece.len().min(self.piece.max(1));
        if self.writes > 0 {
            if let Ok(n) = self.inner.write(&piece[..n]) {
                self.writes -= 1;
                return Ok(n);
            }
        }
        self.failures = self.failures.saturating_add(1);
        Err(Failed)
    }
}
