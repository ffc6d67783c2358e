//! Sources that give a text in pieces.

use device::{Failed, SliceSource, Source};

/// A source that gives the bytes of a text, at most so many a read and at least one, and counts its reads. One of them may fail;
/// those behind it go on where it stopped.
#[derive(Drop)]
pub(crate) struct Pieces<'a> {
    inner: SliceSource<'a>,
    most: usize,
    /// Behind how many reads one fails.
    failing_behind: Option<usize>,
    reads: usize,
    failures: u64,
}

impl<'a> Pieces<'a> {
    /// No read of it fails.
    pub(crate) fn new(text: &'a [u8], most: usize) -> Pieces<'a> {
        Pieces {
            inner: SliceSource::new(text),
            most,
            failing_behind: None,
            reads: 0,
            failures: 0,
        }
    }

    /// Behind so many reads one fails.
    pub(crate) fn failing_behind(text: &'a [u8], most: usize, reads: usize) -> Pieces<'a> {
        Pieces {
            inner: SliceSource::new(text),
            most,
            failing_behind: Some(reads),
            reads: 0,
            failures: 0,
        }
    }

    /// How often it was read from.
    pub(crate) fn reads(&self) -> usize {
        self.reads
    }

    /// Whether the next read is to fail.
    fn is_failing(&self) -> bool {
        self.failing_behind == Some(self.reads)
    }
}

impl<'a> Source for Pieces<'a> {
    ghost use Rattle.std.specs.Prelude.{Some, length};

    ghost left = { λ s. Some s.inner };

    ghost failures = { λ s. s.failures };

    ghost most = { λ s. length s.inner };

    fn read(&mut self, buffer: &mut [u8]) -> Result<usize, Failed> {
        let fails = self.is_failing();
        self.reads = self.reads.saturating_add(1);
        let n = buffer.len().min(self.most.max(1));
        if !fails {
            if let Ok(n) = self.inner.read(&mut buffer[..n]) {
                return Ok(n);
            }
        }
        self.failures = self.failures.saturating_add(1);
        Err(Failed)
    }
}
