//! The traits of sources and sinks.
ghost use Rattle.std.specs.Prelude.{◌≡◌, ◌≤◌, List, ℕ, Option, IfOk, OnOk, OnErr};
ghost use Rattle.std.specs.Io.KnownBytes.{Keeps};
ghost use Rattle.device.specs.Device.{Reads, Writes, HasFailed};

use thiserror::Error;

/// A device failed to read or to write.
#[derive(Clone, Copy, Debug, PartialEq, Eq, Error)]
#[error("the device failed")]
pub struct Failed;

/// Where bytes come from, as a file or a slice in memory.
pub trait Source {
    /// The bytes that are left, where they are known: `Some` in memory, `None` for a file.
    ghost left: { Self → Option (List ℕ) };

    /// How many calls have failed, counted to 2^64 - 1.
    ghost failures: { Self → ℕ };

    /// The greatest number of bytes that it can still give.
    ghost most: { Self → ℕ };

    /// Reads some of the bytes into the front of the buffer and gives their number, which is 0 only at the end or
    /// where the buffer is empty. A call that fails reads nothing.
    fn read(&mut self, buffer: &mut [u8]) -> Result<usize, Failed>
        ensures ok { IfOk result (λ n. Reads (left self.old) (left self.new) (most self.old) (most self.new) buffer.new n) }
        ensures kept { OnErr result (Keeps (left self.old) (left self.new)) }
        ensures most { OnErr result (most self.new ≡ most self.old) }

        ensures unfailed { OnOk result (failures self.new ≡ failures self.old) }
        ensures failed { OnErr result (HasFailed (failures self.old) (failures self.new)) }
        ensures count { failures self.old ≤ failures self.new };
}

/// Where bytes go, as a file or a buffer in memory.
pub trait Sink {
    /// The bytes that were taken, where they are known: `Some` in memory, `None` for a file.
    ghost taken: { Self → Option (List ℕ) };

    /// How many calls have failed, counted to 2^64 - 1.
    ghost failures: { Self → ℕ };

    /// The path of the file that the bytes go to; empty where they go to none.
    ghost path: { Self → List ℕ };

    /// Takes some bytes at the front of the piece and gives their number, at least one of a piece that is not empty.
    /// A call that fails takes nothing.
    fn write(&mut self, piece: &[u8]) -> Result<usize, Failed>
        ensures ok { IfOk result (λ n. Writes (taken self.old) (taken self.new) piece.now n) }
        ensures kept { OnErr result (Keeps (taken self.old) (taken self.new)) }
        ensures path { path self.new ≡ path self.old }

        ensures unfailed { OnOk result (failures self.new ≡ failures self.old) }
        ensures failed { OnErr result (HasFailed (failures self.old) (failures self.new)) }
        ensures count { failures self.old ≤ failures self.new };
}
