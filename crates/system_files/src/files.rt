//! The trait of what makes sources and sinks for paths.
ghost use Rattle.std.specs.Prelude.{◌≡◌, ◌<◌, ◌⊎◌, ℕ, List, Bool, true, false, Option, IfOk, OnOk};
ghost use Rattle.std.specs.Io.KnownBytes.{Keeps};
ghost use Rattle.device.specs.Device.{HasFailed};
ghost use Rattle.system_files.specs.Contents.{AreKept, GivesAll, HasTakenSome, IsClosed, IsMissing, IsStuck, PlacesStay, nothing_taken};

use device::{Memory, Sink, Source};

/// Makes sources and sinks for the files at paths. A file is opened at its first read, and made at its first write; it
/// holds what was written once its sink is closed.
pub trait Files {
    /// What reads a file.
    type In: Source + Drop;

    /// What writes a file.
    type Out: Sink + Drop;

    /// Whether it is known what the files hold, as it is in memory.
    ghost is_known: { Self → Bool };

    /// The bytes of the file at a path: `None` where there is none, or where they are not known.
    ghost content: { Self → List ℕ → Option (List ℕ) };

    /// Whether there is a place for a file at the path. A sink needs one where it is closed.
    ghost has_place: { Self → List ℕ → Bool };

    /// Whether it is known that no file can be written.
    ghost is_locked: { Self → Bool };

    /// Whether a sink takes nothing, as one that was made while the files were locked.
    ghost is_shut: { Self.Out → Bool };

    /// How many writes of the sinks that were closed have failed, counted to 2^64 - 1.
    ghost failed_writes: { Self → ℕ };

    /// Whether a read can fail of a file that is there.
    ghost reads_fail: { Bool };

    /// A source of the bytes of the file at the path. Where there is no file, each read of it fails.
    fn reader(&self, path: &str) -> Result<Self::In, Memory>
        ensures left { IfOk result (λ source. Keeps (content self.now path.now) (Self.In.left source)) }
        ensures most { IfOk result (λ source. GivesAll (content self.now path.now) (Self.In.most source)) }
        ensures missing { IfOk result (λ source. IsMissing (is_known self.now) (content self.now path.now) → IsStuck (Self.In.left source) (Self.In.most source)) }
        ensures failures { IfOk result (λ source. Self.In.failures source ≡ 0) };

    /// Gives back all the bytes that were read of the file at the path: the next source of that file gives them, where the file itself, as
    /// a pipe, would not give them again. What the files hold stays the same.
    fn give_back(&self, path: &str, bytes: Vec<u8>) -> Result<(), Memory>;

    /// A sink that has taken nothing and makes the file at the path anew, which fails where that is not allowed. The files
    /// hold what they did.
    fn writer(&mut self, path: &str) -> Result<Self::Out, Memory>
        ensures taken { IfOk result (λ sink. Self.Out.taken sink ≡ nothing_taken (is_known self.old)) }
        ensures failures { IfOk result (λ sink. Self.Out.failures sink ≡ 0) }
        ensures path { IfOk result (λ sink. Self.Out.path sink ≡ path.now) }
        ensures shut { IfOk result (λ sink. is_shut sink ≡ is_locked self.old) }
        ensures place { OnOk result (has_place self.new path.now ≡ true) }
        ensures places { PlacesStay (has_place self.old) (has_place self.new) }
        ensures kept { AreKept (content self.old) (content self.new) }
        ensures known { is_known self.new ≡ is_known self.old }
        ensures locked { is_locked self.new ≡ is_locked self.old }
        ensures unfailed { failed_writes self.new ≡ failed_writes self.old };

    /// Ends the writing of a file: it holds what its sink has taken. The writes that failed are counted.
    fn close(&mut self, sink: Self::Out)
        requires { has_place self.old (Self.Out.path sink) ≡ true }
        ensures closed { IsClosed (content self.old) (content self.new) (Self.Out.path sink) (Self.Out.taken sink) }
        ensures places { PlacesStay (has_place self.old) (has_place self.new) }
        ensures known { is_known self.new ≡ is_known self.old }
        ensures locked { is_locked self.new ≡ is_locked self.old }
        ensures unfailed { Self.Out.failures sink ≡ 0 → failed_writes self.new ≡ failed_writes self.old }
        ensures failed { 0 < Self.Out.failures sink → HasFailed (failed_writes self.old) (failed_writes self.new) };

    /// A sink that takes nothing has taken nothing.
    ghost untaken: { (sink : Self.Out) → is_shut sink ≡ true → ¬ HasTakenSome (Self.Out.taken sink) };

    /// Where no read fails of a file that is there, it is known what the files hold.
    ghost all_known: { reads_fail ≡ false → (files : Self) → is_known files ≡ true };

    /// And no source has failed but one that can give nothing, as that of a file that is missing.
    ghost unfailing: { reads_fail ≡ false → (source : Self.In) → (Self.In.failures source ≡ 0) ⊎ IsStuck (Self.In.left source) (Self.In.most source) };
}
