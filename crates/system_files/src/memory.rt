//! Files in memory.
ghost use Rattle.std.specs.Prelude.{◌≡◌, ◌≤◌, ℕ, List, true, OnOk, OnErr, find, option_map, position, vec_len, length, if◌then◌else◌};
ghost use Rattle.std.specs.Option.{option_copied};
ghost use Rattle.system_files.specs.Contents.{AreKept, IsPut, PlacesStay};
ghost use Rattle.system_files.specs.MemoryFiles.{file_at, has_place_at, is_at};

use crate::files::Files;
use device::{Failed, Memory, Sink, Source};
use std::alloc::Global;

/// A file, or a place for one that is not yet made.
#[derive(Drop)]
struct MemoryFile {
    path: String,
    bytes: Option<Vec<u8>>,
}

/// Files in memory. A file that is missing can not be read; none can be written once they are locked.
#[derive(Drop)]
pub struct MemoryFiles {
    alloc: Global,
    files: Vec<MemoryFile>,
    is_locked: bool,
    failed_writes: u64,
}

/// The number of the first place of the path.
fn place_of(files: &[MemoryFile], path: &str) -> Option<usize>
    ensures { result ≡ position (is_at path.now) files.now }
{
    files.iter().position(|file| file.path.as_str() == path)
}

/// The first place of the path.
fn file_of<'a>(files: &'a [MemoryFile], path: &str) -> Option<&'a MemoryFile>
    ensures { option_copied result ≡ find (is_at path.now) files.now }
{
    files.iter().find(|file| file.path.as_str() == path)
}

/// The bytes of the file, if it is made.
fn bytes_of(file: &MemoryFile) -> Option<&[u8]>
    ensures { option_map (λ bytes. bytes.now) result ≡ option_map (λ bytes. bytes.items) file.now.bytes }
{
    match &file.bytes {
        Some(bytes) => Some(bytes.as_slice()),
        None => None,
    }
}

impl MemoryFiles {
    ghost use Rattle.std.specs.Prelude.{◌≡◌, None, OnOk, OnErr, option_map, true, false};
    ghost use Rattle.system_files.specs.Contents.{IsPut};

    /// No files, which are not locked.
    pub fn new(alloc: Global) -> Self
        ensures empty { (path : List ℕ) → ⟦<MemoryFiles as Files>⟧.content result path ≡ None }
        ensures unlocked { ⟦<MemoryFiles as Files>⟧.is_locked result ≡ false }
        ensures unfailed { ⟦<MemoryFiles as Files>⟧.failed_writes result ≡ 0 }
    {
        MemoryFiles {
            alloc,
            files: Vec::new(alloc),
            is_locked: false,
            failed_writes: 0,
        }
    }

    /// From now on no file can be written: each sink that is made takes nothing.
    pub fn lock(&mut self)
        ensures locked { ⟦<MemoryFiles as Files>⟧.is_locked self.new ≡ true }
        ensures kept { AreKept (⟦<MemoryFiles as Files>⟧.content self.old) (⟦<MemoryFiles as Files>⟧.content self.new) }
    {
        self.is_locked = true;
    }

    /// The bytes of the file at the path, if there is one.
    pub fn bytes(&self, path: &str) -> Option<&[u8]>
        ensures { option_map (λ bytes. bytes.now) result ≡ ⟦<MemoryFiles as Files>⟧.content self.now path.now }
    {
        match file_of(&self.files, path) {
            Some(file) => bytes_of(file),
            None => None,
        }
    }

    /// Makes sure that there is a place of the path.
    fn add_place(&mut self, path: &str) -> Result<(), Memory>
        ensures place { OnOk result (has_place_at self.new.files.items path.now ≡ true) }
        ensures places { PlacesStay (has_place_at self.old.files.items) (has_place_at self.new.files.items) }
        ensures kept { AreKept (file_at self.old.files.items) (file_at self.new.files.items) }
        ensures locked { self.new.is_locked ≡ self.old.is_locked }
        ensures unfailed { self.new.failed_writes ≡ self.old.failed_writes }
    {
        if place_of(&self.files, path).is_some() {
            return Ok(());
        }
        let path = String::from_str(self.alloc, path)?;
        self.files.push(MemoryFile { path, bytes: None })?;
        Ok(())
    }

    /// Puts the bytes at the place of the path.
    fn store(&mut self, path: &str, bytes: Vec<u8>)
        requires { has_place_at self.old.files.items path.now ≡ true }
        ensures put { IsPut (file_at self.old.files.items) (file_at self.new.files.items) path.now bytes.items }
        ensures places { PlacesStay (has_place_at self.old.files.items) (has_place_at self.new.files.items) }
        ensures locked { self.new.is_locked ≡ self.old.is_locked }
        ensures unfailed { self.new.failed_writes ≡ self.old.failed_writes }
    {
        if let Some(place) = place_of(&self.files, path) {
            let file = &mut self.files[place];
            file.bytes = Some(bytes);
        }
    }

    /// Puts a file with these bytes at the path, also where the files are locked.
    pub fn put(&mut self, path: &str, bytes: &[u8]) -> Result<(), Memory>
        ensures put { OnOk result (IsPut (⟦<MemoryFiles as Files>⟧.content self.old) (⟦<MemoryFiles as Files>⟧.content self.new) path.now bytes.now) }
        ensures kept { OnErr result (AreKept (⟦<MemoryFiles as Files>⟧.content self.old) (⟦<MemoryFiles as Files>⟧.content self.new)) }
        ensures locked { ⟦<MemoryFiles as Files>⟧.is_locked self.new ≡ ⟦<MemoryFiles as Files>⟧.is_locked self.old }
    {
        let bytes = bytes.to_vec(self.alloc)?;
        self.add_place(path)?;
        self.store(path, bytes);
        Ok(())
    }
}

impl Files for MemoryFiles {
    ghost use Rattle.std.specs.Prelude.{true, false, drop, refl};
    ghost use Rattle.system_files.specs.Contents.{shut_is_untaken, unfailed_or_stuck};
    ghost use Rattle.system_files.specs.MemoryFiles.{file_at, has_place_at};

    type In = MemorySource;

    type Out = MemorySink;

    ghost is_known = { λ _. true };

    ghost content = { λ f path. file_at f.files.items path };

    ghost has_place = { λ f path. has_place_at f.files.items path };

    ghost is_locked = { λ f. f.is_locked };

    ghost is_shut = { λ s. s.is_locked };

    ghost failed_writes = { λ f. f.failed_writes };

    ghost reads_fail = { false };

    ghost untaken = { λ sink shut. shut_is_untaken sink.is_locked sink.bytes.items sink.untaken shut };

    ghost all_known = { λ _ _. refl };

    ghost unfailing = { λ _ source. unfailed_or_stuck source.is_missing (drop source.at source.bytes.items) source.failures source.unfailed };

    fn reader(&self, path: &str) -> Result<MemorySource, Memory> {
        match self.bytes(path) {
            Some(bytes) => Ok(MemorySource::of(bytes.to_vec(self.alloc)?)),
            None => Ok(MemorySource::missing(self.alloc)),
        }
    }

    fn give_back(&self, _path: &str, _bytes: Vec<u8>) -> Result<(), Memory> {
        Ok(())
    }

    fn writer(&mut self, path: &str) -> Result<MemorySink, Memory> {
        let owned = String::from_str(self.alloc, path)?;
        self.add_place(path)?;
        Ok(MemorySink {
            path: owned,
            bytes: Vec::new(self.alloc),
            is_locked: self.is_locked,
            failures: 0,
        })
    }

    fn close(&mut self, sink: MemorySink) {
        self.failed_writes = self.failed_writes.saturating_add(sink.failures);
        if sink.bytes.is_empty() {
            return;
        }
        let MemorySink { path, bytes, .. } = sink;
        self.store(path.as_str(), bytes);
    }
}

/// A source of a file in memory, which has bytes of its own and never fails; or of one that is missing, of which each read fails.
#[derive(Drop)]
pub struct MemorySource {
    bytes: Vec<u8>,
    at: usize,
    is_missing: bool,
    failures: u64,
    ghost within: { at ≤ vec_len bytes },
    ghost unfailed: { (if is_missing then 0 else failures) ≡ 0 },
}

impl MemorySource {
    ghost use Rattle.std.specs.Prelude.{◌≡◌, false, true};

    /// A source of a file that holds these bytes.
    fn of(bytes: Vec<u8>) -> Self
        ensures bytes { result.bytes ≡ bytes }
        ensures start { result.at ≡ 0 }
        ensures there { result.is_missing ≡ false }
        ensures failures { result.failures ≡ 0 }
    {
        MemorySource {
            bytes,
            at: 0,
            is_missing: false,
            failures: 0,
        }
    }

    /// A source of a file that is missing.
    fn missing(alloc: Global) -> Self
        ensures missing { result.is_missing ≡ true }
        ensures failures { result.failures ≡ 0 }
    {
        MemorySource {
            bytes: Vec::new(alloc),
            at: 0,
            is_missing: true,
            failures: 0,
        }
    }
}

impl Source for MemorySource {
    ghost use Rattle.std.specs.Prelude.{Some, drop};
    ghost use Rattle.system_files.specs.Contents.{left_of, most_of};

    ghost left = { λ s. Some (left_of s.is_missing (drop s.at s.bytes.items)) };

    ghost failures = { λ s. s.failures };

    ghost most = { λ s. most_of s.is_missing (drop s.at s.bytes.items) };

    fn read(&mut self, buffer: &mut [u8]) -> Result<usize, Failed> {
        if self.is_missing {
            self.failures = self.failures.saturating_add(1);
            return Err(Failed);
        }
        let rest = &self.bytes[self.at..];
        let n = buffer.len().min(rest.len());
        buffer[..n].copy_from_slice(&rest[..n]);
        self.at += n;
        Ok(n)
    }
}

/// A sink of a file in memory, which fails where the files were locked as it was made, or memory was refused.
#[derive(Drop)]
pub struct MemorySink {
    path: String,
    bytes: Vec<u8>,
    is_locked: bool,
    failures: u64,
    ghost untaken: { (if is_locked then length bytes.items else 0) ≡ 0 },
}

impl Sink for MemorySink {
    ghost use Rattle.std.specs.Prelude.{Some, string_bytes};

    ghost taken = { λ s. Some s.bytes.items };

    ghost failures = { λ s. s.failures };

    ghost path = { λ s. string_bytes s.path };

    fn write(&mut self, piece: &[u8]) -> Result<usize, Failed> {
        if !self.is_locked && self.bytes.extend_from_slice(piece).is_ok() {
            return Ok(piece.len());
        }
        self.failures = self.failures.saturating_add(1);
        Err(Failed)
    }
}
