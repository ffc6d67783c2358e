//! The files of the system.
ghost use Rattle.std.specs.Prelude.{◌≡◌, ◌≤◌, ◌↔◌, IfOk, IsSome, length, string_bytes};
ghost use Rattle.system_files.specs.declared.system.TheConstants.{INPUT};

use crate::files::Files;
use device::{Failed, Memory, ReaderSource, Sink};
use std::cell::Cell;
use std::io::{Cursor, Read, Stdin, Write};
use std::{fs, io, rt};

/// The path of standard input.
const INPUT: &str = "/dev/stdin";

/// Bytes that were read of the file at a path, and are to be read again.
#[derive(Drop)]
struct GivenBack {
    path: String,
    bytes: Vec<u8>,
}

/// The files of the system, by the runtime. What is read at the path `/dev/stdin` is the standard input that the process has, be it a
/// file, a pipe, a terminal or a socket: it is not opened. What was given back is kept for the next source of its file alone, the last
/// that was.
#[derive(Drop)]
pub struct SystemFiles<'r, R: rt::Files + AllocGlobal> {
    runtime: &'r R,
    input: Stdin,
    given_back: Cell<Option<GivenBack>>,
    failed_writes: u64,
}

impl<'r, R: rt::Files + AllocGlobal> SystemFiles<'r, R> {
    /// The files that this runtime reaches, and this standard input. What lies in them is the system's, and nothing is promised of it.
    pub fn new(runtime: &'r R, input: Stdin) -> Self
        ensures runtime { result.runtime.now ≡ runtime.now }
        ensures unfailed { result.failed_writes ≡ 0 }
    {
        SystemFiles {
            runtime,
            input,
            given_back: Cell::new(None),
            failed_writes: 0,
        }
    }

    /// Standard input, where that is the path's.
    fn input_at(&self, path: &str) -> Option<Stdin>
        ensures { IsSome result ↔ (path.now ≡ INPUT.now) }
    {
        if path == INPUT {
            Some(self.input)
        } else {
            None
        }
    }

    /// What was given back of the file at the path, which is kept no longer.
    fn given_back_at(&self, path: &str) -> Option<Cursor<Vec<u8>>> {
        let given = self.given_back.replace(None)?;
        if given.path.as_str() == path {
            return Some(Cursor::new(given.bytes));
        }
        self.given_back.set(Some(given));
        None
    }

    fn owned(&self, path: &str) -> Result<String, Memory>
        ensures { IfOk result (λ text. string_bytes text ≡ path.now) }
    {
        Ok(String::from_str(self.runtime.alloc(), path)?)
    }
}

impl<'r, R: rt::Files + AllocGlobal> Files for SystemFiles<'r, R> {
    ghost use Rattle.std.specs.Prelude.{None, true, false};
    ghost use Rattle.system_files.specs.Contents.{not_false, not_true};

    type In = ReaderSource<FileReader<'r, R>>;

    type Out = FileSink<'r, R>;

    ghost is_known = { λ _. false };

    ghost content = { λ _ _. None };

    ghost has_place = { λ _ _. true };

    ghost is_locked = { λ _. false };

    ghost is_shut = { λ _. false };

    ghost failed_writes = { λ f. f.failed_writes };

    ghost reads_fail = { true };

    ghost untaken = { λ _ shut. not_true shut };

    ghost all_known = { λ bad _. not_false bad };

    ghost unfailing = { λ bad _. not_false bad };

    fn reader(&self, path: &str) -> Result<Self::In, Memory> {
        let file = FileReader {
            runtime: self.runtime,
            path: self.owned(path)?,
            given_back: self.given_back_at(path),
            input: self.input_at(path),
            file: None,
        };
        Ok(ReaderSource::new(file))
    }

    fn give_back(&self, path: &str, bytes: Vec<u8>) -> Result<(), Memory> {
        let path = self.owned(path)?;
        self.given_back.set(Some(GivenBack { path, bytes }));
        Ok(())
    }

    fn writer(&mut self, path: &str) -> Result<Self::Out, Memory> {
        Ok(FileSink {
            runtime: self.runtime,
            path: self.owned(path)?,
            file: None,
            failures: 0,
        })
    }

    fn close(&mut self, sink: Self::Out) {
        self.failed_writes = self.failed_writes.saturating_add(sink.failures);
        drop(sink);
    }
}

/// A reader of the file at a path, which is opened at the first read; or of what was given back of it, or of standard input, which is
/// open.
#[derive(Drop)]
pub struct FileReader<'r, R: rt::Files> {
    runtime: &'r R,
    path: String,
    given_back: Option<Cursor<Vec<u8>>>,
    input: Option<Stdin>,
    file: Option<R::File>,
}

impl<'r, R: rt::Files> Read for FileReader<'r, R> {
    fn read(&mut self, buffer: &mut [u8]) -> io::Result<usize> {
        if let Some(bytes) = &mut self.given_back {
            return bytes.read(buffer);
        }
        if let Some(input) = &mut self.input {
            return input.read(buffer);
        }
        if let Some(file) = &mut self.file {
            return file.read(buffer);
        }
        let file = fs::open(self.runtime, self.path.as_str())?;
        self.file.insert(file).read(buffer)
    }
}

/// A sink of the file at a path, which is made anew at the first write. An error of any kind is a failure and is not
/// tried again, and so is a write that takes nothing of a piece that is not empty.
#[derive(Drop)]
pub struct FileSink<'r, R: rt::Files> {
    runtime: &'r R,
    path: String,
    file: Option<R::File>,
    failures: u64,
}

impl<'r, R: rt::Files> FileSink<'r, R> {
    /// Hands the piece on to the file, which is made at the first call.
    fn hand_on(&mut self, piece: &[u8]) -> io::Result<usize>
        ensures within { IfOk result (λ n. n ≤ length piece.now) }
        ensures path { self.new.path ≡ self.old.path }
        ensures failures { self.new.failures ≡ self.old.failures }
    {
        if let Some(file) = &mut self.file {
            return file.write(piece);
        }
        let file = fs::create(self.runtime, self.path.as_str())?;
        self.file.insert(file).write(piece)
    }
}

impl<'r, R: rt::Files> Sink for FileSink<'r, R> {
    ghost use Rattle.std.specs.Prelude.{None, string_bytes};

    ghost taken = { λ _. None };

    ghost failures = { λ s. s.failures };

    ghost path = { λ s. string_bytes s.path };

    fn write(&mut self, piece: &[u8]) -> Result<usize, Failed> {
        if let Ok(n) = self.hand_on(piece) {
            if n > 0 || piece.is_empty() {
                return Ok(n);
            }
        }
        self.failures = self.failures.saturating_add(1);
        Err(Failed)
    }
}
