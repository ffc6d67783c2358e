//! Files of the system and files in memory, read and written whole.

use device::{Failed, ReadFault, read_all, write_all};
use std::fs;
use std::process::Abort;
use std::test::Fail;
use system_files::{Files, MemoryFiles, SystemFiles};

const PATH: &str = "system_files_test.txt";

/// A path into a folder that is absent, and that of a folder.
const NO_FILES: &[&str] = &["system_files_absent/file.txt", "."];

/// What the file at the path holds, if it can be read.
fn read<R: AllocGlobal, F: Files>(
    rt: &R,
    files: &F,
    path: &str,
) -> Result<Result<Vec<u8>, ReadFault>, Fail> {
    let mut source = files.reader(path)?;
    Ok(read_all(rt.alloc(), &mut source, 100))
}

const TEXTS: &[&[u8]] = &[b"consistent classes 4\n", b"short\n"];

/// A file that is written is read back, also where it is written again.
fn write_and_read_back<R: AllocGlobal + Abort, F: Files>(
    rt: &R,
    files: &mut F,
) -> Result<(), Fail> {
    for text in TEXTS {
        let mut sink = files.writer(PATH)?;
        write_all(&mut sink, *text)?;
        files.close(sink);
        let bytes = read(rt, files, PATH)??;
        assert!(rt; bytes.as_slice() == *text);
    }
    Ok(())
}

/// What is given back of a file is read again once, by a source of that file alone.
fn read_what_is_given_back<R: AllocGlobal + Abort, F: Files>(
    rt: &R,
    files: &F,
    given: &[u8],
    held: &[u8],
) -> Result<(), Fail> {
    files.give_back(PATH, given.to_vec(rt.alloc())?)?;
    assert!(rt; read(rt, files, "system_files_unmade.txt")?.err() == Some(ReadFault::Failed));
    let again = read(rt, files, PATH)??;
    assert!(rt; again.as_slice() == given);
    let then = read(rt, files, PATH)??;
    assert!(rt; then.as_slice() == held);
    Ok(())
}

/// A file is made at its first write, and not before.
fn write_nothing<R: AllocGlobal + Abort, F: Files>(rt: &R, files: &mut F) -> Result<(), Fail> {
    let path = "system_files_unmade.txt";
    let sink = files.writer(path)?;
    files.close(sink);
    assert!(rt; read(rt, files, path)?.err() == Some(ReadFault::Failed));
    Ok(())
}

/// What can not be opened fails.
fn open_what_is_no_file<R: AllocGlobal + Abort, F: Files>(
    rt: &R,
    files: &mut F,
) -> Result<(), Fail> {
    for path in NO_FILES {
        assert!(rt;
            read(rt, files, *path)?.err() == Some(ReadFault::Failed),
            "{path}"
        );
        let written = write_all(&mut files.writer(*path)?, b"text");
        assert!(rt; written == Err(Failed), "{path}");
    }
    Ok(())
}

/// One test for all: that these are the system's files is what its proof takes long for.
#[test]
fn files_of_the_system(rt: HostRuntime) -> Result<(), Fail> {
    let mut files = SystemFiles::new(&rt, rt.stdin());
    write_and_read_back(&rt, &mut files)?;
    read_what_is_given_back(&rt, &files, b"given back\n", b"short\n")?;
    fs::remove_file(&rt, PATH)?;
    write_nothing(&rt, &mut files)?;
    open_what_is_no_file(&rt, &mut files)
}

#[test]
fn files_in_memory_are_read(rt: HostRuntime) -> Result<(), Fail> {
    let mut files = MemoryFiles::new(rt.alloc());
    files.put("a", b"one")?;
    files.put("b", b"two")?;
    files.put("a", b"three")?;
    let bytes = read(&rt, &files, "b")??;
    assert!(rt; bytes.as_slice() == b"two".as_slice());
    assert!(rt; files.bytes("a") == Some(b"three".as_slice()));
    assert!(rt; read(&rt, &files, "c")?.err() == Some(ReadFault::Failed));
    Ok(())
}

#[test]
fn files_in_memory_are_written(rt: HostRuntime) -> Result<(), Fail> {
    let mut files = MemoryFiles::new(rt.alloc());
    files.put("old", b"old")?;
    let mut sink = files.writer("old")?;
    write_all(&mut sink, b"new")?;
    write_all(&mut sink, b"er")?;
    let unused = files.writer("unused")?;
    assert!(rt; files.bytes("old") == Some(b"old".as_slice()));
    files.close(sink);
    files.close(unused);
    assert!(rt; files.bytes("old") == Some(b"newer".as_slice()));
    assert!(rt; files.bytes("unused").is_none());
    Ok(())
}

#[test]
fn locked_files_are_not_written(rt: HostRuntime) -> Result<(), Fail> {
    let mut files = MemoryFiles::new(rt.alloc());
    files.put("old", b"old")?;
    files.lock();
    let mut sink = files.writer("old")?;
    assert!(rt; write_all(&mut sink, b"new") == Err(Failed));
    files.close(sink);
    assert!(rt; files.bytes("old") == Some(b"old".as_slice()));
    Ok(())
}
