//! Runs as the program starts them: with the words as they were read, and with the status that it ends with.

use super::*;
use cli::{Startup, start};
use receiving::begin;
use std::io;
use std::process::ExitCode;

/// How a program ended, and what it printed.
#[derive(Drop)]
pub(super) struct Ended {
    status: ExitCode,
    out: Vec<u8>,
    err: Vec<u8>,
}

/// Whether it ended so.
pub(super) fn is_end(ended: &Ended, status: u8, out: &str, err: &str) -> bool {
    ended.status == ExitCode::from(status)
        && ended.out.as_slice() == out.as_bytes()
        && ended.err.as_slice() == err.as_bytes()
}

/// A program that is started with these words and this seed, over the files.
pub(super) fn started(
    alloc: Global,
    words: io::Result<Vec<String>>,
    state: io::Result<RandomState>,
    files: &mut MemoryFiles,
) -> Ended {
    let mut out = BufferSink::new(alloc);
    let mut err = BufferSink::new(alloc);
    let startup = Startup { words, state };
    let status = start(alloc, &startup, files, &mut out, &mut err);
    Ended {
        status,
        out: out.into_bytes(),
        err: err.into_bytes(),
    }
}

/// The words as the system gives them.
pub(super) fn owned(alloc: Global, words: &[&str]) -> Result<Vec<String>, AllocError> {
    let mut all = Vec::new(alloc);
    for word in words {
        all.push(String::from_str(alloc, *word)?)?;
    }
    Ok(all)
}

/// A program that is started with these words over a document alone, where nothing can be written if the files are locked.
pub(super) fn run_to_end<R: AllocGlobal + RandomSource>(
    rt: &R,
    words: &[&str],
    document: &[u8],
    is_locked: bool,
) -> Result<Ended, Fail> {
    let mut files = files_with(rt.alloc(), document)?;
    if is_locked {
        files.lock();
    }
    let words = owned(rt.alloc(), words)?;
    Ok(started(rt.alloc(), Ok(words), RandomState::new(rt), &mut files))
}

/// Words, a document, whether the files are locked, and how the program then ends.
const ENDS: &[(&[&str], &[u8], bool, u8, &str, &str)] = &[
    (
        CLASSIFY,
        ONE_DOCUMENT,
        false,
        0,
        "consistent classes 4 individuals 0 facts 8\n",
        "",
    ),
    (
        &["elc", "instances", "doc", "x:C"],
        ONE_DOCUMENT,
        false,
        2,
        "",
        "unknown name <x:C>\n",
    ),
    (CLASSIFY, b"Ontology(", false, 3, "", "P2 at byte 9\n"),
    (
        &[
            "elc",
            "classify",
            "doc",
            "tax",
            "inst",
            "cert",
            "--max-facts",
            "2",
        ],
        b"Ontology()",
        false,
        5,
        "",
        "limit: more than 2 facts\n",
    ),
    (CLASSIFY, ONE_DOCUMENT, true, 6, "", "cannot write tax\n"),
    (CHECK, ONE_DOCUMENT, true, 6, "", "cannot read tax\n"),
];

#[test]
fn a_program_ends_with_the_status_of_its_run(rt: HostRuntime) -> Result<(), Fail> {
    for row in ENDS {
        let (words, document, is_locked, status, out, err) = *row;
        let end = run_to_end(&rt, words, document, is_locked)?;
        assert!(rt; is_end(&end, status, out, err), "{status}");
    }
    Ok(())
}

#[test]
fn rejected_texts_end_with_one(rt: HostRuntime) -> Result<(), Fail> {
    let alloc = rt.alloc();
    let mut files = files_with(alloc, ONE_DOCUMENT)?;
    put_texts(&mut files, &no_texts(alloc))?;
    let words = owned(alloc, CHECK)?;
    let end = started(alloc, Ok(words), RandomState::new(&rt), &mut files);
    assert!(rt; is_end(&end, 1, "rejected: C1 at byte 0\n", ""));
    Ok(())
}

#[test]
fn a_run_begins_with_the_words(rt: HostRuntime) -> Result<(), Fail> {
    let alloc = rt.alloc();
    let startup = Startup {
        words: Ok(owned(alloc, CHECK)?),
        state: RandomState::new(&rt),
    };
    let mut err = BufferSink::new(alloc);
    match begin(alloc, &startup, &mut err) {
        Ok(run) => assert!(rt; run.words.as_slice() == CHECK),
        Err(status) => assert!(rt; false, "{status}"),
    }
    assert!(rt; err.bytes().is_empty());
    Ok(())
}

/// Why words are not read, and how the program then ends.
const UNREAD: &[(io::ErrorKind, u8, &str)] = &[
    (
        io::ErrorKind::InvalidData,
        2,
        "the command line is no text\n",
    ),
    (io::ErrorKind::OutOfMemory, 4, "out of memory\n"),
];

#[test]
fn words_that_are_no_text(rt: HostRuntime) -> Result<(), Fail> {
    for row in UNREAD {
        let (kind, status, told) = *row;
        let mut files = files_with(rt.alloc(), ONE_DOCUMENT)?;
        let words = Err(io::Error::from(kind));
        let end = started(rt.alloc(), words, RandomState::new(&rt), &mut files);
        assert!(rt; is_end(&end, status, "", told), "{status}");
    }
    Ok(())
}

#[test]
fn no_seed(rt: HostRuntime) -> Result<(), Fail> {
    let mut files = files_with(rt.alloc(), ONE_DOCUMENT)?;
    let words = owned(rt.alloc(), CLASSIFY)?;
    let state = Err(io::Error::from(io::ErrorKind::Other));
    let end = started(rt.alloc(), Ok(words), state, &mut files);
    assert!(rt; is_end(&end, 6, "", "cannot read random seed\n"));
    assert!(rt; files.bytes("tax").is_none());
    Ok(())
}

/// Whether the bytes have the word among them.
fn says(bytes: &[u8], word: &str) -> bool {
    match std::str::from_utf8(bytes) {
        Ok(text) => text.contains(word),
        Err(_) => false,
    }
}

/// Whether a program with these words prints nothing, ends as with wrong ones, and tells the one word or the other.
fn is_told<R: AllocGlobal + RandomSource>(
    rt: &R,
    words: &[&str],
    word: &str,
    other: &str,
) -> Result<bool, Fail> {
    let end = run_to_end(rt, words, ONE_DOCUMENT, false)?;
    Ok(
        end.status == ExitCode::from(2)
            && end.out.is_empty()
            && (says(&end.err, word) || says(&end.err, other)),
    )
}

const NO_WORD: &[&str] = &["elc"];

#[test]
fn wrong_words_are_told_the_usage(rt: HostRuntime) -> Result<(), Fail> {
    for words in REFUSED_WORDS {
        assert!(rt; is_told(&rt, *words, "Usage: elc classify", "--max-")?);
    }
    assert!(rt; is_told(&rt, NO_WORD, "Usage: elc", "Usage: elc")?);
    Ok(())
}
