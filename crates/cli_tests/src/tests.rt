//! Whole runs over files in memory, on documents worked out by hand.

mod asking;
mod checking;
mod failing;
mod fault_texts;
mod forged;
mod formats;
mod hierarchies;
mod inferring;
mod lines;
mod progress;
mod receivers;
mod refusals;
mod refused;
mod restrictions;
mod speaking;
mod starting;
mod versions;
mod worked;

use axioms::Memory;
use cli::perform;
use device::BufferSink;
use std::alloc::{AllocError, Global};
use std::hash::RandomState;
use std::random::RandomSource;
use std::test::Fail;
use system_files::{Files, MemoryFiles};

/// What a run printed, and its status.
#[derive(Drop)]
struct Run {
    status: u8,
    out: Vec<u8>,
    err: Vec<u8>,
}

/// A run of the program.
fn run_of<R: AllocGlobal + RandomSource, F: Files>(
    rt: &R,
    words: &[&str],
    files: &mut F,
) -> Result<Run, Fail> {
    let alloc = rt.alloc();
    let state = RandomState::new(rt)?;
    let mut out = BufferSink::new(alloc);
    let mut err = BufferSink::new(alloc);
    let status = perform(alloc, words, files, &mut out, &mut err, state);
    Ok(Run {
        status,
        out: out.into_bytes(),
        err: err.into_bytes(),
    })
}

/// Whether the run ended so.
fn is_run(run: &Run, status: u8, out: &str, err: &str) -> bool {
    run.status == status
        && run.out.as_slice() == out.as_bytes()
        && run.err.as_slice() == err.as_bytes()
}

/// The texts of a classification.
#[derive(Drop)]
struct Texts {
    taxonomy: Vec<u8>,
    instances: Vec<u8>,
    certificate: Vec<u8>,
}

fn no_texts(alloc: Global) -> Texts {
    Texts {
        taxonomy: Vec::new(alloc),
        instances: Vec::new(alloc),
        certificate: Vec::new(alloc),
    }
}

/// What the file at the path holds, or nothing where there is none.
fn held(alloc: Global, files: &MemoryFiles, path: &str) -> Result<Vec<u8>, AllocError> {
    match files.bytes(path) {
        Some(bytes) => bytes.to_vec(alloc),
        None => Ok(Vec::new(alloc)),
    }
}

/// The texts that the files hold.
fn texts_in(alloc: Global, files: &MemoryFiles) -> Result<Texts, AllocError> {
    Ok(Texts {
        taxonomy: held(alloc, files, "tax")?,
        instances: held(alloc, files, "inst")?,
        certificate: held(alloc, files, "cert")?,
    })
}

/// Files of which one holds the document.
fn files_with(alloc: Global, document: &[u8]) -> Result<MemoryFiles, Memory> {
    let mut files = MemoryFiles::new(alloc);
    files.put("doc", document)?;
    Ok(files)
}

/// Puts the texts into the files.
fn put_texts(files: &mut MemoryFiles, texts: &Texts) -> Result<(), Memory> {
    files.put("tax", &texts.taxonomy)?;
    files.put("inst", &texts.instances)?;
    files.put("cert", &texts.certificate)
}

/// A run on the document, and what it wrote.
fn written_by<R: AllocGlobal + RandomSource>(
    rt: &R,
    words: &[&str],
    document: &[u8],
) -> Result<(Run, Texts), Fail> {
    let mut files = files_with(rt.alloc(), document)?;
    let run = run_of(rt, words, &mut files)?;
    let texts = texts_in(rt.alloc(), &files)?;
    Ok((run, texts))
}

/// The texts that a run on the document wrote.
fn texts_by<R: AllocGlobal + RandomSource>(
    rt: &R,
    words: &[&str],
    document: &[u8],
) -> Result<Texts, Fail> {
    let (_run, texts) = written_by(rt, words, document)?;
    Ok(texts)
}

/// A check of the texts of the document.
fn check<R: AllocGlobal + RandomSource>(
    rt: &R,
    document: &[u8],
    texts: &Texts,
) -> Result<Run, Fail> {
    let mut files = files_with(rt.alloc(), document)?;
    put_texts(&mut files, texts)?;
    run_of(rt, CHECK, &mut files)
}

/// Whether these are the texts, whatever the certificate.
fn are_texts(texts: &Texts, taxonomy: &str, instances: &str) -> bool {
    texts.taxonomy.as_slice() == taxonomy.as_bytes()
        && texts.instances.as_slice() == instances.as_bytes()
}

/// Whether the texts are the same, byte for byte.
fn are_same(texts: &Texts, others: &Texts) -> bool {
    texts.taxonomy.as_slice() == others.taxonomy.as_slice()
        && texts.instances.as_slice() == others.instances.as_slice()
        && texts.certificate.as_slice() == others.certificate.as_slice()
}

/// Whether the files hold these texts, whatever the certificate.
fn hold_texts(files: &MemoryFiles, taxonomy: &str, instances: &str) -> bool {
    files.bytes("tax") == Some(taxonomy.as_bytes())
        && files.bytes("inst") == Some(instances.as_bytes())
}

/// The text that this one gives in short: `T` stands for the name of Thing, `N` for that of Nothing, and `/` for a line
/// feed.
fn text_of(alloc: Global, short: &str) -> Result<String, AllocError> {
    let mut text = String::new(alloc);
    for c in short.chars() {
        match c {
            'T' => text.push_str("<http://www.w3.org/2002/07/owl#Thing>")?,
            'N' => text.push_str("<http://www.w3.org/2002/07/owl#Nothing>")?,
            '/' => text.push('\n')?,
            _ => text.push(c)?,
        }
    }
    Ok(text)
}

/// Whether the document is classified so, with these counts where they are given, and the checker accepts what was written,
/// in the same files.
fn gives<R: AllocGlobal + RandomSource>(
    rt: &R,
    document: &[u8],
    taxonomy: &str,
    instances: &str,
    counts: &str,
) -> Result<bool, Fail> {
    let mut files = files_with(rt.alloc(), document)?;
    let run = run_of(rt, CLASSIFY, &mut files)?;
    let check = run_of(rt, CHECK, &mut files)?;
    Ok(
        run.status == 0
            && run.err.is_empty()
            && (counts.is_empty() || run.out.as_slice() == counts.as_bytes())
            && hold_texts(&files, taxonomy, instances)
            && is_run(&check, 0, "accepted\n", ""),
    )
}

/// Whether the words or the document are refused so, and nothing is written.
fn refuses<R: AllocGlobal + RandomSource>(
    rt: &R,
    words: &[&str],
    document: &[u8],
    status: u8,
    told: &str,
) -> Result<bool, Fail> {
    let (run, texts) = written_by(rt, words, document)?;
    Ok(is_run(&run, status, "", told) && are_texts(&texts, "", "") && texts.certificate.is_empty())
}

/// The status of a run on the document.
fn status<R: AllocGlobal + RandomSource>(
    rt: &R,
    words: &[&str],
    document: &[u8],
) -> Result<u8, Fail> {
    let (run, _texts) = written_by(rt, words, document)?;
    Ok(run.status)
}

/// A run on a document alone, where nothing can be written.
fn alone<R: AllocGlobal + RandomSource>(
    rt: &R,
    words: &[&str],
    document: &[u8],
) -> Result<Run, Fail> {
    let mut files = files_with(rt.alloc(), document)?;
    files.lock();
    run_of(rt, words, &mut files)
}

/// A run that writes a document, and what it wrote.
fn document_by<R: AllocGlobal + RandomSource>(
    rt: &R,
    words: &[&str],
    document: &str,
) -> Result<(Run, Vec<u8>), Fail> {
    let mut files = files_with(rt.alloc(), document.as_bytes())?;
    let run = run_of(rt, words, &mut files)?;
    let written = held(rt.alloc(), &files, "out")?;
    Ok((run, written))
}

/// Words that write a document, the document that they read, the status, what is printed, what is told, and what is
/// written.
struct Writing {
    words: &'static [&'static str],
    document: &'static str,
    status: u8,
    out: &'static str,
    err: &'static str,
    written: &'static str,
}

/// Whether the run ends so, and writes that.
fn is_written<R: AllocGlobal + RandomSource>(rt: &R, case: &Writing) -> Result<bool, Fail> {
    let (run, written) = document_by(rt, case.words, case.document)?;
    let told = is_run(&run, case.status, case.out, case.err);
    Ok(told && written.as_slice() == case.written.as_bytes())
}

const CLASSIFY: &[&str] = &["elc", "classify", "doc", "tax", "inst", "cert"];

const CHECK: &[&str] = &["elc", "check", "doc", "tax", "inst", "cert"];

const ONE: &str =
    "eltax 1 consistent\n<http://www.w3.org/2002/07/owl#Thing>\n<x:A> < <x:B>\n<x:B> < <http://www.w3.org/2002/07/owl#Thing>\nbottom <http://www.w3.org/2002/07/owl#Nothing>\n";

const NO_INSTANCES: &str = "elinst 1 consistent\n";

const ONE_DOCUMENT: &[u8] = b"Ontology(SubClassOf(<x:A> <x:B>))";

/// Lines that classify a document within a limit.
const WITHIN: &[(&str, &[u8])] = &[
    (
        "elc classify doc tax inst cert --max-facts 3",
        b"Ontology()",
    ),
    (
        "elc classify doc tax inst cert --max-bytes 33",
        ONE_DOCUMENT,
    ),
];

#[test]
fn within_a_limit(rt: HostRuntime) -> Result<(), Fail> {
    for row in WITHIN {
        let (line, document) = *row;
        let words: Vec<&str> = line.split(' ').collect(rt.alloc())?;
        assert!(rt; status(&rt, &words, document)? == 0, "{line}");
    }
    Ok(())
}

/// Lines that classify a document beyond a limit, and what is told.
const BEYOND: &[(&str, &[u8], &str)] = &[
    (
        "elc classify doc tax inst cert --max-facts 2",
        b"Ontology()",
        "limit: more than 2 facts\n",
    ),
    (
        "elc classify doc tax inst cert --max-bytes 32",
        ONE_DOCUMENT,
        "limit: more than 32 bytes\n",
    ),
];

#[test]
fn beyond_a_limit(rt: HostRuntime) -> Result<(), Fail> {
    for row in BEYOND {
        let (line, document, told) = *row;
        let words: Vec<&str> = line.split(' ').collect(rt.alloc())?;
        assert!(rt; refuses(&rt, &words, document, 5, told)?, "{line}");
    }
    Ok(())
}

/// Words that are refused, whatever the document.
const REFUSED_WORDS: &[&[&str]] = &[
    &[
        "elc",
        "classify",
        "doc",
        "tax",
        "inst",
        "cert",
        "--max-facts",
        "0",
    ],
    &[
        "elc",
        "classify",
        "doc",
        "tax",
        "inst",
        "cert",
        "--max-bytes",
        "268435457",
    ],
    &["elc", "classify", "doc", "tax", "inst", "cert", "more"],
];

#[test]
fn refused_words(rt: HostRuntime) -> Result<(), Fail> {
    for words in REFUSED_WORDS {
        assert!(rt; status(&rt, *words, b"Ontology()")? == 2);
    }
    Ok(())
}

#[test]
fn rejected_texts(rt: HostRuntime) -> Result<(), Fail> {
    let rejected = check(&rt, ONE_DOCUMENT, &no_texts(rt.alloc()))?;
    assert!(rt; is_run(&rejected, 1, "rejected: C1 at byte 0\n", ""));
    Ok(())
}

#[test]
fn files_that_are_missing(rt: HostRuntime) -> Result<(), Fail> {
    let unread = alone(&rt, CHECK, ONE_DOCUMENT)?;
    assert!(rt; is_run(&unread, 6, "", "cannot read tax\n"));
    let unwritten = alone(&rt, CLASSIFY, ONE_DOCUMENT)?;
    assert!(rt; is_run(&unwritten, 6, "", "cannot write tax\n"));
    Ok(())
}
