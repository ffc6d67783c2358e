//! An example of the library: a session that grows. Reads from standard input a document and, behind it, additions, all of them
//! separated by lines `----`, and prints which additions were refused, how many facts there are at the end, the taxonomy and the
//! instances. It finds out what follows behind the document and behind each addition; with `at-once` behind the program's name at
//! the end alone. Other words behind the name are class expressions: it prints the classes above and below each, and its
//! individuals, too.
#![tactic(auto)]

use anyhow::Context;
use device::{BufferSink, ReaderSource, Sink, SliceSource, WriterSink, read_all, write_all};
use program::{MOST_BYTES, MOST_FACTS, Version};
use session::{DocumentFault, Format, Limits, Session, lines_of_answers};
use std::alloc::{AllocError, Global};
use std::env;
use std::hash::RandomState;

/// The pieces of the text between lines `----`: the document, and then the additions.
fn pieces_of(alloc: Global, text: &str) -> Result<Vec<String>, AllocError> {
    let mut pieces = Vec::new(alloc);
    let mut piece = String::new(alloc);
    for line in text.lines() {
        if line == "----" {
            pieces.push(piece)?;
            piece = String::new(alloc);
        } else {
            piece.push_str(line)?;
            piece.push_str("\n")?;
        }
    }
    pieces.push(piece)?;
    Ok(pieces)
}

/// The name of the fault.
fn kind_of(fault: &DocumentFault) -> &'static str {
    match fault {
        DocumentFault::NotUtf8 { .. } => "NotUtf8",
        DocumentFault::TooLarge => "TooLarge",
        DocumentFault::Io => "Io",
        DocumentFault::Lex(_) => "Lex",
        DocumentFault::Parse(_) => "Parse",
        DocumentFault::Faults(_) => "Faults",
        DocumentFault::TooManyNames => "TooManyNames",
        DocumentFault::Memory => "Memory",
    }
}

/// Adds the text, and tells it where it is refused.
fn add(
    alloc: Global,
    session: &mut Session,
    (number, text): (usize, &str),
    told: &mut String,
) -> Result<(), AllocError> {
    match session.add(text) {
        Ok(()) => Ok(()),
        Err(fault) => {
            let kind = kind_of(&fault);
            let line = format!(in alloc; "addition {number} refused: {kind}\n")?;
            told.push_str(line.as_str())
        }
    }
}

/// Adds the texts one after the other, finds out what follows, and tells which texts are refused.
fn grow(
    alloc: Global,
    session: &mut Session,
    additions: &[String],
    at_once: bool,
) -> anyhow::Result<String> {
    let mut told = String::new(alloc);
    for (number, text) in additions.iter().enumerate() {
        if !at_once {
            session.resume(MOST_FACTS as u32)?;
        }
        add(alloc, session, (number + 1, text), &mut told)?;
    }
    session.resume(MOST_FACTS as u32)?;
    Ok(told)
}

/// Writes the taxonomy and then the instances.
fn write_texts<S: Sink>(alloc: Global, session: &Session, out: &mut S) -> anyhow::Result<()> {
    let mut instances = BufferSink::new(alloc);
    let mut certificate = BufferSink::new(alloc);
    session.write(out, &mut instances, &mut certificate, Format::Two)?;
    write_all(out, instances.bytes())?;
    Ok(())
}

/// Writes what the session answers about the class expression.
fn write_answers<S: Sink>(
    alloc: Global,
    session: &Session,
    expression: &str,
    out: &mut S,
) -> anyhow::Result<()> {
    let answers = session.query(expression, MOST_FACTS as u32)?;
    let lines = lines_of_answers(alloc, &answers)?;
    write_all(out, &lines)?;
    Ok(())
}

/// Lets the session grow, and writes what is there at the end.
fn write_grown<S: Sink>(
    alloc: Global,
    session: &mut Session,
    additions: &[String],
    (at_once, expressions): (bool, &[String]),
    out: &mut S,
) -> anyhow::Result<()> {
    let told = grow(alloc, session, additions, at_once)?;
    let facts = session.facts();
    let head = format!(in alloc; "{told}facts {facts}\n")?;
    write_all(out, head.as_bytes())?;
    write_texts(alloc, session, out)?;
    for expression in expressions {
        write_answers(alloc, session, expression, out)?;
    }
    Ok(())
}

/// Writes what is there at the end of the pieces.
fn write_pieces<S: Sink>(
    alloc: Global,
    state: RandomState,
    pieces: &[String],
    asked: (bool, &[String]),
    out: &mut S,
) -> anyhow::Result<()> {
    let (document, additions) = pieces.split_first().context("no document")?;
    let limits = Limits::new(MOST_BYTES, MOST_FACTS, Version::Two).context("no limits")?;
    let mut source = SliceSource::new(document.as_bytes());
    let mut session = Session::open(alloc, &mut source, &limits, state)?;
    write_grown(alloc, &mut session, additions, asked, out)
}

/// What the words ask for: whether what follows is found out at the end alone, and the class expressions.
fn asked_by(words: &[String]) -> (bool, &[String]) {
    match words {
        [_, first, expressions @ ..] if first.as_str() == "at-once" => (true, expressions),
        [_, expressions @ ..] => (false, expressions),
        [] => (false, &[]),
    }
}

fn main(rt: HostRuntime) -> anyhow::Result<()> {
    let state = RandomState::new(&rt)?;
    let words: Vec<String> = env::args(&rt)?.collect(rt.alloc())?;
    let mut source = ReaderSource::new(rt.stdin());
    let bytes = read_all(rt.alloc(), &mut source, MOST_BYTES as usize)?;
    let pieces = pieces_of(rt.alloc(), str::from_utf8(&bytes)?)?;
    let mut out = WriterSink::new(rt.stdout());
    write_pieces(rt.alloc(), state, &pieces, asked_by(&words), &mut out)
}
