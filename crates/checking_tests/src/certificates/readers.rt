//! Readers of certificates, which give one line after another, from a source that gives the text at once and from one that gives
//! a byte a read.

use super::TEXT;
use crate::sources::Pieces;
use axioms::Ontology;
use certificate::{Line, LineReader, TextFault, read_certificate};
use device::{SliceSource, Source};
use std::alloc::Global;
use std::process::Abort;

/// Lines with no premise, with two and with one, one after another.
pub(crate) const LINES: &[u8] =
    b"elcert 1 inconsistent\nsub e0 e0 K1\nedge i0 p0 i1 K11 18446744073709551615 2\nsub i0 e2 K9 1\nend\n";

/// The premises of the line that the reader gives next, which take the room, where that is the line.
fn premises_of_next<S: Source>(
    reader: &mut LineReader,
    source: &mut S,
    room: Vec<u64>,
    expected: &Line,
) -> Result<Option<Vec<u64>>, TextFault> {
    match reader.next(source, room)? {
        Some(line) if line == *expected => Ok(Some(line.premises)),
        _ => Ok(None),
    }
}

/// Whether the reader gives these lines, one after another, and then no more.
fn gives_lines<S: Source>(
    alloc: Global,
    reader: &mut LineReader,
    source: &mut S,
    lines: &[Line],
) -> Result<bool, TextFault> {
    let mut room = Vec::new(alloc);
    for line in lines {
        let Some(premises) = premises_of_next(reader, source, room, line)? else {
            return Ok(false);
        };
        room = premises;
    }
    Ok(reader.next(source, room)?.is_none())
}

/// Whether a reader of the source gives these lines.
fn reader_gives<S: Source>(
    alloc: Global,
    ontology: &Ontology,
    source: &mut S,
    lines: &[Line],
) -> bool {
    match LineReader::new(alloc, ontology, None, source) {
        Ok(mut reader) => gives_lines(alloc, &mut reader, source, lines) == Ok(true),
        Err(_) => false,
    }
}

/// Whether readers give the lines of the certificate that is read from the text.
fn gives_all(alloc: Global, ontology: &Ontology, text: &[u8]) -> bool {
    match read_certificate(alloc, ontology, text) {
        Ok(certificate) => {
            let lines = certificate.lines();
            reader_gives(alloc, ontology, &mut SliceSource::new(text), lines)
                && reader_gives(alloc, ontology, &mut Pieces::new(text, 1), lines)
        }
        Err(_) => false,
    }
}

/// Readers give the lines of the text's certificate.
pub(crate) fn assert_lines<R: AllocGlobal + Abort>(rt: &R, ontology: &Ontology, text: &[u8]) {
    assert!(rt; gives_all(rt.alloc(), ontology, text));
}

/// Whether the premises of the line that the reader gives next are these.
fn has_premises<S: Source>(
    alloc: Global,
    reader: &mut LineReader,
    source: &mut S,
    expected: &[u64],
) -> Result<bool, TextFault> {
    match reader.next(source, Vec::new(alloc))? {
        Some(line) => Ok(line.premises.as_slice() == expected),
        None => Ok(false),
    }
}

/// A line of three premises.
const THREE_PREMISES: &[u8] = b"elcert 1 inconsistent\nsub i0 e2 K9 7 8 9\nend\n";

/// Whether of a line of three premises these are kept, where so many are enough.
fn keeps_premises(
    alloc: Global,
    ontology: &Ontology,
    most_premises: Option<usize>,
    expected: &[u64],
) -> bool {
    let mut source = Pieces::new(THREE_PREMISES, 1);
    match LineReader::new(alloc, ontology, most_premises, &mut source) {
        Ok(mut reader) => { has_premises(alloc, &mut reader, &mut source, expected) == Ok(true) }
        Err(_) => false,
    }
}

/// How many premises are enough, and which of three are kept: one more, if there is one.
const KEPT_PREMISES: &[(Option<usize>, &[u64])] = &[
    (Some(0), &[7]),
    (Some(1), &[7, 8]),
    (Some(2), &[7, 8, 9]),
    (Some(3), &[7, 8, 9]),
    (None, &[7, 8, 9]),
];

/// A reader keeps one premise more than are enough.
pub(crate) fn assert_premises_kept<R: AllocGlobal + Abort>(rt: &R, ontology: &Ontology) {
    for (most_premises, expected) in KEPT_PREMISES {
        assert!(rt;
            keeps_premises(rt.alloc(), ontology, *most_premises, expected),
            "{most_premises:?}"
        );
    }
}

/// Whether the reader gives so many lines and then, behind them, an interpretation or none, or refuses what stands there.
fn finishes<S: Source>(
    alloc: Global,
    reader: &mut LineReader,
    source: &mut S,
    lines: usize,
    expected: Result<bool, TextFault>,
) -> Result<bool, TextFault> {
    for _ in 0..lines {
        if reader.next(source, Vec::new(alloc))?.is_none() {
            return Ok(false);
        }
    }
    match reader.next(source, Vec::new(alloc))? {
        Some(_) => Ok(false),
        None => Ok(reader.finish(alloc, source).map(|listed| listed.is_some()) == expected),
    }
}

/// The same of a reader of the source.
fn source_finishes<S: Source>(
    alloc: Global,
    ontology: &Ontology,
    source: &mut S,
    lines: usize,
    expected: Result<bool, TextFault>,
) -> bool {
    match LineReader::new(alloc, ontology, None, source) {
        Ok(mut reader) => finishes(alloc, &mut reader, source, lines, expected) == Ok(true),
        Err(_) => false,
    }
}

/// The same of readers of the text.
fn text_finishes(
    alloc: Global,
    ontology: &Ontology,
    text: &[u8],
    lines: usize,
    expected: Result<bool, TextFault>,
) -> bool {
    let mut whole = SliceSource::new(text);
    let mut bytewise = Pieces::new(text, 1);
    source_finishes(alloc, ontology, &mut whole, lines, expected)
        && source_finishes(alloc, ontology, &mut bytewise, lines, expected)
}

/// What stands behind one line names what is not there; behind three stands no interpretation.
pub(crate) fn assert_refused_behind_lines<R: AllocGlobal + Abort>(rt: &R, ontology: &Ontology) {
    let text = b"elcert 1 inconsistent\nsub e0 e0 K1\nsub e9 e0 K2\nsub e0 e0 K1\nend\n";
    let refused = Err(TextFault::BadText { at: 35 });
    assert!(rt;
        text_finishes(rt.alloc(), ontology, text, 1, refused),
        "refused"
    );
    assert!(rt;
        text_finishes(rt.alloc(), ontology, LINES, 3, Ok(false)),
        "none"
    );
}

/// Behind the seven lines of the text an interpretation is listed.
pub(crate) fn assert_listed_behind_lines<R: AllocGlobal + Abort>(rt: &R, ontology: &Ontology) {
    assert!(rt; text_finishes(rt.alloc(), ontology, TEXT, 7, Ok(true)));
}

/// Whether no reader is made of the source.
fn has_no_reader<S: Source>(alloc: Global, ontology: &Ontology, source: &mut S) -> bool {
    LineReader::new(alloc, ontology, None, source).err() == Some(TextFault::BadText { at: 0 })
}

/// Nothing, a text of no format and first lines that are cut.
const NO_CERTIFICATES: &[&str] = &[
    "",
    "elcert 3 consistent\nend\n",
    "elcert 1 consistent",
    "elcert 2 consistent",
];

/// They have no readers.
pub(crate) fn assert_no_readers<R: AllocGlobal + Abort>(rt: &R, ontology: &Ontology) {
    for text in NO_CERTIFICATES {
        let mut whole = SliceSource::new(text.as_bytes());
        assert!(rt; has_no_reader(rt.alloc(), ontology, &mut whole), "{text}");
        let mut bytewise = Pieces::new(text.as_bytes(), 1);
        assert!(rt;
            has_no_reader(rt.alloc(), ontology, &mut bytewise),
            "{text}, in bytes"
        );
    }
}

/// Whether a reader of the source that fails behind so many reads has failed before it gives a line.
fn fails_behind(alloc: Global, ontology: &Ontology, reads: usize) -> bool {
    let mut source = Pieces::failing_behind(TEXT, 1, reads);
    match LineReader::new(alloc, ontology, None, &mut source) {
        Ok(mut reader) => reader.next(&mut source, Vec::new(alloc)).err() == Some(TextFault::Io),
        Err(fault) => fault == TextFault::Io,
    }
}

/// Of the bytes of the first three lines each is read before the first line of the derivation is given.
pub(crate) fn assert_failing_reads<R: AllocGlobal + Abort>(rt: &R, ontology: &Ontology) {
    for reads in 0..46 {
        assert!(rt;
            fails_behind(rt.alloc(), ontology, reads),
            "behind {reads} reads"
        );
    }
}
