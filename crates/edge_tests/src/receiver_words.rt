//! Command lines of `elcheck` and their tasks.

use command_line::{
    Conversion, FormatNumber, LineFault, Paths, ReceiverTask, Request, receiver_task,
};
use program::{Limits, MOST_BYTES, MOST_FACTS, Version};
use std::alloc::{AllocError, Global};
use std::test::Fail;

const CHECK: Request<'static> = Request::Check(Paths {
    document: "a.ofn",
    taxonomy: "a.tax",
    instances: "a.inst",
    certificate: "a.cert",
});

/// A line, and what it asks for. The limit of facts is the greatest.
struct Row {
    line: &'static str,
    request: Request<'static>,
    max_bytes: u64,
    version: Version,
    progress: bool,
    lines: bool,
}

/// `convert` is a word of its own right behind the program's name alone.
const ROWS: &[Row] = &[
    Row {
        line: "elcheck a.ofn a.tax a.inst a.cert",
        request: CHECK,
        max_bytes: MOST_BYTES,
        version: Version::Two,
        progress: false,
        lines: false,
    },
    Row {
        line: "elcheck --profile 1 a.ofn a.tax --progress --lines a.inst --max-bytes=1000 a.cert",
        request: CHECK,
        max_bytes: 1000,
        version: Version::One,
        progress: true,
        lines: true,
    },
    Row {
        line: "elcheck a.ofn convert a.inst a.cert",
        request: Request::Check(Paths {
            document: "a.ofn",
            taxonomy: "convert",
            instances: "a.inst",
            certificate: "a.cert",
        }),
        max_bytes: MOST_BYTES,
        version: Version::Two,
        progress: false,
        lines: false,
    },
    Row {
        line: "elcheck convert a.ofn a.cert b.cert",
        request: Request::Convert(Conversion {
            document: "a.ofn",
            certificate: "a.cert",
            output: "b.cert",
            format: FormatNumber::Two,
        }),
        max_bytes: MOST_BYTES,
        version: Version::Two,
        progress: false,
        lines: false,
    },
    Row {
        line: "elcheck convert --format 1 a.ofn a.cert --max-bytes 7 --lines b.cert --profile=1",
        request: Request::Convert(Conversion {
            document: "a.ofn",
            certificate: "a.cert",
            output: "b.cert",
            format: FormatNumber::One,
        }),
        max_bytes: 7,
        version: Version::One,
        progress: false,
        lines: true,
    },
];

/// Whether the line is that task.
fn is_taken(alloc: Global, row: &Row) -> Result<bool, AllocError> {
    let words: Vec<&str> = row.line.split(' ').collect(alloc)?;
    let Some(limits) = Limits::new(row.max_bytes, MOST_FACTS, row.version) else {
        return Ok(false);
    };
    let task = ReceiverTask {
        request: row.request,
        limits,
        progress: row.progress,
        lines: row.lines,
    };
    match receiver_task(alloc, &words) {
        Ok(taken) => Ok(taken == task && taken.request.document() == "a.ofn"),
        Err(_) => Ok(false),
    }
}

#[test]
fn checks_and_conversions(rt: HostRuntime) -> Result<(), Fail> {
    for row in ROWS {
        assert!(rt; is_taken(rt.alloc(), row)?, "{}", row.line);
    }
    Ok(())
}

/// Lines that are refused, and a part of what is told of them.
const REFUSED: &[(&str, &str)] = &[
    ("elcheck", "<DOC>"),
    ("elcheck a b c", "<CERT>"),
    ("elcheck a b c d e", "unexpected argument 'e'"),
    ("elcheck check a b c d", "unexpected argument 'd'"),
    (
        "elcheck a b c d --max-facts 1",
        "unexpected argument '--max-facts'",
    ),
    (
        "elcheck a b c d --format 1",
        "unexpected argument '--format'",
    ),
    ("elcheck a b c d --profile 3", "'3' for '--profile"),
    ("elcheck a b c d --max-bytes 0", "'0' for '--max-bytes"),
    ("elcheck convert", "<DOC>"),
    ("elcheck convert a b", "<OUT>"),
    ("elcheck convert a b c d", "unexpected argument 'd'"),
    (
        "elcheck convert a b c --progress",
        "unexpected argument '--progress'",
    ),
    ("elcheck convert a b c --format 3", "'3' for '--format"),
    (
        "elcheck --help",
        "Usage: elcheck [OPTIONS] <DOC> <TAX> <INST> <CERT>",
    ),
    (
        "elcheck --help",
        "elcheck convert food.ofn food.cert food1.cert --format 1",
    ),
    (
        "elcheck convert --help",
        "Usage: elcheck convert [OPTIONS] <DOC> <CERT> <OUT>",
    ),
];

/// What is told of the line.
fn told(alloc: Global, line: &str) -> Result<String, Fail> {
    let words: Vec<&str> = line.split(' ').collect(alloc)?;
    match receiver_task(alloc, &words) {
        Err(LineFault::Memory) => Err(Fail::from("no memory")),
        Err(fault) => Ok(format!(in alloc; "{fault}")?),
        Ok(_) => Err(Fail::from("a task")),
    }
}

#[test]
fn lines_that_are_refused(rt: HostRuntime) -> Result<(), Fail> {
    for row in REFUSED {
        let (line, part) = *row;
        let text = told(rt.alloc(), line)?;
        assert!(rt; text.as_str().contains(part), "{line}");
    }
    Ok(())
}
