//! Command lines and their tasks.

use command_line::{
    Command, Conversion, FormatNumber, Invocation, LineFault, Paths, Task, invocation,
};
use program::{
    Asked, Limits, MOST_BYTES, MOST_FACTS, Question, Related, Shown, Side, Spelling, Version,
};
use std::alloc::{AllocError, Global};
use std::test::Fail;

const PATHS: Paths<'static> = Paths {
    document: "a.ofn",
    taxonomy: "a.tax",
    instances: "a.inst",
    certificate: "a.cert",
};

/// An expression, which is one word.
const EXPRESSION: &str = "ObjectSomeValuesFrom(:r :A)";

/// How an explanation is shown where no flag says otherwise.
const LINES: Shown = Shown {
    graph: false,
    reached: false,
    axioms: false,
};

const GRAPH: Shown = Shown {
    graph: true,
    reached: false,
    axioms: false,
};

const REACHED: Shown = Shown {
    graph: false,
    reached: true,
    axioms: false,
};

const GRAPH_REACHED: Shown = Shown {
    graph: true,
    reached: true,
    axioms: false,
};

const AXIOMS: Shown = Shown {
    graph: false,
    reached: false,
    axioms: true,
};

const ALL_SHOWN: Shown = Shown {
    graph: true,
    reached: true,
    axioms: true,
};

/// Words, and the command and the limits that they give, with the version.
struct Row {
    case: &'static str,
    words: &'static [&'static str],
    command: Command<'static>,
    max_facts: u64,
    max_bytes: u64,
    version: Version,
}

/// Commands with their options, and without them where they ask no question (`QUESTIONS` has the others). A check and a conversion draw no
/// facts, and have the greatest number of them.
const ROWS: &[Row] = &[
    Row {
        case: "classify",
        words: &["elc", "classify", "a.ofn", "a.tax", "a.inst", "a.cert"],
        command: Command::Classify {
            paths: PATHS,
            format: FormatNumber::Two,
        },
        max_facts: 100_000_000,
        max_bytes: 268_435_456,
        version: Version::Two,
    },
    Row {
        case: "classify to the second format",
        words: &[
            "elc", "classify", "--format", "2", "a.ofn", "a.tax", "a.inst", "a.cert",
        ],
        command: Command::Classify {
            paths: PATHS,
            format: FormatNumber::Two,
        },
        max_facts: 100_000_000,
        max_bytes: 268_435_456,
        version: Version::Two,
    },
    Row {
        case: "classify with all options",
        words: &[
            "elc",
            "classify",
            "--max-facts",
            "9",
            "a.ofn",
            "a.tax",
            "a.inst",
            "--profile",
            "1",
            "a.cert",
            "--max-bytes=1000",
            "--format=1",
        ],
        command: Command::Classify {
            paths: PATHS,
            format: FormatNumber::One,
        },
        max_facts: 9,
        max_bytes: 1000,
        version: Version::One,
    },
    Row {
        case: "check",
        words: &["elc", "check", "a.ofn", "a.tax", "a.inst", "a.cert"],
        command: Command::Check(PATHS),
        max_facts: 100_000_000,
        max_bytes: 268_435_456,
        version: Version::Two,
    },
    Row {
        case: "check with all options",
        words: &[
            "elc",
            "check",
            "a.ofn",
            "a.tax",
            "a.inst",
            "a.cert",
            "--max-bytes",
            "1000",
            "--profile=1",
        ],
        command: Command::Check(PATHS),
        max_facts: 100_000_000,
        max_bytes: 1000,
        version: Version::One,
    },
    Row {
        case: "convert",
        words: &["elc", "convert", "a.ofn", "a.cert", "b.cert"],
        command: Command::Convert(Conversion {
            document: "a.ofn",
            certificate: "a.cert",
            output: "b.cert",
            format: FormatNumber::Two,
        }),
        max_facts: 100_000_000,
        max_bytes: 268_435_456,
        version: Version::Two,
    },
    Row {
        case: "convert with all options",
        words: &[
            "elc",
            "convert",
            "a.ofn",
            "--format",
            "1",
            "a.cert",
            "--max-bytes=1000",
            "b.cert",
            "--profile",
            "1",
        ],
        command: Command::Convert(Conversion {
            document: "a.ofn",
            certificate: "a.cert",
            output: "b.cert",
            format: FormatNumber::One,
        }),
        max_facts: 100_000_000,
        max_bytes: 1000,
        version: Version::One,
    },
    Row {
        case: "restrict",
        words: &["elc", "restrict", "a.ofn", "b.ofn"],
        command: Command::Restrict {
            document: "a.ofn",
            output: "b.ofn",
        },
        max_facts: 100_000_000,
        max_bytes: 268_435_456,
        version: Version::Two,
    },
    Row {
        case: "infer",
        words: &["elc", "infer", "a.ofn", "b.ofn"],
        command: Command::Infer {
            document: "a.ofn",
            output: "b.ofn",
        },
        max_facts: 100_000_000,
        max_bytes: 268_435_456,
        version: Version::Two,
    },
    Row {
        case: "infer with all options",
        words: &[
            "elc",
            "infer",
            "--profile",
            "1",
            "a.ofn",
            "--max-facts=9",
            "b.ofn",
            "--max-bytes",
            "1000",
        ],
        command: Command::Infer {
            document: "a.ofn",
            output: "b.ofn",
        },
        max_facts: 9,
        max_bytes: 1000,
        version: Version::One,
    },
    Row {
        case: "instances with all options",
        words: &[
            "elc",
            "instances",
            "a.ofn",
            "--max-bytes=1000",
            "--profile",
            "2",
            "x:A",
            "--max-facts",
            "9",
        ],
        command: Command::Ask {
            document: "a.ofn",
            question: Question::Names(Related::Instances, "x:A"),
            spelling: Spelling::Full,
        },
        max_facts: 9,
        max_bytes: 1000,
        version: Version::Two,
    },
    Row {
        case: "query",
        words: &["elc", "query", "a.ofn", EXPRESSION],
        command: Command::Query {
            document: "a.ofn",
            expression: EXPRESSION,
            spelling: Spelling::Full,
        },
        max_facts: 100_000_000,
        max_bytes: 268_435_456,
        version: Version::Two,
    },
    Row {
        case: "query with all options",
        words: &[
            "elc",
            "query",
            "--max-bytes",
            "1000",
            "a.ofn",
            "--max-facts=9",
            EXPRESSION,
            "--profile=1",
        ],
        command: Command::Query {
            document: "a.ofn",
            expression: EXPRESSION,
            spelling: Spelling::Full,
        },
        max_facts: 9,
        max_bytes: 1000,
        version: Version::One,
    },
    Row {
        case: "query with short names",
        words: &["elc", "query", "a.ofn", "--short", EXPRESSION],
        command: Command::Query {
            document: "a.ofn",
            expression: EXPRESSION,
            spelling: Spelling::Short,
        },
        max_facts: 100_000_000,
        max_bytes: 268_435_456,
        version: Version::Two,
    },
    Row {
        case: "lacks with all options",
        words: &[
            "elc",
            "lacks",
            "--max-facts=9",
            "a.ofn",
            "--individual",
            "x:a",
            "--short",
            "x:B",
            "--max-bytes",
            "1000",
            "--profile=1",
        ],
        command: Command::Ask {
            document: "a.ofn",
            question: Question::Lacks(Asked::Individual("x:a"), "x:B"),
            spelling: Spelling::Short,
        },
        max_facts: 9,
        max_bytes: 1000,
        version: Version::One,
    },
    Row {
        case: "types with all options",
        words: &[
            "elc",
            "types",
            "a.ofn",
            "--direct",
            "x:a",
            "--max-bytes",
            "1000",
            "--short",
            "--profile=1",
            "--max-facts=9",
        ],
        command: Command::Ask {
            document: "a.ofn",
            question: Question::DirectTypes("x:a"),
            spelling: Spelling::Short,
        },
        max_facts: 9,
        max_bytes: 1000,
        version: Version::One,
    },
    Row {
        case: "unsatisfiable with all options",
        words: &[
            "elc",
            "unsatisfiable",
            "--short",
            "--max-bytes",
            "1000",
            "--profile=1",
            "--max-facts=9",
            "a.ofn",
        ],
        command: Command::Ask {
            document: "a.ofn",
            question: Question::Unsatisfiable,
            spelling: Spelling::Short,
        },
        max_facts: 9,
        max_bytes: 1000,
        version: Version::One,
    },
    Row {
        case: "explain with all options",
        words: &[
            "elc",
            "explain",
            "--max-facts=9",
            "a.ofn",
            "x:A",
            "x:B",
            "--max-bytes",
            "1000",
            "--profile",
            "1",
        ],
        command: Command::Ask {
            document: "a.ofn",
            question: Question::Why(Asked::Class("x:A"), "x:B", LINES),
            spelling: Spelling::Full,
        },
        max_facts: 9,
        max_bytes: 1000,
        version: Version::One,
    },
];

/// The task that the words give. Here, in `refuses` and in `told` alone is a fault let go, which takes long to prove.
fn taken<'a>(alloc: Global, words: &'a [&'a str]) -> Option<Task<'a>> {
    match invocation(alloc, words) {
        Ok(Invocation::Task(task)) => Some(task),
        _ => None,
    }
}

/// Whether the words give the command within the limits, without progress and lines.
fn is_taken(alloc: Global, row: &Row) -> bool {
    let Some(limits) = Limits::new(row.max_bytes, row.max_facts, row.version) else {
        return false;
    };
    let wanted = Task {
        command: row.command,
        limits,
        progress: false,
        lines: false,
    };
    taken(alloc, row.words) == Some(wanted)
}

#[test]
fn commands_with_and_without_options(rt: HostRuntime) {
    for row in ROWS {
        assert!(rt; is_taken(rt.alloc(), row), "{}", row.case);
    }
}

/// Lines without options that ask, each with its question.
const QUESTIONS: &[(&str, Question<'static>)] = &[
    (
        "elc supers a.ofn x:A",
        Question::Names(Related::Superclasses, "x:A"),
    ),
    (
        "elc subs a.ofn x:A",
        Question::Names(Related::Subclasses, "x:A"),
    ),
    (
        "elc equivalents a.ofn x:A",
        Question::Names(Related::Equivalents, "x:A"),
    ),
    (
        "elc instances a.ofn x:A",
        Question::Names(Related::Instances, "x:A"),
    ),
    (
        "elc parents a.ofn x:A",
        Question::Groups(Side::Above, "x:A"),
    ),
    (
        "elc children a.ofn x:A",
        Question::Groups(Side::Below, "x:A"),
    ),
    (
        "elc explain a.ofn x:A x:B",
        Question::Why(Asked::Class("x:A"), "x:B", LINES),
    ),
    (
        "elc explain a.ofn x:A --dot x:B",
        Question::Why(Asked::Class("x:A"), "x:B", GRAPH),
    ),
    (
        "elc explain a.ofn --reached x:A x:B",
        Question::Why(Asked::Class("x:A"), "x:B", REACHED),
    ),
    (
        "elc explain a.ofn x:A x:B --reached --dot",
        Question::Why(Asked::Class("x:A"), "x:B", GRAPH_REACHED),
    ),
    (
        "elc explain --individual a.ofn x:A x:B",
        Question::Why(Asked::Individual("x:A"), "x:B", LINES),
    ),
    (
        "elc explain a.ofn x:A x:B --individual --dot",
        Question::Why(Asked::Individual("x:A"), "x:B", GRAPH),
    ),
    (
        "elc explain --reached a.ofn x:A x:B --individual",
        Question::Why(Asked::Individual("x:A"), "x:B", REACHED),
    ),
    (
        "elc explain a.ofn x:A x:B --dot --reached --individual",
        Question::Why(Asked::Individual("x:A"), "x:B", GRAPH_REACHED),
    ),
    (
        "elc explain a.ofn x:A --axioms x:B",
        Question::Why(Asked::Class("x:A"), "x:B", AXIOMS),
    ),
    (
        "elc explain a.ofn x:A x:B --axioms --dot --individual --reached",
        Question::Why(Asked::Individual("x:A"), "x:B", ALL_SHOWN),
    ),
    ("elc types a.ofn x:a", Question::Types("x:a")),
    ("elc types --direct a.ofn x:a", Question::DirectTypes("x:a")),
    ("elc unsatisfiable a.ofn", Question::Unsatisfiable),
    (
        "elc lacks a.ofn x:A x:B",
        Question::Lacks(Asked::Class("x:A"), "x:B"),
    ),
    (
        "elc lacks a.ofn x:A --individual x:B",
        Question::Lacks(Asked::Individual("x:A"), "x:B"),
    ),
];

/// Lines that ask with the flag for short names, each with its question.
const SHORT_QUESTIONS: &[(&str, Question<'static>)] = &[
    (
        "elc supers --short a.ofn x:A",
        Question::Names(Related::Superclasses, "x:A"),
    ),
    (
        "elc subs a.ofn --short x:A",
        Question::Names(Related::Subclasses, "x:A"),
    ),
    (
        "elc equivalents a.ofn x:A --short",
        Question::Names(Related::Equivalents, "x:A"),
    ),
    (
        "elc instances a.ofn x:A --short",
        Question::Names(Related::Instances, "x:A"),
    ),
    (
        "elc parents a.ofn x:A --short",
        Question::Groups(Side::Above, "x:A"),
    ),
    (
        "elc children a.ofn --short x:A",
        Question::Groups(Side::Below, "x:A"),
    ),
    (
        "elc explain --short a.ofn x:A x:B --axioms",
        Question::Why(Asked::Class("x:A"), "x:B", AXIOMS),
    ),
    ("elc types a.ofn x:a --short", Question::Types("x:a")),
    ("elc unsatisfiable --short a.ofn", Question::Unsatisfiable),
    (
        "elc lacks a.ofn x:A x:B --short",
        Question::Lacks(Asked::Class("x:A"), "x:B"),
    ),
];

/// Whether the line asks this of the document, with names spelled so, within the greatest limits, without progress
/// and lines.
fn asks(
    alloc: Global,
    line: &str,
    question: Question<'_>,
    spelling: Spelling,
) -> Result<bool, AllocError> {
    let words: Vec<&str> = line.split(' ').collect(alloc)?;
    let Some(limits) = Limits::new(MOST_BYTES, MOST_FACTS, Version::Two) else {
        return Ok(false);
    };
    let wanted = Task {
        command: Command::Ask {
            document: "a.ofn",
            question,
            spelling,
        },
        limits,
        progress: false,
        lines: false,
    };
    Ok(taken(alloc, &words) == Some(wanted))
}

#[test]
fn commands_that_ask(rt: HostRuntime) -> Result<(), Fail> {
    for row in QUESTIONS {
        let (line, question) = *row;
        assert!(rt; asks(rt.alloc(), line, question, Spelling::Full)?, "{line}");
    }
    Ok(())
}

#[test]
fn commands_that_ask_for_short_names(rt: HostRuntime) -> Result<(), Fail> {
    for row in SHORT_QUESTIONS {
        let (line, question) = *row;
        assert!(rt;
            asks(rt.alloc(), line, question, Spelling::Short)?,
            "{line}"
        );
    }
    Ok(())
}

/// Whether the words are refused as a line.
fn refuses(alloc: Global, words: &[&str]) -> Result<bool, AllocError> {
    match invocation(alloc, words) {
        Ok(_) => Ok(false),
        Err(LineFault::Line(_)) => Ok(true),
        Err(LineFault::Memory) => Err(AllocError),
    }
}

/// Whether the words after the program's name are refused as a line.
fn is_refused(alloc: Global, line: &str) -> Result<bool, AllocError> {
    let words: Vec<&str> = line.split(' ').collect(alloc)?;
    refuses(alloc, &words)
}

const REFUSED: &[&str] = &[
    "elc",
    "elc --help",
    "elc help",
    "elc check --help",
    "elc clasify a b c d",
    "elc classify a b c",
    "elc classify a b c d e",
    "elc classify a b c d --max-facts",
    "elc classify a b c d --max-facts 0",
    "elc classify a b c d --max-facts 100000001",
    "elc classify a b c d --max-facts -1",
    "elc classify a b c d --max-facts many",
    "elc classify a b c d --max-facts 1 --max-facts 1",
    "elc classify a b c d --max-bytes 0",
    "elc classify a b c d --max-bytes 268435457",
    "elc classify a b c d --max-bytes 18446744073709551617",
    "elc classify a b c d --max-bytes 1 --max-bytes=2",
    "elc classify a b c d --most 1",
    "elc classify a b c d --profile",
    "elc classify a b c d --profile 0",
    "elc classify a b c d --profile 3",
    "elc classify a b c d --profile 1 --profile 1",
    "elc classify a b c d --format",
    "elc classify a b c d --format 0",
    "elc classify a b c d --format 3",
    "elc classify a b c d --format two",
    "elc classify a b c d --format 1 --format 1",
    "elc check a b c",
    "elc check a b c d e",
    "elc check a b c d --max-facts 1",
    "elc check a b c d --max-bytes 0",
    "elc check a b c d --max-bytes 2 --max-bytes 2",
    "elc check a b c d --profile 3",
    "elc check a b c d --profile two",
    "elc check a b c d --format 1",
    "elc convert a b",
    "elc convert a b c d",
    "elc convert a b c --format 0",
    "elc convert a b c --format 3",
    "elc convert a b c --format=1 --format=2",
    "elc convert a b c --max-facts 1",
    "elc convert a b c --max-bytes 0",
    "elc convert a b c --profile 3",
    "elc convert --help",
    "elc restrict a",
    "elc restrict a b c",
    "elc restrict a b --max-facts 1",
    "elc restrict a b --max-bytes 0",
    "elc restrict a b --lines --lines",
    "elc check a b c d --lines --lines",
    "elc session a --lines=true",
    "elc infer",
    "elc infer a",
    "elc infer a b c",
    "elc infer a b --max-facts",
    "elc infer a b --max-facts 0",
    "elc infer a b --max-facts 100000001",
    "elc infer a b --max-facts 1 --max-facts 1",
    "elc infer a b --max-bytes 0",
    "elc infer a b --max-bytes 268435457",
    "elc infer a b --profile 3",
    "elc infer a b --format 1",
    "elc infer a b --progress",
    "elc infer --help",
    "elc inferred a b",
    "elc instances a",
    "elc instances a b c",
    "elc instances a b --dot",
    "elc instances a b --max-facts 0",
    "elc instances a b --max-bytes 268435457",
    "elc instances a b --profile 3",
    "elc instances a b --format 2",
    "elc supers a",
    "elc supers a b c",
    "elc supers --help",
    "elc superclasses a b",
    "elc subs a",
    "elc subs a b --max-facts 100000001",
    "elc equivalents a",
    "elc equivalents a b --individual",
    "elc parents a",
    "elc parents a b --progress",
    "elc children a",
    "elc children a b c",
    "elc children a b --reached",
    "elc explain a b",
    "elc explain a b --individual",
    "elc explain a b c d",
    "elc explain a b c --dot --dot",
    "elc explain a b c --individual=true",
    "elc explain a b c --max-facts 100000001",
    "elc explain a b c --max-bytes 0",
    "elc explain a b c --profile=0",
    "elc explain a b c --format 2",
    "elc explain --help",
    "elc explain a b c --axioms --axioms",
    "elc explain a b c --short=yes",
    "elc explain a b c --direct",
    "elc explain --version",
    "elc lacks a b",
    "elc lacks a b --individual",
    "elc lacks a b c d",
    "elc lacks a b c --dot",
    "elc lacks a b c --axioms",
    "elc lacks a b c --short --short",
    "elc lacks a b c --max-facts 0",
    "elc lacks a b c --profile 3",
    "elc lacks --help",
    "elc types a",
    "elc types a b c",
    "elc types a b --individual",
    "elc types a b --direct --direct",
    "elc types a b --max-bytes 268435457",
    "elc types --help",
    "elc unsatisfiable",
    "elc unsatisfiable a b",
    "elc unsatisfiable a --direct",
    "elc unsatisfiable a --progress",
    "elc unsatisfiable a --max-facts 100000001",
    "elc unsatisfiable --help",
    "elc instances a b --short --short",
    "elc classify a b c d --short",
    "elc check a b c d --short",
    "elc session a --short",
    "elc infer a b --short",
    "elc -v",
    "elc version",
    "elc check --version",
    "elc query a",
    "elc query a b c",
    "elc query a b --dot",
    "elc query a b --individual",
    "elc query a b --max-facts 0",
    "elc query a b --max-facts 9 --max-facts 9",
    "elc query a b --max-bytes 268435457",
    "elc query a b --profile 18446744073709551617",
    "elc query a b --format 1",
    "elc query --help",
];

#[test]
fn lines_that_are_refused(rt: HostRuntime) -> Result<(), Fail> {
    for line in REFUSED {
        assert!(rt; is_refused(rt.alloc(), line)?, "{line}");
    }
    Ok(())
}

const TAKEN: &[&str] = &[
    "elc classify a b c d --max-facts 1 --max-bytes 1",
    "elc classify a b c d --max-facts 100000000 --max-bytes 268435456",
    "elc check a b c d --max-bytes 1",
    "elc instances a b --max-facts 100000000 --max-bytes 1",
    "elc parents a b --max-facts 1 --max-bytes 268435456 --profile 1",
    "elc explain a b c --max-facts 1 --max-bytes 268435456",
    "elc query a b --max-facts 1 --max-bytes 268435456",
    "elc query a b --max-facts 100000000 --max-bytes 1",
    "elc classify a b c d --profile 1",
    "elc classify a b c d --profile 2",
    "elc check a b c d --profile 1",
    "elc check a b c d --profile 2",
    "elc instances a b --profile 1",
    "elc explain a b c --profile 2",
    "elc query a b --profile 2",
    "elc classify a b c d --format 1",
    "elc classify a b c d --format 2",
    "elc convert a b c --format 1 --max-bytes 1",
    "elc convert a b c --format 2 --max-bytes 268435456",
    "elc restrict a b --max-bytes 1 --profile 1",
    "elc infer a b --max-facts 1 --max-bytes 268435456 --profile 1",
    "elc infer a b --max-facts 100000000 --max-bytes 1 --profile 2",
];

#[test]
fn a_number_at_either_end_is_taken(rt: HostRuntime) -> Result<(), Fail> {
    for line in TAKEN {
        assert!(rt; !is_refused(rt.alloc(), line)?, "{line}");
    }
    Ok(())
}

/// The examples that help ends in.
const EXAMPLES: &[&str] = &[
    "elc classify food.ofn food.tax food.inst food.cert",
    "elc check food.ofn food.tax food.inst food.cert",
    "elc convert food.ofn food.cert food1.cert --format 1",
    "elc restrict food.ofn kept.ofn",
    "elc infer food.ofn inferred.ofn",
    "elc instances food.ofn http://example.org/Pizza",
    "elc parents food.ofn http://example.org/Pizza",
    "elc types food.ofn http://example.org/margherita --direct",
    "elc unsatisfiable food.ofn",
    "elc explain food.ofn http://example.org/Pizza http://example.org/Food --axioms --short",
    "elc explain food.ofn http://example.org/margherita http://example.org/Pizza --individual",
    "elc lacks food.ofn http://example.org/Pizza http://example.org/NutDish",
];

/// The example of a query, whose expression is one word without the quotation marks.
const QUERY_EXAMPLE: &str = "elc query food.ofn 'ObjectSomeValuesFrom(:contains :Nut)'";

const QUERY_EXAMPLE_WORDS: &[&str] = &[
    "elc",
    "query",
    "food.ofn",
    "ObjectSomeValuesFrom(:contains :Nut)",
];

/// What is told of the words.
fn told(alloc: Global, line: &str) -> Result<String, Fail> {
    let words: Vec<&str> = line.split(' ').collect(alloc)?;
    match invocation(alloc, &words) {
        Err(LineFault::Memory) => Err(Fail::from("no memory")),
        Err(fault) => Ok(format!(in alloc; "{fault}")?),
        Ok(_) => Err(Fail::from("a task")),
    }
}

/// Whether the help has the example, which is taken.
fn is_example(alloc: Global, help: &str, line: &str) -> Result<bool, AllocError> {
    Ok(help.contains(line) && !is_refused(alloc, line)?)
}

#[test]
fn help_has_examples_that_are_taken(rt: HostRuntime) -> Result<(), Fail> {
    let help = told(rt.alloc(), "elc --help")?;
    for line in EXAMPLES {
        assert!(rt; is_example(rt.alloc(), help.as_str(), *line)?, "{line}");
    }
    assert!(rt; help.as_str().contains(QUERY_EXAMPLE));
    assert!(rt; taken(rt.alloc(), QUERY_EXAMPLE_WORDS).is_some());
    Ok(())
}

/// Words that are refused, and what is told of them.
const TOLD: &[(&str, &str)] = &[
    ("elc", "Usage: elc <COMMAND>"),
    ("elc clasify a b c d", "unrecognized subcommand 'clasify'"),
    (
        "elc superclasses a b",
        "unrecognized subcommand 'superclasses'",
    ),
    ("elc check a b c", "<CERT>"),
    ("elc infer a", "<OUT>"),
    ("elc children a", "<CLASS>"),
    ("elc query a", "<EXPRESSION>"),
    ("elc classify a b c d e", "unexpected argument 'e'"),
    ("elc infer a b c", "unexpected argument 'c'"),
    ("elc infer a b --format 1", "unexpected argument '--format'"),
    (
        "elc infer a b --progress",
        "unexpected argument '--progress'",
    ),
    ("elc infer --help", "infer [OPTIONS] <DOC> <OUT>"),
    (
        "elc session --help",
        "Tells the line and the column of each fault of the document",
    ),
    (
        "elc --help",
        "Writes the inferred axioms of DOC as a document to OUT",
    ),
    ("elc --help", "Print version"),
    ("elc lacks a b", "<SUPER>"),
    ("elc types a", "<INDIVIDUAL>"),
    ("elc unsatisfiable", "<DOC>"),
    ("elc types --help", "types [OPTIONS] <DOC> <INDIVIDUAL>"),
    ("elc check a b c d --short", "unexpected argument '--short'"),
    ("elc check --version", "unexpected argument '--version'"),
    ("elc classify a b c d --max-facts 0", "'0' for '--max-facts"),
    ("elc check a b c d --profile 3", "'3' for '--profile"),
];

#[test]
fn what_is_told_of_wrong_words(rt: HostRuntime) -> Result<(), Fail> {
    for row in TOLD {
        let (line, part) = *row;
        let text = told(rt.alloc(), line)?;
        assert!(rt; text.as_str().contains(part), "{line}: {text}");
    }
    Ok(())
}

/// Lines that ask for the version, what comes behind them notwithstanding.
const VERSION_LINES: &[&str] = &[
    "elc --version",
    "elc -V",
    "elc -V --help",
    "elc --version check a b c d",
    "elc --version --no-such-option",
];

/// Whether the line asks for the version.
fn asks_version(alloc: Global, line: &str) -> Result<bool, AllocError> {
    let words: Vec<&str> = line.split(' ').collect(alloc)?;
    match invocation(alloc, &words) {
        Ok(invocation) => Ok(invocation == Invocation::Version),
        Err(LineFault::Line(_)) => Ok(false),
        Err(LineFault::Memory) => Err(AllocError),
    }
}

#[test]
fn lines_that_ask_for_the_version(rt: HostRuntime) -> Result<(), Fail> {
    for line in VERSION_LINES {
        assert!(rt; asks_version(rt.alloc(), line)?, "{line}");
    }
    assert!(rt; !asks_version(rt.alloc(), "elc --help --version")?);
    assert!(rt; !asks_version(rt.alloc(), "elc check --version")?);
    Ok(())
}

/// Words, and whether they ask for progress.
const PROGRESS: &[(&[&str], bool)] = &[
    (
        &[
            "elc",
            "classify",
            "--progress",
            "a.ofn",
            "a.tax",
            "a.inst",
            "a.cert",
        ],
        true,
    ),
    (
        &[
            "elc",
            "check",
            "a.ofn",
            "a.tax",
            "a.inst",
            "a.cert",
            "--progress",
        ],
        true,
    ),
    (&["elc", "session", "a.ofn", "--progress"], true),
    (&["elc", "session", "a.ofn"], false),
];

/// Whether the words ask for progress, where they give a task.
fn progress_of(alloc: Global, words: &[&str]) -> Option<bool> {
    Some(taken(alloc, words)?.progress)
}

#[test]
fn progress_where_its_flag_stands(rt: HostRuntime) {
    for row in PROGRESS {
        let (words, progress) = *row;
        assert!(rt; progress_of(rt.alloc(), words) == Some(progress));
    }
}

/// Lines of words, and whether they ask for lines and columns.
const ASKED_LINES: &[(&str, bool)] = &[
    ("elc classify a b c d --lines", true),
    ("elc classify a b c d", false),
    ("elc check --lines a b c d", true),
    ("elc convert a b c --lines --format 1", true),
    ("elc infer a b --lines", true),
    ("elc instances a b --lines", true),
    ("elc explain a b c --axioms --lines", true),
    ("elc lacks a b c --lines", true),
    ("elc types a b --lines --direct", true),
    ("elc unsatisfiable --lines a", true),
    ("elc query a b --lines", true),
    ("elc query a b", false),
    ("elc session a --progress --lines", true),
    ("elc restrict a b --lines", true),
    ("elc restrict a b", false),
];

/// What the task of the words says of lines, and the path of its document, where they give one.
fn lined(alloc: Global, line: &str) -> Result<Option<(bool, bool)>, AllocError> {
    let words: Vec<&str> = line.split(' ').collect(alloc)?;
    match taken(alloc, &words) {
        Some(task) => Ok(Some((task.lines, task.command.document() == "a"))),
        None => Ok(None),
    }
}

#[test]
fn lines_where_their_flag_stands(rt: HostRuntime) -> Result<(), Fail> {
    for row in ASKED_LINES {
        let (line, lines) = *row;
        assert!(rt; lined(rt.alloc(), line)? == Some((lines, true)), "{line}");
    }
    Ok(())
}
