//! Tasks, and why words are none.
ghost use Rattle.command_line.specs.CommandLine.{document_of};
ghost use Rattle.std.specs.Prelude.{◌≡◌};

use program::{Limits, Question, Spelling};
use thiserror::Error;

/// The files that a task reads or writes.
#[derive(Clone, Copy, PartialEq, Eq)]
pub struct Paths<'a> {
    pub document: &'a str,
    pub taxonomy: &'a str,
    pub instances: &'a str,
    pub certificate: &'a str,
}

/// The number of the format that a certificate is written in.
#[derive(Clone, Copy, Debug, PartialEq, Eq)]
pub enum FormatNumber {
    One,
    Two,
}

/// A certificate that is written again in a format.
#[derive(Clone, Copy, PartialEq, Eq)]
pub struct Conversion<'a> {
    pub document: &'a str,
    pub certificate: &'a str,
    /// The file that is written.
    pub output: &'a str,
    pub format: FormatNumber,
}

/// What the program is asked to do.
#[derive(Clone, Copy, PartialEq, Eq)]
pub enum Command<'a> {
    /// Classify the document and write the other three files, the certificate in the format.
    Classify {
        paths: Paths<'a>,
        format: FormatNumber,
    },
    /// Check the other three files against the document.
    Check(Paths<'a>),
    /// Write the certificate again.
    Convert(Conversion<'a>),
    /// Write what of the document is of the profile.
    Restrict {
        document: &'a str,
        /// The file that is written.
        output: &'a str,
    },
    /// Write the inferred axioms of the document.
    Infer {
        document: &'a str,
        /// The file that is written.
        output: &'a str,
    },
    /// Answer the question, with names spelled so.
    Ask {
        document: &'a str,
        question: Question<'a>,
        spelling: Spelling,
    },
    /// Answer a query of a class expression, with names spelled so.
    Query {
        document: &'a str,
        expression: &'a str,
        spelling: Spelling,
    },
    /// Keep the document, and answer commands that are read.
    Session {
        document: &'a str,
    },
}

impl<'a> Command<'a> {
    /// The path of the document.
    pub fn document(&self) -> &'a str
        ensures { result.now ≡ document_of self.now }
    {
        match self {
            Command::Classify { paths, .. } | Command::Check(paths) => paths.document,
            Command::Convert(conversion) => conversion.document,
            Command::Restrict { document, .. }
            | Command::Infer { document, .. }
            | Command::Ask { document, .. }
            | Command::Query { document, .. }
            | Command::Session { document } => document,
        }
    }
}

/// What the program is asked to do, within which limits, whether it tells its progress, and how it tells faults of the document.
#[derive(Clone, Copy, PartialEq, Eq)]
pub struct Task<'a> {
    pub command: Command<'a>,
    /// A check, a conversion and a restriction draw no facts, and have the greatest limit of them.
    pub limits: Limits,
    /// Only a classification, a check and a session tell it.
    pub progress: bool,
    /// Whether faults of the document are told with their lines and columns.
    pub lines: bool,
}

/// What the words of the program ask for.
#[derive(Clone, Copy, PartialEq, Eq)]
pub enum Invocation<'a> {
    /// To do the task.
    Task(Task<'a>),
    /// To tell the version of the program.
    Version,
}

/// Why the words are no task.
#[derive(Debug, Drop, Error)]
pub enum LineFault {
    /// The words are refused, or ask for help: what to tell the user.
    #[error(transparent)]
    Line(clap::Error),
    /// Memory was refused.
    #[error("out of memory")]
    Memory,
}
