//! Commands.
ghost use Rattle.speech.specs.Commands.{payload_size, writing_of};
ghost use Rattle.std.specs.Prelude.{◌≡◌};

use program::{Question, Spelling};

/// The paths of the files of the three texts of a classification.
#[derive(Clone, Copy, PartialEq, Eq)]
pub struct TextPaths<'l> {
    pub taxonomy: &'l str,
    pub instances: &'l str,
    pub certificate: &'l str,
}

/// What a command asks to write into files.
#[derive(Clone, Copy, PartialEq, Eq)]
pub enum Writing<'l> {
    /// The texts of a classification.
    Texts(TextPaths<'l>),
    /// What follows from the axioms, as a document.
    Inferred(&'l str),
}

/// What is asked of a session. Names are IRIs without brackets.
#[derive(Clone, Copy, PartialEq, Eq)]
pub enum Command<'l> {
    /// To add the statements of a text of so many bytes.
    Add(u64),
    /// To find out what follows.
    Run,
    /// To find out what follows, as far as so many facts more than there are.
    RunSome(u32),
    /// To answer the question, with names that are spelled so.
    Ask(Question<'l>, Spelling),
    /// The names of the class expression of a text of so many bytes.
    Query(u64),
    /// Whether the axioms of a text of so many bytes follow.
    Entails(u64),
    /// To write the texts of the classification into files.
    Write(TextPaths<'l>),
    /// To write what follows from the axioms into the file at the path, as a document.
    Infer(&'l str),
    /// The axiom of that number, counted from 1 as explanations cite it, with names that are spelled so.
    Axiom(u64, Spelling),
    /// How many facts there are, how many are served, and how many bytes.
    Status,
    /// Of which version the language and the program are.
    Version,
}

impl<'l> Command<'l> {
    /// How many bytes follow the line of the command, where some do.
    pub fn payload_size(&self) -> Option<u64>
        ensures { result ≡ payload_size self.now }
    {
        match self {
            Command::Add(size) => Some(*size),
            Command::Query(size) => Some(*size),
            Command::Entails(size) => Some(*size),
            _ => None,
        }
    }

    /// What the command asks to write into which files, where it asks for that.
    pub fn writing(&self) -> Option<Writing<'l>>
        ensures { result ≡ writing_of self.now }
    {
        match self {
            Command::Write(paths) => Some(Writing::Texts(*paths)),
            Command::Infer(path) => Some(Writing::Inferred(*path)),
            _ => None,
        }
    }
}
