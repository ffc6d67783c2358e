//! What a task asks for, as runs.
ghost use Rattle.cli.specs.Tasks.{reading_of};
ghost use Rattle.std.specs.Prelude.{◌≡◌};

use crate::asking::{AskRun, QueryRun};
use crate::classifying::ClassifyRun;
use crate::inferring::InferRun;
use crate::speaking::SessionRun;
use command_line::{Conversion, FormatNumber, Paths, Task};
use program::{Question, Spelling};
use receiving::{CheckRun, ConversionRun, Means, Reading};
use restricting::RestrictRun;

/// A task, and the means that it is done by.
#[derive(Clone, Copy)]
pub(crate) struct TaskRun<'a> {
    pub means: Means,
    pub task: Task<'a>,
}

impl<'a> TaskRun<'a> {
    /// How the document at the path is read.
    pub(crate) fn reading(&self, path: &'a str) -> Reading<'a>
        ensures { result ≡ reading_of self.now path.entry }
    {
        Reading {
            means: self.means,
            path,
            limits: self.task.limits,
        }
    }

    /// The classification that writes into these files, the certificate in the format.
    pub(crate) fn classification(&self, paths: Paths<'a>, format: FormatNumber) -> ClassifyRun<'a>
        ensures { result ≡ record { means = self.now.means; paths = paths.entry; format = format; limits = self.now.task.limits; progress = self.now.task.progress } }
    {
        ClassifyRun {
            means: self.means,
            paths,
            format,
            limits: self.task.limits,
            progress: self.task.progress,
        }
    }

    /// The check of these files.
    pub(crate) fn check(&self, paths: Paths<'a>) -> CheckRun<'a>
        ensures { result ≡ record { means = self.now.means; paths = paths.entry; limits = self.now.task.limits; progress = self.now.task.progress } }
    {
        CheckRun {
            means: self.means,
            paths,
            limits: self.task.limits,
            progress: self.task.progress,
        }
    }

    /// The conversion, within the limits of the task.
    pub(crate) fn conversion(&self, conversion: Conversion<'a>) -> ConversionRun<'a>
        ensures { result ≡ record { means = self.now.means; conversion = conversion.entry; limits = self.now.task.limits } }
    {
        ConversionRun {
            means: self.means,
            conversion,
            limits: self.task.limits,
        }
    }

    /// The restriction of the document into the other file.
    pub(crate) fn restriction(&self, document: &'a str, output: &'a str) -> RestrictRun<'a>
        ensures { result ≡ record { reading = reading_of self.now document.entry; output = output.entry; lines = self.now.task.lines } }
    {
        RestrictRun {
            reading: self.reading(document),
            output,
            lines: self.task.lines,
        }
    }

    /// What is inferred of the document, into the other file.
    pub(crate) fn inference(&self, document: &'a str, output: &'a str) -> InferRun<'a>
        ensures { result ≡ record { reading = reading_of self.now document.entry; output = output.entry } }
    {
        let reading = self.reading(document);
        InferRun { reading, output }
    }

    /// The question about the document.
    pub(crate) fn question(
        &self,
        document: &'a str,
        question: Question<'a>,
        spelling: Spelling,
    ) -> AskRun<'a>
        ensures { result ≡ record { reading = reading_of self.now document.entry; question = question.entry; spelling = spelling } }
    {
        AskRun {
            reading: self.reading(document),
            question,
            spelling,
        }
    }

    /// The query of the class expression, by the document.
    pub(crate) fn query(
        &self,
        document: &'a str,
        expression: &'a str,
        spelling: Spelling,
    ) -> QueryRun<'a>
        ensures { result ≡ record { reading = reading_of self.now document.entry; expression = expression.entry; spelling = spelling } }
    {
        QueryRun {
            reading: self.reading(document),
            expression,
            spelling,
        }
    }

    /// The session over the document.
    pub(crate) fn session(&self, document: &'a str) -> SessionRun<'a>
        ensures { result ≡ record { reading = reading_of self.now document.entry; progress = self.now.task.progress } }
    {
        SessionRun {
            reading: self.reading(document),
            progress: self.task.progress,
        }
    }
}
