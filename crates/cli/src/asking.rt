//! Runs that answer a question about a document.
ghost use Rattle.answers.specs.Questions.{names_in};
ghost use Rattle.cli.specs.Files.{AsksFile};
ghost use Rattle.cli.specs.Runs.{IsQuestionTold, Runs, answer_status as status_with};
ghost use Rattle.telling.specs.Printing.{outputs};
ghost use Rattle.session.specs.TextAnswers.{AnswersQuery, AnswersQuestion, IsFaultOf, IsQueryFaultOf};
ghost use Rattle.std.specs.Prelude.{◌≡◌, IfErr, IfOk};

use command_line::Command;
use device::Sink;
use profile::DocumentFault;
use program::{Question, Spelling, Status};
use receiving::{Reading, source_of};
use session::{QuestionFault, query_text, question_text};
use speech::question_message;
use system_files::Files;
use telling::{print_bytes, tell};

/// A question about a document.
#[derive(Clone, Copy)]
pub(crate) struct AskRun<'a> {
    pub reading: Reading<'a>,
    pub question: Question<'a>,
    pub spelling: Spelling,
}

/// A query of a class expression, by a document.
#[derive(Clone, Copy)]
pub(crate) struct QueryRun<'a> {
    pub reading: Reading<'a>,
    pub expression: &'a str,
    pub spelling: Spelling,
}

/// The status that goes with the answer, where it is one: unsatisfiable classes are a rejection.
fn answer_status(question: Question<'_>, answer: &Result<Vec<u8>, QuestionFault<'_>>) -> Status
    ensures { result ≡ status_with question.entry answer.now }
{
    match (question, answer) {
        (Question::Unsatisfiable, Ok(text)) => {
            if text.is_empty() {
                Status::Done
            } else {
                Status::Rejected
            }
        }
        _ => Status::Done,
    }
}

/// Prints the answer, with the status that it has, or why there is none to a question about the document.
fn tell_answer<O: Sink, E: Sink>(
    reading: &Reading<'_>,
    answer: Result<Vec<u8>, QuestionFault<'_>>,
    done: Status,
    out: &mut O,
    err: &mut E,
) -> u8
    ensures { IsQuestionTold reading.now.path.now reading.now.limits done answer.entry (outputs O.Sink E.Sink out.old err.old) (outputs O.Sink E.Sink out.new err.new) result }
{
    match answer {
        Ok(text) => print_bytes(out, &text, done),
        Err(fault) => tell(
            err,
            question_message(reading.means.alloc, &fault, reading.path, &reading.limits),
        ),
    }
}

/// The answer to the question, by the document.
fn answer_in<'n, F: Files>(run: &AskRun<'n>, files: &F) -> Result<Vec<u8>, QuestionFault<'n>>
    ensures answered { IfOk result (λ v. AnswersQuestion run.now.reading.limits (F.content files.now run.now.reading.path.now) run.now.question run.now.spelling v.items) }
    ensures fault { IfErr result (IsFaultOf run.now.reading.limits (F.content files.now run.now.reading.path.now) (names_in run.now.question)) }
    ensures blames { AsksFile F.reads_fail (F.is_known files.now) (F.content files.now run.now.reading.path.now) result }
{
    let reading = &run.reading;
    let Ok(mut document) = source_of(files, reading.path) else {
        return Err(QuestionFault::Document(DocumentFault::Memory));
    };
    question_text(
        reading.means.alloc,
        &mut document,
        run.question,
        run.spelling,
        &reading.limits,
        reading.means.state,
    )
}

/// Prints the answer to the question, by the document.
pub(crate) fn perform_ask<F: Files, O: Sink, E: Sink>(
    run: &AskRun<'_>,
    files: &F,
    out: &mut O,
    err: &mut E,
) -> u8
    ensures { Runs F.Files O.Sink E.Sink (Command.Ask run.now.reading.path run.now.question run.now.spelling) run.now.reading.limits
        (files.now, out.old, err.old) (files.now, out.new, err.new) result }
{
    let answer = answer_in(run, files);
    let done = answer_status(run.question, &answer);
    tell_answer(&run.reading, answer, done, out, err)
}

/// The lines that answer the query, by the document.
fn query_in<F: Files>(run: &QueryRun<'_>, files: &F) -> Result<Vec<u8>, QuestionFault<'static>>
    ensures answered { IfOk result (λ v. AnswersQuery run.now.reading.limits (F.content files.now run.now.reading.path.now) run.now.expression.now run.now.spelling v.items) }
    ensures fault { IfErr result (IsQueryFaultOf run.now.reading.limits (F.content files.now run.now.reading.path.now) run.now.expression.now) }
    ensures blames { AsksFile F.reads_fail (F.is_known files.now) (F.content files.now run.now.reading.path.now) result }
{
    let reading = &run.reading;
    let Ok(mut document) = source_of(files, reading.path) else {
        return Err(QuestionFault::Document(DocumentFault::Memory));
    };
    query_text(
        reading.means.alloc,
        &mut document,
        run.expression,
        run.spelling,
        &reading.limits,
        reading.means.state,
    )
}

/// Prints the classes above and below the class expression, and its individuals.
pub(crate) fn perform_query<F: Files, O: Sink, E: Sink>(
    run: &QueryRun<'_>,
    files: &F,
    out: &mut O,
    err: &mut E,
) -> u8
    ensures { Runs F.Files O.Sink E.Sink (Command.Query run.now.reading.path run.now.expression run.now.spelling) run.now.reading.limits
        (files.now, out.old, err.old) (files.now, out.new, err.new) result }
{
    let answer = query_in(run, files);
    tell_answer(&run.reading, answer, Status::Done, out, err)
}
