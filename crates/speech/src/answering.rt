//! What a session answers, as replies.
ghost use Rattle.speech.specs.Answers.{IsAskTold, IsDoneWith, IsEntailedTold, IsEntailsTold, IsFaultTold, IsFoundTold, IsQueryTold, Tells, consistency as word_of, entailment, found, unfiled, unfinished, unknown_told};
ghost use Rattle.std.specs.Prelude.{◌≡◌};

use crate::messages::question_message;
use crate::reply::Reply;
use device::Memory;
use profile::{DocumentFault, Limits};
use program::Status;
use session::{Answers, AskFault, EntailsFault, QueryFault, QuestionFault, lines_of_answers};
use std::alloc::Global;

/// The reply that a command is done, with its answer.
pub(crate) fn done_reply(text: Vec<u8>) -> Reply
    ensures status { result.status ≡ Status.Done }
    ensures text { result.text ≡ text }
{
    Reply {
        status: Status::Done,
        text,
    }
}

/// The same, where there was memory for the answer.
pub(crate) fn done_with(text: Result<Vec<u8>, Memory>) -> Result<Reply, Memory>
    ensures { Tells (IsDoneWith text) result }
{
    match text {
        Ok(text) => Ok(done_reply(text)),
        Err(_) => Err(Memory),
    }
}

/// Whether axioms have an interpretation, as a word.
pub fn consistency(consistent: bool) -> &'static str
    ensures { result.now ≡ word_of consistent }
{
    if consistent {
        "consistent"
    } else {
        "inconsistent"
    }
}

/// The reply that a question is not answered.
pub(crate) fn fault_reply(
    alloc: Global,
    limits: &Limits,
    fault: &QuestionFault<'_>,
) -> Result<Reply, Memory>
    ensures { Tells (IsFaultTold limits.now fault.now) result }
{
    match question_message(alloc, fault, "", limits) {
        Ok(message) => Ok(Reply {
            status: message.status,
            text: message.text.into_bytes(),
        }),
        Err(_) => Err(Memory),
    }
}

/// The reply where facts are pending.
pub fn unfinished_reply(alloc: Global) -> Result<Reply, Memory>
    ensures { Tells (λ t. t ≡ unfinished) result }
{
    match b"not run to its end\n".to_vec(alloc) {
        Ok(text) => Ok(Reply {
            status: Status::Usage,
            text,
        }),
        Err(_) => Err(Memory),
    }
}

/// The reply where texts are to be written, and there are no files.
pub(crate) fn unfiled_reply(alloc: Global) -> Result<Reply, Memory>
    ensures { Tells (λ t. t ≡ unfiled) result }
{
    match b"no files are written here\n".to_vec(alloc) {
        Ok(text) => Ok(Reply {
            status: Status::Usage,
            text,
        }),
        Err(_) => Err(Memory),
    }
}

/// The reply to a question about names that is not answered.
pub(crate) fn ask_reply(
    alloc: Global,
    limits: &Limits,
    fault: AskFault<'_>,
) -> Result<Reply, Memory>
    ensures { Tells (IsAskTold limits.now fault.entry) result }
{
    match fault {
        AskFault::Unfinished => unfinished_reply(alloc),
        AskFault::UnknownName(name) => {
            fault_reply(alloc, limits, &QuestionFault::UnknownName(name))
        }
        AskFault::Memory => Err(Memory),
    }
}

/// The reply to a query that is not answered.
fn query_reply(alloc: Global, limits: &Limits, fault: QueryFault) -> Result<Reply, Memory>
    ensures { Tells (IsQueryTold limits.now fault) result }
{
    match fault {
        QueryFault::Unfinished => unfinished_reply(alloc),
        QueryFault::Expression(fault) => {
            fault_reply(alloc, limits, &QuestionFault::Expression(fault))
        }
        QueryFault::Limit => fault_reply(alloc, limits, &QuestionFault::Limit),
        QueryFault::Memory => Err(Memory),
    }
}

/// The reply with the names of a class expression.
pub(crate) fn found_reply(
    alloc: Global,
    limits: &Limits,
    answers: Result<Answers<'_>, QueryFault>,
) -> Result<Reply, Memory>
    ensures { Tells (IsFoundTold limits.now (found answers.entry)) result }
{
    match answers {
        Ok(answers) => done_with(lines_of_answers(alloc, &answers)),
        Err(fault) => query_reply(alloc, limits, fault),
    }
}

/// The reply that the session lacks the name.
fn unknown_reply(alloc: Global, name: &str) -> Result<Reply, Memory>
    ensures { Tells (λ t. t ≡ unknown_told name.now) result }
{
    match format!(in alloc; "unknown name <{name}>\n") {
        Ok(text) => Ok(Reply {
            status: Status::Usage,
            text: text.into_bytes(),
        }),
        Err(_) => Err(Memory),
    }
}

/// The reply where it is not told whether axioms follow.
fn entails_reply(alloc: Global, limits: &Limits, fault: EntailsFault) -> Result<Reply, Memory>
    ensures { Tells (IsEntailsTold limits.now fault) result }
{
    match fault {
        EntailsFault::Unfinished => unfinished_reply(alloc),
        EntailsFault::Statements(fault) => {
            fault_reply(alloc, limits, &QuestionFault::Expression(fault))
        }
        EntailsFault::UnknownName(name) => unknown_reply(alloc, name.as_str()),
        EntailsFault::TooManyNames => {
            let fault = QuestionFault::Expression(DocumentFault::TooManyNames);
            fault_reply(alloc, limits, &fault)
        }
        EntailsFault::Limit => fault_reply(alloc, limits, &QuestionFault::Limit),
        EntailsFault::Memory => Err(Memory),
    }
}

/// Whether axioms follow, as a line.
fn entailment_line(entailed: bool) -> &'static [u8]
    ensures { result.now ≡ entailment entailed }
{
    if entailed { b"yes\n" } else { b"no\n" }
}

/// The reply whether axioms follow.
pub(crate) fn entailed_reply(
    alloc: Global,
    limits: &Limits,
    entailed: Result<bool, EntailsFault>,
) -> Result<Reply, Memory>
    ensures { Tells (IsEntailedTold limits.now entailed) result }
{
    match entailed {
        Ok(entailed) => match entailment_line(entailed).to_vec(alloc) {
            Ok(text) => Ok(done_reply(text)),
            Err(_) => Err(Memory),
        },
        Err(fault) => entails_reply(alloc, limits, fault),
    }
}
