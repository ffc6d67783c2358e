//! The answers to questions about a document.
ghost use Rattle.answers.specs.Questions.{IsAnswerTo, names_in};
ghost use Rattle.engine.specs.Saturations.{IsFinished};
ghost use Rattle.profile.specs.declared.fault.DocumentFault.TheVariants as reading;
ghost use Rattle.session.specs.Sessions.{as_read};
ghost use Rattle.session.specs.TextAnswers.{AnswersIn, AnswersQuestion, IsFaultOf, IsRead, IsSpelledAnswer};
ghost use Rattle.session.specs.Texts.{IsUnanswered};
ghost use Rattle.session.specs.declared.question_fault.QuestionFault.TheVariants as asking;
ghost use Rattle.source_lines.specs.Sources.{source_state};
ghost use Rattle.std.specs.Prelude.{◌+◌, ◌<◌, IfErr, IfOk, IsErrOf};

use crate::fault::AskFault;
use crate::opening::run_session;
use crate::question_fault::QuestionFault;
use crate::run_fault::as_question_fault;
use crate::session::Session;
use crate::shown::answer_text;
use crate::spelling::is_graph;
use answers::Answer;
use axioms::Memory;
use device::Source;
use program::{Limits, Question, Spelling};
use std::alloc::Global;
use std::hash::RandomState;

/// The text of the answer, with names spelled so.
fn spelled_text(
    alloc: Global,
    session: &Session,
    question: Question<'_>,
    answer: &Answer<'_>,
    spelling: Spelling,
) -> Result<Vec<u8>, Memory>
    requires { IsAnswerTo session.now.ontology question answer.now }
    ensures { IfOk result (λ v. IsSpelledAnswer session.now.prefixes spelling session.now.ontology question.entry answer.now v.items) }
{
    let text = answer_text(alloc, session.ontology(), question, answer)?;
    session.spelled(text, spelling, is_graph(question))
}

/// The text of the answer, by a session that is run to its end.
fn answered<'n>(
    alloc: Global,
    session: &Session,
    question: Question<'n>,
    spelling: Spelling,
) -> Result<Vec<u8>, QuestionFault<'n>>
    requires { IsFinished session.now.saturation }
    ensures answered { IfOk result (λ v. AnswersIn (as_read session.now) question.entry spelling v.items) }
    ensures fault { IfErr result (IsUnanswered session.now.ontology (names_in question.entry)) }
{
    let answer = match session.ask(question) {
        Ok(answer) => answer,
        Err(AskFault::Unfinished) => unreachable!(),
        Err(AskFault::UnknownName(name)) => return Err(QuestionFault::UnknownName(name)),
        Err(AskFault::Memory) => return Err(QuestionFault::Memory),
    };
    match spelled_text(alloc, session, question, &answer, spelling) {
        Ok(text) => Ok(text),
        Err(_) => Err(QuestionFault::Memory),
    }
}

/// The text that answers the question by the document that the source gives, read and run to its end.
///
/// Names and groups of names are in byte order, a line each, with names in angle brackets. Why something follows is as lines `yes` or
/// `contradictory` and behind it the lines of a derivation, and those of the axioms that these cite where they are asked for, or `no`
/// and behind it the lines of an interpretation and of one of its elements; as a graph it is one document of the DOT language. In short
/// spelling names stand by the prefixes of the document, where reading them back gives the name.
///
/// # Errors
///
/// `Document` where the document is not read as an ontology; `Limit` where its closure has more facts than the limit; else
/// `UnknownName` where it lacks a name of the question; `Memory` where memory was refused.
pub fn question_text<'n, S: Source>(
    alloc: Global,
    source: &mut S,
    question: Question<'n>,
    spelling: Spelling,
    limits: &Limits,
    state: RandomState,
) -> Result<Vec<u8>, QuestionFault<'n>>
    // The text answers the question, or the fault says why there is none; and what was read of the document.
    ensures answered { IfOk result (λ v. AnswersQuestion limits.now (S.left source.old) question.entry spelling v.items) }
    ensures fault { IfErr result (IsFaultOf limits.now (S.left source.old) (names_in question.entry)) }
    // Of a source that does not tell its bytes, too: it gave more than the limit.
    ensures beyond { IsErrOf result (asking.Document reading.TooLarge) → S.most source.new + limits.now.max_bytes < S.most source.old }
    ensures read { IsRead result (source_state S.Source source.old) (source_state S.Source source.new) }
{
    match run_session(alloc, source, limits, state) {
        Ok(session) => {
            let answered = answered(alloc, &session, question, spelling);
            drop(session);
            answered
        }
        Err(fault) => Err(as_question_fault(fault)),
    }
}
