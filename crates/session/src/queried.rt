//! The answer to a query of a document.
ghost use Rattle.engine.specs.Saturations.{IsFinished};
ghost use Rattle.profile.specs.declared.fault.DocumentFault.TheVariants as reading;
ghost use Rattle.session.specs.Queries.{names_in};
ghost use Rattle.session.specs.Sessions.{as_read};
ghost use Rattle.session.specs.TextAnswers.{AnswersQuery, IsQueryFaultOf, IsRead, ListsSpelled, query_lines};
ghost use Rattle.session.specs.Texts.{IsUnansweredQuery};
ghost use Rattle.session.specs.declared.question_fault.QuestionFault.TheVariants as asking;
ghost use Rattle.short_names.specs.Spellings.{IsSpelled};
ghost use Rattle.source_lines.specs.Sources.{source_state};
ghost use Rattle.std.specs.Prelude.{◌≡◌, ◌+◌, ◌<◌, IfErr, IfOk, IsErrOf, false};

use crate::listed::push_lines;
use crate::opening::run_session;
use crate::query_fault::QueryFault;
use crate::querying::Answers;
use crate::question_fault::QuestionFault;
use crate::run_fault::as_question_fault;
use crate::session::Session;
use axioms::Memory;
use device::Source;
use profile::Limits;
use program::Spelling;
use std::alloc::Global;
use std::hash::RandomState;

/// The lines of the classes above, of those below, and of the individuals.
///
/// # Errors
///
/// `Memory` where memory was refused.
pub fn lines_of_answers(alloc: Global, answers: &Answers<'_>) -> Result<Vec<u8>, Memory>
    ensures { IfOk result (λ v. v.items ≡ query_lines (names_in answers.now)) }
{
    let mut out = Vec::new(alloc);
    push_lines(&mut out, b"super ", &answers.superclasses)?;
    push_lines(&mut out, b"sub ", &answers.subclasses)?;
    push_lines(&mut out, b"instance ", &answers.instances)?;
    Ok(out)
}

/// The lines of the answers, with names spelled so.
fn spelled_lines(
    alloc: Global,
    session: &Session,
    answers: &Answers<'_>,
    spelling: Spelling,
) -> Result<Vec<u8>, Memory>
    ensures { IfOk result (λ v. IsSpelled spelling session.now.prefixes false (query_lines (names_in answers.now)) v.items) }
{
    let lines = lines_of_answers(alloc, answers)?;
    session.spelled(lines, spelling, false)
}

/// The lines of what the session answers, which is run to its end.
fn answered(
    alloc: Global,
    session: &Session,
    text: &str,
    spelling: Spelling,
    max_facts: u32,
) -> Result<Vec<u8>, QuestionFault<'static>>
    requires { IsFinished session.now.saturation }
    ensures answered { IfOk result (λ v. ListsSpelled (as_read session.now) session.now.most_bytes max_facts text.now spelling v.items) }
    ensures fault { IfErr result (IsUnansweredQuery session.now text.now max_facts) }
{
    let answers = match session.query(text, max_facts) {
        Ok(answers) => answers,
        Err(QueryFault::Unfinished) => unreachable!(),
        Err(QueryFault::Expression(fault)) => return Err(QuestionFault::Expression(fault)),
        Err(QueryFault::Limit) => return Err(QuestionFault::Limit),
        Err(QueryFault::Memory) => return Err(QuestionFault::Memory),
    };
    match spelled_lines(alloc, session, &answers, spelling) {
        Ok(lines) => Ok(lines),
        Err(_) => Err(QuestionFault::Memory),
    }
}

/// The answers to a query of the document, whose text is a class expression: a line `super <..>` for each named class above the
/// expression, a line `sub <..>` for each below it, and a line `instance <..>` for each individual, each part in byte order of the IRIs.
/// In short spelling names stand by the prefixes of the document, where reading them back gives the name.
///
/// # Errors
///
/// `Document` where the document is not read as an ontology; `Limit` where its closure has more facts than the limit; else
/// `Expression` where document and text have more bytes than the limit, or the text is no class expression over names of the
/// ontology; `Limit` where the closure with the expression has more facts than the limit; `Memory` where memory was refused.
pub fn query_text<S: Source>(
    alloc: Global,
    source: &mut S,
    text: &str,
    spelling: Spelling,
    limits: &Limits,
    state: RandomState,
) -> Result<Vec<u8>, QuestionFault<'static>>
    // The lines answer the query, or the fault says why there are none; and what was read of the document.
    ensures answered { IfOk result (λ v. AnswersQuery limits.now (S.left source.old) text.now spelling v.items) }
    ensures fault { IfErr result (IsQueryFaultOf limits.now (S.left source.old) text.now) }
    // Of a source that does not tell its bytes, too: it gave more than the limit.
    ensures beyond { IsErrOf result (asking.Document reading.TooLarge) → S.most source.new + limits.now.max_bytes < S.most source.old }
    ensures read { IsRead result (source_state S.Source source.old) (source_state S.Source source.new) }
{
    match run_session(alloc, source, limits, state) {
        Ok(session) => {
            let lines = answered(alloc, &session, text, spelling, limits.max_facts);
            drop(session);
            lines
        }
        Err(fault) => Err(as_question_fault(fault)),
    }
}
