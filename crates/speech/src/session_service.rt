//! A session that answers commands.
ghost use Rattle.answers.specs.Questions.{IsAnswerTo};
ghost use Rattle.engine.specs.Saturations.{IsFinished};
ghost use Rattle.session.specs.Edits.{Add, Entail, Query};
ghost use Rattle.profile.specs.declared.fault.DocumentFault.TheVariants.{NotUtf8};
ghost use Rattle.session.specs.declared.question_fault.QuestionFault.TheVariants as faults;
ghost use Rattle.speech.specs.Answers.{IsAnsweredTold, IsAsked, IsAxiomTold, IsEndTold, IsFaultTold, IsRunTo, IsStep, IsStopTold, IsTextCalled, Tells, done, no_axiom_told, run_end, status_text};
ghost use Rattle.speech.specs.Replies.{told_by};
ghost use Rattle.std.specs.Prelude.{◌≡◌, ◌≤◌, Ok};

use crate::answering::{
    ask_reply, consistency, done_reply, done_with, entailed_reply, fault_reply, found_reply,
    unfiled_reply,
};
use crate::command::Command;
use crate::reply::Reply;
use crate::service::Service;
use crate::sizes::end_of_run;
use crate::version::version_reply;
use device::Memory;
use profile::{DocumentFault, Limits};
use program::{Question, Spelling, Status};
use session::{Answer, QuestionFault, Session, Stop, answer_text, is_graph};
use std::alloc::Global;
use std::str::from_utf8;

/// A session that answers commands, and writes no files. Each run goes on to at most as many facts as the limits have, and so does a
/// query. How many bytes may still come with a command goes by the session's own limit.
#[derive(Drop)]
pub struct SessionService {
    pub alloc: Global,
    pub session: Session,
    pub limits: Limits,
}

impl SessionService {
    /// Adds what the bytes state.
    fn add(&mut self, payload: &[u8]) -> Result<Reply, Memory>
        ensures step { IsTextCalled self.old.limits Add payload.now self.old.session (told_by result) self.new.session }
        ensures limits { self.new.limits ≡ self.old.limits }
    {
        let text = match from_utf8(payload) {
            Ok(text) => text,
            Err(error) => return self.no_text(error.valid_up_to()),
        };
        match self.session.add(text) {
            Ok(()) => Ok(done_reply(Vec::new(self.alloc))),
            Err(fault) => {
                fault_reply(self.alloc, &self.limits, &QuestionFault::Expression(fault))
            }
        }
    }

    /// The reply to bytes that are no text from that place on.
    fn no_text(&self, at: usize) -> Result<Reply, Memory>
        ensures { Tells (IsFaultTold self.now.limits (faults.Expression (NotUtf8 at))) result }
    {
        let fault = QuestionFault::Expression(DocumentFault::NotUtf8 { at });
        fault_reply(self.alloc, &self.limits, &fault)
    }

    /// Finds out what follows, as far as so many facts more than there are.
    fn run_some(&mut self, more: u32) -> Result<Reply, Memory>
        ensures step { IsRunTo self.old.limits (run_end self.old.limits self.old.session more) self.old.session (told_by result) self.new.session }
        ensures limits { self.new.limits ≡ self.old.limits }
    {
        let end = end_of_run(self.session.facts(), more, self.limits.max_facts);
        self.run_to(end)
    }

    /// Finds out what follows, to at most so many facts.
    fn run_to(&mut self, end: u32) -> Result<Reply, Memory>
        requires { end ≤ self.old.limits.max_facts }
        ensures step { IsRunTo self.old.limits end self.old.session (told_by result) self.new.session }
        ensures limits { self.new.limits ≡ self.old.limits }
    {
        match self.session.resume(end) {
            Ok(()) => self.ended(),
            Err(Stop::Limit) => self.stopped(end),
            Err(Stop::Memory) => Err(Memory),
        }
    }

    /// The reply where a run stopped at so many facts.
    fn stopped(&self, end: u32) -> Result<Reply, Memory>
        requires { end ≤ self.now.limits.max_facts }
        ensures { Tells (IsStopTold self.now.limits end self.now.session) result }
    {
        if end == self.limits.max_facts {
            return fault_reply(self.alloc, &self.limits, &QuestionFault::Limit);
        }
        let facts = self.session.facts();
        let served = self.session.served();
        match format!(in self.alloc; "facts {facts} served {served}\n") {
            Ok(text) => Ok(Reply {
                status: Status::Limit,
                text: text.into_bytes(),
            }),
            Err(_) => Err(Memory),
        }
    }

    /// The reply where a run came to its end.
    fn ended(&self) -> Result<Reply, Memory>
        requires { IsFinished self.now.session.saturation }
        ensures { Tells (IsEndTold self.now.session) result }
    {
        let facts = self.session.facts();
        let Some(consistent) = self.session.is_consistent() else {
            unreachable!();
        };
        let word = consistency(consistent);
        match format!(in self.alloc; "facts {facts}\n{word}\n") {
            Ok(text) => Ok(done_reply(text.into_bytes())),
            Err(_) => Err(Memory),
        }
    }

    /// The reply with the numbers of facts, served ones and bytes.
    fn status(&self) -> Result<Reply, Memory>
        ensures { Tells (λ t. t ≡ done (status_text self.now.session)) result }
    {
        let facts = self.session.facts();
        let served = self.session.served();
        let bytes = self.session.bytes();
        match format!(in self.alloc; "facts {facts} served {served} bytes {bytes}\n") {
            Ok(text) => Ok(done_reply(text.into_bytes())),
            Err(_) => Err(Memory),
        }
    }

    /// The reply with the axiom of that number.
    fn axiom(&self, number: u64, spelling: Spelling) -> Result<Reply, Memory>
        ensures { Tells (IsAxiomTold self.now.session number spelling) result }
    {
        match self.session.axiom(number as usize) {
            Ok(Some(line)) => done_with(self.session.spelled(line, spelling, false)),
            Ok(None) => self.no_axiom(number),
            Err(_) => Err(Memory),
        }
    }

    /// The reply that there is no axiom of that number.
    fn no_axiom(&self, number: u64) -> Result<Reply, Memory>
        ensures { Tells (λ t. t ≡ no_axiom_told number) result }
    {
        match format!(in self.alloc; "no axiom {number}\n") {
            Ok(text) => Ok(Reply {
                status: Status::Usage,
                text: text.into_bytes(),
            }),
            Err(_) => Err(Memory),
        }
    }

    /// The reply with the answer to a question.
    fn answered(
        &self,
        question: Question<'_>,
        spelling: Spelling,
        answer: Answer<'_>,
    ) -> Result<Reply, Memory>
        requires { IsAnswerTo self.now.session.ontology question answer }
        ensures { Tells (IsAnsweredTold self.now.limits self.now.session question.entry spelling (Ok answer.entry)) result }
    {
        let ontology = self.session.ontology();
        match answer_text(self.alloc, ontology, question, &answer) {
            Ok(text) => done_with(self.session.spelled(text, spelling, is_graph(question))),
            Err(_) => Err(Memory),
        }
    }

    /// Answers the question.
    fn ask(&self, question: Question<'_>, spelling: Spelling) -> Result<Reply, Memory>
        ensures { IsAsked self.now.limits question.entry spelling self.now.session (told_by result) self.now.session }
    {
        match self.session.ask(question) {
            Ok(answer) => self.answered(question, spelling, answer),
            Err(fault) => ask_reply(self.alloc, &self.limits, fault),
        }
    }

    /// The names of the class expression that the bytes are.
    fn query(&self, payload: &[u8]) -> Result<Reply, Memory>
        ensures { IsTextCalled self.now.limits (λ text. Query text self.now.limits.max_facts) payload.now self.now.session (told_by result) self.now.session }
    {
        let text = match from_utf8(payload) {
            Ok(text) => text,
            Err(error) => return self.no_text(error.valid_up_to()),
        };
        found_reply(
            self.alloc,
            &self.limits,
            self.session.query(text, self.limits.max_facts),
        )
    }

    /// Whether the axioms that the bytes state follow.
    fn entails(&self, payload: &[u8]) -> Result<Reply, Memory>
        ensures { IsTextCalled self.now.limits (λ text. Entail text self.now.limits.max_facts) payload.now self.now.session (told_by result) self.now.session }
    {
        let text = match from_utf8(payload) {
            Ok(text) => text,
            Err(error) => return self.no_text(error.valid_up_to()),
        };
        entailed_reply(
            self.alloc,
            &self.limits,
            self.session.entails(text, self.limits.max_facts),
        )
    }

    /// Does what the command asks for, by one call of the session.
    fn reply(&mut self, command: Command<'_>, payload: &[u8]) -> Result<Reply, Memory>
        ensures step { IsStep self.old.limits self.old.session command.entry payload.now (told_by result) self.new.session }
        ensures limits { self.new.limits ≡ self.old.limits }
    {
        match command {
            Command::Add(_) => self.add(payload),
            Command::Run => self.run_to(self.limits.max_facts),
            Command::RunSome(more) => self.run_some(more),
            Command::Ask(question, spelling) => self.ask(question, spelling),
            Command::Query(_) => self.query(payload),
            Command::Entails(_) => self.entails(payload),
            Command::Write(_) | Command::Infer(_) => unfiled_reply(self.alloc),
            Command::Axiom(number, spelling) => self.axiom(number, spelling),
            Command::Status => self.status(),
            Command::Version => version_reply(self.alloc),
        }
    }
}

impl Service for SessionService {
    ghost use Rattle.speech.specs.Answers.{IsServed};
    ghost use Rattle.std.specs.Prelude.{◌-◌};

    ghost steps = { IsServed };

    ghost room = { λ s. s.session.most_bytes - s.session.bytes };

    fn most_payload(&self) -> u64 {
        self.session
            .max_bytes()
            .saturating_sub(self.session.bytes() as u64)
    }

    fn answer(&mut self, command: Command<'_>, payload: &[u8]) -> Result<Reply, Memory> {
        let reply = self.reply(command, payload);
        self.session.well_formed();
        reply
    }
}
