//! What is inferred of a document, as a document.
ghost use Rattle.engine.specs.Saturations.{IsFinished, IsUnasked};
ghost use Rattle.profile.specs.Documents.{IsTaken};
ghost use Rattle.profile.specs.declared.fault.DocumentFault.TheVariants as reading;
ghost use Rattle.session.specs.Answers.{IsUnmade};
ghost use Rattle.session.specs.Inferences.{IsInferred, IsInferredOf};
ghost use Rattle.session.specs.Run.{IsRunFault, IsRunRead};
ghost use Rattle.session.specs.declared.run_fault.RunFault.TheVariants as run_faults;
ghost use Rattle.source_lines.specs.Sources.{source_state};
ghost use Rattle.std.specs.Prelude.{◌≡◌, ◌+◌, ◌<◌, IfErr, IfOk, IsErrOf, OnOk, length};

use crate::fault::WritingFault;
use crate::opening::run_session;
use crate::run_fault::RunFault;
use crate::session::Session;
use axioms::Memory;
use classification::{Summary, what_follows};
use device::Source;
use engine::Closed;
use inferred_text::{inferred_text, what_is_inferred};
use profile::Limits;
use std::alloc::Global;
use std::hash::RandomState;

/// What follows from the axioms of a document, as a document, and the counts of the first.
#[derive(Debug, Drop)]
pub struct Inferred {
    pub summary: Summary,
    /// The declarations of all names and the inferred axioms: full IRIs, a line each.
    pub text: Vec<u8>,
}

/// What is inferred of a saturated ontology that was read.
fn inferred_by(closed: &Closed<'_>) -> Result<Inferred, Memory>
    requires unasked { IsUnasked closed.now.saturation }
    requires taken { IsTaken closed.now.ontology }
    ensures inferred { IfOk result (λ i. IsInferred closed.now.ontology i.summary i.text.items) }
    ensures facts { IfOk result (λ i. i.summary.facts ≡ length closed.now.saturation.state.facts) }
{
    what_is_inferred();
    let found = what_follows(closed)?;
    let text = inferred_text(closed.allocator(), closed.ontology(), &found.outcome)?;
    Ok(Inferred {
        summary: found.summary,
        text,
    })
}

/// What is inferred of a session that is run to its end. The prefixes and the tables that find facts are let go before it is made.
fn inferred_of(session: Session) -> Result<Inferred, Memory>
    requires { IsFinished session.saturation }
    ensures inferred { IfOk result (λ i. IsInferred session.ontology i.summary i.text.items) }
    ensures facts { IfOk result (λ i. i.summary.facts ≡ length session.saturation.state.facts) }
{
    session.well_formed();
    let Session {
        ontology,
        prefixes,
        saturation,
        ..
    } = session;
    drop(prefixes);
    let finished = saturation.finish();
    inferred_by(&finished.closed(&ontology))
}

impl Session {
    /// The counts, and what follows from the axioms as a document: declarations of all names, each kind in byte order; behind them an
    /// `EquivalentClasses` for each line of the taxonomy text that has two names or more, and a `SubClassOf` for each class directly above;
    /// and a `ClassAssertion` for each class of a line of the instances text; but for those in the group of `owl:Thing`. Where the axioms
    /// contradict one another it is `SubClassOf(owl:Thing owl:Nothing)` in place of all these axioms.
    ///
    /// # Errors
    ///
    /// `Unfinished`, before `Memory`, where facts are pending; `Memory` where memory was refused.
    pub fn inferred(&self) -> Result<Inferred, WritingFault>
        ensures finished { OnOk result (IsFinished self.now.saturation) }
        ensures inferred { IfOk result (λ i. IsInferred self.now.ontology i.summary i.text.items) }
        ensures facts { IfOk result (λ i. i.summary.facts ≡ length self.now.saturation.state.facts) }
        ensures refused { IfErr result (IsUnmade self.now) }
    {
        let Some(indexed) = self.indexed() else {
            return Err(WritingFault::Unfinished);
        };
        self.well_formed();
        match inferred_by(indexed.closed()) {
            Ok(inferred) => Ok(inferred),
            Err(_) => Err(WritingFault::Memory),
        }
    }
}

/// What is inferred of the document that the source gives, in memory, and its counts: what `Session::inferred` gives. Nothing else of it
/// is kept.
///
/// # Errors
///
/// `Document` where the document is not read as an ontology; `Limit` where its closure has more facts than the limit; `Memory` where
/// memory was refused.
pub fn inference_of<S: Source>(
    alloc: Global,
    source: &mut S,
    limits: &Limits,
    state: RandomState,
) -> Result<Inferred, RunFault>
    // The text and the counts are those of the document, or the fault says why there are none; and what was read of the document.
    ensures inferred { IfOk result
        (λ i. IsInferredOf limits.now.version limits.now.max_bytes limits.now.max_facts (S.left source.old) i.summary i.text.items) }
    ensures fault { IfErr result (IsRunFault limits.now (S.left source.old)) }
    // Of a source that does not tell its bytes, too: it gave more than the limit.
    ensures beyond { IsErrOf result (run_faults.Document reading.TooLarge) → S.most source.new + limits.now.max_bytes < S.most source.old }
    ensures read { IsRunRead result (source_state S.Source source.old) (source_state S.Source source.new) }
{
    let session = match run_session(alloc, source, limits, state) {
        Ok(session) => session,
        Err(fault) => return Err(fault),
    };
    match inferred_of(session) {
        Ok(inferred) => Ok(inferred),
        Err(_) => Err(RunFault::Memory),
    }
}
