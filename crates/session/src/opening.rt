//! Documents that are read and run to their end.
ghost use Rattle.engine.specs.Saturations.{IsFinished};
ghost use Rattle.profile.specs.declared.fault.DocumentFault.TheVariants as reading;
ghost use Rattle.telling.specs.Devices.{seen};
ghost use Rattle.telling.specs.Progress.{IsProgress, IsStageTold};
ghost use Rattle.session.specs.Progress.{opened_stage};
ghost use Rattle.session.specs.Run.{IsRunFault, IsRunRead};
ghost use Rattle.session.specs.Sessions.{as_read};
ghost use Rattle.session.specs.TextAnswers.{IsRunAs};
ghost use Rattle.session.specs.declared.run_fault.RunFault.TheVariants as run_faults;
ghost use Rattle.source_lines.specs.Sources.{source_state};
ghost use Rattle.std.specs.Prelude.{◌≡◌, ◌+◌, ◌<◌, ◌≤◌, IfErr, IfOk, IsErrOf, length};

use crate::run_fault::RunFault;
use crate::session::Session;
use crate::slices::resume_slices;
use device::{BufferSink, Sink, Source};
use engine::Stop;
use profile::Limits;
use std::alloc::Global;
use std::hash::RandomState;
use telling::{Stage, tell_stage};

/// Tells what was read, where progress is told.
pub fn tell_opened<W: Sink>(session: &Session, told: bool, sink: &mut W)
    ensures line { IsStageTold told (opened_stage session.now) (seen W.Sink sink.old) (seen W.Sink sink.new) }
    ensures progress { IsProgress told (seen W.Sink sink.old) (seen W.Sink sink.new) }
{
    let bytes = session.bytes();
    let axioms = session.ontology().axioms().len();
    tell_stage(sink, told, &Stage::Read { bytes, axioms });
}

/// A session over the document that the source gives, run to its end within the limits. Where progress is told, the sink is told how
/// far it is.
pub(crate) fn run_telling<S: Source, W: Sink>(
    alloc: Global,
    source: &mut S,
    limits: &Limits,
    told: bool,
    sink: &mut W,
    state: RandomState,
) -> Result<Session, RunFault>
    ensures run { IfOk result (λ s. IsRunAs limits.now (S.left source.old) (as_read s)) }
    ensures finished { IfOk result (λ s. IsFinished s.saturation) }
    ensures within { IfOk result (λ s. length s.saturation.state.facts ≤ limits.now.max_facts) }
    ensures limit { IfOk result (λ s. s.most_bytes ≡ limits.now.max_bytes) }
    ensures fault { IfErr result (IsRunFault limits.now (S.left source.old)) }
    // Of a source that does not tell its bytes, too: it gave more than the limit.
    ensures beyond { IsErrOf result (run_faults.Document reading.TooLarge) → S.most source.new + limits.now.max_bytes < S.most source.old }
    ensures read { IsRunRead result (source_state S.Source source.old) (source_state S.Source source.new) }
    ensures progress { IsProgress told (seen W.Sink sink.old) (seen W.Sink sink.new) }
{
    let mut session = match Session::open(alloc, source, limits, state) {
        Ok(session) => session,
        Err(fault) => return Err(RunFault::Document(fault)),
    };
    tell_opened(&session, told, sink);
    let resumed = resume_slices(&mut session, limits.max_facts, told, sink);
    session.well_formed();
    match resumed {
        Ok(()) => Ok(session),
        Err(Stop::Limit) => {
            drop(session);
            Err(RunFault::Limit)
        }
        Err(Stop::Memory) => {
            drop(session);
            Err(RunFault::Memory)
        }
    }
}

/// A session over the document that the source gives, run to its end within the limits, of which nothing is told.
pub(crate) fn run_session<S: Source>(
    alloc: Global,
    source: &mut S,
    limits: &Limits,
    state: RandomState,
) -> Result<Session, RunFault>
    ensures run { IfOk result (λ s. IsRunAs limits.now (S.left source.old) (as_read s)) }
    ensures finished { IfOk result (λ s. IsFinished s.saturation) }
    ensures within { IfOk result (λ s. length s.saturation.state.facts ≤ limits.now.max_facts) }
    ensures limit { IfOk result (λ s. s.most_bytes ≡ limits.now.max_bytes) }
    ensures fault { IfErr result (IsRunFault limits.now (S.left source.old)) }
    // Of a source that does not tell its bytes, too: it gave more than the limit.
    ensures beyond { IsErrOf result (run_faults.Document reading.TooLarge) → S.most source.new + limits.now.max_bytes < S.most source.old }
    ensures read { IsRunRead result (source_state S.Source source.old) (source_state S.Source source.new) }
{
    run_telling(
        alloc,
        source,
        limits,
        false,
        &mut BufferSink::new(alloc),
        state,
    )
}
