//! Runs in slices of facts.
ghost use Rattle.engine.specs.Saturations.{IsFinished, Saturates};
ghost use Rattle.inference.specs.declared.known_facts.Stop.TheVariants as stops;
ghost use Rattle.telling.specs.Devices.{seen};
ghost use Rattle.telling.specs.Progress.{IsProgress, IsStageTold};
ghost use Rattle.session.specs.Progress.{drawn_stage};
ghost use Rattle.session.specs.Sessions.{KeepsText};
ghost use Rattle.std.specs.Prelude.{◌≡◌, ◌≤◌, ◌↔◌, Err, IsTrue, OnOk, length};

use crate::session::Session;
use device::Sink;
use engine::Stop;
use telling::{Stage, tell_stage};

/// How many facts more may be drawn before it is told again how many there are.
pub const SLICE: u32 = 250_000;

/// Up to how many facts a run goes at first that has so many: where progress is told, to the end of the first slice.
fn first_end(told: bool, facts: usize, max_facts: u32) -> u32
    ensures { result ≤ max_facts }
{
    if !told {
        return max_facts;
    }
    match u32::try_from(facts) {
        Ok(facts) => max_facts.min(facts.saturating_add(SLICE)),
        Err(_) => max_facts,
    }
}

/// Tells how many facts there are, and how many are pending, where progress is told.
pub fn tell_drawn<W: Sink>(session: &Session, told: bool, sink: &mut W)
    ensures line { IsStageTold told (drawn_stage session.now) (seen W.Sink sink.old) (seen W.Sink sink.new) }
    ensures progress { IsProgress told (seen W.Sink sink.old) (seen W.Sink sink.new) }
{
    let facts = session.facts();
    let pending = facts.saturating_sub(session.served());
    tell_stage(sink, told, &Stage::Drawn { facts, pending });
}

/// Whether a run stopped at a limit of facts.
fn is_at_limit(ended: &Result<(), Stop>) -> bool
    ensures { IsTrue result ↔ (ended.now ≡ Err stops.Limit) }
{
    match ended {
        Err(Stop::Limit) => true,
        _ => false,
    }
}

/// Finds out what follows, as long as that takes at most `max_facts` facts. Where progress is told, that is done in slices of facts,
/// behind each of which it is told how far it is.
///
/// # Errors
///
/// Those of `Session::resume`. That a slice ends is no limit.
pub(crate) fn resume_slices<W: Sink>(
    session: &mut Session,
    max_facts: u32,
    told: bool,
    sink: &mut W,
) -> Result<(), Stop>
    ensures ontology { session.new.ontology ≡ session.old.ontology }
    ensures others { KeepsText session.old session.new }
    ensures finished { OnOk result (IsFinished session.new.saturation) }
    ensures within { OnOk result (length session.new.saturation.state.facts ≤ max_facts) }
    ensures saturates { Saturates session.new.ontology max_facts session.new.saturation result }
    ensures progress { IsProgress told (seen W.Sink sink.old) (seen W.Sink sink.new) }
{
    let mut end = first_end(told, session.facts(), max_facts);
    loop {
        let ended = session.resume(end);
        tell_drawn(session, told, sink);
        if end == max_facts || !is_at_limit(&ended) {
            return ended;
        }
        end = max_facts.min(end.saturating_add(SLICE));
    }
}
