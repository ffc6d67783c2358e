//! Runs of a session in slices of facts.
ghost use Rattle.cli.specs.Filing.{IsBegunIn};
ghost use Rattle.telling.specs.Devices.{seen};
ghost use Rattle.session.specs.Edits.{Reply, IsCall, Resume};
ghost use Rattle.telling.specs.Progress.{IsProgress};
ghost use Rattle.session.specs.Sessions.{IsSession, KeepsText};

use device::Sink;
use session::{SLICE, Session, Stop, tell_drawn};
use speech::SessionService;

/// Runs the session on to so many facts, and says whether it stopped there.
fn run_slice(session: &mut Session, most: u32) -> bool
    ensures call { (reply : Reply) × IsCall session.old (Resume most) reply session.new }
    ensures session { IsSession session.new }
{
    let ended = session.resume(most);
    session.well_formed();
    ended == Err(Stop::Limit)
}

/// Where a run goes in slices, runs the session on, slice by slice, as long as each ends below the limit of facts and at its own. Behind
/// each it is told how far the run is. What is left is for the run itself.
pub(crate) fn run_slices<E: Sink>(service: &mut SessionService, slices: bool, err: &mut E)
    ensures begun { IsBegunIn slices service.old service.new }
    ensures kept { KeepsText service.old.session service.new.session }
    ensures progress { IsProgress slices (seen E.Sink err.old) (seen E.Sink err.new) }
{
    if !slices {
        return;
    }
    let mut end = u32::try_from(service.session.facts()).unwrap_or(u32::MAX);
    end = end.saturating_add(SLICE);
    while end < service.limits.max_facts {
        if !run_slice(&mut service.session, end) {
            return;
        }
        tell_drawn(&service.session, true, err);
        end = end.saturating_add(SLICE);
    }
}
