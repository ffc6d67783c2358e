//! What is proved of states and runs.
ghost use Rattle.saturate.specs.Run.{FinishedIsClosure, OrderDoesNotMatter, RunsExtend, StepsServe};

/// A state whose facts are all served has the closure; a run serves one fact in each step and keeps what was there; and any two
/// that end, in whatever order they served, have the same facts.
pub fn states_and_runs()
    ensures finished { FinishedIsClosure }
    ensures steps { StepsServe }
    ensures extends { RunsExtend }
    ensures order { OrderDoesNotMatter }
{}
