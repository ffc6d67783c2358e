//! From an ontology to the facts of its closure.
#![tactic(auto)]

mod asking;
mod closed;
mod extending;
mod finished;
mod indexed;
mod laws;
mod saturation;

pub use closed::Closed;
pub use finished::Finished;
pub use indexed::Indexed;
pub use laws::finished_has_none_pending;
pub use saturate::Stop;
pub use saturation::Saturation;
