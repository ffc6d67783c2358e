//! Saturation: all facts that normal forms lead to, in any order of work.
#![tactic(auto)]

mod asked_facts;
mod counts;
mod earlier_forms;
mod extension;
mod finished;
mod flags;
mod form_keys;
mod ground;
mod laws;
mod listed_facts;
mod named_facts;
mod new_forms;
mod new_lists;
mod new_seconds;
mod numbered_properties;
mod order;
mod queue;
mod settled;
mod state;
mod summary;

pub use facts::{Birth, Context, Fact, FactId, Older, StoredFact};
pub use finished::Finished;
pub use ground::Ground;
pub use inference::Stop;
pub use laws::states_and_runs;
pub use state::State;
