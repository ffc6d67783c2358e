//! What programs over the library share: the limits that a caller sets, the versions of the profile, the questions, and the exit
//! statuses.
#![tactic(auto)]

mod limits;
mod question;
mod release;
mod status;
mod version;

pub use limits::{Limits, MOST_BYTES, MOST_BYTES_TEXT, MOST_FACTS, MOST_FACTS_TEXT};
pub use question::{Asked, Question, Related, Shown, Side, Spelling};
pub use release::VERSION;
pub use status::Status;
pub use version::Version;
