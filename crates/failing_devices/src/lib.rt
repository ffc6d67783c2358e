//! Devices for tests, over others: slow ones, which fail from some call on.
#![tactic(auto)]

mod sink;
mod source;

pub use sink::FailingSink;
pub use source::FailingSource;
