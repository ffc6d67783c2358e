//! The part of an interpretation that can be reached from one element and from the individuals: it, and what it keeps.
#![tactic(auto)]

mod by_element;
mod chosen;
mod generating;
mod part;
mod search;
mod theory;

pub use generating::generated;
pub use theory::generated_parts;
