//! The statements that a classification of an ontology infers, as a document.
#![tactic(auto)]

mod classes;
mod declarations;
mod individuals;
mod inferred;
mod lines;
mod theory;

pub use inferred::inferred_text;
pub use theory::what_is_inferred;
