//! Finite interpretations of an ontology, and sets of their elements.
#![tactic(auto)]

mod class_rows;
mod extension;
mod fault;
mod interpretation;
mod pairs;
mod satisfaction;
mod set_members;
mod theory;

pub use fault::InterpretationFault;
pub use interpretation::Interpretation;
pub use number_sets::Row;
pub use set_members::members;
pub use theory::{extensions_and_names, folded_interpretations};
