//! Whether a listed interpretation satisfies axioms, at a cost that goes by its members.
#![tactic(auto)]

mod among;
mod ascending;
mod class_axioms;
mod extension;
mod individual_axioms;
mod keeping;
mod kept;
mod meeting;
mod paths;
mod property_axioms;
mod restriction;
mod room;
mod rows;
mod satisfaction;
mod sets;
mod shown;
mod tester;
mod transitive;
mod wide;
mod wide_steps;

pub use satisfaction::first_unsatisfied;
