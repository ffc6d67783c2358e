//! What follows from the axioms of an ontology about its named classes, its individuals and the class expressions that are asked about,
//! by all facts of its closure; why something follows, or why it does not; and what something lacks to be in a class.
#![tactic(auto)]

mod answer;
mod answering;
mod asking;
mod condition;
mod conditions;
mod derived;
mod explanation;
mod groups;
mod lacking;
mod lists_above;
mod marks;
mod named;
mod names;
mod nearest;
mod neighbours;
mod refuted;
mod selecting;
mod selection;
mod theory;
mod types;
mod unsatisfiable;

pub use answer::Answer;
pub use asking::ask;
pub use condition::{Condition, Lacking, Part};
pub use explanation::Explanation;
pub use names::names_in_order;
pub use selecting::selected;
pub use selection::Selection;
pub use theory::{what_conditions_give, what_follows};
