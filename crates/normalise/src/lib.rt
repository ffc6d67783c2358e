//! The normal forms of an ontology, and the contexts that are there from the start: what is saturated.
#![tactic(auto)]

mod apart;
mod axiom_forms;
mod entries;
mod expression_forms;
mod growth;
mod lists;
mod made;
mod marks;
mod member;
mod new_marks;
mod normal;
mod occurring;
mod problem;
mod spans;
mod start;
mod starting;
mod step_forms;
mod table;
mod theory;

pub use entries::Entry;
pub use growth::normalise;
pub use normal::Normal;
pub use normal_forms::{ApartLists, Class2, Form, FormList, Origin, PropId2};
pub use problem::normal_forms_make_the_problem;
pub use starting::{roots, roots_from};
pub use theory::{normal_forms_are_listed, property_forms_are_named};
