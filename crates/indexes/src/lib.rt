//! What a step of the engine looks up: facts by the contexts that they speak of, normal forms by the classes, properties and
//! individuals of the facts that they give something with, and which individuals are one.
#![tactic(auto)]

mod apart;
mod by_context;
mod changed_lists;
mod disjoint;
mod form_counts;
mod form_index;
mod form_listing;
mod form_lists;
mod grown_index;
mod index;
mod indexed_problem;
mod key_counts;
mod key_lists;
mod keys;
mod led_forms;
mod listed_forms;
mod lists;
mod membership;
mod named;
mod overlap;
mod packed;
mod roles;
mod roots;
mod same_individuals;
mod seconds;
mod table;

pub use apart::Apart;
pub use disjoint::{Beside, Operand};
pub use index::Index;
pub use indexed_problem::{FewIntersections, IndexedProblem};
pub use keys::Key;
pub use listed_forms::ListedForm;
pub use same_individuals::Groups;
pub use table::Table;
