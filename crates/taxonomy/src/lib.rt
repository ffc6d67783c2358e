//! The taxonomy of the named classes of an ontology, and the texts that tell it.
#![tactic(auto)]

mod collecting;
mod groups;
mod instances_text;
mod least;
mod lent;
mod names;
mod order;
mod outcome;
mod reduction;
mod relation;
mod superclasses;
mod taxonomy_text;
mod theory;
mod write;

pub use device::WriteFault;
pub use lent::Groups;
pub use order::in_byte_order;
pub use outcome::{Outcome, instances_bytes, taxonomy_bytes};
pub use reduction::{Taxonomy, reduce};
pub use relation::Relation;
pub use theory::texts_of_relations;
pub use write::{write_instances, write_taxonomy};
