//! The classification of an ontology: its taxonomy, its instances, and a certificate of both.
#![tactic(auto)]

mod classification;
mod consistent;
mod pairs;
mod relation;
mod room;
mod types;

pub use classification::{Classification, Found, Summary, classified, what_follows};
pub use consistent::is_consistent;
pub use pairs::{class_pair, type_pair};
