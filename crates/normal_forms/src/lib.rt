//! Normal forms of an ontology: inclusions, properties and assertions over expressions and fresh names; lists of them in little memory,
//! which several may share; and the lists of classes and of individuals that are apart, each two of them.
#![tactic(auto)]

mod apart;
mod forms;
mod list;
mod origins;
mod parts;
mod shared_list;
mod stored;
mod theory;

pub use apart::ApartLists;
pub use forms::{Class2, Form, Origin, PropId2};
pub use list::FormList;
pub use origins::StoredOrigin;
pub use shared_list::SharedList;
pub use theory::{forms_are_given, property_forms_suffice};
