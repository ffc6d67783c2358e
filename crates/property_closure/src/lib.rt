//! Superproperties, reflexive properties and property chains, by normal forms.
#![tactic(auto)]

mod chains;
mod closure;
mod reflexive;
mod related;
mod shared_lists;
mod super_lists;
mod supers;

pub use closure::{PropertyClosure, close};
