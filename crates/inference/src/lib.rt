//! The facts so far, and what the rules give from them.
#![tactic(auto)]

mod apart;
mod birth_list;
mod conclusions;
mod context_flags;
mod differences;
mod entries;
mod fillers;
mod filling;
mod joins;
mod known_facts;
mod led;
mod pairing;
mod plans;
mod predicate_lists;
mod predicates;
mod premises;
mod properties;
mod rules;
mod sameness;
mod second_premises;
mod spared;
mod visits;

pub use birth_list::BirthList;
pub use joins::Joins;
pub use known_facts::{KnownFacts, Stop};
pub use predicates::Predicate;
pub use premises::Premise;
pub use rules::Rules;
pub use second_premises::is_second_premise;
pub use visits::is_filler;
