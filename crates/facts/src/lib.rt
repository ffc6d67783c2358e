//! Facts of a saturation, what gives each, and the closure: all facts that normal forms lead to; and facts in order, each once,
//! in a table that finds them.
#![tactic(auto)]

mod births;
mod chained;
mod contexts;
mod homes;
mod links;
mod marks;
mod numbers;
mod seeds;
mod slots;
mod stored;
mod table;
mod theory;

pub use births::{Birth, FactId, Older};
pub use contexts::{Context, Fact, class_word, context_word, property_word};
pub use stored::StoredFact;
pub use table::FactTable;
pub use theory::closure;
