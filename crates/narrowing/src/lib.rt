//! Listed interpretations with only the elements that stand in a line, and one more where there are others; and those whose rows hold runs,
//! with neighbours of which the lines say the same as one element.
#![tactic(auto)]

mod copies;
mod cutting;
mod elements;
mod listing;
mod marks;
mod numbering;
mod renumbering;
mod starts;
mod theory;

pub use cutting::folded;
pub use listing::{narrow, narrowed};
pub use theory::{folded_listings, narrowed_interpretations};
