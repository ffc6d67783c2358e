//! Sets of numbers below a bound, and lists by number: a row of bits, and sets and lists whose cost goes by their members.
#![tactic(auto)]

mod ascending;
mod epoch_set;
mod list;
mod open_lists;
mod packed_lists;
mod row;
mod row_words;
mod search;
mod words;

pub use ascending::sort_ascending;
pub use epoch_set::EpochSet;
pub use list::NumberList;
pub use open_lists::OpenLists;
pub use packed_lists::PackedLists;
pub use row::Row;
pub use search::{Found, NumberSearch};
