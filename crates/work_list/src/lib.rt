//! Lists of pending work, which give their items back in any order.
#![tactic(auto)]

mod begun;
mod by_context;
mod fifo;
mod groups;
mod item;
mod lifo;
mod list;
mod node;
mod room;

pub use by_context::ByContext;
pub use fifo::Fifo;
pub use item::Item;
pub use lifo::Lifo;
pub use list::{WorkList, drain};
