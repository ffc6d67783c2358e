//! A fast hasher for tables whose keys come from outside. It is not cryptographic: the caller's state of hashing gives two secret
//! numbers, so that who picks the keys does not know which of them fall together.
#![tactic(auto)]

mod hasher;
mod numbers;
mod set;
mod state;

pub use hasher::KeyedHasher;
pub use set::NumberedSet;
pub use state::KeyedState;
