//! The two secret numbers, and the hashers that begin with them.
ghost use Rattle.keyed_hash.specs.States.{first_hasher, taken_from};
ghost use Rattle.std.specs.Prelude.{◌≡◌};

use crate::hasher::KeyedHasher;
use std::hash::{BuildHasher, RandomState};

/// What a table hashes by: two secret numbers from the caller's `RandomState`, with which each hasher begins. Hashing by them is
/// fast and not cryptographic.
#[derive(Clone, Copy)]
pub struct KeyedState {
    // the state of a hasher that has read nothing
    state: u64,
    // the secret part of each factor
    key: u64,
}

impl KeyedState {
    /// The numbers that the caller's state makes of 1 and 2, the second of them odd, so that no factor of few bytes is zero.
    pub fn new(state: &RandomState) -> KeyedState
        ensures { result ≡ taken_from state.now }
    {
        KeyedState {
            state: state.hash_one(1u64),
            key: state.hash_one(2u64) | 1,
        }
    }
}

impl BuildHasher for KeyedState {
    type Hasher = KeyedHasher;

    ghost build_hasher = { first_hasher };

    #[inline(always)]
    fn build_hasher(&self) -> KeyedHasher {
        KeyedHasher {
            state: self.state,
            key: self.key,
        }
    }
}
