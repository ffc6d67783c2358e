//! The hasher: it multiplies up to sixteen bytes at a time to 128 bits, with a secret factor.
ghost use Rattle.keyed_hash.specs.Hasher as keyed;
ghost use Rattle.std.specs.Prelude.{◌≡◌, ◌<◌, length};

use crate::numbers::{eight_bytes, few_bytes, folded_product};
use std::hash::Hasher;

/// A fast hasher with two secret numbers, which a [`KeyedState`](crate::KeyedState) takes from the caller's `RandomState`. It is
/// not cryptographic, and its answers are not to be shown: they serve to place keys in a table.
#[derive(Clone, Copy)]
pub struct KeyedHasher {
    // what it makes of the bytes so far; a secret number at first
    pub(crate) state: u64,
    // the secret part of each factor, which is odd and stays
    pub(crate) key: u64,
}

/// The state after more than eight bytes, by blocks of sixteen; the last block ends where they end, and may overlap the one before.
fn state_after_blocks(bytes: &[u8], start: u64, key: u64) -> u64
    requires { 8 < length bytes.now }
    ensures { result ≡ keyed.state_after_blocks bytes.now start key }
{
    let len = bytes.len();
    let mut state = start.wrapping_add(len as u64);
    let mut at = 0;
    while len - at > 16 {
        state = folded_product(
            eight_bytes(bytes, at) ^ state,
            eight_bytes(bytes, at + 8) ^ key,
        );
        at += 16;
    }
    folded_product(
        eight_bytes(bytes, len.saturating_sub(16)) ^ state,
        eight_bytes(bytes, len - 8) ^ key,
    )
}

impl Hasher for KeyedHasher {
    ghost write = { keyed.write };

    ghost finish = { keyed.finish };

    #[inline(always)]
    fn finish(&self) -> u64 {
        self.state
    }

    #[inline(always)]
    fn write(&mut self, bytes: &[u8]) {
        let len = bytes.len();
        if len > 8 {
            self.state = state_after_blocks(bytes, self.state, self.key);
            return;
        }
        self.state = folded_product(self.state ^ few_bytes(bytes), self.key ^ (2 * len as u64));
    }
}
