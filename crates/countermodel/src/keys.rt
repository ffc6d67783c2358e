//! Pairs as numbers among those of their property.
ghost use Rattle.countermodel.specs.Keys.{pair_at};
ghost use Rattle.std.specs.Prelude.{◌↔◌, ◌≡◌, ◌<◌, ◌/◌, ◌%◌, ◌^◌, AllPairs, Contains, IfOk, ℕ};

use crate::pair::Pair;
use axioms::{Memory, PropId};
use number_sets::sort_ascending;
use std::alloc::Global;

/// The number of a pair among those of its property: by these numbers they are in order.
pub(crate) fn key_of(pair: Pair) -> u64
    ensures source { result / 2 ^ 32 ≡ pair.source }
    ensures target { result % 2 ^ 32 ≡ pair.target }
{
    pair.source as u64 * 0x1_0000_0000 + pair.target as u64
}

/// The pair of the property with that number.
pub(crate) fn pair_with(property: PropId, key: u64) -> Pair
    ensures { result ≡ pair_at property.0 key }
{
    Pair {
        property,
        source: (key / 0x1_0000_0000) as u32,
        target: (key % 0x1_0000_0000) as u32,
    }
}

/// The numbers of the list in ascending order, each once.
pub(crate) fn keys_in_order(alloc: Global, list: &[u64]) -> Result<Vec<u64>, Memory>
    ensures ascends { IfOk result (λ v. AllPairs (λ x y. x < y) v.items) }
    ensures same { IfOk result (λ v. (n : ℕ) → Contains v.items n ↔ Contains list.now n) }
{
    let mut keys = Vec::with_capacity(alloc, list.len())?;
    keys.extend_from_slice(list)?;
    sort_ascending(&mut keys);
    Ok(keys)
}
