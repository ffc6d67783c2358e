//! How many numbers keys of two kinds have.
ghost use Rattle.std.specs.Prelude.{◌≡◌, ◌≤◌, ◌<◌, ℕ, [], Some, OnOk, length, slice_index};
ghost use Rattle.indexes.specs.Counts.{Counts, CountsKey};

use crate::keys::Key;
use std::alloc::{AllocError, Global};

/// How many numbers each key has, up to the greatest that has one.
#[derive(Drop)]
pub(crate) struct KeyCounts {
    pub wholes: Vec<u32>,
    pub partials: Vec<u32>,
}

/// Makes room for the count of a key. Fails where memory is refused.
#[inline(always)]
fn reach(counts: &mut Vec<u32>, key: usize) -> Result<(), AllocError>
    requires { key ≤ u32.MAX }
    ensures same { OnOk result ((k : ℕ) → slice_index counts.new.items k ≡ slice_index counts.old.items k) }
    ensures there { OnOk result (key < length counts.new.items) }
{
    if key >= counts.len() {
        counts.resize(key + 1, 0)?;
    }
    Ok(())
}

/// Counts one number more of a key. Fails where memory is refused, and where the key has 2^32 - 1.
#[inline(always)]
fn count(counts: &mut Vec<u32>, key: u32) -> Result<(), AllocError>
    ensures { OnOk result (Counts counts.old.items counts.new.items key) }
{
    reach(counts, key as usize)?;
    // Not where fewer than 2^32 are counted, as forms and operands are here.
    let Some(more) = counts[key as usize].checked_add(1) else {
        return Err(AllocError);
    };
    counts[key as usize] = more;
    Ok(())
}

impl KeyCounts {
    /// Counts nothing.
    pub(crate) fn new(alloc: Global) -> Self
        ensures wholes { result.wholes.items ≡ [] }
        ensures partials { result.partials.items ≡ [] }
    {
        KeyCounts {
            wholes: Vec::new(alloc),
            partials: Vec::new(alloc),
        }
    }

    /// Counts one number more of the key. Fails where memory is refused, and where the key has 2^32 - 1.
    #[inline(always)]
    pub(crate) fn add(&mut self, key: Key) -> Result<(), AllocError>
        ensures { OnOk result (CountsKey self.old self.new (Some key)) }
    {
        match key {
            Key::Whole(key) => count(&mut self.wholes, key),
            Key::Partial(key) => count(&mut self.partials, key),
        }
    }
}
