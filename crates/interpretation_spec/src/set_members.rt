//! The members of sets in ascending order.
ghost use Rattle.interpretation_spec.specs.Members.{members_below};
ghost use Rattle.std.specs.Prelude.{◌*◌, ◌+◌, ◌<◌, ◌^◌, ◌≡◌, IfOk, OnOk, length};

use axioms::Memory;
use number_sets::Row;
use std::alloc::Global;

/// Adds the members that stand in the word of that number, behind those of the words before it.
fn push_word(found: &mut Vec<usize>, set: &Row, word: usize) -> Result<(), Memory>
    requires within { (64 * word < length set.now) × (length set.now < 2 ^ 64) }
    requires before { found.old.items ≡ members_below set.now (64 * word) }
    ensures { OnOk result (found.new.items ≡ members_below set.now (64 * (word + 1))) }
{
    let mut left = set.words()[word];
    while left != 0 {
        let bit = left.trailing_zeros() as usize;
        found.push(64 * word + bit)?;
        left &= !(1 << bit);
    }
    Ok(())
}

/// The members of the set, ascending. Where 64 numbers together are none, they are passed over by one look.
///
/// # Errors
///
/// `Memory` where memory was refused.
pub fn members(alloc: Global, set: &Row) -> Result<Vec<usize>, Memory>
    ensures { IfOk result (λ v. v.items ≡ members_below set.now (length set.now)) }
{
    let mut found = Vec::new(alloc);
    let words = set.words();
    for word in 0..set.len().div_ceil(64) {
        if words[word] != 0 {
            push_word(&mut found, set, word)?;
        }
    }
    Ok(found)
}
