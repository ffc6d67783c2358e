//! Numbers of bytes, of axioms, and of facts.
ghost use Rattle.std.specs.Fmt.{decimal};
ghost use Rattle.std.specs.Prelude.{◌≡◌, ◌<◌, ◌+◌, ◌^◌, ℕ, IfNone, IfSome, min};

use itoa::Buffer;

/// The number that the word is in decimal digits, without leading zeros.
pub(crate) fn size_of_word(word: &str) -> Option<u64>
    ensures some { IfSome result (λ n. decimal n ≡ word.now) }
    ensures none { IfNone result ((n : ℕ) → n < 2 ^ 64 → decimal n ≡ word.now → ⊥) }
{
    let size = match word.parse::<u64>() {
        Ok(size) => size,
        Err(_) => return None,
    };
    let mut buffer = Buffer::new();
    if buffer.format(size) == word {
        Some(size)
    } else {
        None
    }
}

/// The number from 1 on, in 32 bits, that the word is in decimal digits, without leading zeros.
pub(crate) fn count_of_word(word: &str) -> Option<u32>
    ensures some { IfSome result (λ n. (0 < n) × (decimal n ≡ word.now)) }
    ensures none { IfNone result ((n : ℕ) → 0 < n → n < 2 ^ 32 → decimal n ≡ word.now → ⊥) }
{
    let size = size_of_word(word)?;
    if 0 < size && size <= u32::MAX as u64 {
        Some(size as u32)
    } else {
        None
    }
}

/// Up to how many facts a run goes on that may draw so many more than there are, within the limit.
pub(crate) fn end_of_run(facts: usize, more: u32, limit: u32) -> u32
    ensures { result ≡ min limit (facts + more) }
{
    let room = (limit as usize).saturating_sub(facts);
    if (more as usize) < room {
        facts as u32 + more
    } else {
        limit
    }
}
