//! Limits that a caller sets.
ghost use Rattle.std.specs.Prelude.{◌<◌, ◌≡◌, ◌≤◌, ◌↔◌, IfSome, IsSome};
ghost use Rattle.program.specs.declared.limits.TheConstants.{MOST_BYTES, MOST_FACTS};

use crate::version::Version;

/// The greatest number of bytes of a document: 268,435,456.
pub const MOST_BYTES: u64 = 268_435_456;

/// `MOST_BYTES` in decimal digits.
pub const MOST_BYTES_TEXT: &str = "268435456";

/// The greatest number of facts of a closure: 100,000,000.
pub const MOST_FACTS: u64 = 100_000_000;

/// `MOST_FACTS` in decimal digits.
pub const MOST_FACTS_TEXT: &str = "100000000";

/// How many bytes a document may have, how many facts its closure, and which version of the profile it is read in.
#[derive(Clone, Copy, Debug, PartialEq, Eq)]
pub struct Limits {
    pub max_bytes: u64,
    pub max_facts: u32,
    pub version: Version,
    ghost some_bytes: { 0 < max_bytes },
    ghost bytes: { max_bytes ≤ MOST_BYTES },
    ghost some_facts: { 0 < max_facts },
    ghost facts: { max_facts ≤ MOST_FACTS },
}

impl Limits {
    /// These limits, and this version: `None` where a limit is 0 or more than the greatest.
    pub fn new(max_bytes: u64, max_facts: u64, version: Version) -> Option<Limits>
        ensures within { IsSome result ↔ ((0 < max_bytes) × (max_bytes ≤ MOST_BYTES) × (0 < max_facts) × (max_facts ≤ MOST_FACTS)) }
        ensures these { IfSome result (λ l. (l.max_bytes ≡ max_bytes) × (l.max_facts ≡ max_facts) × (l.version ≡ version)) }
    {
        if max_bytes == 0 || max_bytes > MOST_BYTES || max_facts == 0 || max_facts > MOST_FACTS {
            return None;
        }
        Some(Limits {
            max_bytes,
            max_facts: max_facts as u32,
            version,
        })
    }
}
