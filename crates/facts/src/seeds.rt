//! The hash of facts among those of one context: sums of products with numbers that the caller's state of hashing gives, so that who
//! writes a document does not know which facts fall together.
ghost use Rattle.facts.specs.Hashes.{hash_of, mixed_of, odd, sum_of, word_hash};
ghost use Rattle.std.specs.Prelude.{◌≡◌};

use crate::contexts::{Fact, class_word, context_word, property_word};
use std::hash::{BuildHasher, RandomState};

/// The factors of a hash, which are odd.
#[derive(Clone, Copy, PartialEq, Eq, Drop)]
pub(crate) struct Seeds {
    /// Of a class, and of a property.
    pub first: u64,
    /// Of the target of an edge.
    pub second: u64,
    /// Of both together.
    pub third: u64,
}

impl Seeds {
    /// The factors that the state gives.
    pub(crate) fn new(state: &RandomState) -> Seeds
        ensures first { result.first ≡ odd (word_hash state.now 1) }
        ensures second { result.second ≡ odd (word_hash state.now 2) }
        ensures third { result.third ≡ odd (word_hash state.now 3) }
    {
        Seeds {
            first: state.hash_one(1u64) | 1,
            second: state.hash_one(2u64) | 1,
            third: state.hash_one(3u64) | 1,
        }
    }
}

/// The sum of the parts of a fact but its context, an edge's source, each with its factor.
#[inline(always)]
fn sum(seeds: &Seeds, fact: Fact) -> u64
    ensures { result ≡ sum_of seeds.now fact }
{
    match fact {
        Fact::In(class, _) => class_word(class).wrapping_mul(seeds.first),
        Fact::Edge(_, property, target) => property_word(property)
            .wrapping_mul(seeds.first)
            .wrapping_add(context_word(target).wrapping_mul(seeds.second)),
    }
}

/// The sum with its upper half in each bit of the lower.
#[inline(always)]
fn mixed(sum: u64, factor: u64) -> u64
    ensures { result ≡ mixed_of sum factor }
{
    (sum ^ (sum >> 32)).wrapping_mul(factor) >> 32
}

/// The hash of the fact among those of its context: 32 bits.
#[inline(always)]
pub(crate) fn hash(seeds: &Seeds, fact: Fact) -> u64
    ensures { result ≡ hash_of seeds.now fact }
{
    mixed(sum(seeds, fact), seeds.third)
}
