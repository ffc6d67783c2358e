//! Where the pairs of a listing are cut into ranges.
ghost use Rattle.axioms.specs.WellFormedness.{AreDistinct};
ghost use Rattle.std.specs.Prelude.{◌≡◌, ◌≤◌, ◌^◌, IfOk, length};

use crate::edges::{Edges, add_fact};
use crate::keys::{keys_in_order, pair_with};
use crate::pair::{Pair, PairRange};
use axioms::{Memory, PropId};
use number_sets::OpenLists;
use std::alloc::Global;

// So many pairs at a time take little room, and so do those of fewer facts.
const MANY: usize = 1_000_000;

// So many facts are looked at for where to cut.
const SAMPLE: usize = 4096;

// The pairs are cut into so many ranges at most: each range goes over all facts again.
const RANGES: usize = 4;

/// How many ranges pairs are cut into of which so many of some facts are known: one for each million, as far as these tell.
fn ranges_for(pairs: usize, facts: usize) -> usize
    ensures { (1 ≤ result) × (result ≤ 4) }
{
    let each_for = facts / SAMPLE + 1;
    RANGES.min(pairs.saturating_mul(each_for) / MANY + 1)
}

/// For each property the numbers of its pairs that every so many facts give, in any order.
fn some_keys(edges: &Edges<'_>) -> Result<OpenLists<u64>, Memory>
    requires { AreDistinct edges.now.elements.now }
    ensures { IfOk result (λ lists. length lists ≡ edges.now.properties) }
{
    let from = Pair {
        property: PropId(0),
        source: 0,
        target: 0,
    };
    let range = PairRange { from, end: None };
    let mut keys = OpenLists::new(edges.alloc, edges.properties)?;
    for some in edges.facts.chunks(edges.facts.len() / SAMPLE + 1) {
        if let Some(fact) = some.first() {
            add_fact(&mut keys, &range, edges.closure, edges.elements, fact.get())?;
        }
    }
    Ok(keys)
}

/// Adds the pairs of the property with these numbers.
fn push_pairs(pairs: &mut Vec<Pair>, property: PropId, keys: &[u64]) -> Result<(), Memory> {
    for key in keys {
        pairs.push(pair_with(property, *key))?;
    }
    Ok(())
}

/// The pairs that the lists have, in order.
fn pairs_in(alloc: Global, keys: &OpenLists<u64>) -> Result<Vec<Pair>, Memory>
    requires { length keys.now ≤ 2 ^ 32 }
{
    let mut pairs = Vec::new(alloc);
    for number in 0..keys.len() {
        let list = keys_in_order(alloc, keys.at(number))?;
        push_pairs(&mut pairs, PropId(number as u32), &list)?;
    }
    Ok(pairs)
}

/// Pairs between which some as many others stand, as far as some of the facts tell: none where there are few facts, or few pairs.
pub(crate) fn cuts_of(edges: &Edges<'_>) -> Result<Vec<Pair>, Memory>
    requires distinct { AreDistinct edges.now.elements.now }
    requires few { edges.now.properties ≤ 2 ^ 32 }
{
    let mut cuts = Vec::new(edges.alloc);
    if edges.facts.len() < MANY {
        return Ok(cuts);
    }
    let keys = some_keys(edges)?;
    let pairs = pairs_in(edges.alloc, &keys)?;
    let ranges = ranges_for(pairs.len(), edges.facts.len());
    for part in 1..ranges {
        if let Some(pair) = pairs.get((pairs.len() / ranges).saturating_mul(part)) {
            cuts.push(*pair)?;
        }
    }
    Ok(cuts)
}
