//! Pairs from the edges among facts.
ghost use Rattle.axioms.specs.WellFormedness.{AreDistinct};
ghost use Rattle.countermodel.specs.Edges.{AddsPairs, IsAboveIn, IsGiven, IsGivenBy, IsWith};
ghost use Rattle.countermodel.specs.Keys.{HasPair};
ghost use Rattle.countermodel.specs.Ranges.{Within};
ghost use Rattle.countermodel.specs.declared.pair.Pair.{Pair as Pair2};
ghost use Rattle.std.specs.Prelude.{◌↔◌, ◌≡◌, IfOk, OnOk, length};

use crate::elements::Elements;
use crate::keys::key_of;
use crate::pair::{Pair, PairRange};
use axioms::Memory;
use facts::{Fact, StoredFact};
use normal_forms::PropId2;
use number_sets::OpenLists;
use property_closure::PropertyClosure;
use std::alloc::Global;

/// What pairs are made of.
#[derive(Clone, Copy)]
pub(crate) struct Edges<'a> {
    pub alloc: Global,
    pub closure: &'a PropertyClosure,
    pub elements: &'a Elements,
    pub facts: &'a [StoredFact],
    /// How many properties there are.
    pub properties: usize,
}

/// Adds the pair with the property, where it is one and the pair is in the range.
fn add_with(
    keys: &mut OpenLists<u64>,
    range: &PairRange,
    property: PropId2,
    pair: Pair,
) -> Result<(), Memory>
    ensures long { length keys.new ≡ length keys.old }
    ensures added { OnOk result (AddsPairs (Within (length keys.old) range.now (IsWith property pair)) keys.old keys.new) }
{
    let PropId2::Property(property) = property else {
        return Ok(());
    };
    let pair = Pair {
        property,
        source: pair.source,
        target: pair.target,
    };
    if range.contains(pair) {
        keys.push(property.index(), key_of(pair))?;
    }
    Ok(())
}

/// Adds for each property at or above that of the pair the same pair, of those in the range.
fn add_above(
    keys: &mut OpenLists<u64>,
    range: &PairRange,
    closure: &PropertyClosure,
    pair: Pair,
) -> Result<(), Memory>
    ensures long { length keys.new ≡ length keys.old }
    ensures added { OnOk result (AddsPairs (Within (length keys.old) range.now (IsAboveIn closure.now pair)) keys.old keys.new) }
{
    for above in closure.supers(PropId2::Property(pair.property)) {
        add_with(keys, range, *above, pair)?;
    }
    Ok(())
}

/// Adds the pairs that the fact gives, of those in the range. A prefix of a chain gives none, since no property is above it.
#[inline(always)]
pub(crate) fn add_fact(
    keys: &mut OpenLists<u64>,
    range: &PairRange,
    closure: &PropertyClosure,
    elements: &Elements,
    fact: Fact,
) -> Result<(), Memory>
    requires { AreDistinct elements.now }
    ensures long { length keys.new ≡ length keys.old }
    ensures added { OnOk result (AddsPairs (Within (length keys.old) range.now (IsGivenBy closure.now elements.now fact)) keys.old keys.new) }
{
    let Fact::Edge(x, property, y) = fact else {
        return Ok(());
    };
    let PropId2::Property(property) = property else {
        return Ok(());
    };
    let Some(source) = elements.element(x) else {
        return Ok(());
    };
    let Some(target) = elements.element(y) else {
        return Ok(());
    };
    let pair = Pair {
        property,
        source,
        target,
    };
    add_above(keys, range, closure, pair)?;
    Ok(())
}

/// For each property the numbers of those of its pairs that are in the range and that the facts give, in any order, some of them more
/// than once.
pub(crate) fn keys_of(edges: &Edges<'_>, range: &PairRange) -> Result<OpenLists<u64>, Memory>
    requires { AreDistinct edges.now.elements.now }
    ensures long { IfOk result (λ lists. length lists ≡ edges.now.properties) }
    ensures exact { IfOk result
        (λ lists. (p : Pair2) → HasPair lists p ↔ Within edges.now.properties range.now (IsGiven edges.now.closure.now edges.now.elements.now edges.now.facts.now) p) }
{
    let mut keys = OpenLists::new(edges.alloc, edges.properties)?;
    for fact in edges.facts {
        add_fact(&mut keys, range, edges.closure, edges.elements, fact.get())?;
    }
    Ok(keys)
}
