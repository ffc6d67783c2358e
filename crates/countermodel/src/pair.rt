//! Pairs of elements.
ghost use Rattle.countermodel.specs.Pairs.{ComesBefore};
ghost use Rattle.countermodel.specs.Ranges.{IsWithin};
ghost use Rattle.std.specs.Prelude.{◌↔◌, IsTrue};

use axioms::PropId;

/// Two elements, the second of which the property leads to from the first. Pairs are in order of their properties, those of one
/// property in order of their sources, and those of one source in order of their targets.
#[derive(Clone, Copy, PartialEq, Eq)]
pub(crate) struct Pair {
    pub property: PropId,
    pub source: u32,
    pub target: u32,
}

/// Whether the first comes before the second in the order of pairs.
pub(crate) fn comes_before(first: Pair, second: Pair) -> bool
    ensures { IsTrue result ↔ ComesBefore first second }
{
    if first.property != second.property {
        return first.property.0 < second.property.0;
    }
    if first.source != second.source {
        return first.source < second.source;
    }
    first.target < second.target
}

/// The pairs from one on, and before another where there is one, in the order of pairs.
#[derive(Clone, Copy, PartialEq, Eq)]
pub(crate) struct PairRange {
    pub from: Pair,
    pub end: Option<Pair>,
}

impl PairRange {
    /// Whether the pair is in the range.
    pub(crate) fn contains(&self, pair: Pair) -> bool
        ensures { IsTrue result ↔ IsWithin self.now pair }
    {
        if comes_before(pair, self.from) {
            return false;
        }
        match self.end {
            None => true,
            Some(end) => comes_before(pair, end),
        }
    }
}
