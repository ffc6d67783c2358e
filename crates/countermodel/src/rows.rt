//! Rows of pairs.
ghost use Rattle.axioms.specs.WellFormedness.{AreDistinct};
ghost use Rattle.certificate.specs.View.{pair_row_of};
ghost use Rattle.exactness.specs.ListedInterpretation.{AreSatisfiableContexts, IsBefore};
ghost use Rattle.countermodel.specs.Edges.{IsGiven};
ghost use Rattle.countermodel.specs.FactsOf.{AreFactsOf};
ghost use Rattle.countermodel.specs.Keys.{HasPair};
ghost use Rattle.countermodel.specs.LastRows.{GroupsAll};
ghost use Rattle.countermodel.specs.PairRows.{ArePairRows};
ghost use Rattle.countermodel.specs.Ranges.{AddsRange, HasRowsBelow, HaveProperties, IsBelow};
ghost use Rattle.countermodel.specs.Sinks.{Adds};
ghost use Rattle.std.specs.Prelude.{◌≤◌, ◌^◌, AllPairs, IfOk, None, OnOk, length, map};

use crate::cuts::cuts_of;
use crate::edges::{Edges, keys_of};
use crate::elements::Elements;
use crate::grouped::add_grouped;
use crate::keys::keys_in_order;
use crate::pair::{Pair, PairRange, comes_before};
use crate::sink::RowSink;
use axioms::{Memory, PropId};
use certificate::PairRow;
use engine::Closed;
use facts::StoredFact;
use number_sets::OpenLists;
use std::alloc::Global;

/// Adds the rows of the pairs that the lists have, but the last one, which it gives.
fn add_lists<S: RowSink<PairRow>>(
    alloc: Global,
    keys: &OpenLists<u64>,
    last: Option<PairRow>,
    rows: &mut S,
) -> Result<Option<PairRow>, Memory>
    requires { length keys.now ≤ 2 ^ 32 }
    ensures { IfOk result (GroupsAll S.adds (HasPair keys.now) rows.old last rows.new) }
{
    let mut last = last;
    for number in 0..keys.len() {
        let property = PropId(number as u32);
        let list = keys_in_order(alloc, keys.at(number))?;
        last = add_grouped(alloc, property, &list, last, rows)?;
    }
    Ok(last)
}

/// Adds the rows of the pairs in the range to those of the pairs before it, but the last one, which it gives.
fn add_range<S: RowSink<PairRow>>(
    edges: &Edges<'_>,
    range: PairRange,
    last: Option<PairRow>,
    rows: &mut S,
) -> Result<Option<PairRow>, Memory>
    requires distinct { AreDistinct edges.now.elements.now }
    requires few { edges.now.properties ≤ 2 ^ 32 }
    requires there { HaveProperties edges.now.properties (IsGiven edges.now.closure.now edges.now.elements.now edges.now.facts.now) }
    requires forward { IsBelow range.end range.from }
    ensures { IfOk result (AddsRange S.adds (IsGiven edges.now.closure.now edges.now.elements.now edges.now.facts.now) range rows.old last rows.new) }
{
    let keys = keys_of(edges, &range)?;
    add_lists(edges.alloc, &keys, last, rows)
}

/// Adds the rows of all pairs but the last one, which it gives. Pairs are made and put in order range by range, so that few of them
/// are there at a time: the ranges end at the pairs of `cuts`.
fn add_ranges<S: RowSink<PairRow>>(
    edges: &Edges<'_>,
    cuts: &[Pair],
    rows: &mut S,
) -> Result<Option<PairRow>, Memory>
    requires distinct { AreDistinct edges.now.elements.now }
    requires few { edges.now.properties ≤ 2 ^ 32 }
    requires there { HaveProperties edges.now.properties (IsGiven edges.now.closure.now edges.now.elements.now edges.now.facts.now) }
    ensures { IfOk result (HasRowsBelow S.adds (IsGiven edges.now.closure.now edges.now.elements.now edges.now.facts.now) rows.old None rows.new) }
{
    let mut from = Pair {
        property: PropId(0),
        source: 0,
        target: 0,
    };
    let mut last = None;
    for cut in cuts {
        if comes_before(from, *cut) {
            let end = Some(*cut);
            let range = PairRange { from, end };
            last = add_range(edges, range, last, rows)?;
            from = *cut;
        }
    }
    let range = PairRange { from, end: None };
    add_range(edges, range, last, rows)
}

/// Adds a row for each property and each element that it leads anywhere from, with the elements there, in order. The facts are all of
/// the saturation, or those of the elements' contexts.
///
/// # Errors
///
/// `Memory` where memory was refused; then some of them may be there.
pub(crate) fn add_pair_rows<S: RowSink<PairRow>>(
    closed: &Closed<'_>,
    elements: &Elements,
    facts: &[StoredFact],
    rows: &mut S,
) -> Result<(), Memory>
    requires ascend { AllPairs IsBefore elements.now }
    requires facts { AreFactsOf elements.now closed.now.saturation.state.facts facts.now }
    ensures { OnOk result (Adds (λ rs. ArePairRows closed.now.ontology closed.now.saturation.normal.asked elements.now (map pair_row_of rs)) (S.adds rows.old rows.new)) }
{
    let alloc = closed.allocator();
    closed.well_formed();
    let ontology = closed.ontology();
    ontology.bounded();
    let closure = closed.closure();
    let properties = ontology.properties().len();
    let edges = Edges {
        alloc,
        closure,
        elements,
        facts,
        properties,
    };
    let cuts = cuts_of(&edges)?;
    match add_ranges(&edges, &cuts, rows)? {
        None => Ok(()),
        Some(row) => rows.add(row),
    }
}

/// For each property and each element that it leads anywhere from the elements there, in order.
///
/// # Errors
///
/// `Memory` where memory was refused.
pub fn pair_rows(closed: &Closed<'_>, elements: &Elements) -> Result<Vec<PairRow>, Memory>
    requires elements { AreSatisfiableContexts closed.now.ontology closed.now.saturation.normal.asked elements.now }
    ensures { IfOk result (λ v. ArePairRows closed.now.ontology closed.now.saturation.normal.asked elements.now (map pair_row_of v.items)) }
{
    let alloc = closed.allocator();
    let mut rows = Vec::new(alloc);
    let facts = closed.facts();
    add_pair_rows(closed, elements, facts, &mut rows)?;
    Ok(rows)
}
