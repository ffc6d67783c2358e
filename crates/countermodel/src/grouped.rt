//! Pairs in rows.
ghost use Rattle.certificate.specs.View.{pair_row_of};
ghost use Rattle.countermodel.specs.Keys.{pair_at};
ghost use Rattle.countermodel.specs.LastRows.{AddsToLast, GroupsMore};
ghost use Rattle.countermodel.specs.Pairs.{row_with};
ghost use Rattle.std.specs.Prelude.{◌↔◌, ◌≡◌, ◌∷◌, [], IfOk, IsTrue, map};

use crate::keys::pair_with;
use crate::pair::Pair;
use crate::sink::RowSink;
use axioms::{Memory, PropId};
use certificate::{PairRow, Targets};
use std::alloc::Global;

/// Whether the row is of the pair's property and source.
fn is_of(row: &PairRow, pair: Pair) -> bool
    ensures { IsTrue result ↔ ((row.now.property.0 ≡ pair.property.0) × (row.now.source ≡ pair.source)) }
{
    row.property == pair.property && row.source == pair.source
}

/// A row of the pair alone.
fn row_of(pair: Pair) -> PairRow
    ensures { pair_row_of result ≡ row_with pair (pair.target ∷ []) }
{
    PairRow {
        property: pair.property,
        source: pair.source,
        targets: Targets::One(pair.target),
    }
}

/// The last row with the pair, where it is of its property and source. Else the sink takes the row, and the last is of the pair alone.
fn add_pair<S: RowSink<PairRow>>(
    alloc: Global,
    rows: &mut S,
    last: Option<PairRow>,
    pair: Pair,
) -> Result<PairRow, Memory>
    ensures { IfOk result (λ row. AddsToLast S.adds pair rows.old last rows.new row) }
{
    let Some(mut row) = last else {
        return Ok(row_of(pair));
    };
    if is_of(&row, pair) {
        row.targets.push(alloc, pair.target)?;
        return Ok(row);
    }
    rows.add(row)?;
    Ok(row_of(pair))
}

/// Adds the rows of the pairs of the property with these numbers, which are in order, to those of pairs that come before them, of which
/// the last is not in the sink yet: but the last one, which it gives.
pub(crate) fn add_grouped<S: RowSink<PairRow>>(
    alloc: Global,
    property: PropId,
    keys: &[u64],
    last: Option<PairRow>,
    rows: &mut S,
) -> Result<Option<PairRow>, Memory>
    ensures { IfOk result (GroupsMore S.adds (map (pair_at property.0) keys.now) rows.old last rows.new) }
{
    let mut last = last;
    for key in keys {
        let pair = pair_with(property, *key);
        last = Some(add_pair(alloc, rows, last, pair)?);
    }
    Ok(last)
}
