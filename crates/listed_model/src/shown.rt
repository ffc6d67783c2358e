//! What tests have shown of properties, so that what is said many times is tested once.
ghost use Rattle.certificate.specs.View.{pair_row_of};
ghost use Rattle.listed_model.specs.Rows.{ArePairRows, ClosedAt, LiesWithin};
ghost use Rattle.listed_model.specs.PropertyTests.{AreShown};
ghost use Rattle.std.specs.Prelude.{◌≡◌, ◌↔◌, IfOk, IsTrue, List, OnOk, length, map, ℕ};

use crate::property_axioms::are_pairs_within;
use crate::room::Room;
use crate::transitive::is_transitive;
use axioms::{Memory, PropId};
use certificate::PairRow;
use std::alloc::Global;
use std::collections::BTreeSet;

/// Properties that lie within others, and transitive properties.
#[derive(Drop)]
pub(crate) struct Shown {
    pub within: BTreeSet<(u32, u32)>,
    pub transitive: BTreeSet<u32>,
}

impl Shown {
    /// Nothing.
    pub(crate) fn new(alloc: Global) -> Shown
        ensures { (rows : List (ℕ × ℕ × List ℕ)) → AreShown rows result }
    {
        Shown {
            within: BTreeSet::new(alloc),
            transitive: BTreeSet::new(alloc),
        }
    }
}

/// Whether each pair of the property is one of the property above.
pub(crate) fn lies_within(
    rows: &[PairRow],
    shown: &mut Shown,
    property: PropId,
    above: PropId,
) -> Result<bool, Memory>
    requires rows { ArePairRows rows.now }
    requires shown { AreShown (map pair_row_of rows.now) shown.old }
    ensures shown { OnOk result (AreShown (map pair_row_of rows.now) shown.new) }
    ensures within { IfOk result (λ within. IsTrue within ↔ LiesWithin (map pair_row_of rows.now) property.0 above.0) }
{
    let pair = (property.0, above.0);
    if shown.within.contains(&pair) {
        return Ok(true);
    }
    if !are_pairs_within(rows, property, above) {
        return Ok(false);
    }
    shown.within.insert(pair)?;
    Ok(true)
}

/// Whether the property leads in one step to all that it leads to in two.
pub(crate) fn is_closed(
    alloc: Global,
    rows: &[PairRow],
    room: &mut Room,
    property: PropId,
) -> Result<bool, Memory>
    requires rows { ArePairRows rows.now }
    requires shown { AreShown (map pair_row_of rows.now) room.old.shown }
    ensures len { length room.new.seen ≡ length room.old.seen }
    ensures shown { OnOk result (AreShown (map pair_row_of rows.now) room.new.shown) }
    ensures transitive { IfOk result (λ transitive. IsTrue transitive ↔ ((x : ℕ) → ClosedAt (map pair_row_of rows.now) property.0 x)) }
{
    if room.shown.transitive.contains(&property.0) {
        return Ok(true);
    }
    if !is_transitive(alloc, rows, &mut room.seen, &mut room.done, property)? {
        return Ok(false);
    }
    room.shown.transitive.insert(property.0)?;
    Ok(true)
}
