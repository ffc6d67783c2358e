//! Axioms on properties, over rows of pairs.
ghost use Rattle.axioms.specs.View.{prop_numbers};
ghost use Rattle.certificate.specs.View.{pair_row_of};
ghost use Rattle.listed_model.specs.Listing.{targets_of};
ghost use Rattle.listed_model.specs.Members.{holds};
ghost use Rattle.listed_model.specs.Rows.{ArePairRows, HaveSamePairs, LiesWithin};
ghost use Rattle.std.specs.Prelude.{◌≡◌, ◌↔◌, ◌<◌, AllPairs, IsTrue, map, true, ℕ};

use crate::ascending::{are_within, stands_in};
use crate::rows::{rows_of, targets_at};
use axioms::PropId;
use certificate::PairRow;

/// Whether each pair of the property is one of the property above.
pub(crate) fn are_pairs_within(rows: &[PairRow], property: PropId, above: PropId) -> bool
    requires { ArePairRows rows.now }
    ensures { IsTrue result ↔ LiesWithin (map pair_row_of rows.now) property.0 above.0 }
{
    for row in rows_of(rows, property) {
        if !are_within(row.targets.as_slice(), targets_at(rows, above, row.source)) {
            return false;
        }
    }
    true
}

/// Whether the properties have the same pairs.
pub(crate) fn are_same_properties(rows: &[PairRow], properties: &[PropId]) -> bool
    requires { ArePairRows rows.now }
    ensures { IsTrue result ↔ AllPairs (HaveSamePairs (map pair_row_of rows.now)) (prop_numbers properties.now) }
{
    let Some(first) = properties.first() else {
        return true;
    };
    for property in properties {
        if !are_pairs_within(rows, *first, *property) {
            return false;
        }
        if !are_pairs_within(rows, *property, *first) {
            return false;
        }
    }
    true
}

/// Whether the property leads from each element below the domain to itself.
pub(crate) fn is_reflexive(rows: &[PairRow], domain: u32, property: PropId) -> bool
    requires { ArePairRows rows.now }
    ensures { IsTrue result ↔ ((x : ℕ) → x < domain → holds (targets_of (map pair_row_of rows.now) property.0 x) x ≡ true) }
{
    for element in 0..domain {
        if !stands_in(targets_at(rows, property, element), element) {
            return false;
        }
    }
    true
}

pub(crate) fn leads_to(rows: &[PairRow], property: PropId, source: u32, target: u32) -> bool
    requires { ArePairRows rows.now }
    ensures { result ≡ holds (targets_of (map pair_row_of rows.now) property.0 source) target }
{
    stands_in(targets_at(rows, property, source), target)
}
