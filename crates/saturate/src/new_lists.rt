//! Which lists of disjoint classes that are added are new.
ghost use Rattle.axioms.specs.declared.ids.ExprId.{ExprId as ExprId2};
ghost use Rattle.normal_forms.specs.Apart.{AreContinuedBy};
ghost use Rattle.saturate.specs.Requests.{IsNew};
ghost use Rattle.std.specs.Prelude.{◌≡◌, ◌↔◌, [], Contains, IfOk, IsTrue, List};

use axioms::{ExprId, Memory};
use normal_forms::ApartLists;
use number_sets::PackedLists;
use std::alloc::Global;

/// Whether the two are equal.
fn are_equal(first: &[ExprId], second: &[ExprId]) -> bool
    ensures { IsTrue result ↔ (first.now ≡ second.now) }
{
    first.len() == second.len() && first == second
}

/// Whether one of the lists is equal to it.
fn has_list(lists: &PackedLists<ExprId>, list: &[ExprId]) -> bool
    ensures { IsTrue result ↔ Contains lists.now list.now }
{
    for number in 0..lists.len() {
        if are_equal(lists.at(number), list) {
            return true;
        }
    }
    false
}

/// Of the lists behind the earlier ones those of disjoint classes to which no earlier list is equal.
pub(crate) fn new_lists(
    alloc: Global,
    earlier: &ApartLists,
    lists: &ApartLists,
) -> Result<ApartLists, Memory>
    requires { AreContinuedBy earlier.now lists.now }
    ensures classes { IfOk result (λ new. (cs : List ExprId2) → Contains new.classes cs ↔ IsNew earlier.now.classes lists.now.classes cs) }
    ensures individuals { IfOk result (λ new. new.individuals ≡ []) }
{
    let mut new = ApartLists::new(alloc);
    for number in earlier.classes.len()..lists.classes.len() {
        let list = lists.classes.at(number);
        if !has_list(&earlier.classes, list) {
            new.classes.push_list(list)?;
        }
    }
    Ok(new)
}
