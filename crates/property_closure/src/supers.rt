//! The properties above each property.
ghost use Rattle.number_sets.specs.Pieces.{list_at};
ghost use Rattle.property_closure.specs.Relations.{AreAbove, ArePlainWithin, IsAdjacency, as_property};
ghost use Rattle.std.specs.Prelude.{◌<◌, ◌≡◌, ◌≤◌, ◌^◌, IfOk, length, map, ℕ};

use axioms::{Memory, PropId};
use normal_forms::{Form, PropId2};
use number_sets::{NumberSearch, OpenLists, PackedLists, sort_ascending};
use std::alloc::Global;

/// For each property those that a plain form puts directly above it.
fn told_supers(alloc: Global, properties: usize, forms: &[Form]) -> Result<PackedLists, Memory>
    requires { ArePlainWithin properties forms.now }
    ensures { IfOk result (λ l. IsAdjacency properties forms.now l) }
{
    let mut told = OpenLists::new(alloc, properties)?;
    for form in forms {
        if let Form::N5(sub, sup) = form {
            told.push(sub.index(), sup.0)?;
        }
    }
    Ok(told.packed(alloc)?)
}

fn as_properties(alloc: Global, numbers: &[u32]) -> Result<Vec<PropId2>, Memory>
    ensures { IfOk result (λ v. v.items ≡ map as_property numbers.now) }
{
    let mut properties = Vec::new(alloc);
    for number in numbers {
        properties.push(PropId2::Property(PropId(*number)))?;
    }
    Ok(properties)
}

/// For each property itself and those above it by plain forms, ascending.
pub(crate) fn all_supers(
    alloc: Global,
    properties: usize,
    forms: &[Form],
) -> Result<PackedLists<PropId2>, Memory>
    requires numbers { properties ≤ 2 ^ 32 }
    requires within { ArePlainWithin properties forms.now }
    ensures length { IfOk result (λ l. length l ≡ properties) }
    ensures each { IfOk result (λ l. (p : ℕ) → p < properties → AreAbove forms.now (as_property p) (list_at l p)) }
{
    let told = told_supers(alloc, properties, forms)?;
    let mut search = NumberSearch::new(alloc, properties)?;
    let mut supers = PackedLists::new(alloc);
    for property in 0..properties {
        search.run(&told, &[property as u32])?;
        sort_ascending(&mut search.found);
        supers.push_list(&as_properties(alloc, &search.found)?)?;
    }
    Ok(supers)
}
