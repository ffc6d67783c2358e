//! The reflexive properties.
ghost use Rattle.number_sets.specs.Members.{has};
ghost use Rattle.property_closure.specs.Growth.{AreSupers, lists_of};
ghost use Rattle.property_closure.specs.Relations.{AreReflexiveWithin, HasPut, as_property};
ghost use Rattle.normal_forms.specs.Properties.{IsReflexive};
ghost use Rattle.std.specs.Prelude.{◌↔◌, ◌≡◌, IfOk, length, true, ℕ};

use crate::super_lists::SuperLists;
use axioms::Memory;
use normal_forms::{Form, PropId2};
use number_sets::EpochSet;
use std::alloc::Global;

/// Puts the numbers of these properties into the set.
fn put_each(set: &mut EpochSet, properties: &[PropId2])
    ensures length { length set.new ≡ length set.old }
    ensures each { HasPut set.old properties.now set.new }
{
    for property in properties {
        if let PropId2::Property(id) = property {
            set.put(id.index());
        }
    }
}

/// The reflexive properties: those that a form says to be so, and those above them.
pub(crate) fn reflexive_properties(
    alloc: Global,
    properties: usize,
    supers: &SuperLists,
    forms: &[Form],
) -> Result<EpochSet, Memory>
    requires covered { length (lists_of supers.now) ≡ properties }
    requires supers { AreSupers forms.now supers.now.base.value supers.now.more }
    requires within { AreReflexiveWithin properties forms.now }
    ensures { IfOk result (λ s. (p : ℕ) → (has s p ≡ true) ↔ IsReflexive forms.now (as_property p)) }
{
    let mut reflexive = EpochSet::new(alloc, properties)?;
    for form in forms {
        if let Form::N7(property) = form {
            put_each(&mut reflexive, supers.at(property.index()));
        }
    }
    Ok(reflexive)
}
