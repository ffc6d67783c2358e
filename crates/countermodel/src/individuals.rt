//! The elements of individuals.
ghost use Rattle.countermodel.specs.Leading.{AreGroupsOf};
ghost use Rattle.countermodel.specs.MemberRows.{AreIndividualElements, HaveIndividuals};
ghost use Rattle.std.specs.Prelude.{IfOk, List, ℕ};

use crate::elements::Elements;
use axioms::{IndId, Memory, Ontology};
use facts::Context;
use indexes::Groups;
use std::alloc::Global;

/// The element of each individual, by the individual's number: that of the least of its group.
pub(crate) fn individual_elements(
    alloc: Global,
    ontology: &Ontology,
    groups: &Groups,
    elements: &Elements,
) -> Result<Vec<u32>, Memory>
    requires groups { (asked : List ℕ) × AreGroupsOf ontology.now asked groups.now }
    requires there { HaveIndividuals ontology.now elements.now }
    ensures { IfOk result (λ v. AreIndividualElements ontology.now elements.now v.items) }
{
    ontology.bounded();
    let mut numbers = Vec::new(alloc);
    for number in 0..ontology.individuals().len() {
        let least = groups.least(IndId(number as u32));
        let Some(element) = elements.element(Context::Individual(least)) else {
            unreachable!()
        };
        numbers.push(element)?;
    }
    Ok(numbers)
}
