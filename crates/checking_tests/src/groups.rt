//! The groups of a taxonomy, as they are lent to who writes them otherwise.

use crate::documents::ontology_of;
use crate::relations::taxonomy_of;
use crate::taxonomies::count;
use axioms::{Memory, Ontology};
use std::alloc::Global;
use std::test::Fail;
use taxonomy::{Groups, Taxonomy, in_byte_order};

/// Declarations of three classes, which have the numbers 2, 3 and 4, in another order than that of their names.
const DOCUMENT: &str =
    "Ontology(Declaration(Class(<x:B>)) Declaration(Class(<x:A>)) Declaration(Class(<x:C>)))";

/// The first two are the same, and below the third.
const BELOW: &[(u32, u32)] = &[(2, 3), (3, 2), (2, 4), (3, 4)];

/// Whether the numbers of the names stand in the order of these.
fn are_in_order(alloc: Global, ontology: &Ontology) -> Result<bool, Memory> {
    let order = in_byte_order(alloc, ontology.classes())?;
    Ok(order.as_slice() == [1, 0, 3, 2, 4].as_slice())
}

/// Whether the groups are lent, the classes above them, and the least of some.
fn are_groups(groups: &mut Groups<'_>) -> Result<bool, Memory> {
    let firsts = groups.firsts()?;
    let members = groups.members(2)?;
    let above = groups.directly_above(3)?;
    let least = groups.least(&[0, 4, 3, 2])?;
    Ok(
        firsts.as_slice() == [1, 0, 3, 4].as_slice()
            && members.as_slice() == [3, 2].as_slice()
            && above.as_slice() == [4].as_slice()
            && least.as_slice() == [3].as_slice(),
    )
}

/// Whether the groups of the taxonomy are lent.
fn are_lent(alloc: Global, ontology: &Ontology, taxonomy: &Taxonomy) -> Result<bool, Memory> {
    if ontology.classes().len() != taxonomy.len() {
        return Ok(false);
    }
    let mut groups = Groups::of(alloc, ontology.classes(), taxonomy)?;
    let same = groups.is_same(2, 3) && !groups.is_same(2, 4);
    let lent = are_groups(&mut groups)?;
    Ok(same && lent)
}

#[test]
fn groups_are_lent(rt: HostRuntime) -> Result<(), Fail> {
    let alloc = rt.alloc();
    let ontology = ontology_of(&rt, DOCUMENT)?;
    let taxonomy = taxonomy_of(alloc, BELOW, count(ontology.classes().len())?)?;
    assert!(rt; are_lent(alloc, &ontology, &taxonomy)?);
    assert!(rt; are_in_order(alloc, &ontology)?);
    Ok(())
}
