//! The instances text of a consistent ontology.
ghost use Rattle.axioms.specs.Ontology.{name_at};
ghost use Rattle.std.specs.List.{flat_map};
ghost use Rattle.std.specs.Prelude.{◌++◌, ◌≡◌, IfOk, OnOk, length, map};
ghost use Rattle.std.specs.String.{string_bytes};
ghost use Rattle.taxonomy.specs.Relation.{is_listed, lies_below};
ghost use Rattle.taxonomy.specs.Texts.{individual_line, instances_text, line_with};

use crate::lent::Groups;
use crate::names::{write_name, write_names};
use crate::order::in_byte_order;
use crate::reduction::Taxonomy;
use axioms::Memory;
use number_sets::PackedLists;
use std::alloc::Global;

/// Adds the line of an individual, with these classes.
fn write_line(
    out: &mut Vec<u8>,
    classes: &[String],
    individuals: &[String],
    a: usize,
    types: &[usize],
) -> Result<(), Memory>
    ensures { OnOk result
        (out.new.items ≡ out.old.items ++ line_with (map string_bytes classes.now) (name_at (map string_bytes individuals.now) a) types.now) }
{
    write_name(out, individuals, a)?;
    write_names(out, classes, b" : ", b" , ", types)?;
    out.push(b'\n')?;
    Ok(())
}

/// Adds the lines of the individuals, in this order.
fn write_individuals(
    out: &mut Vec<u8>,
    groups: &mut Groups,
    individuals: &[String],
    types: &PackedLists,
    order: &[usize],
) -> Result<(), Memory>
    ensures { OnOk result
        (out.new.items
        ≡ out.old.items
        ++ flat_map (individual_line groups.old.names (map string_bytes individuals.now) (lies_below groups.old.rows) (is_listed types.now)) order.now) }
{
    let mut least = Vec::new(groups.allocator());
    for a in order {
        groups.put_least(&mut least, types.at(*a))?;
        write_line(out, groups.names(), individuals, *a, &least)?;
    }
    Ok(())
}

/// The text of the individuals' types: `types` has the list of classes of each individual.
pub(crate) fn text_of_instances(
    alloc: Global,
    classes: &[String],
    individuals: &[String],
    taxonomy: &Taxonomy,
    types: &PackedLists,
) -> Result<Vec<u8>, Memory>
    requires { length classes.now ≡ length taxonomy.now }
    ensures { IfOk result
        (λ v. v.items
        ≡ instances_text (map string_bytes classes.now) (map string_bytes individuals.now) (lies_below taxonomy.now) (is_listed types.now)) }
{
    let order = in_byte_order(alloc, individuals)?;
    let mut out = Vec::new(alloc);
    out.extend_from_slice(b"elinst 1 consistent\n")?;
    if order.is_empty() {
        return Ok(out);
    }
    let mut groups = Groups::of(alloc, classes, taxonomy)?;
    write_individuals(&mut out, &mut groups, individuals, types, &order)?;
    Ok(out)
}
