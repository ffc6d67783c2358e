//! The taxonomy text of a consistent ontology.
ghost use Rattle.std.specs.List.{filter, flat_map};
ghost use Rattle.std.specs.Prelude.{◌++◌, ◌≡◌, IfOk, OnOk, codes, length, map};
ghost use Rattle.std.specs.String.{string_bytes};
ghost use Rattle.taxonomy.specs.Relation.{lies_below};
ghost use Rattle.taxonomy.specs.Texts as texts;
ghost use Rattle.taxonomy.specs.Texts.{group, group_line, in_byte_order, is_no_bottom, line_feed, line_of, listed, nothing_class, taxonomy_text};

use crate::lent::Groups;
use crate::names::write_names;
use crate::reduction::Taxonomy;
use axioms::{ClassId, Memory};
use std::alloc::Global;

/// Adds the line of these members of a group, with what stands for the groups directly above it.
fn write_line(
    out: &mut Vec<u8>,
    names: &[String],
    members: &[usize],
    above: &[usize],
) -> Result<(), Memory>
    ensures { OnOk result
        (out.new.items ≡ out.old.items ++ line_of (map string_bytes names.now) members.now above.now) }
{
    write_names(out, names, b"", b" = ", members)?;
    write_names(out, names, b" < ", b" , ", above)?;
    out.push(b'\n')?;
    Ok(())
}

/// Adds the line of a class's group. The two lists are room for this.
fn write_group(
    out: &mut Vec<u8>,
    groups: &mut Groups,
    members: &mut Vec<usize>,
    above: &mut Vec<usize>,
    g: usize,
) -> Result<(), Memory>
    ensures same { groups.new ≡ groups.old }
    ensures line { OnOk result
        (out.new.items
        ≡ out.old.items ++ group_line groups.old.names (lies_below groups.old.rows) (in_byte_order groups.old.names) g) }
{
    groups.put_members(members, g)?;
    groups.put_directly_above(above, g)?;
    write_line(out, groups.names(), members, above)
}

/// Adds the lines of the groups but that of owl:Nothing.
fn write_groups(out: &mut Vec<u8>, groups: &mut Groups) -> Result<(), Memory>
    ensures same { groups.new ≡ groups.old }
    ensures lines { OnOk result
        (out.new.items
        ≡ out.old.items
        ++ flat_map (group_line groups.old.names (lies_below groups.old.rows) (in_byte_order groups.old.names))
        (filter (is_no_bottom (lies_below groups.old.rows)) (texts.groups (lies_below groups.old.rows) (in_byte_order groups.old.names)))) }
{
    let firsts = groups.firsts()?;
    let mut members = Vec::new(groups.allocator());
    let mut above = Vec::new(groups.allocator());
    for g in &firsts {
        if !groups.is_same(*g, ClassId::NOTHING.0 as usize) {
            write_group(out, groups, &mut members, &mut above, *g)?;
        }
    }
    Ok(())
}

/// Adds the line of the group of owl:Nothing.
fn write_bottom(out: &mut Vec<u8>, groups: &Groups) -> Result<(), Memory>
    ensures { OnOk result
        (out.new.items
        ≡ out.old.items
        ++ (listed groups.now.names (codes "bottom ") (codes " = ")
        (group (lies_below groups.now.rows) (in_byte_order groups.now.names) nothing_class)
        ++ line_feed)) }
{
    let bottom = groups.members(ClassId::NOTHING.0 as usize)?;
    write_names(out, groups.names(), b"bottom ", b" = ", &bottom)?;
    out.push(b'\n')?;
    Ok(())
}

/// The text of a taxonomy of the classes that have these names.
pub(crate) fn text_of_taxonomy(
    alloc: Global,
    names: &[String],
    taxonomy: &Taxonomy,
) -> Result<Vec<u8>, Memory>
    requires { length names.now ≡ length taxonomy.now }
    ensures { IfOk result (λ v. v.items ≡ taxonomy_text (map string_bytes names.now) (lies_below taxonomy.now)) }
{
    let mut groups = Groups::of(alloc, names, taxonomy)?;
    let mut out = Vec::new(alloc);
    out.extend_from_slice(b"eltax 1 consistent\n")?;
    write_groups(&mut out, &mut groups)?;
    write_bottom(&mut out, &groups)?;
    Ok(out)
}
