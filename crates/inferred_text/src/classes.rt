//! What the lines of a taxonomy say of classes.
ghost use Rattle.axioms.specs.WellFormedness.{AreDistinct};
ghost use Rattle.inferred_text.specs.Inferred.{class_axioms, group_axioms, is_no_top, sameness, subclass_axiom};
ghost use Rattle.statements_text.specs.Texts.{statement_line};
ghost use Rattle.std.specs.List.{All, filter, flat_map};
ghost use Rattle.std.specs.Prelude.{◌++◌, ◌<◌, ◌≡◌, OnOk, length, map};
ghost use Rattle.taxonomy.specs.Relation.{lies_below};
ghost use Rattle.taxonomy.specs.Texts.{groups as groups_of, in_byte_order, is_no_bottom};

use crate::lines::{expression_of, push_axiom, push_subclass};
use axioms::{Axiom, ClassId, Memory, Ontology};
use std::alloc::Global;
use taxonomy::Groups;

/// Adds that the classes are the same, where there are two or more.
fn push_sameness(
    alloc: Global,
    out: &mut Vec<u8>,
    ontology: &Ontology,
    classes: &[usize],
) -> Result<(), Memory>
    requires within { All (λ c. c < length ontology.now.names.classes) classes.now }
    requires distinct { AreDistinct classes.now }
    ensures { OnOk result (out.new.items ≡ out.old.items ++ flat_map statement_line (sameness ontology.now.names classes.now)) }
{
    if classes.len() < 2 {
        return Ok(());
    }
    let mut operands = Vec::with_capacity(alloc, classes.len())?;
    for class in classes {
        operands.push(expression_of(ontology, *class))?;
    }
    push_axiom(out, ontology, &Axiom::EquivalentClasses(operands))
}

/// Adds that the class is below each of the others that is not in the group of owl:Thing.
fn push_above(
    out: &mut Vec<u8>,
    ontology: &Ontology,
    groups: &Groups<'_>,
    class: usize,
    above: &[usize],
) -> Result<(), Memory>
    requires class { class < length ontology.now.names.classes }
    requires above { All (λ h. h < length ontology.now.names.classes) above.now }
    ensures { OnOk result
        (out.new.items
        ≡ out.old.items
        ++ flat_map statement_line (map (subclass_axiom ontology.now.names class) (filter (is_no_top (lies_below groups.now.rows)) above.now))) }
{
    for h in above {
        if !groups.is_same(*h, ClassId::THING.0 as usize) {
            push_subclass(out, ontology, class, *h)?;
        }
    }
    Ok(())
}

/// Adds what the line of the class's group says.
fn push_group(
    alloc: Global,
    out: &mut Vec<u8>,
    ontology: &Ontology,
    groups: &mut Groups<'_>,
    class: usize,
) -> Result<(), Memory>
    requires names { groups.old.names ≡ ontology.now.names.classes }
    requires class { class < length ontology.now.names.classes }
    ensures same { groups.new ≡ groups.old }
    ensures line { OnOk result
        (out.new.items
        ≡ out.old.items
        ++ flat_map statement_line (group_axioms ontology.now.names (lies_below groups.old.rows) (in_byte_order ontology.now.names.classes) class)) }
{
    let members = groups.members(class)?;
    push_sameness(alloc, out, ontology, &members)?;
    let above = groups.directly_above(class)?;
    push_above(out, ontology, groups, class, &above)
}

/// Adds what the lines of the groups but that of owl:Nothing say.
fn push_groups(
    alloc: Global,
    out: &mut Vec<u8>,
    ontology: &Ontology,
    groups: &mut Groups<'_>,
) -> Result<(), Memory>
    requires { groups.old.names ≡ ontology.now.names.classes }
    ensures same { groups.new ≡ groups.old }
    ensures lines { OnOk result
        (out.new.items
        ≡ out.old.items
        ++ flat_map statement_line
        (flat_map (group_axioms ontology.now.names (lies_below groups.old.rows) (in_byte_order ontology.now.names.classes))
        (filter (is_no_bottom (lies_below groups.old.rows)) (groups_of (lies_below groups.old.rows) (in_byte_order ontology.now.names.classes))))) }
{
    let firsts = groups.firsts()?;
    for class in &firsts {
        if !groups.is_same(*class, ClassId::NOTHING.0 as usize) {
            push_group(alloc, out, ontology, groups, *class)?;
        }
    }
    Ok(())
}

/// Adds what the lines of the taxonomy say, that of the group of owl:Nothing last.
pub(crate) fn push_classes(
    alloc: Global,
    out: &mut Vec<u8>,
    ontology: &Ontology,
    groups: &mut Groups<'_>,
) -> Result<(), Memory>
    requires { groups.old.names ≡ ontology.now.names.classes }
    ensures same { groups.new ≡ groups.old }
    ensures lines { OnOk result
        (out.new.items ≡ out.old.items ++ flat_map statement_line (class_axioms ontology.now.names (lies_below groups.old.rows))) }
{
    push_groups(alloc, out, ontology, groups)?;
    let bottom = groups.members(ClassId::NOTHING.0 as usize)?;
    push_sameness(alloc, out, ontology, &bottom)
}
