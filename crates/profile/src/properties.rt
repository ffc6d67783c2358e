//! Lists of properties.
ghost use Rattle.axioms.specs.Fronts.{Extends};
ghost use Rattle.fs_parser.specs.View.{tree_of, trees_of};
ghost use Rattle.profile.specs.Additions.{PropertiesRead};
ghost use Rattle.profile.specs.ClassTrees.{IsChain};
ghost use Rattle.profile.specs.Statements.{chain_of, iri_in, iris_of};
ghost use Rattle.std.specs.Prelude.{[], ◌∷◌};

use crate::name_builder::NameBuilder;
use crate::operands::property;
use axioms::{BuildFault, PropId};
use fs_parser::Tree;
use std::alloc::Global;

/// The properties that the trees are, in their order.
pub(crate) fn properties(
    alloc: Global,
    builder: &mut NameBuilder,
    trees: &[Tree<'_>],
) -> Result<Vec<PropId>, BuildFault>
    ensures read { PropertiesRead result (iris_of (trees_of trees.now)) builder.old builder.new }
    ensures kept { Extends builder.old builder.new }
{
    builder.well_formed();
    let mut properties = Vec::new(alloc);
    for tree in trees {
        let property = match property(builder, tree) {
            Ok(property) => property,
            Err(fault) => return Err(fault),
        };
        match properties.push(property) {
            Ok(()) => {}
            Err(_) => return Err(BuildFault::Memory),
        }
    }
    Ok(properties)
}

/// The one property that the tree is, in a list.
fn one_property(
    alloc: Global,
    builder: &mut NameBuilder,
    tree: &Tree<'_>,
) -> Result<Vec<PropId>, BuildFault>
    ensures read { PropertiesRead result (iri_in tree.now ∷ []) builder.old builder.new }
    ensures kept { Extends builder.old builder.new }
{
    let property = match property(builder, tree) {
        Ok(property) => property,
        Err(fault) => return Err(fault),
    };
    let mut properties = Vec::new(alloc);
    match properties.push(property) {
        Ok(()) => Ok(properties),
        Err(_) => Err(BuildFault::Memory),
    }
}

/// The properties of the chain that the tree is, or the one property.
pub(crate) fn chain(
    alloc: Global,
    builder: &mut NameBuilder,
    tree: &Tree<'_>,
) -> Result<Vec<PropId>, BuildFault>
    requires { IsChain (tree_of tree.now) }
    ensures read { PropertiesRead result (chain_of (tree_of tree.now)) builder.old builder.new }
    ensures kept { Extends builder.old builder.new }
{
    match tree {
        Tree::Form { trees, .. } => properties(alloc, builder, trees),
        _ => one_property(alloc, builder, tree),
    }
}
