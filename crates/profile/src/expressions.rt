//! Class expressions, each behind its parts.
ghost use Rattle.axioms.specs.Fronts.{Extends};
ghost use Rattle.axioms.specs.Ontology.{intersection};
ghost use Rattle.fs_parser.specs.View.{tree_of, trees_of};
ghost use Rattle.profile.specs.Additions.{ClassRead, ClassesRead};
ghost use Rattle.profile.specs.ClassTrees.{AreClassTrees, AreManyDistinct, AreSomeTrees, IsClassTree};
ghost use Rattle.profile.specs.Statements.{class_in, classes_of, some_values};

use crate::name_builder::NameBuilder;
use crate::names;
use crate::operands::{add, class, property};
use axioms::{BuildFault, Expr, ExprId};
use fs_parser::{Iri, Tree};
use std::alloc::Global;

/// The class expression that the tree is, with its parts.
#[cycle(reading)]
pub(crate) fn class_expression(
    alloc: Global,
    builder: &mut NameBuilder,
    tree: &Tree<'_>,
) -> Result<ExprId, BuildFault>
    requires { IsClassTree (tree_of tree.now) }
    ensures read { ClassRead result (class_in tree.now) builder.old builder.new }
    ensures kept { Extends builder.old builder.new }
{
    match tree {
        Tree::Form { keyword, trees, .. } => {
            if *keyword == "ObjectIntersectionOf" {
                intersection(alloc, builder, trees)
            } else {
                some_values(alloc, builder, trees)
            }
        }
        _ => class(builder, tree),
    }
}

/// The intersection of the class expressions that the trees are.
#[cycle(reading)]
fn intersection(
    alloc: Global,
    builder: &mut NameBuilder,
    trees: &[Tree<'_>],
) -> Result<ExprId, BuildFault>
    requires classes { AreClassTrees (trees_of trees.now) }
    requires many { AreManyDistinct (trees_of trees.now) }
    ensures read { ClassRead result (intersection (classes_of (trees_of trees.now))) builder.old builder.new }
    ensures kept { Extends builder.old builder.new }
{
    let operands = match class_expressions(alloc, builder, trees) {
        Ok(operands) => operands,
        Err(fault) => return Err(fault),
    };
    match add(builder, Expr::And(operands)) {
        Ok(number) => Ok(number),
        Err(_) => Err(BuildFault::Memory),
    }
}

/// The class expressions that the trees are, in their order.
#[cycle(reading)]
pub(crate) fn class_expressions(
    alloc: Global,
    builder: &mut NameBuilder,
    trees: &[Tree<'_>],
) -> Result<Vec<ExprId>, BuildFault>
    requires { AreClassTrees (trees_of trees.now) }
    ensures read { ClassesRead result (classes_of (trees_of trees.now)) builder.old builder.new }
    ensures kept { Extends builder.old builder.new }
{
    builder.well_formed();
    let mut expressions = Vec::new(alloc);
    for tree in trees {
        let expression = match class_expression(alloc, builder, tree) {
            Ok(expression) => expression,
            Err(fault) => return Err(fault),
        };
        match expressions.push(expression) {
            Ok(()) => {}
            Err(_) => return Err(BuildFault::Memory),
        }
    }
    Ok(expressions)
}

/// What has a successor by the property that the first tree is in the class expression that the second is.
#[cycle(reading)]
fn some_values(
    alloc: Global,
    builder: &mut NameBuilder,
    trees: &[Tree<'_>],
) -> Result<ExprId, BuildFault>
    requires { AreSomeTrees (trees_of trees.now) }
    ensures read { ClassRead result (some_values (trees_of trees.now) (classes_of (trees_of trees.now))) builder.old builder.new }
    ensures kept { Extends builder.old builder.new }
{
    let [first, second] = trees else {
        return names::class(
            builder,
            &Iri {
                base: "",
                local: "",
            },
        );
    };
    let property = match property(builder, first) {
        Ok(property) => property,
        Err(fault) => return Err(fault),
    };
    let filler = match class_expression(alloc, builder, second) {
        Ok(filler) => filler,
        Err(fault) => return Err(fault),
    };
    match add(builder, Expr::Some(property, filler)) {
        Ok(number) => Ok(number),
        Err(_) => Err(BuildFault::Memory),
    }
}
