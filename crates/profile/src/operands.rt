//! Names of trees, and expressions over parts that are there.
ghost use Rattle.axioms.specs.Fronts.{Extends};
ghost use Rattle.std.specs.Prelude.{◌≡◌, None, IfOk, length};
ghost use Rattle.axioms.specs.Expression.{Named};
ghost use Rattle.axioms.specs.Ontology.{tree_of as node_tree, trees};
ghost use Rattle.axioms.specs.Numbering.{class_name};
ghost use Rattle.axioms.specs.View.{node_of};
ghost use Rattle.axioms.specs.WellFormedness.{IsNodeOf};
ghost use Rattle.fs_parser.specs.View.{tree_of, iri_of};
ghost use Rattle.profile.specs.Additions.{ClassRead, HasAdded, IndividualRead, PropertyRead};
ghost use Rattle.profile.specs.Statements.{iri_of as tree_iri};

use crate::name_builder::NameBuilder;
use crate::names;
use axioms::{BuildFault, Expr, ExprId, IndId, Memory, PropId};
use fs_parser::{Iri, Tree};

/// The expression over what is there, which is added where it is new.
#[inline(always)]
pub(crate) fn add(builder: &mut NameBuilder, expr: Expr) -> Result<ExprId, Memory>
    requires fits { IsNodeOf builder.old (length builder.old.nodes) (node_of expr) }
    requires unnamed { class_name (node_tree builder.old.names (trees builder.old) (node_of expr)) ≡ None }
    ensures read { IfOk result (λ e. HasAdded builder.old builder.new e.0 (node_tree builder.old.names (trees builder.old) (node_of expr))) }
    ensures kept { Extends builder.old builder.new }
{
    builder.well_formed();
    let number = builder.add_expr(expr);
    builder.well_formed();
    number
}

/// The IRI of the name that the tree is; what is no name has the empty one.
#[inline(always)]
fn iri_of<'a>(tree: &Tree<'a>) -> Iri<'a>
    ensures { iri_of result ≡ tree_iri (tree_of tree.now) }
{
    match tree {
        Tree::Name { iri, .. } => *iri,
        _ => Iri {
            base: "",
            local: "",
        },
    }
}

#[inline(always)]
pub(crate) fn property(builder: &mut NameBuilder, tree: &Tree<'_>) -> Result<PropId, BuildFault>
    ensures read { PropertyRead result (tree_iri (tree_of tree.now)) builder.old builder.new }
    ensures kept { Extends builder.old builder.new }
{
    names::property(builder, &iri_of(tree))
}

#[inline(always)]
pub(crate) fn individual(builder: &mut NameBuilder, tree: &Tree<'_>) -> Result<IndId, BuildFault>
    ensures read { IndividualRead result (tree_iri (tree_of tree.now)) builder.old builder.new }
    ensures kept { Extends builder.old builder.new }
{
    names::individual(builder, &iri_of(tree))
}

/// The class that the tree names.
#[inline(always)]
pub(crate) fn class(builder: &mut NameBuilder, tree: &Tree<'_>) -> Result<ExprId, BuildFault>
    ensures read { ClassRead result (Named (tree_iri (tree_of tree.now))) builder.old builder.new }
    ensures kept { Extends builder.old builder.new }
{
    names::class(builder, &iri_of(tree))
}
