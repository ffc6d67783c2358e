//! Declarations of names.
ghost use Rattle.axioms.specs.Fronts.{Extends};
ghost use Rattle.axioms.specs.Numbering.{DeclaresClass, DeclaresIndividual, DeclaresProperty};
ghost use Rattle.profile.specs.Additions.{StatementRead};
ghost use Rattle.profile.specs.Statements.{iri_in};

use crate::name_builder::NameBuilder;
use crate::operands::{class, individual, property};
use axioms::BuildFault;
use fs_parser::Tree;

/// Declares the class that the tree names.
pub(crate) fn declare_class(builder: &mut NameBuilder, tree: &Tree<'_>) -> Result<(), BuildFault>
    ensures read { StatementRead result (DeclaresClass (iri_in tree.now)) builder.old builder.new }
    ensures kept { Extends builder.old builder.new }
{
    match class(builder, tree) {
        Ok(_) => Ok(()),
        Err(fault) => Err(fault),
    }
}

/// Declares the property that the tree names.
pub(crate) fn declare_property(builder: &mut NameBuilder, tree: &Tree<'_>) -> Result<(), BuildFault>
    ensures read { StatementRead result (DeclaresProperty (iri_in tree.now)) builder.old builder.new }
    ensures kept { Extends builder.old builder.new }
{
    match property(builder, tree) {
        Ok(_) => Ok(()),
        Err(fault) => Err(fault),
    }
}

/// Declares the individual that the tree names.
pub(crate) fn declare_individual(
    builder: &mut NameBuilder,
    tree: &Tree<'_>,
) -> Result<(), BuildFault>
    ensures read { StatementRead result (DeclaresIndividual (iri_in tree.now)) builder.old builder.new }
    ensures kept { Extends builder.old builder.new }
{
    match individual(builder, tree) {
        Ok(_) => Ok(()),
        Err(fault) => Err(fault),
    }
}
