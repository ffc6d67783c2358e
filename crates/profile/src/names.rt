//! Names as the builder numbers them. It answers a kind with a name of that kind; another would be told as refused memory.
ghost use Rattle.axioms.specs.Fronts.{Extends};
ghost use Rattle.axioms.specs.Expression.{Named};
ghost use Rattle.fs_parser.specs.View.{iri_of};
ghost use Rattle.profile.specs.Additions.{ClassRead, IndividualRead, PropertyRead};

use crate::name_builder::NameBuilder;
use axioms::{BuildFault, ExprId, IndId, Kind, Name, PropId};
use fs_parser::Iri;

/// The expression of the class of this name, which is declared where it is new.
#[inline(always)]
pub(crate) fn class(builder: &mut NameBuilder, iri: &Iri<'_>) -> Result<ExprId, BuildFault>
    ensures read { ClassRead result (Named (iri_of iri.now)) builder.old builder.new }
    ensures kept { Extends builder.old builder.new }
{
    builder.well_formed();
    let name = match builder.declare(Kind::Class, iri) {
        Ok(name) => name,
        Err(fault) => return Err(fault),
    };
    builder.well_formed();
    match name {
        Name::Class(_, expression) => Ok(expression),
        _ => Err(BuildFault::Memory),
    }
}

/// The property of this name, which is declared where it is new.
#[inline(always)]
pub(crate) fn property(builder: &mut NameBuilder, iri: &Iri<'_>) -> Result<PropId, BuildFault>
    ensures read { PropertyRead result (iri_of iri.now) builder.old builder.new }
    ensures kept { Extends builder.old builder.new }
{
    builder.well_formed();
    let name = match builder.declare(Kind::Property, iri) {
        Ok(name) => name,
        Err(fault) => return Err(fault),
    };
    builder.well_formed();
    match name {
        Name::Property(property) => Ok(property),
        _ => Err(BuildFault::Memory),
    }
}

/// The individual of this name, which is declared where it is new.
#[inline(always)]
pub(crate) fn individual(builder: &mut NameBuilder, iri: &Iri<'_>) -> Result<IndId, BuildFault>
    ensures read { IndividualRead result (iri_of iri.now) builder.old builder.new }
    ensures kept { Extends builder.old builder.new }
{
    builder.well_formed();
    let name = match builder.declare(Kind::Individual, iri) {
        Ok(name) => name,
        Err(fault) => return Err(fault),
    };
    builder.well_formed();
    match name {
        Name::Individual(individual) => Ok(individual),
        _ => Err(BuildFault::Memory),
    }
}
