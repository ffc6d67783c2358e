//! Lists and pairs of individuals.
ghost use Rattle.axioms.specs.Fronts.{Extends};
ghost use Rattle.fs_parser.specs.View.{trees_of};
ghost use Rattle.profile.specs.Additions.{IndividualsRead, PairRead};
ghost use Rattle.profile.specs.Statements.{iri_in, iris_of};

use crate::name_builder::NameBuilder;
use crate::operands::{individual, property};
use axioms::{BuildFault, IndId, PropId};
use fs_parser::Tree;
use std::alloc::Global;

/// The individuals that the trees are, in their order.
pub(crate) fn individuals(
    alloc: Global,
    builder: &mut NameBuilder,
    trees: &[Tree<'_>],
) -> Result<Vec<IndId>, BuildFault>
    ensures read { IndividualsRead result (iris_of (trees_of trees.now)) builder.old builder.new }
    ensures kept { Extends builder.old builder.new }
{
    builder.well_formed();
    let mut individuals = Vec::new(alloc);
    for tree in trees {
        let individual = match individual(builder, tree) {
            Ok(individual) => individual,
            Err(fault) => return Err(fault),
        };
        match individuals.push(individual) {
            Ok(()) => {}
            Err(_) => return Err(BuildFault::Memory),
        }
    }
    Ok(individuals)
}

/// The property, and the individuals that are the source and the target of a pair.
#[inline(always)]
pub(crate) fn pair(
    builder: &mut NameBuilder,
    first: &Tree<'_>,
    second: &Tree<'_>,
    third: &Tree<'_>,
) -> Result<(PropId, IndId, IndId), BuildFault>
    ensures read { PairRead result (iri_in first.now) (iri_in second.now) (iri_in third.now) builder.old builder.new }
    ensures kept { Extends builder.old builder.new }
{
    let property = match property(builder, first) {
        Ok(property) => property,
        Err(fault) => return Err(fault),
    };
    let source = match individual(builder, second) {
        Ok(source) => source,
        Err(fault) => return Err(fault),
    };
    let target = match individual(builder, third) {
        Ok(target) => target,
        Err(fault) => return Err(fault),
    };
    Ok((property, source, target))
}
