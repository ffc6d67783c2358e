//! The named classes that an individual belongs to.
ghost use Rattle.answers.specs.Names.{groups_in};
ghost use Rattle.answers.specs.Questions.{AreDirectTypes, AreTypes};
ghost use Rattle.axioms.specs.Ontology.{individual_name};
ghost use Rattle.std.specs.Prelude.{◌<◌, IfOk, length, map};

use crate::marks::marks_of;
use crate::neighbours::{nearest_groups, one_group};
use crate::selecting::selected;
use crate::selection::Selection;
use axioms::{IndId, Memory};
use classification::is_consistent;
use engine::Indexed;
use program::Side;

/// The named classes that the individual belongs to, in byte order.
pub(crate) fn types_of<'a>(indexed: &Indexed<'a>, individual: IndId) -> Result<Vec<&'a str>, Memory>
    requires { individual.0 < length indexed.now.ontology.names.individuals }
    ensures { IfOk result
        (λ v. AreTypes indexed.now.ontology (individual_name indexed.now.ontology individual.0) (map (λ s. s.now) v.items)) }
{
    let classes = indexed.closed().ontology().classes();
    selected(classes, indexed, Selection::Types(individual))
}

/// The direct types of the individual: it belongs to them, and to no named class that lies strictly below one. Where there is no
/// interpretation, all classes are the same, so none lies strictly below another, and all are one group.
pub(crate) fn direct_types_of<'a>(
    indexed: &Indexed<'a>,
    individual: IndId,
) -> Result<Vec<Vec<&'a str>>, Memory>
    requires { individual.0 < length indexed.now.ontology.names.individuals }
    ensures { IfOk result
        (λ v. AreDirectTypes indexed.now.ontology (individual_name indexed.now.ontology individual.0) (groups_in v.items)) }
{
    indexed.closed().well_formed();
    let marks = marks_of(indexed, Selection::Types(individual))?;
    if is_consistent(indexed) {
        nearest_groups(indexed, marks, Side::Above)
    } else {
        one_group(indexed, &marks)
    }
}
