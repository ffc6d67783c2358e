//! Groups of individuals that are one.
ghost use Rattle.countermodel.specs.Leading.{AreGroupsOf};

use engine::Closed;
use indexes::Groups;

/// The groups of individuals that are one by the axioms of the ontology.
pub(crate) fn groups_of<'a>(closed: &Closed<'a>) -> &'a Groups
    ensures { AreGroupsOf closed.now.ontology closed.now.saturation.normal.asked result.now }
{
    closed.well_formed();
    closed.groups()
}
