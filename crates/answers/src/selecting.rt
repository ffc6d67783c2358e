//! The names that are selected by an expression or an individual.
ghost use Rattle.answers.specs.Selections.{FollowsFor, context_asked, names_asked};
ghost use Rattle.answers.specs.Names.{AreThose};
ghost use Rattle.closure.specs.Closure.{IsRoot};
ghost use Rattle.std.specs.Prelude.{◌≡◌, IfOk, map, string_bytes};

use crate::marks::marks_of;
use crate::names::names_in_order;
use crate::selection::Selection;
use axioms::Memory;
use engine::Indexed;

/// The names that stand so to an expression that is a named class or is asked about in the saturation, or to an individual, in byte
/// order. In an ontology that no finite interpretation has, these are all names. The names are those of the ontology's classes, or of
/// its individuals.
///
/// # Errors
///
/// `Memory` where memory was refused.
pub fn selected<'a>(
    names: &'a [String],
    indexed: &Indexed<'_>,
    selection: Selection,
) -> Result<Vec<&'a str>, Memory>
    requires root { IsRoot indexed.now.ontology indexed.now.saturation.normal.asked (context_asked selection) }
    requires names { map string_bytes names.now ≡ names_asked indexed.now.ontology selection }
    ensures { IfOk result
        (λ v. AreThose (names_asked indexed.now.ontology selection) (FollowsFor indexed.now.ontology selection) (map (λ s. s.now) v.items)) }
{
    let closed = indexed.closed();
    closed.well_formed();
    let marks = marks_of(indexed, selection)?;
    names_in_order(closed.allocator(), names, &marks)
}
