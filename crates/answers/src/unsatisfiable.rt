//! The named classes without elements.
ghost use Rattle.answers.specs.Neighbours.{AreMarksOf};
ghost use Rattle.answers.specs.Questions.{AreUnsatisfiable};
ghost use Rattle.axioms.specs.Expression.{owl_nothing};
ghost use Rattle.std.specs.Prelude.{◌≡◌, IfOk, map};

use crate::marks::marks_of;
use crate::neighbours::classes_marked;
use crate::selection::Selection;
use axioms::{ClassId, ExprId, Memory};
use engine::Indexed;
use number_sets::Row;

/// A mark on `owl:Nothing` alone.
fn mark_on_nothing(indexed: &Indexed<'_>) -> Result<Row, Memory>
    ensures { IfOk result (λ v. AreMarksOf indexed.now.ontology.names.classes (λ name. name ≡ owl_nothing) v) }
{
    let closed = indexed.closed();
    closed.well_formed();
    let mut marks = Row::new(closed.allocator(), closed.ontology().classes().len())?;
    marks.put(ClassId::NOTHING.index());
    Ok(marks)
}

/// The named classes that have no element in any interpretation, but for `owl:Nothing`, in byte order.
pub(crate) fn unsatisfiable_classes<'a>(indexed: &Indexed<'a>) -> Result<Vec<&'a str>, Memory>
    ensures { IfOk result (λ v. AreUnsatisfiable indexed.now.ontology (map (λ s. s.now) v.items)) }
{
    indexed.closed().well_formed();
    let mut empty = marks_of(indexed, Selection::Below(ExprId::NOTHING))?;
    let nothing = mark_on_nothing(indexed)?;
    empty.minus(&nothing);
    let names = classes_marked(indexed, &empty)?;
    Ok(names)
}
