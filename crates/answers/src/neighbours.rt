//! The named classes that are the same as a class, and those directly above and below it.
ghost use Rattle.answers.specs.Explanations.{IsClassNamed};
ghost use Rattle.answers.specs.Names.{AreThose, HasMark, groups_in};
ghost use Rattle.answers.specs.Neighbours.{AreGroups, AreMarksOf, AreOneGroup, AreSame, AreSatisfiable, IsNearer, IsNearest, LiesDirectlyBelow};
ghost use Rattle.program.specs.declared.question.Side.TheVariants.{Above, Below};
ghost use Rattle.axioms.specs.Expression.{Iri};
ghost use Rattle.closure.specs.Closure.{Expression, IsRoot};
ghost use Rattle.std.specs.Prelude.{◌≡◌, IfOk, length, map};

use crate::groups::groups_of;
use crate::lists_above::lists_above;
use crate::marks::{marks_among, marks_of};
use crate::names::names_in_order;
use crate::nearest::far_marks;
use crate::selection::Selection;
use axioms::{ExprId, Memory};
use engine::Indexed;
use number_sets::Row;
use program::Side;

/// The named classes that are marked, in byte order.
pub(crate) fn classes_marked<'a>(indexed: &Indexed<'a>, marks: &Row) -> Result<Vec<&'a str>, Memory>
    ensures { IfOk result
        (λ v. AreThose indexed.now.ontology.names.classes (HasMark indexed.now.ontology.names.classes marks.now) (map (λ s. s.now) v.items)) }
{
    let closed = indexed.closed();
    closed.well_formed();
    names_in_order(closed.allocator(), closed.ontology().classes(), marks)
}

/// Marks on the named classes that lie above the class, and are not the same.
fn marks_strictly_above(indexed: &Indexed<'_>, class: ExprId) -> Result<Row, Memory>
    requires { IsRoot indexed.now.ontology indexed.now.saturation.normal.asked (Expression class.0) }
    ensures { IfOk result (λ v. (name : Iri) → IsClassNamed indexed.now.ontology name class.0 → AreMarksOf indexed.now.ontology.names.classes (IsNearer indexed.now.ontology Above name) v) }
{
    let mut above = marks_of(indexed, Selection::Above(class))?;
    let below = marks_among(indexed, Selection::Below(class), &above)?;
    above.minus(&below);
    Ok(above)
}

/// Marks on the named classes that lie below the class, and are not the same.
fn marks_strictly_below(indexed: &Indexed<'_>, class: ExprId) -> Result<Row, Memory>
    requires { IsRoot indexed.now.ontology indexed.now.saturation.normal.asked (Expression class.0) }
    ensures { IfOk result (λ v. (name : Iri) → IsClassNamed indexed.now.ontology name class.0 → AreMarksOf indexed.now.ontology.names.classes (IsNearer indexed.now.ontology Below name) v) }
{
    let mut below = marks_of(indexed, Selection::Below(class))?;
    let above = marks_among(indexed, Selection::Above(class), &below)?;
    below.minus(&above);
    Ok(below)
}

/// The groups of the nearest of the marked classes.
pub(crate) fn nearest_groups<'a>(
    indexed: &Indexed<'a>,
    mut marks: Row,
    side: Side,
) -> Result<Vec<Vec<&'a str>>, Memory>
    requires long { length marks ≡ length indexed.now.ontology.names.classes }
    requires satisfiable { AreSatisfiable indexed.now.ontology marks }
    ensures { IfOk result
        (λ v. AreGroups indexed.now.ontology (IsNearest indexed.now.ontology (HasMark indexed.now.ontology.names.classes marks) side) (groups_in v.items)) }
{
    let closed = indexed.closed();
    let ontology = closed.ontology();
    let alloc = closed.allocator();
    closed.well_formed();
    let lists = lists_above(indexed, &marks)?;
    let far = far_marks(alloc, &lists, &marks, side)?;
    marks.minus(&far);
    let names = classes_marked(indexed, &marks)?;
    groups_of(alloc, ontology, &lists, &names)
}

/// One group of the marked classes, or none where there are none.
pub(crate) fn one_group<'a>(indexed: &Indexed<'a>, marks: &Row) -> Result<Vec<Vec<&'a str>>, Memory>
    requires { AreOneGroup indexed.now.ontology marks.now }
    ensures { IfOk result (λ v. AreGroups indexed.now.ontology (HasMark indexed.now.ontology.names.classes marks.now) (groups_in v.items)) }
{
    let mut groups = Vec::new(indexed.closed().allocator());
    let names = classes_marked(indexed, marks)?;
    if !names.is_empty() {
        groups.push(names)?;
    }
    Ok(groups)
}

/// The groups of the classes directly below a class, by marks on those that lie strictly below it. Those without elements are one
/// group, which lies below all others.
fn groups_below<'a>(indexed: &Indexed<'a>, mut marks: Row) -> Result<Vec<Vec<&'a str>>, Memory>
    requires { (class : Iri) × AreMarksOf indexed.now.ontology.names.classes (IsNearer indexed.now.ontology Below class) marks }
    ensures { IfOk result (λ v. (class : Iri) → AreMarksOf indexed.now.ontology.names.classes (IsNearer indexed.now.ontology Below class) marks →
        AreGroups indexed.now.ontology (λ name. LiesDirectlyBelow indexed.now.ontology name class) (groups_in v.items)) }
{
    indexed.closed().well_formed();
    let empty = marks_among(indexed, Selection::Below(ExprId::NOTHING), &marks)?;
    if marks.is_subset(&empty) {
        return one_group(indexed, &marks);
    }
    marks.minus(&empty);
    nearest_groups(indexed, marks, Side::Below)
}

/// The named classes that are the same as the class, itself among them, in byte order.
pub(crate) fn equivalents_of<'a>(
    indexed: &Indexed<'a>,
    class: ExprId,
) -> Result<Vec<&'a str>, Memory>
    requires { (name : Iri) × IsClassNamed indexed.now.ontology name class.0 }
    ensures { IfOk result (λ v. (name : Iri) → IsClassNamed indexed.now.ontology name class.0 →
        AreThose indexed.now.ontology.names.classes (AreSame indexed.now.ontology name) (map (λ s. s.now) v.items)) }
{
    let mut same = marks_of(indexed, Selection::Above(class))?;
    let below = marks_among(indexed, Selection::Below(class), &same)?;
    same.intersect(&below);
    let names = classes_marked(indexed, &same)?;
    Ok(names)
}

/// The named classes directly above the class: they lie above it, it does not lie above them, and no named class lies strictly between.
pub(crate) fn directly_above<'a>(
    indexed: &Indexed<'a>,
    class: ExprId,
) -> Result<Vec<Vec<&'a str>>, Memory>
    requires { (name : Iri) × IsClassNamed indexed.now.ontology name class.0 }
    ensures { IfOk result (λ v. (name : Iri) → IsClassNamed indexed.now.ontology name class.0 →
        AreGroups indexed.now.ontology (LiesDirectlyBelow indexed.now.ontology name) (groups_in v.items)) }
{
    let marks = marks_strictly_above(indexed, class)?;
    let groups = nearest_groups(indexed, marks, Side::Above)?;
    Ok(groups)
}

/// The named classes directly below the class, likewise.
pub(crate) fn directly_below<'a>(
    indexed: &Indexed<'a>,
    class: ExprId,
) -> Result<Vec<Vec<&'a str>>, Memory>
    requires { (name : Iri) × IsClassNamed indexed.now.ontology name class.0 }
    ensures { IfOk result (λ v. (name : Iri) → IsClassNamed indexed.now.ontology name class.0 →
        AreGroups indexed.now.ontology (λ other. LiesDirectlyBelow indexed.now.ontology other name) (groups_in v.items)) }
{
    let marks = marks_strictly_below(indexed, class)?;
    let groups = groups_below(indexed, marks)?;
    Ok(groups)
}
