//! Named classes, by a bit for each expression.
ghost use Rattle.countermodel.specs.Members.{AreOwnClasses, IsOwnClass};
ghost use Rattle.std.specs.Prelude.{◌↔◌, IfOk, IsTrue};

use axioms::{ExprId, Memory, Ontology};
use number_sets::Row;
use std::alloc::Global;

/// Whether the expression is a named class but `owl:Thing` and `owl:Nothing`.
pub(crate) fn is_own_class(ontology: &Ontology, class: ExprId) -> bool
    ensures { IsTrue result ↔ IsOwnClass ontology.now class.0 }
{
    class > ExprId::NOTHING && ontology.class_of(class).is_some()
}

/// Of each expression whether it is such a class: where many facts ask for it, a bit is nearer than the expression.
pub(crate) fn own_classes(alloc: Global, ontology: &Ontology) -> Result<Row, Memory>
    ensures { IfOk result (AreOwnClasses ontology.now) }
{
    ontology.bounded();
    let mut own = Row::new(alloc, ontology.expression_count())?;
    for number in 0..ontology.expression_count() {
        if is_own_class(ontology, ExprId(number as u32)) {
            own.put(number);
        }
    }
    Ok(own)
}
