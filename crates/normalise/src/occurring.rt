//! What occurs on a side of an ontology that has grown at its end.
ghost use Rattle.std.specs.Prelude.{◌≡◌, ◌≤◌, ◌+◌, ◌-◌, IfOk, length};
ghost use Rattle.axioms.specs.View.{expr_numbers};
ghost use Rattle.normalise.specs.Growth.{AreMarkedAgain, AreNoted};
ghost use Rattle.normalise.specs.Marks.{AtSide};

use crate::marks::{Marked, Side};
use axioms::{ExprId, Memory, Ontology};
use number_sets::Row;
use std::alloc::Global;

// The marks on what occurred on the side, and on what occurs there now: by the axioms from that place on, and as what is asked about.
pub(crate) fn occurring_again(
    alloc: Global,
    ontology: &Ontology,
    from: usize,
    before: &Row,
    asked: &[ExprId],
    side: Side,
) -> Result<Marked, Memory>
    requires { from ≤ length ontology.now.axioms }
    ensures again { IfOk result (λ m. AreMarkedAgain (AtSide side) ontology.now from (expr_numbers asked.now) before.now m.marks) }
    ensures noted { IfOk result (AreNoted before.now) }
    ensures long { IfOk result (λ m. length m.marks ≡ length before.now + (length ontology.now.nodes - length before.now)) }
{
    ontology.well_formed();
    let marks = before.extended(alloc, ontology.expression_count())?;
    let mut marked = Marked {
        marks,
        noted: Vec::new(alloc),
    };
    marked.mark_axioms(ontology.axioms(), from, side)?;
    marked.mark_all(asked)?;
    marked.close(ontology)?;
    Ok(marked)
}
