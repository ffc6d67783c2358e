//! Which expressions occur on a side, for a list of axioms at once, with the numbers of those that are marked newly.
ghost use Rattle.std.specs.Prelude.{◌≡◌, ◌↔◌, ◌≤◌, IsTrue, OnOk, false, length, map, slice_get, Some};
ghost use Rattle.std.specs.List.{Contains};
ghost use Rattle.axioms.specs.Ontology.{IsPart};
ghost use Rattle.axioms.specs.View.{axiom_of, expr_numbers, node_of};
ghost use Rattle.normal_forms.specs.Occurrences.{AtLeft, AtRight};
ghost use Rattle.normalise.specs.Marks.{AreNotedMarked, AtSide, Closes, EachFrom, IsPartOf, MarksMore};

use axioms::{Axiom, Expr, ExprId, Memory, Ontology};
use number_sets::Row;

/// A side on which expressions occur.
#[derive(Clone, Copy)]
pub(crate) enum Side {
    /// Where something lies below them.
    Right,
    /// Where they lie below something.
    Left,
}

/// Which expressions are marked, by number, and the numbers of those that were marked since the start.
#[derive(Drop)]
pub(crate) struct Marked {
    pub(crate) marks: Row,
    pub(crate) noted: Vec<u32>,
}

// Whether there is a mark of that number, and it is not set.
fn is_unset(marks: &Row, number: usize) -> bool
    ensures { IsTrue result ↔ (slice_get marks.now number ≡ Some false) }
{
    number < marks.len() && !marks.contains(number)
}

impl Marked {
    // Marks the expression, and notes its number where it was not marked.
    fn mark(&mut self, id: ExprId) -> Result<(), Memory>
        ensures { OnOk result (MarksMore self.old self.new (λ e. e ≡ id.0)) }
    {
        let place = id.index();
        if is_unset(&self.marks, place) {
            let ExprId(number) = id;
            self.noted.push(number)?;
            self.marks.put(place);
        }
        Ok(())
    }

    pub(crate) fn mark_all(&mut self, ids: &[ExprId]) -> Result<(), Memory>
        ensures { OnOk result (MarksMore self.old self.new (Contains (expr_numbers ids.now))) }
    {
        for id in ids {
            self.mark(*id)?;
        }
        Ok(())
    }

    fn mark_parts(&mut self, expr: &Expr) -> Result<(), Memory>
        ensures { OnOk result (MarksMore self.old self.new (IsPart (node_of expr.now))) }
    {
        match expr {
            Expr::Class(_) => {}
            Expr::And(operands) => self.mark_all(operands)?,
            Expr::Some(_, filler) => self.mark(*filler)?,
        }
        Ok(())
    }

    // Marks what the axiom has at a place where something lies below it.
    fn mark_right(&mut self, axiom: &Axiom) -> Result<(), Memory>
        ensures { OnOk result (MarksMore self.old self.new (AtRight (axiom_of «axiom».now))) }
    {
        match axiom {
            Axiom::SubClass(_, sup) => self.mark(*sup)?,
            Axiom::EquivalentClasses(classes) => self.mark_all(classes)?,
            Axiom::Domain(_, class) => self.mark(*class)?,
            Axiom::ClassAssertion(class, _) => self.mark(*class)?,
            _ => {}
        }
        Ok(())
    }

    // Marks what the axiom has at a place where it lies below something.
    fn mark_left(&mut self, axiom: &Axiom) -> Result<(), Memory>
        ensures { OnOk result (MarksMore self.old self.new (AtLeft (axiom_of «axiom».now))) }
    {
        match axiom {
            Axiom::SubClass(sub, _) => self.mark(*sub)?,
            Axiom::EquivalentClasses(classes) => self.mark_all(classes)?,
            Axiom::DisjointClasses(classes) => self.mark_all(classes)?,
            _ => {}
        }
        Ok(())
    }

    // Marks what the axiom has on the side.
    fn mark_side(&mut self, axiom: &Axiom, side: Side) -> Result<(), Memory>
        ensures { OnOk result (MarksMore self.old self.new (AtSide side (axiom_of «axiom».now))) }
    {
        match side {
            Side::Right => self.mark_right(axiom)?,
            Side::Left => self.mark_left(axiom)?,
        }
        Ok(())
    }

    // Marks what the axioms from that place on have on the side.
    pub(crate) fn mark_axioms(
        &mut self,
        axioms: &[Axiom],
        from: usize,
        side: Side,
    ) -> Result<(), Memory>
        requires { from ≤ length axioms.now }
        ensures { OnOk result (MarksMore self.old self.new (EachFrom (map axiom_of axioms.now) (AtSide side) from (length axioms.now))) }
    {
        for k in from..axioms.len() {
            self.mark_side(&axioms[k], side)?;
        }
        Ok(())
    }

    // Marks the parts of the expression of that number.
    fn mark_below(&mut self, ontology: &Ontology, id: ExprId) -> Result<(), Memory>
        ensures { OnOk result (MarksMore self.old self.new (IsPartOf ontology.now.nodes id.0)) }
    {
        if let Some(expr) = ontology.expr(id) {
            self.mark_parts(expr)?;
        }
        Ok(())
    }

    // Marks the parts of what was noted, their parts, and so on.
    pub(crate) fn close(&mut self, ontology: &Ontology) -> Result<(), Memory>
        requires { AreNotedMarked self.old }
        ensures { OnOk result (Closes ontology.now.nodes self.old self.new) }
    {
        let mut next = 0;
        while next < self.noted.len() {
            let number = self.noted[next];
            self.mark_below(ontology, ExprId(number))?;
            next += 1;
        }
        Ok(())
    }
}
