//! The forms of expressions that occur.
ghost use Rattle.std.specs.Prelude.{◌<◌, OnOk, length};
ghost use Rattle.axioms.specs.Ontology.{And};
ghost use Rattle.axioms.specs.View.{expr_numbers, node_of};
ghost use Rattle.axioms.specs.WellFormedness.{AreDistinct};
ghost use Rattle.normal_forms.specs.Origins.{LeftGives, RightGives};
ghost use Rattle.normalise.specs.Growth.{IsFreshAt};
ghost use Rattle.normalise.specs.Steps.{BelowOperand, ExpressedAt, ExpressedTo, LeftGivesIf, PartsDiffer, RightGivesIf, SideGives};
ghost use Rattle.normalise.specs.View.{Adds, From};

use crate::lists::expr_at;
use crate::made::Made;
use crate::new_marks::Change;
use axioms::{Expr, ExprId, Memory, Ontology};
use normal_forms::{Class2, Form, Origin};

impl Made {
    // The whole is below the k-th operand.
    fn right_operand(
        &mut self,
        operands: &[ExprId],
        whole: ExprId,
        k: usize,
        origin: Origin,
    ) -> Result<(), Memory>
        requires { k < length operands.now }
        ensures { OnOk result (Adds self.old self.new (From origin (BelowOperand (expr_numbers operands.now) whole.0 k))) }
    {
        let operand = Class2::Expr(expr_at(operands, k));
        self.add(Form::N1(Class2::Expr(whole), operand), origin)?;
        Ok(())
    }

    // An intersection that occurs right is below each operand.
    fn right_and(
        &mut self,
        operands: &[ExprId],
        whole: ExprId,
        origin: Origin,
    ) -> Result<(), Memory>
        requires { AreDistinct (expr_numbers operands.now) }
        ensures { OnOk result (Adds self.old self.new (From origin (RightGives whole.0 (And (expr_numbers operands.now))))) }
    {
        for k in 0..operands.len() {
            self.right_operand(operands, whole, k, origin)?;
        }
        Ok(())
    }

    // What an expression gives that occurs right.
    fn right(&mut self, expr: &Expr, whole: ExprId, origin: Origin) -> Result<(), Memory>
        requires { PartsDiffer (node_of expr.now) }
        ensures { OnOk result (Adds self.old self.new (From origin (RightGives whole.0 (node_of expr.now)))) }
    {
        match expr {
            Expr::Class(_) => {}
            Expr::And(operands) => self.right_and(operands, whole, origin)?,
            Expr::Some(prop, filler) => {
                self.add(Form::N3(Class2::Expr(whole), *prop, *filler), origin)?
            }
        }
        Ok(())
    }

    // What an expression gives that occurs left.
    fn left(&mut self, expr: &Expr, whole: ExprId, origin: Origin) -> Result<(), Memory>
        ensures { OnOk result (Adds self.old self.new (From origin (LeftGives whole.0 (node_of expr.now)))) }
    {
        match expr {
            Expr::Class(_) => {}
            Expr::And(operands) => self.left_and(operands, whole, origin)?,
            Expr::Some(prop, filler) => self.add(
                Form::N4(*prop, Class2::Expr(*filler), Class2::Expr(whole)),
                origin,
            )?,
        }
        Ok(())
    }

    // What an expression gives on the right, where it occurs there.
    fn right_if(&mut self, expr: &Expr, whole: ExprId, occurs: bool) -> Result<(), Memory>
        requires { PartsDiffer (node_of expr.now) }
        ensures { OnOk result (Adds self.old self.new (RightGivesIf occurs whole (node_of expr.now))) }
    {
        if occurs {
            self.right(expr, whole, Origin::Expr(whole))?;
        }
        Ok(())
    }

    // What an expression gives on the left, where it occurs there.
    fn left_if(&mut self, expr: &Expr, whole: ExprId, occurs: bool) -> Result<(), Memory>
        ensures { OnOk result (Adds self.old self.new (LeftGivesIf occurs whole (node_of expr.now))) }
    {
        if occurs {
            self.left(expr, whole, Origin::Expr(whole))?;
        }
        Ok(())
    }

    // What the expression gives on the sides on which it is marked.
    fn sides(&mut self, expr: &Expr, whole: ExprId, right: bool, left: bool) -> Result<(), Memory>
        requires { PartsDiffer (node_of expr.now) }
        ensures { OnOk result (Adds self.old self.new (SideGives (node_of expr.now) whole right left)) }
    {
        self.right_if(expr, whole, right)?;
        self.left_if(expr, whole, left)?;
        Ok(())
    }

    // What the expression of that number gives on the sides on which it is marked and was not before.
    fn express(
        &mut self,
        ontology: &Ontology,
        number: u32,
        right: Change<'_>,
        left: Change<'_>,
    ) -> Result<(), Memory>
        ensures { OnOk result (Adds self.old self.new (ExpressedAt ontology.now.nodes (IsFreshAt right.entry.marks.now right.entry.before.now) (IsFreshAt left.entry.marks.now left.entry.before.now) number)) }
    {
        let whole = ExprId(number);
        let Some(expr) = ontology.expr(whole) else {
            return Ok(());
        };
        let place = whole.index();
        self.sides(expr, whole, right.is_fresh(place), left.is_fresh(place))?;
        Ok(())
    }

    // What the expressions of those numbers give on the sides on which they are marked and were not before.
    pub(crate) fn express_all(
        &mut self,
        ontology: &Ontology,
        numbers: &[u32],
        right: Change<'_>,
        left: Change<'_>,
    ) -> Result<(), Memory>
        requires { AreDistinct numbers.now }
        ensures { OnOk result (Adds self.old self.new (ExpressedTo ontology.now.nodes (IsFreshAt right.entry.marks.now right.entry.before.now) (IsFreshAt left.entry.marks.now left.entry.before.now) numbers.now (length numbers.now))) }
    {
        for number in numbers {
            self.express(ontology, *number, right, left)?;
        }
        Ok(())
    }
}
