//! The elements of class expressions.
ghost use Rattle.certificate.specs.View.{listed_of};
ghost use Rattle.listed_model.specs.Extensions.{IsExtension};
ghost use Rattle.listed_model.specs.Rows.{AreClassRows};
ghost use Rattle.listed_model.specs.Interpretations.{class_members};
ghost use Rattle.listed_model.specs.Testers.{IsReady};
ghost use Rattle.std.specs.List.{range_with_len};
ghost use Rattle.std.specs.Prelude.{◌<◌, ◌≤◌, ◌≡◌, Contains, IfOk, length};

use crate::restriction::Pairs;
use crate::rows::elements_at;
use crate::tester::Tester;
use axioms::{Expr, ExprId, Memory};
use certificate::Listed;
use number_sets::PackedLists;
use std::alloc::Global;

fn all_elements(alloc: Global, domain: u32) -> Result<Vec<u32>, Memory>
    ensures { IfOk result (λ all. all.items ≡ range_with_len 0 domain) }
{
    let mut all = Vec::new(alloc);
    for element in 0..domain {
        all.push(element)?;
    }
    Ok(all)
}

/// The elements of the class, ascending.
pub(crate) fn class_elements(
    alloc: Global,
    listed: &Listed,
    class: ExprId,
) -> Result<Vec<u32>, Memory>
    requires { AreClassRows listed.now.classes.items }
    ensures { IfOk result (λ elements. elements.items ≡ class_members (listed_of listed.now) class.0) }
{
    if class == ExprId::THING {
        return all_elements(alloc, listed.domain);
    }
    if class == ExprId::NOTHING {
        return Ok(Vec::new(alloc));
    }
    Ok(Vec::from_slice(alloc, elements_at(&listed.classes, class))?)
}

// How many rows have one of the fillers among their targets, or the bound if that is less.
fn rows_to(holders: &PackedLists, fillers: &[u32], bound: usize) -> usize
    ensures { result ≤ bound }
{
    let mut count: usize = 0;
    for filler in fillers {
        count = count.saturating_add(holders.len_at(*filler as usize));
        if count >= bound {
            return bound;
        }
    }
    count.min(bound)
}

// How many elements the class has, or the bound if that is less.
fn class_breadth(listed: &Listed, class: ExprId, bound: usize) -> usize
    requires { AreClassRows listed.now.classes.items }
    ensures { result ≤ bound }
{
    if class == ExprId::THING {
        return bound.min(listed.domain as usize);
    }
    bound.min(elements_at(&listed.classes, class).len())
}

impl Tester<'_> {
    // About how many steps it takes to list the elements of the expression, or the bound if that is less.
    fn breadth(&self, expression: ExprId, bound: usize) -> usize
        requires { AreClassRows self.now.listed.now.classes.items }
        ensures { result ≤ bound }
    {
        match self.ontology.expr(expression) {
            Some(Expr::Class(_)) => class_breadth(self.listed, expression, bound),
            Some(Expr::And(operands)) => {
                let mut least = bound;
                for operand in operands {
                    least = self.breadth(*operand, least);
                }
                least
            }
            Some(Expr::Some(_, filler)) => {
                let fillers = self.breadth(*filler, bound);
                let rows = rows_to(
                    &self.kept.holders,
                    elements_at(&self.listed.classes, *filler),
                    bound,
                );
                fillers.max(rows)
            }
            None => bound,
        }
    }

    // One of the operands: the one whose elements are listed soonest.
    fn least_operand(&self, operands: &[ExprId]) -> ExprId
        requires rows { AreClassRows self.now.listed.now.classes.items }
        requires some { 0 < length operands.now }
        ensures { Contains operands.now result }
    {
        let mut least = operands[0];
        let mut bound = usize::MAX;
        for operand in operands {
            let found = self.breadth(*operand, bound);
            if found < bound {
                least = *operand;
                bound = found;
            }
        }
        least
    }

    /// The elements of the expression, ascending.
    pub(crate) fn elements_of(&self, expression: ExprId) -> Result<Vec<u32>, Memory>
        requires ready { IsReady self.now }
        requires there { expression.0 < length self.now.ontology.now.nodes }
        ensures { IfOk result (λ elements. IsExtension self.now.ontology.now (listed_of self.now.listed.now) expression.0 elements.items) }
    {
        if let Some(list) = self.kept.at(self.listed, expression) {
            return Ok(Vec::from_slice(self.alloc, list)?);
        }
        match self.ontology.expr(expression) {
            Some(Expr::Class(_)) => class_elements(self.alloc, self.listed, expression),
            Some(Expr::And(operands)) => {
                let least = self.least_operand(operands);
                let elements = self.elements_of(least)?;
                self.those_in(expression, &elements)
            }
            Some(Expr::Some(property, filler)) => {
                let fillers = self.elements_of(*filler)?;
                let pairs = Pairs {
                    alloc: self.alloc,
                    rows: &self.listed.pairs,
                    holders: &self.kept.holders,
                };
                pairs.restriction(*property, &fillers)
            }
            // The expression is one of the ontology.
            None => unreachable!(),
        }
    }
}
