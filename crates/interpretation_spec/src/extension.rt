//! The elements of class expressions.
ghost use Rattle.std.specs.Prelude.{◌≡◌, ℕ, ◌<◌, IfOk, length};
ghost use Rattle.std.specs.List.{list_any};
ghost use Rattle.axioms.specs.Ontology.{expression as expression_of};
ghost use Rattle.interpretation_spec.specs.NamedInterpretation.{IsExtension, interpretation_of};
ghost use Rattle.interpretation_spec.specs.NumberedInterpretation.{IsMadeFor, targets_of};
ghost use Rattle.number_sets.specs.Members.{has};

use crate::interpretation::Interpretation;
use crate::pairs::sources_in;
use axioms::{Expr, ExprId, Memory, Ontology, PropId};
use number_sets::Row;

impl Interpretation {
    /// The elements of the expression (OWL 2 Direct Semantics, section 2.2.3), which is of the ontology that this was made for.
    pub fn extension(&self, ontology: &Ontology, expression: ExprId) -> Result<Row, Memory>
        requires made_for { IsMadeFor ontology.now.names self.now }
        requires there { expression.0 < length ontology.now.nodes }
        ensures { IfOk result (λ row. IsExtension (interpretation_of ontology.now.names self.now) (expression_of ontology.now expression.0) row) }
    {
        match ontology.expr(expression) {
            Some(Expr::Class(class)) => self.classes.at(class.index()).copy(self.alloc),
            Some(Expr::And(operands)) => {
                let mut row = Row::full(self.alloc, self.size)?;
                for operand in operands {
                    let members = self.extension(ontology, *operand)?;
                    row.intersect(&members);
                }
                Ok(row)
            }
            Some(Expr::Some(property, filler)) => {
                let fillers = self.extension(ontology, *filler)?;
                self.sources(*property, &fillers)
            }
            // The expression is one of the ontology.
            None => unreachable!(),
        }
    }

    /// The elements that the property joins to one of the fillers.
    fn sources(&self, property: PropId, fillers: &Row) -> Result<Row, Memory>
        requires { property.0 < length self.now.pairs }
        ensures long { IfOk result (λ row. length row ≡ self.now.size) }
        ensures members { IfOk result (λ row. (x : ℕ) → x < self.now.size → has row x ≡ list_any (has fillers.now) (targets_of self.now property.0 x)) }
    {
        sources_in(
            self.alloc,
            &self.pairs[property.0 as usize],
            self.size,
            fillers,
        )
    }
}
