//! What a line says, in little room.
ghost use Rattle.cert_check.specs.View.{said_of};
ghost use Rattle.certificate.specs.View.{conclusion_of};
ghost use Rattle.std.specs.Prelude.{◌≡◌};

use axioms::{ExprId, IndId, PropId};
use certificate::{Conclusion, Subject};

/// What a line says, by the kinds of what it speaks of, so that it takes a third less room than a [`Conclusion`]: there is one of
/// each line.
#[derive(Clone, Copy)]
pub(crate) enum ShortConclusion {
    /// The extension of an expression lies in an expression.
    Expr(ExprId, ExprId),
    /// The element of an individual lies in an expression.
    Individual(IndId, ExprId),
    /// An edge between expressions.
    ExprExpr(ExprId, PropId, ExprId),
    /// An edge from an expression to an individual.
    ExprIndividual(ExprId, PropId, IndId),
    /// An edge from an individual to an expression.
    IndividualExpr(IndId, PropId, ExprId),
    /// An edge between individuals.
    IndividualIndividual(IndId, PropId, IndId),
    /// Two individuals that are one.
    Same(IndId, IndId),
}

impl ShortConclusion {
    /// The conclusion in little room.
    pub(crate) fn of(conclusion: Conclusion) -> ShortConclusion
        ensures { said_of result ≡ conclusion_of conclusion }
    {
        match conclusion {
            Conclusion::Sub(Subject::Expr(x), c) => ShortConclusion::Expr(x, c),
            Conclusion::Sub(Subject::Individual(a), c) => ShortConclusion::Individual(a, c),
            Conclusion::Edge(Subject::Expr(x), r, Subject::Expr(y)) => {
                ShortConclusion::ExprExpr(x, r, y)
            }
            Conclusion::Edge(Subject::Expr(x), r, Subject::Individual(b)) => {
                ShortConclusion::ExprIndividual(x, r, b)
            }
            Conclusion::Edge(Subject::Individual(a), r, Subject::Expr(y)) => {
                ShortConclusion::IndividualExpr(a, r, y)
            }
            Conclusion::Edge(Subject::Individual(a), r, Subject::Individual(b)) => {
                ShortConclusion::IndividualIndividual(a, r, b)
            }
            Conclusion::Same(a, b) => ShortConclusion::Same(a, b),
        }
    }

    /// The conclusion as the rules take it.
    pub(crate) fn conclusion(self) -> Conclusion
        ensures { conclusion_of result ≡ said_of self }
    {
        match self {
            ShortConclusion::Expr(x, c) => Conclusion::Sub(Subject::Expr(x), c),
            ShortConclusion::Individual(a, c) => Conclusion::Sub(Subject::Individual(a), c),
            ShortConclusion::ExprExpr(x, r, y) => {
                Conclusion::Edge(Subject::Expr(x), r, Subject::Expr(y))
            }
            ShortConclusion::ExprIndividual(x, r, b) => {
                Conclusion::Edge(Subject::Expr(x), r, Subject::Individual(b))
            }
            ShortConclusion::IndividualExpr(a, r, y) => {
                Conclusion::Edge(Subject::Individual(a), r, Subject::Expr(y))
            }
            ShortConclusion::IndividualIndividual(a, r, b) => {
                Conclusion::Edge(Subject::Individual(a), r, Subject::Individual(b))
            }
            ShortConclusion::Same(a, b) => Conclusion::Same(a, b),
        }
    }
}
