//! Class expressions and axioms over numbers.

use crate::ids::{ClassId, ExprId, IndId, PropId};
use std::alloc::AllocError;

/// A class expression, whose parts stand as their numbers (OWL 2 Structural Specification, section 8).
#[derive(Debug, PartialEq, Eq, Hash, Drop)]
pub enum Expr {
    /// A named class.
    Class(ClassId),
    /// The intersection of two or more expressions.
    And(Vec<ExprId>),
    /// What has a successor by the property in the expression.
    Some(PropId, ExprId),
}

impl Clone for Expr {
    ghost use Rattle.std.specs.Prelude.{◌≡◌};
    ghost use Rattle.axioms.specs.View.{node_of};

    ghost is_clone = { λ e f. node_of f ≡ node_of e };

    fn clone(&self) -> Result<Expr, AllocError> {
        match self {
            Expr::Class(class) => Ok(Expr::Class(*class)),
            Expr::And(operands) => Ok(Expr::And(operands.clone()?)),
            Expr::Some(property, filler) => Ok(Expr::Some(*property, *filler)),
        }
    }
}

/// A logical axiom over numbers (OWL 2 Structural Specification, section 9).
#[derive(Debug, PartialEq, Eq, Drop)]
pub enum Axiom {
    SubClass(ExprId, ExprId),
    EquivalentClasses(Vec<ExprId>),
    DisjointClasses(Vec<ExprId>),
    /// One property on the left is the plain form, two or more are a property chain.
    SubProperty(Vec<PropId>, PropId),
    EquivalentProperties(Vec<PropId>),
    Domain(PropId, ExprId),
    Transitive(PropId),
    Reflexive(PropId),
    ClassAssertion(ExprId, IndId),
    PropertyAssertion(PropId, IndId, IndId),
    /// Two or more individuals that are one.
    SameIndividuals(Vec<IndId>),
    /// Two or more individuals of which no two are one.
    DifferentIndividuals(Vec<IndId>),
    /// The first individual does not have the second by the property.
    NegativePropertyAssertion(PropId, IndId, IndId),
}

impl Clone for Axiom {
    ghost use Rattle.std.specs.Prelude.{◌≡◌};
    ghost use Rattle.axioms.specs.View.{axiom_of};

    ghost is_clone = { λ a b. axiom_of b ≡ axiom_of a };

    fn clone(&self) -> Result<Axiom, AllocError> {
        match self {
            Axiom::SubClass(sub, sup) => Ok(Axiom::SubClass(*sub, *sup)),
            Axiom::EquivalentClasses(operands) => Ok(Axiom::EquivalentClasses(operands.clone()?)),
            Axiom::DisjointClasses(operands) => Ok(Axiom::DisjointClasses(operands.clone()?)),
            Axiom::SubProperty(chain, sup) => Ok(Axiom::SubProperty(chain.clone()?, *sup)),
            Axiom::EquivalentProperties(operands) => {
                Ok(Axiom::EquivalentProperties(operands.clone()?))
            }
            Axiom::Domain(property, class) => Ok(Axiom::Domain(*property, *class)),
            Axiom::Transitive(property) => Ok(Axiom::Transitive(*property)),
            Axiom::Reflexive(property) => Ok(Axiom::Reflexive(*property)),
            Axiom::ClassAssertion(class, individual) => {
                Ok(Axiom::ClassAssertion(*class, *individual))
            }
            Axiom::PropertyAssertion(property, source, target) => {
                Ok(Axiom::PropertyAssertion(*property, *source, *target))
            }
            Axiom::SameIndividuals(individuals) => {
                Ok(Axiom::SameIndividuals(individuals.clone()?))
            }
            Axiom::DifferentIndividuals(individuals) => {
                Ok(Axiom::DifferentIndividuals(individuals.clone()?))
            }
            Axiom::NegativePropertyAssertion(property, source, target) => {
                Ok(Axiom::NegativePropertyAssertion(*property, *source, *target))
            }
        }
    }
}

/// A kind of names. One IRI may be a name of each kind.
#[derive(Clone, Copy, Debug, PartialEq, Eq)]
pub enum Kind {
    Class,
    Property,
    Individual,
}

/// The number of a declared name; a class has the number of its expression beside it.
#[derive(Clone, Copy, Debug, PartialEq, Eq)]
pub enum Name {
    Class(ClassId, ExprId),
    Property(PropId),
    Individual(IndId),
}
