//! What numbers of an ontology stand for.
ghost use Rattle.axioms.specs.Examples.{ExamplesAreOntologies};
ghost use Rattle.axioms.specs.Theorems.{NoStatementsAreEmpty, NodesSayExpressions, PartsComeFirst, StatementsDetermineOntology};

/// The expression of a number is what its node says of the expressions of its parts, which come before it.
pub fn numbered_expressions()
    ensures nodes { NodesSayExpressions }
    ensures parts { PartsComeFirst }
    ensures examples { ExamplesAreOntologies }
{}

/// A sequence of statements has one ontology, whose numbers go by first places; that of no statements has `owl:Thing` and
/// `owl:Nothing` alone.
pub fn ontology_of_statements()
    ensures one { StatementsDetermineOntology }
    ensures none { NoStatementsAreEmpty }
{}
