//! How many premises the rules take.
ghost use Rattle.axioms.specs.View.{axiom_of, node_of};
ghost use Rattle.cert_check.specs.Premises.{ChainsAreAtMost, OperandsAreAtMost, RulesTakeAtMost, chain_length, operand_count};
ghost use Rattle.std.specs.Prelude.{◌≡◌, option_map};

use axioms::{Axiom, Expr, ExprId, Ontology};

// How many operands an intersection has; of all else, none.
fn count_of_operands(expression: Option<&Expr>) -> usize
    ensures { result ≡ operand_count (option_map (λ e. node_of e.now) expression.entry) }
{
    match expression {
        Some(Expr::And(operands)) => operands.len(),
        _ => 0,
    }
}

// How many properties the chain of a subproperty axiom has; of all else, none.
fn length_of_chain(stated: &Axiom) -> usize
    ensures { result ≡ chain_length (axiom_of stated.now) }
{
    match stated {
        Axiom::SubProperty(chain, _) => chain.len(),
        _ => 0,
    }
}

// The number of operands of the intersection with the most.
fn most_operands(ontology: &Ontology) -> usize
    ensures { OperandsAreAtMost ontology.now result }
{
    ontology.bounded();
    let mut most = 0;
    for number in 0..ontology.expression_count() {
        most = most.max(count_of_operands(ontology.expr(ExprId(number as u32))));
    }
    most
}

// The length of the longest chain.
fn longest_chain(ontology: &Ontology) -> usize
    ensures { ChainsAreAtMost ontology.now result }
{
    let mut longest = 0;
    for stated in ontology.axioms() {
        longest = longest.max(length_of_chain(stated));
    }
    longest
}

/// As many premises as a rule can take: two, or one for each operand of an intersection or for each property of a chain.
pub(crate) fn most_premises(ontology: &Ontology) -> usize
    ensures { RulesTakeAtMost ontology.now result }
{
    let many = most_operands(ontology).max(longest_chain(ontology));
    many.max(2)
}
