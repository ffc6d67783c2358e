//! What is answered.

use certificate::Line;
use interpretation_spec::Interpretation;

/// Whether the subject is in the class in every finite interpretation of the axioms, and why.
#[derive(Drop)]
pub enum Explanation {
    /// It is: a derivation from the axioms that ends in this.
    Yes(Vec<Line>),
    /// It is not: an interpretation in which the axioms hold, and an element of the subject that is outside the class.
    No(Interpretation, usize),
    /// There is no such interpretation: a derivation that puts `owl:Thing` or an individual below `owl:Nothing`.
    Contradictory(Vec<Line>),
}
