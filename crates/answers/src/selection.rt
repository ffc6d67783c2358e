//! What can be asked about a class expression or an individual.

use axioms::{ExprId, IndId};

/// What is asked about a class expression or an individual, by its number in an ontology.
#[derive(Clone, Copy, Debug, PartialEq, Eq)]
pub enum Selection {
    /// Which named classes lie above it.
    Above(ExprId),
    /// Which named classes lie below it.
    Below(ExprId),
    /// Which individuals are members of it.
    Members(ExprId),
    /// Which named classes the individual belongs to.
    Types(IndId),
}
