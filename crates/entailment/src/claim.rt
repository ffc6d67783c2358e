//! What axioms say of two or three things at a time.

use axioms::{ExprId, IndId, PropId};

/// What an axiom says of expressions, properties and individuals of an ontology, by their numbers.
#[derive(Clone, Copy)]
pub enum Claim<'a> {
    /// Each element of the first is one of the second.
    Below(ExprId, ExprId),
    /// No element is one of both.
    Apart(ExprId, ExprId),
    /// The source of each pair of the property is an element of the class.
    Sources(PropId, ExprId),
    /// Each path along the properties, of which there are one or more, gives a pair of the other one.
    Path(&'a [PropId], PropId),
    /// Each element has a pair with itself.
    Loops(PropId),
    /// The individual is an element of the class.
    Member(ExprId, IndId),
    /// The first individual has a pair with the second.
    Joined(PropId, IndId, IndId),
    /// It has none.
    Unjoined(PropId, IndId, IndId),
    /// The two individuals are one element.
    One(IndId, IndId),
    /// They are two.
    Two(IndId, IndId),
}
