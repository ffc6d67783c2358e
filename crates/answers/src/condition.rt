//! Conditions for a class.

use axioms::ExprId;

/// What something lacks to be in a class.
#[derive(Drop)]
pub enum Lacking {
    /// Nothing: it is in the class.
    Nothing,
    /// It is not in the class, and has so much of each condition that an axiom states for the class, in the order of the axioms. Where
    /// there is no condition, no axiom concludes the class.
    Conditions(Vec<Condition>),
}

/// A condition that an axiom states for a class: what has all its parts is in the class.
#[derive(Drop)]
pub struct Condition {
    /// The number of the axiom, counted from 1.
    pub axiom: usize,
    /// The operands of an intersection, or the one expression.
    pub parts: Vec<Part>,
}

/// A part of a condition.
#[derive(Clone, Copy)]
pub struct Part {
    /// The expression that something has to be in.
    pub expression: ExprId,
    /// Whether it is in it, in every finite interpretation of the axioms.
    pub has: bool,
}

/// A condition as an axiom states it.
#[derive(Clone, Copy)]
pub(crate) struct Stated {
    pub axiom: usize,
    pub condition: ExprId,
}
