//! Facts from which others are drawn, with their numbers.
use facts::{Context, Fact};
use normal_forms::{Class2, PropId2};

/// A fact, with its number.
#[derive(Clone, Copy)]
pub struct Premise {
    pub number: u32,
    pub fact: Fact,
}

/// A class in a context, with the number of that fact.
#[derive(Clone, Copy)]
pub(crate) struct ClassPremise {
    pub number: u32,
    pub class: Class2,
    pub context: Context,
}

/// An edge, with the number of that fact.
#[derive(Clone, Copy)]
pub(crate) struct EdgePremise {
    pub number: u32,
    pub source: Context,
    pub property: PropId2,
    pub target: Context,
}

/// Facts in the order in which something is drawn from them, with their numbers.
#[derive(Clone, Copy)]
pub(crate) struct Premises<'a> {
    pub numbers: &'a [u32],
    pub facts: &'a [Fact],
}
