//! Contexts, and the facts that speak of them.
ghost use Rattle.facts.specs.HashInput.{class_word, context_word, property_word};
ghost use Rattle.std.specs.Prelude.{◌≡◌};

use axioms::{ExprId, IndId, PropId};
use normal_forms::{Class2, PropId2};

/// What classes are in, and what edges join: the members of an expression, whichever they are, or an individual.
#[derive(Clone, Copy, Debug, PartialEq, Eq)]
pub enum Context {
    Expr(ExprId),
    Individual(IndId),
}

/// A class in a context, or an edge from a context to another.
#[derive(Clone, Copy, Debug, PartialEq, Eq)]
pub enum Fact {
    In(Class2, Context),
    Edge(Context, PropId2, Context),
}

/// What stands for a number of the second of two kinds begins here, above all numbers of the first.
const SECOND_KIND: u64 = 4_294_967_296;

/// A number that stands for the class, and for no other.
#[inline(always)]
pub fn class_word(class: Class2) -> u64
    ensures { result ≡ class_word class }
{
    match class {
        Class2::Expr(ExprId(number)) => number as u64,
        Class2::Partial(number) => SECOND_KIND + number as u64,
    }
}

/// A number that stands for the property, and for no other.
#[inline(always)]
pub fn property_word(property: PropId2) -> u64
    ensures { result ≡ property_word property }
{
    match property {
        PropId2::Property(PropId(number)) => number as u64,
        PropId2::Partial(number) => SECOND_KIND + number as u64,
    }
}

/// A number that stands for the context, and for no other.
#[inline(always)]
pub fn context_word(context: Context) -> u64
    ensures { result ≡ context_word context }
{
    match context {
        Context::Expr(ExprId(number)) => number as u64,
        Context::Individual(IndId(number)) => SECOND_KIND + number as u64,
    }
}
