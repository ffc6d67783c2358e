//! Numbers of a fact by which it is found.
ghost use Rattle.facts.specs.Chains.{end_of, home_of, key_of, number_of};
ghost use Rattle.std.specs.Prelude.{◌≡◌};

use crate::contexts::{Context, Fact};
use axioms::{ExprId, IndId, PropId};
use normal_forms::{Class2, PropId2};

/// By which number of theirs facts are linked.
#[derive(Clone, Copy, PartialEq, Eq, Drop)]
pub(crate) enum Key {
    /// That of the context that the fact is of, an edge of its source.
    Home,
    /// That of the class, or of the property and the target of an edge.
    End,
}

/// The number of the context. An expression and an individual may have the same.
#[inline(always)]
pub(crate) fn number_of(context: Context) -> usize
    ensures { result ≡ number_of context }
{
    match context {
        Context::Expr(ExprId(number)) => number as usize,
        Context::Individual(IndId(number)) => number as usize,
    }
}

/// The number of the context that the fact is of, an edge of its source.
#[inline(always)]
pub(crate) fn home_of(fact: Fact) -> usize
    ensures { result ≡ home_of fact }
{
    match fact {
        Fact::In(_, context) => number_of(context),
        Fact::Edge(source, _, _) => number_of(source),
    }
}

/// The number of the class, or the sum of those of the property and the target of an edge: facts of one context share few.
#[inline(always)]
fn end_of(fact: Fact) -> usize
    ensures { result ≡ end_of fact }
{
    match fact {
        Fact::In(Class2::Expr(ExprId(number)), _) => number as usize,
        Fact::In(Class2::Partial(number), _) => number as usize,
        Fact::Edge(_, PropId2::Property(PropId(number)), target) => {
            number as usize + number_of(target)
        }
        Fact::Edge(_, PropId2::Partial(number), target) => number as usize + number_of(target),
    }
}

/// The number of the fact by which it is linked.
#[inline(always)]
pub(crate) fn key_of(by: Key, fact: Fact) -> usize
    ensures { result ≡ key_of by fact }
{
    match by {
        Key::Home => home_of(fact),
        Key::End => end_of(fact),
    }
}
