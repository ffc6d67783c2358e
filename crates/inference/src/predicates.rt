//! What facts say of contexts.
ghost use Rattle.inference.specs.Predicates.{predicate_of};
ghost use Rattle.std.specs.Prelude.{◌≡◌};

use facts::Fact;
use normal_forms::{Class2, PropId2};

/// What a fact says of its contexts: the class that something is in, or the property of an edge.
#[derive(Clone, Copy, Debug, PartialEq, Eq)]
pub enum Predicate {
    Class(Class2),
    Property(PropId2),
}

impl Predicate {
    /// The class into which the fact puts something, or the property of the edge.
    #[inline(always)]
    pub fn of(fact: Fact) -> Predicate
        ensures { result ≡ predicate_of fact }
    {
        match fact {
            Fact::In(class, _) => Predicate::Class(class),
            Fact::Edge(_, property, _) => Predicate::Property(property),
        }
    }
}
