//! Facts as they are kept: each kind of class, property and context.

use axioms::{ExprId, IndId, PropId};
use facts::{Context, Fact, StoredFact};
use normal_forms::{Class2, PropId2};
use std::test::Fail;

const FACTS: &[Fact] = &[
    Fact::In(Class2::Expr(ExprId(0)), Context::Expr(ExprId(1))),
    Fact::In(Class2::Partial(2), Context::Expr(ExprId(3))),
    Fact::In(
        Class2::Expr(ExprId(4_294_967_295)),
        Context::Individual(IndId(5)),
    ),
    Fact::Edge(
        Context::Expr(ExprId(6)),
        PropId2::Property(PropId(7)),
        Context::Individual(IndId(8)),
    ),
    Fact::Edge(
        Context::Individual(IndId(9)),
        PropId2::Partial(10),
        Context::Expr(ExprId(11)),
    ),
];

#[test]
fn a_stored_fact_is_given_back(rt: HostRuntime) -> Result<(), Fail> {
    for fact in FACTS {
        assert!(rt; StoredFact::new(*fact).get() == *fact);
    }
    Ok(())
}

const PARTIAL: Fact = Fact::In(Class2::Partial(2), Context::Expr(ExprId(3)));

const MEMBER: Fact = Fact::In(Class2::Expr(ExprId(4)), Context::Individual(IndId(5)));

/// The context that the fact puts in the class.
fn context_in(fact: Fact, class: Class2) -> Option<Context> {
    StoredFact::new(fact).context_in(class)
}

#[test]
fn a_stored_fact_puts_its_context_in_its_class(rt: HostRuntime) {
    assert!(rt; context_in(PARTIAL, Class2::Partial(2)) == Some(Context::Expr(ExprId(3))));
    assert!(rt; context_in(PARTIAL, Class2::Expr(ExprId(2))).is_none());
    assert!(rt; context_in(MEMBER, Class2::Expr(ExprId(4))) == Some(Context::Individual(IndId(5))));
    assert!(rt; context_in(MEMBER, Class2::Partial(4)).is_none());
}
