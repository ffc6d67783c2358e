//! Copies of an index, and edges that are listed as second premises alone, worked out by hand.

use axioms::{ExprId, PropId};
use facts::{Context, Fact};
use indexes::Index;
use normal_forms::{Class2, PropId2};
use std::alloc::{AllocError, Global};
use std::test::Fail;

const FIRST: Context = Context::Expr(ExprId(1));

const SECOND: Context = Context::Expr(ExprId(2));

const EDGE: Fact = Fact::Edge(FIRST, PropId2::Property(PropId(0)), SECOND);

/// A class in the context.
fn class_in(context: Context) -> Fact {
    Fact::In(Class2::Expr(ExprId(5)), context)
}

/// An index of facts 0 to 11: those of even numbers are classes in the first context, and the others in the second.
fn twelve(alloc: Global) -> Result<Index, AllocError> {
    let mut index = Index::new(alloc);
    for number in 0..6 {
        index.add(2 * number, class_in(FIRST), false, false)?;
        index.add(2 * number + 1, class_in(SECOND), false, false)?;
    }
    Ok(index)
}

/// Whether these are the classes in the first context, and those in the second.
fn has(index: &Index, first: &[u32], second: &[u32]) -> bool {
    index.classes_in(FIRST) == first && index.classes_in(SECOND) == second
}

/// Whether a copy that loses numbers and gets one more does so alone, and so does a copy of that copy.
fn changes_alone(index: &Index) -> Result<bool, AllocError> {
    let mut copy = index.copy()?;
    copy.remove(4, class_in(FIRST));
    copy.remove(10, class_in(FIRST));
    let fewer = has(&copy, &[0, 2, 6, 8], &[1, 3, 5, 7, 9, 11]);
    copy.add(12, class_in(FIRST), false, false)?;
    copy.remove(1, class_in(SECOND));
    let mut again = copy.copy()?;
    again.remove(12, class_in(FIRST));
    Ok(
        fewer
            && has(&copy, &[0, 2, 6, 8, 12], &[3, 5, 7, 9, 11])
            && has(&again, &[0, 2, 6, 8], &[3, 5, 7, 9, 11]),
    )
}

#[test]
fn lists_of_a_copy_change_alone(rt: HostRuntime) -> Result<(), Fail> {
    let index = twelve(rt.alloc())?;
    let changes_alone = changes_alone(&index);
    let stays = has(&index, &[0, 2, 4, 6, 8, 10], &[1, 3, 5, 7, 9, 11]);
    drop(index);
    assert!(rt; changes_alone?, "the copies");
    assert!(rt; stays, "the first");
    Ok(())
}

/// Whether these are the edges from the first context and those into the second, and of the first those that are second premises.
fn has_edges(index: &Index, edges: &[u32], seconds: &[u32]) -> bool {
    index.edges_from(FIRST) == edges
        && index.edges_into(SECOND) == edges
        && index.second_premises_from(FIRST) == seconds
}

#[test]
fn edge_is_a_second_premise_too(rt: HostRuntime) -> Result<(), Fail> {
    let mut index = Index::new(rt.alloc());
    index.add(6, EDGE, false, false)?;
    index.add(7, EDGE, false, false)?;
    assert!(rt; has_edges(&index, &[6, 7], &[]), "as an edge");
    index.add_second_premise(6, FIRST)?;
    index.add_second_premise(6, FIRST)?;
    assert!(rt; has_edges(&index, &[6, 7], &[6]), "once");
    assert!(rt;
        index.second_premises_from(SECOND).is_empty(),
        "from its source"
    );
    Ok(())
}
