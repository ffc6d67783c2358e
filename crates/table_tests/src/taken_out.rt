//! Facts that are taken out of an index, worked out by hand.

use axioms::{ExprId, IndId, PropId};
use facts::{Context, Fact};
use indexes::Index;
use normal_forms::{Class2, PropId2};
use std::alloc::{AllocError, Global};
use std::test::Fail;

const SOURCE: Context = Context::Expr(ExprId(3));

/// Of the same number as the source, which is an expression.
const TARGET: Context = Context::Individual(IndId(3));

const CLASS: Fact = Fact::In(Class2::Expr(ExprId(5)), SOURCE);

const EDGE: Fact = Fact::Edge(SOURCE, PropId2::Property(PropId(0)), TARGET);

/// An index of facts 7 and 9, classes in the source, and of 8 and 4, edges from it to the target.
fn listed(alloc: Global) -> Result<Index, AllocError> {
    let mut index = Index::new(alloc);
    index.add(7, CLASS, false, true)?;
    index.add(8, EDGE, true, false)?;
    index.add(9, CLASS, false, true)?;
    index.add(4, EDGE, true, false)?;
    Ok(index)
}

/// A copy of that index.
fn copied(alloc: Global) -> Result<Index, AllocError> {
    let index = listed(alloc)?;
    index.copy()
}

/// Whether these are the classes that the index has, as fillers too.
fn has_classes(index: &Index, classes: &[u32]) -> bool {
    index.classes_in(SOURCE) == classes && index.fillers_in(SOURCE) == classes
}

/// Whether these are the edges that it has, as second premises too.
fn has_edges(index: &Index, edges: &[u32]) -> bool {
    index.edges_from(SOURCE) == edges
        && index.edges_into(TARGET) == edges
        && index.second_premises_from(SOURCE) == edges
}

#[test]
fn class_is_taken_out(rt: HostRuntime) -> Result<(), Fail> {
    let mut index = listed(rt.alloc())?;
    index.remove(7, CLASS);
    assert!(rt; has_classes(&index, &[9]));
    assert!(rt; has_edges(&index, &[8, 4]));
    Ok(())
}

#[test]
fn edge_is_taken_out(rt: HostRuntime) -> Result<(), Fail> {
    let mut index = listed(rt.alloc())?;
    index.remove(4, EDGE);
    assert!(rt; has_classes(&index, &[7, 9]));
    assert!(rt; has_edges(&index, &[8]));
    Ok(())
}

#[test]
fn number_that_is_not_listed_changes_nothing(rt: HostRuntime) -> Result<(), Fail> {
    let mut index = listed(rt.alloc())?;
    index.remove(8, CLASS);
    assert!(rt; has_classes(&index, &[7, 9]));
    assert!(rt; has_edges(&index, &[8, 4]));
    Ok(())
}

#[test]
fn copy_lists_the_same(rt: HostRuntime) -> Result<(), Fail> {
    let index = copied(rt.alloc())?;
    assert!(rt; has_classes(&index, &[7, 9]));
    assert!(rt; has_edges(&index, &[8, 4]));
    Ok(())
}
