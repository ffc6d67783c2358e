//! Relations of a few classes, and their reductions.
ghost use Rattle.std.specs.Bool.{OnTrue};
ghost use Rattle.std.specs.List.{All};
ghost use Rattle.std.specs.Prelude.{◌<◌, ◌≡◌, IfOk, length, true, ℕ};
ghost use Rattle.taxonomy.specs.Relation.{IsPreorder, IsSquare, is_listed, lies_below};

use axioms::Memory;
use interpretation_spec::Row;
use number_sets::PackedLists;
use std::alloc::Global;
use std::test::Fail;
use taxonomy::{Relation, Taxonomy, reduce};

/// What the pairs give to `k`, of numbers below `n`.
fn list_of(alloc: Global, pairs: &[(u32, u32)], n: usize, k: u32) -> Result<Vec<u32>, Memory>
    ensures { IfOk result (λ v. All (λ d. d < n) v.items) }
{
    let mut list = Vec::new(alloc);
    for (first, second) in pairs {
        if *first == k && (*second as usize) < n {
            list.push(*second)?;
        }
    }
    Ok(list)
}

/// The superclasses of each class: itself, owl:Thing and what the pairs give it; owl:Nothing has itself alone.
fn class_lists(alloc: Global, below: &[(u32, u32)], n: u32) -> Result<PackedLists, Memory>
    ensures { IfOk result (λ l. length l ≡ n) }
{
    let mut lists = PackedLists::new(alloc);
    for c in 0..n {
        let mut list = list_of(alloc, below, n as usize, c)?;
        list.push(c)?;
        if c != 1 {
            list.push(0)?;
        }
        lists.push_list(&list)?;
    }
    Ok(lists)
}

/// The types of each individual: what the pairs give it.
pub(crate) fn type_lists(
    alloc: Global,
    types: &[(u32, u32)],
    n: usize,
    individuals: u32,
) -> Result<PackedLists, Memory>
    ensures long { IfOk result (λ l. length l ≡ individuals) }
    ensures within { IfOk result (λ l. (a d : ℕ) → is_listed l a d ≡ true → d < n) }
{
    let mut lists = PackedLists::new(alloc);
    for a in 0..individuals {
        lists.push_list(&list_of(alloc, types, n, a)?)?;
    }
    Ok(lists)
}

/// Whether each class lies below itself.
fn is_reflexive(relation: &Relation) -> bool
    ensures { OnTrue result ((c : ℕ) → c < length relation.now → lies_below relation.now c c ≡ true) }
{
    for c in 0..relation.len() {
        if !relation.lies_below(c, c) {
            return false;
        }
    }
    true
}

/// Whether `c` lies below all that `d` lies below.
fn is_below_all_above(relation: &Relation, c: usize, d: usize) -> bool
    ensures { OnTrue result
        ((e : ℕ) → e < length relation.now → lies_below relation.now d e ≡ true → lies_below relation.now c e ≡ true) }
{
    for e in 0..relation.len() {
        if relation.lies_below(d, e) && !relation.lies_below(c, e) {
            return false;
        }
    }
    true
}

/// Whether `c` lies below all that is above what it lies below.
fn is_closed_at(relation: &Relation, c: usize) -> bool
    ensures { OnTrue result
        ((d e : ℕ) → d < length relation.now → e < length relation.now
        → lies_below relation.now c d ≡ true → lies_below relation.now d e ≡ true → lies_below relation.now c e ≡ true) }
{
    for d in 0..relation.len() {
        if relation.lies_below(c, d) && !is_below_all_above(relation, c, d) {
            return false;
        }
    }
    true
}

/// Whether each class lies below all that is above what it lies below.
fn is_transitive(relation: &Relation) -> bool
    ensures { OnTrue result
        ((c d e : ℕ) → c < length relation.now → d < length relation.now → e < length relation.now
        → lies_below relation.now c d ≡ true → lies_below relation.now d e ≡ true → lies_below relation.now c e ≡ true) }
{
    for c in 0..relation.len() {
        if !is_closed_at(relation, c) {
            return false;
        }
    }
    true
}

/// Whether the relation can be reduced.
fn is_preorder(relation: &Relation) -> bool
    ensures { OnTrue result (IsPreorder relation.now) }
{
    is_reflexive(relation) && is_transitive(relation)
}

/// The taxonomy of the relation. It must be a preorder.
fn reduced(alloc: Global, relation: &Relation) -> Result<Taxonomy, Memory>
    ensures { IfOk result (λ t. t ≡ relation.now) }
{
    if is_preorder(relation) {
        reduce(alloc, relation)
    } else {
        Err(Memory)
    }
}

/// The taxonomy where each class lies below itself, owl:Thing and what the pairs give it.
pub(crate) fn taxonomy_of(alloc: Global, below: &[(u32, u32)], n: u32) -> Result<Taxonomy, Memory>
    ensures { IfOk result (λ t. length t ≡ n) }
{
    let lists = class_lists(alloc, below, n)?;
    let relation = Relation::of_superclasses(alloc, &lists)?;
    let taxonomy = reduced(alloc, &relation)?;
    Ok(taxonomy)
}

/// Three rows: the first two classes are below each other, the third is below all.
fn three_rows(alloc: Global) -> Result<Vec<Row>, Memory>
    ensures { IfOk result (λ v. IsSquare v.items) }
{
    let mut pair = Row::new(alloc, 3)?;
    pair.put(0);
    pair.put(1);
    let again = pair.copy(alloc)?;
    let all = Row::full(alloc, 3)?;
    Ok(Vec::from_array(alloc, [pair, again, all])?)
}

/// The taxonomy of the three rows.
fn taxonomy_of_rows(alloc: Global) -> Result<Taxonomy, Memory> {
    let relation = Relation::new(three_rows(alloc)?);
    reduced(alloc, &relation)
}

/// Whether the first two classes are the same, below the third.
fn has_two_below_one(taxonomy: &Taxonomy) -> bool {
    taxonomy.len() == 3
        && taxonomy.is_same(0, 1)
        && !taxonomy.is_same(0, 2)
        && !taxonomy.is_same(2, 3)
        && taxonomy.is_strictly_above(2, 0)
        && !taxonomy.is_strictly_above(0, 2)
}

#[test]
fn classes_of_rows(rt: HostRuntime) -> Result<(), Fail> {
    let taxonomy = taxonomy_of_rows(rt.alloc())?;
    let right = has_two_below_one(&taxonomy);
    drop(taxonomy);
    assert!(rt; right);
    Ok(())
}

/// The relation of four classes of which the third has owl:Nothing above it, and the fourth the third.
fn relation_of_lists(alloc: Global) -> Result<Relation, Memory> {
    let lists = class_lists(alloc, &[(2, 1), (3, 2), (3, 9)], 4)?;
    Relation::of_superclasses(alloc, &lists)
}

/// Whether each class lies below what its list has, and below all where that has owl:Nothing.
fn has_lists(relation: &Relation) -> bool {
    relation.len() == 4
        && relation.lies_below(2, 3)
        && relation.lies_below(1, 3)
        && relation.lies_below(3, 2)
        && !relation.lies_below(3, 1)
        && !relation.lies_below(0, 3)
        && !relation.lies_below(3, 9)
}

#[test]
fn lists_of_superclasses(rt: HostRuntime) -> Result<(), Fail> {
    let relation = relation_of_lists(rt.alloc())?;
    let right = has_lists(&relation);
    drop(relation);
    assert!(rt; right);
    Ok(())
}

/// Whether the last two classes are the same, below owl:Thing.
fn has_a_cycle(taxonomy: &Taxonomy) -> bool {
    taxonomy.len() == 4
        && taxonomy.is_same(2, 3)
        && !taxonomy.is_same(0, 2)
        && taxonomy.is_strictly_above(2, 0)
        && !taxonomy.is_strictly_above(2, 3)
}

#[test]
fn classes_of_a_cycle(rt: HostRuntime) -> Result<(), Fail> {
    let taxonomy = taxonomy_of(rt.alloc(), &[(2, 3), (3, 2)], 4)?;
    let right = has_a_cycle(&taxonomy);
    drop(taxonomy);
    assert!(rt; right);
    Ok(())
}
