//! Operands so far, in a table where equal trees are one.

ghost use Rattle.std.specs.List.{list_any};
ghost use Rattle.std.specs.Prelude.{◌≡◌, IfOk, OnOk, fold, not};
ghost use Rattle.fs_parser.specs.View.{iri_of, tree_of, trees_of};
ghost use Rattle.shapes.specs.TreeLaws.{same_tree_equiv, same_tree_alike};
ghost use Rattle.shapes.specs.TreeEquality.{same_tree};
ghost use Rattle.shapes.specs.View.{HoldsAlso, operand_trees};
ghost use Rattle.shapes.specs.HashInput.{name_writes, writes, writes_of};

use crate::equality::same_tree;
use axioms::Memory;
use fs_parser::{Iri, Tree};
use keyed_hash::NumberedSet;
use std::hash::{Hash, Hasher};

/// An operand, which equals another where their trees are equal.
#[derive(Drop)]
pub(crate) struct Operand<'t, 'a> {
    tree: &'t Tree<'a>,
}

impl PartialEq for Operand<'_, '_> {
    ghost use Rattle.fs_parser.specs.View.{tree_of};
    ghost use Rattle.std.specs.Cmp.{on_equiv, partial_equiv_from_equiv};

    ghost eq = { λ a b. same_tree (tree_of a.tree.now) (tree_of b.tree.now) };

    ghost laws = { partial_equiv_from_equiv (on_equiv (λ o. tree_of o.tree.now) same_tree_equiv) };

    fn eq(&self, other: &Operand<'_, '_>) -> bool {
        same_tree(self.tree, other.tree)
    }
}

impl Eq for Operand<'_, '_> {
    ghost use Rattle.std.specs.Cmp.{on_equiv};

    ghost laws = { on_equiv (λ o. tree_of o.tree.now) same_tree_equiv };
}

impl Hash for Operand<'_, '_> {
    ghost use Rattle.std.specs.Hash.{on_Alike};

    ghost hash_input = { λ o. writes (tree_of o.tree.now) };

    ghost respects_eq = { (on_Alike (λ o. tree_of o.tree.now) same_tree_alike).fed };

    fn hash<H: Hasher>(&self, state: &mut H) {
        feed(self.tree, state)
    }
}

/// Feeds a hasher the bytes, one by one.
fn feed_bytes<H: Hasher>(bytes: &[u8], state: &mut H)
    ensures { state.new ≡ fold H.write state.old (name_writes bytes.now) }
{
    for byte in bytes {
        state.write_u8(*byte);
    }
}

/// Feeds a hasher the name.
fn feed_iri<H: Hasher>(iri: &Iri<'_>, state: &mut H)
    ensures { state.new ≡ fold H.write state.old (name_writes (iri_of iri.now)) }
{
    feed_bytes(iri.base.as_bytes(), state);
    feed_bytes(iri.local.as_bytes(), state);
}

#[cycle(feeding)]
fn feed<H: Hasher>(tree: &Tree<'_>, state: &mut H)
    ensures { state.new ≡ fold H.write state.old (writes (tree_of tree.now)) }
{
    match tree {
        Tree::Name { iri, .. } => feed_iri(iri, state),
        Tree::PlainLiteral { text, .. }
        | Tree::TaggedLiteral { text, .. }
        | Tree::TypedLiteral { text, .. } => text.hash(state),
        Tree::Anonymous { label, .. } => label.hash(state),
        Tree::Number { digits, .. } => digits.hash(state),
        Tree::Group { trees, .. } => feed_each(trees, state),
        Tree::Form { keyword, trees, .. } => {
            keyword.hash(state);
            feed_each(trees, state)
        }
    }
}

/// Feeds a hasher the trees, in their order.
#[cycle(feeding)]
fn feed_each<H: Hasher>(trees: &[Tree<'_>], state: &mut H)
    ensures { state.new ≡ fold H.write state.old (writes_of (trees_of trees.now)) }
{
    for tree in trees {
        feed(tree, state);
    }
}

/// Whether the tree equals none that is in the table, which it then is put into.
pub(crate) fn is_new<'t, 'a>(
    seen: &mut NumberedSet<Operand<'t, 'a>>,
    tree: &'t Tree<'a>,
) -> Result<bool, Memory>
    ensures new { IfOk result (λ new. new ≡ not (list_any (same_tree (tree_of tree.now)) (operand_trees seen.old.keys))) }
    ensures seen { OnOk result (HoldsAlso (tree_of tree.now) seen.old.keys seen.new.keys) }
{
    let (_, new) = seen.insert(Operand { tree })?;
    Ok(new)
}
