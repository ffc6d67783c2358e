//! Which trees are equal, wherever they stand.

ghost use Rattle.std.specs.List.{list_any};
ghost use Rattle.std.specs.Prelude.{◌≡◌, map};
ghost use Rattle.fs_parser.specs.View.{tree_of, trees_of};
ghost use Rattle.shapes.specs.TreeEquality.{same_tree, same_trees};

use crate::names::same_iri;
use fs_parser::Tree;

#[cycle(equality)]
pub(crate) fn same_tree(a: &Tree<'_>, b: &Tree<'_>) -> bool
    ensures { result ≡ same_tree (tree_of a.now) (tree_of b.now) }
{
    match (a, b) {
        (Tree::Name { iri, .. }, Tree::Name { iri: other, .. }) => same_iri(iri, other),
        (Tree::PlainLiteral { text, .. }, Tree::PlainLiteral { text: other, .. }) => text == other,
        (
            Tree::TaggedLiteral { text, tag, .. },
            Tree::TaggedLiteral {
                text: other,
                tag: other_tag,
                ..
            },
        ) => text == other && tag == other_tag,
        (
            Tree::TypedLiteral { text, datatype, .. },
            Tree::TypedLiteral {
                text: other,
                datatype: other_datatype,
                ..
            },
        ) => text == other && same_iri(datatype, other_datatype),
        (Tree::Anonymous { label, .. }, Tree::Anonymous { label: other, .. }) => label == other,
        (Tree::Number { digits, .. }, Tree::Number { digits: other, .. }) => digits == other,
        (Tree::Group { trees, .. }, Tree::Group { trees: other, .. }) => same_trees(trees, other),
        (
            Tree::Form { keyword, trees, .. },
            Tree::Form {
                keyword: other,
                trees: other_trees,
                ..
            },
        ) => keyword == other && same_trees(trees, other_trees),
        _ => false,
    }
}

/// Whether the trees are equal, one after the other.
#[cycle(equality)]
fn same_trees(a: &[Tree<'_>], b: &[Tree<'_>]) -> bool
    ensures { result ≡ same_trees (trees_of a.now) (trees_of b.now) }
{
    if a.len() != b.len() {
        return false;
    }
    for (one, other) in a.iter().zip(b) {
        if !same_tree(one, other) {
            return false;
        }
    }
    true
}

/// Whether the tree equals one of these.
pub(crate) fn is_among(tree: &Tree<'_>, trees: &[Tree<'_>]) -> bool
    ensures { result ≡ list_any (same_tree (tree_of tree.now)) (map tree_of trees.now) }
{
    for other in trees {
        if same_tree(tree, other) {
            return true;
        }
    }
    false
}
