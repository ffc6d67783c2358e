//! Documents as trees.

ghost use Rattle.std.specs.Prelude.{◌≡◌};

use crate::iri::Iri;
use crate::prefix::Prefix;

/// A tree, with the byte of the source at which it begins. Its texts are slices of the source.
#[derive(Drop)]
pub enum Tree<'a> {
    /// A full IRI or a short name.
    Name {
        at: usize,
        iri: Iri<'a>,
    },
    /// A string, in its quotes.
    PlainLiteral {
        at: usize,
        text: &'a str,
    },
    /// A string, and a tag with its `@`.
    TaggedLiteral {
        at: usize,
        text: &'a str,
        tag: &'a str,
    },
    /// A string, and the name of its datatype.
    TypedLiteral {
        at: usize,
        text: &'a str,
        datatype: Iri<'a>,
    },
    /// An anonymous individual, with its `_:`.
    Anonymous {
        at: usize,
        label: &'a str,
    },
    /// An integer.
    Number {
        at: usize,
        digits: &'a str,
    },
    /// Trees in parentheses.
    Group {
        at: usize,
        trees: Vec<Tree<'a>>,
    },
    /// A keyword, and trees in parentheses.
    Form {
        at: usize,
        keyword: &'a str,
        trees: Vec<Tree<'a>>,
    },
}

impl Tree<'_> {
    ghost use Rattle.fs_parser.specs.Tree.{place_of};
    ghost use Rattle.fs_parser.specs.View.{tree_of};

    /// The byte of the source at which the tree begins.
    pub fn at(&self) -> usize
        ensures { result ≡ place_of (tree_of self.now) }
    {
        match self {
            Tree::Name { at, .. }
            | Tree::PlainLiteral { at, .. }
            | Tree::TaggedLiteral { at, .. }
            | Tree::TypedLiteral { at, .. }
            | Tree::Anonymous { at, .. }
            | Tree::Number { at, .. }
            | Tree::Group { at, .. }
            | Tree::Form { at, .. } => *at,
        }
    }
}

/// A document: the prefixes that it declares, in order, and the trees of its ontology, with names expanded.
#[derive(Drop)]
pub struct Document<'a> {
    pub prefixes: Vec<Prefix<'a>>,
    pub trees: Vec<Tree<'a>>,
}
