//! Reading trees that stand alone, with the prefixes of a document.
ghost use Rattle.std.specs.Prelude.{IfErr, IfOk};
ghost use Rattle.fs_parser.specs.Faults.{last_place};
ghost use Rattle.fs_parser.specs.FaultMeanings.{IsSaidOfTrees};
ghost use Rattle.fs_parser.specs.State.{IsRefusal};
ghost use Rattle.fs_parser.specs.Tree as spec;
ghost use Rattle.fs_parser.specs.View.{tokens_of, tree_of, trees_of};

use crate::document::end_of;
use crate::fault::ParseFault;
use crate::prefixes::Prefixes;
use crate::tree::Tree;
use crate::trees::{tree_to_end, trees_to_end};
use fs_lexer::Token;
use std::alloc::Global;

/// How many parentheses may be open at once in statements: as many as inside of `Ontology( .. )`.
const DEEPEST_STATEMENT: usize = 64;

/// How many parentheses may be open at once in an expression: those of its statement are not there.
const DEEPEST_EXPRESSION: usize = 63;

/// The trees that the tokens are, any number, or the first place from the left where they fail to be trees.
pub fn statements<'a>(
    alloc: Global,
    tokens: &[Token<'a>],
    prefixes: &'a Prefixes,
) -> Result<Vec<Tree<'a>>, ParseFault>
    // The tokens are these trees. They are no others.
    ensures found { IfOk result (λ v. spec.AreShallow 64 prefixes.now (trees_of v.items) (tokens_of tokens.now)) }
    // Tokens that are refused, other than for want of memory, are no trees.
    ensures refused { IfErr result (λ e. IsRefusal e → (trees : spec.Trees) → spec.AreShallow 64 prefixes.now trees (tokens_of tokens.now) → ⊥) }
    // What a fault says of its place holds.
    ensures placed { IfErr result (IsSaidOfTrees 64 (last_place (tokens_of tokens.now)) prefixes.now (tokens_of tokens.now)) }
{
    prefixes.stand_for_one();
    let known = prefixes.known(alloc)?;
    trees_to_end(alloc, DEEPEST_STATEMENT, &known, tokens, end_of(tokens))
}

/// The one tree that the tokens are, to their end, or the first place from the left where they fail to be one.
pub fn expression<'a>(
    alloc: Global,
    tokens: &[Token<'a>],
    prefixes: &'a Prefixes,
) -> Result<Tree<'a>, ParseFault>
    // The tokens are this tree. They are no other.
    ensures found { IfOk result (λ t. spec.IsShallow 63 prefixes.now (tree_of t) (tokens_of tokens.now)) }
    // Tokens that are refused, other than for want of memory, are no tree.
    ensures refused { IfErr result (λ e. IsRefusal e → (tree : spec.Tree) → spec.IsShallow 63 prefixes.now tree (tokens_of tokens.now) → ⊥) }
    // What a fault says of its place holds.
    ensures placed { IfErr result (IsSaidOfTrees 63 (last_place (tokens_of tokens.now)) prefixes.now (tokens_of tokens.now)) }
{
    prefixes.stand_for_one();
    let known = prefixes.known(alloc)?;
    tree_to_end(alloc, DEEPEST_EXPRESSION, &known, tokens, end_of(tokens))
}
