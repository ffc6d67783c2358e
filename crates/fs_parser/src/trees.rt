//! Reading tokens as trees: to the parenthesis that closes them, to the end of the tokens, or as one alone.

ghost use Rattle.std.specs.Prelude.{Some, map};
ghost use Rattle.std.specs.Result.{IfErr, IfOk};
ghost use Rattle.fs_parser.specs.KnownPrefixes.{known_of};
ghost use Rattle.fs_parser.specs.Machine.{finish, finish_before, only_one};
ghost use Rattle.fs_parser.specs.Name.{StandForOne};
ghost use Rattle.fs_parser.specs.FaultMeanings.{IsEnd, IsPlain, IsSaidOfTrees};
ghost use Rattle.fs_parser.specs.State.{Gives, state_of};
ghost use Rattle.fs_parser.specs.Tree as spec;
ghost use Rattle.fs_parser.specs.Tree.{Trees, AreClosed, AreShallow, IsShallow};
ghost use Rattle.fs_parser.specs.View.{tokens_of, tree_of, trees_of};

use crate::expansion::expand;
use crate::fault::ParseFault;
use crate::known::Known;
use crate::reader::{State, begins_second, end, is_ended_by, take};
use crate::tree::Tree;
use fs_lexer::Token;
use std::alloc::Global;

/// The trees, at the parenthesis that closes them. No token may follow it.
fn end_before<'a>(
    rest: &[Token<'_>],
    state: State<'a>,
    here: usize,
) -> Result<Vec<Tree<'a>>, ParseFault>
    ensures given { Gives (λ v. map tree_of v.items) result (finish_before (tokens_of rest.now) (state_of state.entry)) }
    ensures said { IfErr result (IsPlain here (tokens_of rest.now)) }
{
    match rest {
        [] => end(state, here),
        [next, ..] => Err(ParseFault::Unexpected { at: next.at }),
    }
}

/// The trees that the tokens are up to a closing parenthesis, which is the last token. At most `limit` parentheses are
/// open at once in the trees. `here` is where the tokens end.
pub(crate) fn trees_inside<'a>(
    alloc: Global,
    limit: usize,
    known: &Known<'a>,
    tokens: &[Token<'a>],
    here: usize,
) -> Result<Vec<Tree<'a>>, ParseFault>
    requires { StandForOne (known_of known.now) }
    ensures found { IfOk result (λ v. AreClosed limit (known_of known.now) (trees_of v.items) (tokens_of tokens.now)) }
    // Where they are such trees these are found, unless memory runs out.
    ensures only { (ts : Trees) → AreClosed limit (known_of known.now) ts (tokens_of tokens.now) → Gives (λ v. trees_of v.items) result (Some ts) }
    // What a refusal speaks of stands at its place.
    ensures said { IfErr result (IsSaidOfTrees limit here (known_of known.now) (tokens_of tokens.now)) }
{
    let mut state = State::new(alloc);
    let mut rest = tokens;
    while let [token, others @ ..] = rest {
        if is_ended_by(&state, token) {
            return end_before(others, state, here);
        }
        take(alloc, limit, &mut state, token, expand(known, token))?;
        rest = others;
    }
    Err(ParseFault::UnexpectedEnd { at: here })
}

/// The trees that the tokens are. At most `limit` parentheses are open at once in them. `here` is where the tokens end.
pub(crate) fn trees_to_end<'a>(
    alloc: Global,
    limit: usize,
    known: &Known<'a>,
    tokens: &[Token<'a>],
    here: usize,
) -> Result<Vec<Tree<'a>>, ParseFault>
    requires { StandForOne (known_of known.now) }
    ensures found { IfOk result (λ v. AreShallow limit (known_of known.now) (trees_of v.items) (tokens_of tokens.now)) }
    // Where they are such trees these are found, unless memory runs out.
    ensures only { (ts : Trees) → AreShallow limit (known_of known.now) ts (tokens_of tokens.now) → Gives (λ v. trees_of v.items) result (Some ts) }
    // What a refusal speaks of stands at its place.
    ensures said { IfErr result (IsSaidOfTrees limit here (known_of known.now) (tokens_of tokens.now)) }
{
    let mut state = State::new(alloc);
    let mut rest = tokens;
    while let [token, others @ ..] = rest {
        take(alloc, limit, &mut state, token, expand(known, token))?;
        rest = others;
    }
    end(state, here)
}

/// The one tree, at the end of the tokens, where no token began a second one.
fn end_of_tree(state: State<'_>, here: usize) -> Result<Tree<'_>, ParseFault>
    ensures given { Gives tree_of result (only_one (finish (state_of state.entry))) }
    ensures said { IfErr result (IsEnd here) }
{
    let mut trees = end(state, here)?;
    match trees.pop() {
        Some(tree) if trees.is_empty() => Ok(tree),
        _ => Err(ParseFault::UnexpectedEnd { at: here }),
    }
}

/// The one tree that the tokens are. At most `limit` parentheses are open at once in it. `here` is where the tokens end.
pub(crate) fn tree_to_end<'a>(
    alloc: Global,
    limit: usize,
    known: &Known<'a>,
    tokens: &[Token<'a>],
    here: usize,
) -> Result<Tree<'a>, ParseFault>
    requires { StandForOne (known_of known.now) }
    ensures found { IfOk result (λ t. IsShallow limit (known_of known.now) (tree_of t) (tokens_of tokens.now)) }
    // Where they are such a tree it is found, unless memory runs out.
    ensures only { (t : spec.Tree) → IsShallow limit (known_of known.now) t (tokens_of tokens.now) → Gives tree_of result (Some t) }
    // What a refusal speaks of stands at its place.
    ensures said { IfErr result (IsSaidOfTrees limit here (known_of known.now) (tokens_of tokens.now)) }
{
    let mut state = State::new(alloc);
    let mut rest = tokens;
    while let [token, others @ ..] = rest {
        if begins_second(&state, token) {
            return Err(ParseFault::Unexpected { at: token.at });
        }
        take(alloc, limit, &mut state, token, expand(known, token))?;
        rest = others;
    }
    end_of_tree(state, here)
}
