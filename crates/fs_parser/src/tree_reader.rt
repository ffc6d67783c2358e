//! Reading the trees of a document one by one.
ghost use Rattle.std.specs.Prelude.{◌≡◌, ◌≤◌, ◌++◌, ◌∷◌, [], IfNone, IfOk, IfSome, IsTrue, OnErr, Some, length, option_map};
ghost use Rattle.fs_parser.specs.KnownPrefixes.{known_of};
ghost use Rattle.fs_parser.specs.Machine.{finish, start};
ghost use Rattle.fs_parser.specs.Name.{Prefixes as PrefixList, StandForOne, standard_prefixes};
ghost use Rattle.fs_parser.specs.State.{state_of};
ghost use Rattle.fs_parser.specs.Stream.{AreTreesBehind};
ghost use Rattle.fs_parser.specs.Tree.{Empty};
ghost use Rattle.fs_parser.specs.Rest.{IsNext, IsStartOf, IsTreeAt};
ghost use Rattle.fs_parser.specs.View.{tree_of};

use crate::document::DEEPEST;
use crate::expansion::expand;
use crate::known::Known;
use crate::prefixes::Prefixes;
use crate::reader::{Pending, State, take};
use crate::stream::{declared_by, header};
use crate::tree::Tree;
use fs_lexer::{Kind, Token, next_token, only_separators};
use std::alloc::{AllocError, Global};
use std::marker::Model;
use thiserror::Error;

/// No tree of a document stands where one was read, or memory was refused: then `tokens` and `forms` tell the fault.
#[derive(Debug, Clone, Copy, PartialEq, Eq, Error)]
#[error("no tree of a document, or out of memory")]
pub struct Stopped;

/// A reader of a document's text that keeps no tree: it gives the trees of `Ontology( .. )` one after another.
#[derive(Drop)]
pub struct TreeReader<'a> {
    alloc: Global,
    text: &'a str,
    from: usize,
    known: Known<'a>,
    state: State<'a>,
}

impl<'a> Model for TreeReader<'a> {
    ghost use Rattle.std.specs.Prelude.{◌≤◌, length};
    ghost use Rattle.fs_parser.specs.Rest.{TextLeft, text_left};

    ghost Value = { TextLeft };

    ghost use Rattle.fs_parser.specs.KnownPrefixes.{known_of};
    ghost use Rattle.fs_parser.specs.Name.{StandForOne};
    ghost use Rattle.fs_parser.specs.View.{prefixes_of_code};

    ghost view = { λ r. text_left (prefixes_of_code r.known.declared.items) r.text.now r.from };

    ghost invariant = { λ r. (r.from ≤ length r.text.now) × StandForOne (known_of r.known) };
}

/// Forgets what was read. The lists keep their room.
#[inline(always)]
fn clear(state: &mut State<'_>)
    ensures { state_of state.new ≡ start }
{
    state.frames.clear();
    state.done.clear();
    state.pending = Pending::Nothing;
}

/// The string that stands outside of all parentheses, where the token does not go on with it.
#[inline(always)]
fn literal_before<'a>(state: &State<'a>, token: &Token<'_>) -> Option<Tree<'a>>
    ensures { IfSome result (λ tree. finish (state_of state.now) ≡ Some (tree_of tree ∷ [])) }
{
    if !state.frames.is_empty() || !state.done.is_empty() {
        return None;
    }
    match state.pending {
        Pending::Text(at, text) => {
            if matches!(token.kind, Kind::LanguageTag | Kind::Carets) {
                None
            } else {
                Some(Tree::PlainLiteral { at, text })
            }
        }
        _ => None,
    }
}

/// The tree that was read, where it is whole.
#[inline(always)]
fn whole_tree<'a>(state: &mut State<'a>) -> Option<Tree<'a>>
    ensures whole { IfSome result (λ tree. finish (state_of state.old) ≡ Some (tree_of tree ∷ [])) }
    ensures unfinished { IfNone result (state_of state.new ≡ state_of state.old) }
{
    if !state.frames.is_empty() || state.done.len() != 1 {
        return None;
    }
    match state.pending {
        Pending::Nothing => state.done.pop(),
        _ => None,
    }
}

/// The tree that stands behind so many bytes of the text, and how many stand before what follows it. What is in the state's
/// lists goes.
fn tree_at<'a>(
    alloc: Global,
    known: &Known<'a>,
    state: &mut State<'a>,
    text: &'a str,
    start: usize,
) -> Option<(Tree<'a>, usize)>
    requires one { StandForOne (known_of known.now) }
    requires within { start ≤ length text.now }
    ensures { IfSome result (λ r. IsTreeAt text.now start (known_of known.now) (tree_of r.0) r.1) }
{
    clear(state);
    let mut from = start;
    while let Some((token, behind)) = next_token(text, from) {
        if let Some(literal) = literal_before(state, &token) {
            return Some((literal, from));
        }
        match take(alloc, DEEPEST, state, &token, expand(known, &token)) {
            Ok(()) => {}
            Err(_) => return None,
        }
        from = behind;
        if let Some(tree) = whole_tree(state) {
            return Some((tree, from));
        }
    }
    None
}

/// Whether what stands behind so many bytes of the text is a closing parenthesis, with which its tokens end.
fn is_end(text: &str, from: usize) -> bool
    requires { from ≤ length text.now }
    ensures { IsTrue result → (prefixes : PrefixList) → AreTreesBehind text.now from prefixes Empty }
{
    let Some((token, behind)) = next_token(text, from) else {
        return false;
    };
    match token.kind {
        Kind::Closing => only_separators(text, behind),
        _ => false,
    }
}

impl<'a> TreeReader<'a> {
    /// A reader at the first tree. None where the text does not begin as a document does, and where memory was refused.
    pub fn start(alloc: Global, text: &'a str) -> Option<TreeReader<'a>>
        ensures { IfSome result (IsStartOf text.now) }
    {
        let (header, from) = header(alloc, text)?;
        let known = declared_by(alloc, header)?;
        let state = State::new(alloc);
        Some(TreeReader {
            alloc,
            text,
            from,
            known,
            state,
        })
    }

    /// What names are expanded with: the standard prefixes, and those that the document declares. The text need not stay.
    ///
    /// # Errors
    ///
    /// `AllocError` where memory was refused.
    pub fn prefixes(&self, alloc: Global) -> Result<Prefixes, AllocError>
        ensures { IfOk result (λ p. p ≡ standard_prefixes ++ self.now.declared) }
    {
        Prefixes::of(alloc, &self.known.declared)
    }

    /// The tree that comes next. None behind the last one, where the text is a whole document.
    ///
    /// # Errors
    ///
    /// `Stopped` where neither a tree nor the end of a document comes next, and where memory was refused. The same stands next
    /// then.
    pub fn next(&mut self) -> Result<Option<Tree<'a>>, Stopped>
        ensures next { IfOk result (λ tree. IsNext self.old (option_map tree_of tree) self.new) }
        ensures kept { OnErr result (self.new ≡ self.old) }
    {
        match tree_at(
            self.alloc,
            &self.known,
            &mut self.state,
            self.text,
            self.from,
        ) {
            Some((tree, behind)) => {
                self.from = behind;
                Ok(Some(tree))
            }
            None => {
                if is_end(self.text, self.from) {
                    Ok(None)
                } else {
                    Err(Stopped)
                }
            }
        }
    }
}
