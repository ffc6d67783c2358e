//! Reading tokens one after the other, with the open parentheses on a stack.

ghost use Rattle.std.specs.Prelude.{◌≡◌, ℕ, Some, None, length, map};
ghost use Rattle.std.specs.Result.{IfErr, IfOk, OnOk};
ghost use Rattle.fs_lexer.specs.declared.token.Kind.TheVariants.{ShortName};
ghost use Rattle.fs_lexer.specs.Views.{token_of};
ghost use Rattle.fs_parser.specs.declared.fault.ParseFault.TheVariants as faults;
ghost use Rattle.fs_parser.specs.Machine as machine;
ghost use Rattle.fs_parser.specs.Machine.{add, begins_second, ends, enter, finish, leave, plain_step, start, step, text_step};
ghost use Rattle.fs_parser.specs.FaultMeanings.{IsEnd, IsMemory, IsPlainAt, IsSaidOfToken, IsTooDeepAt};
ghost use Rattle.fs_parser.specs.State.{Gives, Fails, Leaves, whole_of, frames_in, keyword_of, name_of_code, state_of, trees_in};
ghost use Rattle.fs_parser.specs.View.{tree_of};

use crate::fault::ParseFault;
use crate::iri::Iri;
use crate::tree::Tree;
use fs_lexer::{Kind, Token};
use std::alloc::Global;
use std::mem;

/// What was read and is no whole tree yet.
#[derive(Clone, Copy)]
pub(crate) enum Pending<'a> {
    Nothing,
    Word(usize, &'a str),
    Text(usize, &'a str),
    Typed(usize, &'a str),
}

/// An open parenthesis: where its tree begins, its keyword, and the trees before it.
#[derive(Drop)]
pub(crate) struct Frame<'a> {
    pub(crate) at: usize,
    pub(crate) keyword: Option<&'a str>,
    pub(crate) before: Vec<Tree<'a>>,
}

/// What was read so far, and a list whose room the next trees in parentheses take.
#[derive(Drop)]
pub(crate) struct State<'a> {
    pub(crate) frames: Vec<Frame<'a>>,
    pub(crate) done: Vec<Tree<'a>>,
    pub(crate) pending: Pending<'a>,
    pub(crate) spare: Vec<Tree<'a>>,
}

impl<'a> State<'a> {
    /// Nothing was read.
    #[inline(always)]
    pub(crate) fn new(alloc: Global) -> State<'a>
        ensures { state_of result ≡ start }
    {
        State {
            frames: Vec::new(alloc),
            done: Vec::new(alloc),
            pending: Pending::Nothing,
            spare: Vec::new(alloc),
        }
    }
}

/// One more tree.
#[inline(always)]
fn push<'a>(state: &mut State<'a>, tree: Tree<'a>) -> Result<(), ParseFault>
    ensures given { Leaves state.new result (Some (add (frames_in state.old) (trees_in state.old) (tree_of tree.entry))) }
    ensures kept { OnOk result (state.new.frames ≡ state.old.frames) }
    ensures said { IfErr result IsMemory }
{
    state.done.push(tree)?;
    state.pending = Pending::Nothing;
    Ok(())
}

/// One more open parenthesis, at `here`, of a tree that begins at `at`.
#[inline(always)]
fn open<'a>(
    alloc: Global,
    limit: usize,
    state: &mut State<'a>,
    at: usize,
    keyword: Option<&'a str>,
    here: usize,
) -> Result<(), ParseFault>
    ensures given { Leaves state.new result (enter limit (frames_in state.old) (trees_in state.old) at (keyword_of keyword.entry)) }
    ensures said { IfErr result (IsTooDeepAt limit (length state.old.frames.items) here) }
{
    if state.frames.len() >= limit {
        return Err(ParseFault::TooDeep { at: here });
    }
    let mut room = mem::replace(&mut state.spare, Vec::new(alloc));
    room.clear();
    let before = mem::replace(&mut state.done, room);
    state.frames.push(Frame {
        at,
        keyword,
        before,
    })?;
    state.pending = Pending::Nothing;
    Ok(())
}

/// The tree of a frame, with the trees in it.
#[inline(always)]
fn whole<'a>(at: usize, keyword: Option<&'a str>, trees: Vec<Tree<'a>>) -> Tree<'a>
    ensures { tree_of result ≡ whole_of at (keyword_of keyword.entry) (map tree_of trees.entry.items) }
{
    match keyword {
        Some(keyword) => Tree::Form { at, keyword, trees },
        None => Tree::Group { at, trees },
    }
}

/// The trees in a list with room for no more than these. The list in which they came keeps its room, for the next ones: of
/// the trees of a document, most are alone or two.
#[inline(always)]
fn fitted<'a>(alloc: Global, trees: &mut Vec<Tree<'a>>) -> Result<Vec<Tree<'a>>, ParseFault>
    ensures same { IfOk result (λ v. v.items ≡ trees.old.items) }
    ensures said { IfErr result IsMemory }
{
    let mut fitted = Vec::with_capacity(alloc, trees.len())?;
    fitted.append(trees)?;
    Ok(fitted)
}

/// One open parenthesis less.
#[inline(always)]
fn close(alloc: Global, state: &mut State<'_>, here: usize) -> Result<(), ParseFault>
    ensures given { Leaves state.new result (leave (frames_in state.old) (trees_in state.old)) }
    ensures said { IfErr result (IsPlainAt here) }
{
    match state.frames.pop() {
        Some(frame) => {
            let mut room = mem::replace(&mut state.done, frame.before);
            let trees = fitted(alloc, &mut room)?;
            state.spare = room;
            push(state, whole(frame.at, frame.keyword, trees))
        }
        None => Err(ParseFault::Unexpected { at: here }),
    }
}

/// Why the token names no IRI: its prefix is not known, or it is no short name.
#[inline(never)]
fn unnamed(token: &Token<'_>) -> ParseFault
    ensures given { Fails {Y = machine.State} result None }
    ensures said { (limit open' : ℕ) → IsSaidOfToken limit open' None (token_of token.now) result }
    ensures short { token.now.kind ≡ ShortName → result ≡ faults.UnknownPrefix token.now.at }
{
    match token.kind {
        Kind::ShortName => ParseFault::UnknownPrefix { at: token.at },
        _ => ParseFault::Unexpected { at: token.at },
    }
}

/// A token where nothing is pending.
#[inline(always)]
fn take_plain<'a>(
    alloc: Global,
    limit: usize,
    state: &mut State<'a>,
    token: &Token<'a>,
    name: Option<Iri<'a>>,
) -> Result<(), ParseFault>
    ensures given { Leaves state.new result (plain_step limit (name_of_code name.entry) (state_of state.old) (token_of token.now)) }
    ensures said { IfErr result (IsSaidOfToken limit (length state.old.frames.items) (name_of_code name.entry) (token_of token.now)) }
{
    match token.kind {
        Kind::Opening => open(alloc, limit, state, token.at, None, token.at),
        Kind::Closing => close(alloc, state, token.at),
        Kind::FullIri | Kind::ShortName => match name {
            Some(iri) => push(state, Tree::Name { at: token.at, iri }),
            None => Err(unnamed(token)),
        },
        Kind::Quoted => {
            state.pending = Pending::Text(token.at, token.text);
            Ok(())
        }
        Kind::Keyword => {
            state.pending = Pending::Word(token.at, token.text);
            Ok(())
        }
        Kind::Integer => push(
            state,
            Tree::Number {
                at: token.at,
                digits: token.text,
            },
        ),
        Kind::NodeLabel => push(
            state,
            Tree::Anonymous {
                at: token.at,
                label: token.text,
            },
        ),
        Kind::Equals | Kind::Carets | Kind::LanguageTag | Kind::PrefixName => {
            Err(ParseFault::Unexpected { at: token.at })
        }
    }
}

/// A token behind a string.
#[inline(never)]
fn take_behind_text<'a>(
    alloc: Global,
    limit: usize,
    state: &mut State<'a>,
    at: usize,
    text: &'a str,
    token: &Token<'a>,
    name: Option<Iri<'a>>,
) -> Result<(), ParseFault>
    ensures given { Leaves state.new result (text_step limit (name_of_code name.entry) (state_of state.old) at text.now (token_of token.now)) }
    ensures said { IfErr result (IsSaidOfToken limit (length state.old.frames.items) (name_of_code name.entry) (token_of token.now)) }
{
    match token.kind {
        Kind::LanguageTag => push(
            state,
            Tree::TaggedLiteral {
                at,
                text,
                tag: token.text,
            },
        ),
        Kind::Carets => {
            state.pending = Pending::Typed(at, text);
            Ok(())
        }
        _ => {
            push(state, Tree::PlainLiteral { at, text })?;
            take_plain(alloc, limit, state, token, name)
        }
    }
}

/// One more token, which names the IRI, if any.
#[inline(always)]
pub(crate) fn take<'a>(
    alloc: Global,
    limit: usize,
    state: &mut State<'a>,
    token: &Token<'a>,
    name: Option<Iri<'a>>,
) -> Result<(), ParseFault>
    ensures given { Leaves state.new result (step limit (name_of_code name.entry) (state_of state.old) (token_of token.now)) }
    ensures said { IfErr result (IsSaidOfToken limit (length state.old.frames.items) (name_of_code name.entry) (token_of token.now)) }
{
    match state.pending {
        Pending::Nothing => take_plain(alloc, limit, state, token, name),
        Pending::Word(at, keyword) => {
            if token.kind == Kind::Opening {
                open(alloc, limit, state, at, Some(keyword), token.at)
            } else {
                Err(ParseFault::Unexpected { at: token.at })
            }
        }
        Pending::Text(at, text) => take_behind_text(alloc, limit, state, at, text, token, name),
        Pending::Typed(at, text) => match name {
            Some(iri) => push(
                state,
                Tree::TypedLiteral {
                    at,
                    text,
                    datatype: iri,
                },
            ),
            None => Err(unnamed(token)),
        },
    }
}

/// The trees, at the end of the tokens.
pub(crate) fn end(state: State<'_>, here: usize) -> Result<Vec<Tree<'_>>, ParseFault>
    ensures given { Gives (λ v. map tree_of v.items) result (finish (state_of state.entry)) }
    ensures said { IfErr result (IsEnd here) }
{
    if !state.frames.is_empty() {
        return Err(ParseFault::UnexpectedEnd { at: here });
    }
    let mut done = state.done;
    match state.pending {
        Pending::Nothing => Ok(done),
        Pending::Text(at, text) => {
            done.push(Tree::PlainLiteral { at, text })?;
            Ok(done)
        }
        Pending::Word(..) | Pending::Typed(..) => Err(ParseFault::UnexpectedEnd { at: here }),
    }
}

/// Whether the token closes a parenthesis that was open before the first of the trees, so that these are whole.
pub(crate) fn is_ended_by(state: &State<'_>, token: &Token<'_>) -> bool
    ensures { result ≡ ends (state_of state.now) (token_of token.now) }
{
    if !state.frames.is_empty() {
        return false;
    }
    match token.kind {
        Kind::Closing => matches!(state.pending, Pending::Nothing | Pending::Text(..)),
        _ => false,
    }
}

/// Whether the token begins a tree behind one that is whole, outside of all parentheses.
pub(crate) fn begins_second(state: &State<'_>, token: &Token<'_>) -> bool
    ensures { result ≡ begins_second (state_of state.now) (token_of token.now) }
{
    if !state.frames.is_empty() {
        return false;
    }
    match state.pending {
        Pending::Nothing => !state.done.is_empty(),
        Pending::Text(..) => !matches!(token.kind, Kind::LanguageTag | Kind::Carets),
        Pending::Word(..) | Pending::Typed(..) => false,
    }
}
