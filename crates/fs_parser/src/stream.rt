//! Reading documents without a list of all their tokens.
ghost use Rattle.std.specs.Prelude.{◌≤◌, length, map, IfSome};
ghost use Rattle.fs_parser.specs.KnownPrefixes.{known_of};
ghost use Rattle.fs_parser.specs.Name.{StandForOne};
ghost use Rattle.fs_parser.specs.State.{state_of};
ghost use Rattle.fs_parser.specs.Stream.{AreFormsOf, AreTreesBehind, AreWhole, BeginText, IsHeader, IsOneMore};
ghost use Rattle.fs_parser.specs.View.{document_of, prefixes_of_code, tokens_of, trees_of, tree_of};

use crate::document::{DEEPEST, forms, is_word};
use crate::expansion::expand;
use crate::known::Known;
use crate::reader::{State, end, is_ended_by, take};
use crate::tree::{Document, Tree};
use fs_lexer::{Kind, Token, next_token, only_separators};
use std::alloc::Global;

/// Whether the tokens end with `Ontology(`.
fn ends_header(tokens: &[Token<'_>]) -> bool {
    match tokens {
        [.., word, opening] => is_word("Ontology", word) && opening.kind == Kind::Opening,
        _ => false,
    }
}

/// The tokens at the front of the text up to the first `Ontology(`, and how many bytes stand before what follows it.
pub(crate) fn header<'a>(alloc: Global, text: &'a str) -> Option<(Vec<Token<'a>>, usize)>
    ensures { IfSome result (λ r. BeginText text.now (tokens_of r.0.items) r.1) }
{
    let mut tokens = Vec::new(alloc);
    let mut from = 0;
    while let Some((token, behind)) = next_token(text, from) {
        tokens.push(token).ok()?;
        from = behind;
        if ends_header(&tokens) {
            return Some((tokens, from));
        }
    }
    None
}

/// The header, closed at once.
fn closed_header<'a>(mut header: Vec<Token<'a>>) -> Option<Vec<Token<'a>>>
    ensures { IfSome result (λ closed. IsOneMore (tokens_of header.entry.items) (tokens_of closed.items)) }
{
    let closing = Token {
        kind: Kind::Closing,
        text: ")",
        at: 0,
    };
    match header.push(closing) {
        Ok(()) => {}
        Err(_) => return None,
    }
    Some(header)
}

/// The prefixes of a header: closed at once it is a document without trees.
pub(crate) fn declared_by<'a>(alloc: Global, header: Vec<Token<'a>>) -> Option<Known<'a>>
    ensures { IfSome result (λ known. IsHeader (prefixes_of_code known.declared.items) (tokens_of header.entry.items)) }
{
    let closed = closed_header(header)?;
    let document = forms(alloc, &closed).ok()?;
    if document.trees.is_empty() {
        Known::of(alloc, &document.prefixes).ok()
    } else {
        None
    }
}

/// The trees of the state, where nothing but separators stands behind so many bytes of the text.
fn whole_trees<'a>(text: &str, from: usize, state: State<'a>) -> Option<Vec<Tree<'a>>>
    requires { from ≤ length text.now }
    ensures { IfSome result (λ v. AreWhole text.now from (state_of state.entry) (map tree_of v.items)) }
{
    if only_separators(text, from) {
        end(state, from).ok()
    } else {
        None
    }
}

/// The trees that stand behind so many bytes of the text up to a closing parenthesis, with which its tokens end.
fn trees_behind<'a>(
    alloc: Global,
    known: &Known<'a>,
    text: &'a str,
    start: usize,
) -> Option<Vec<Tree<'a>>>
    requires one { StandForOne (known_of known.now) }
    requires within { start ≤ length text.now }
    ensures { IfSome result (λ v. AreTreesBehind text.now start (known_of known.now) (trees_of v.items)) }
{
    let mut state = State::new(alloc);
    let mut from = start;
    while let Some((token, behind)) = next_token(text, from) {
        from = behind;
        if is_ended_by(&state, &token) {
            return whole_trees(text, from, state);
        }
        match take(alloc, DEEPEST, &mut state, &token, expand(known, &token)) {
            Ok(()) => {}
            Err(_) => return None,
        }
    }
    None
}

/// The document that the text is, read token by token. None where it is none, and where memory was refused: then `tokens`
/// and `forms` tell the fault.
pub fn streamed_forms<'a>(alloc: Global, text: &'a str) -> Option<Document<'a>>
    // The tokens of the text are this document. They are no other.
    ensures { IfSome result (λ d. AreFormsOf text.now (document_of d)) }
{
    let (header, from) = header(alloc, text)?;
    let known = declared_by(alloc, header)?;
    let trees = trees_behind(alloc, &known, text, from)?;
    Some(Document {
        prefixes: known.declared,
        trees,
    })
}
