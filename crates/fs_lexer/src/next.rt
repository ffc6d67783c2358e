//! Tokens one by one.
ghost use Rattle.std.specs.Prelude.{◌<◌, ◌≤◌, ◌↔◌, [], length, IfSome, IfNone, IsTrue};
ghost use Rattle.fs_lexer.specs.Reading.{AreReadBehind, IsReadFirst, NoneIsRead};
ghost use Rattle.fs_lexer.specs.Views.{token_of};

use crate::front::{skip, token_at};
use crate::token::Token;

/// The first token behind so many bytes of the text, and how many bytes stand before what follows it. None at the end, and
/// where no token begins.
#[inline(always)]
pub fn next_token<'a>(text: &'a str, from: usize) -> Option<(Token<'a>, usize)>
    requires { from ≤ length text.now }
    // What follows it spells the other tokens.
    ensures read { IfSome result (λ r. IsReadFirst from text.now (token_of r.0) r.1) }
    ensures within { IfSome result (λ r. r.1 ≤ length text.now) }
    ensures later { IfSome result (λ r. from < r.1) }
    ensures none { IfNone result (NoneIsRead from text.now) }
{
    let bytes = text.as_bytes();
    let rest = skip(&bytes[from..]);
    let (kind, others) = token_at(rest)?;
    let at = bytes.len() - rest.len();
    let end = bytes.len() - others.len();
    let text = &text[at..end];
    Some((Token { kind, text, at }, end))
}

/// Whether only separators stand behind so many bytes of the text.
pub fn only_separators(text: &str, from: usize) -> bool
    requires { from ≤ length text.now }
    ensures { IsTrue result ↔ AreReadBehind from text.now [] }
{
    let bytes = text.as_bytes();
    skip(&bytes[from..]).is_empty()
}
