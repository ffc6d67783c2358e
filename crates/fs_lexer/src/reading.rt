//! Reading all tokens of a text.

ghost use Rattle.std.specs.Prelude.{◌≡◌, ◌<◌, List, ℕ, length, map, false, None, IfOk, IfErr};
ghost use Rattle.fs_lexer.specs.Spelling as spelling;
ghost use Rattle.fs_lexer.specs.Faults.{IsRefusal, IsPlaced, IsNext, is_gap_byte};
ghost use Rattle.fs_lexer.specs.Reading.{token_at};
ghost use Rattle.fs_lexer.specs.Views.{token_of};

use crate::bytes::is_word_byte;
use crate::front::{skip, token_at};
use crate::token::{LexFault, Token};
use std::alloc::Global;

/// Why no token begins at these bytes, which begin at the byte `at` of the text, where the next is to begin.
fn fault_at(bytes: &[u8], at: usize) -> LexFault
    requires some { 0 < length bytes.now }
    requires here { spelling.begins is_gap_byte bytes.now ≡ false }
    requires none { token_at bytes.now ≡ None }
    ensures refusal { IsRefusal result }
    ensures placed { (text : List ℕ) → IsNext text at bytes.now → IsPlaced text result }
{
    match bytes {
        [b'"', ..] => LexFault::OpenString { at },
        [b'<', ..] => LexFault::OpenIri { at },
        [b, ..] if is_word_byte(*b) => LexFault::WordsTouch { at },
        _ => LexFault::BadByte { at },
    }
}

/// The tokens that the text spells, in order, or the first place from the left where reading fails, and why.
pub fn tokens<'a>(alloc: Global, text: &'a str) -> Result<Vec<Token<'a>>, LexFault>
    // The text spells these tokens. It spells no other list.
    ensures found { IfOk result (λ v. spelling.Spells text.now (map token_of v.items)) }
    // A text that is refused, other than for want of memory, spells no list.
    ensures refused { IfErr result (λ e. IsRefusal e → (all : List spelling.Token) → spelling.Spells text.now all → ⊥) }
    // A refusal tells the first place where reading fails, and what it says of this place holds. No other is true of the text.
    ensures placed { IfErr result (IsPlaced text.now) }
{
    let bytes = text.as_bytes();
    let mut tokens = Vec::new(alloc);
    let mut rest = skip(bytes);
    while !rest.is_empty() {
        let at = bytes.len() - rest.len();
        let Some((kind, others)) = token_at(rest) else {
            return Err(fault_at(rest, at));
        };
        let end = bytes.len() - others.len();
        let text = &text[at..end];
        tokens.push(Token { kind, text, at })?;
        rest = skip(others);
    }
    Ok(tokens)
}
