//! Tokens, and why a text spells none.

ghost use Rattle.std.specs.Prelude.{◌≡◌};
ghost use Rattle.fs_lexer.specs.Spelling.{IsOfKind};
ghost use Rattle.fs_lexer.specs.declared.token.LexFault.TheVariants.{Memory};

use std::alloc::{AllocError, AllocFailed};
use std::fmt;
use thiserror::Error;

/// The kinds of tokens of the functional-style syntax.
#[derive(Clone, Copy, Debug, PartialEq, Eq)]
pub enum Kind {
    /// `(`
    Opening,
    /// `)`
    Closing,
    /// `=`
    Equals,
    /// `^^`
    Carets,
    /// `<http://www.w3.org/2002/07/owl#Thing>`
    FullIri,
    /// `"text"`
    Quoted,
    /// `@en-GB`
    LanguageTag,
    /// `SubClassOf`
    Keyword,
    /// `64`
    Integer,
    /// `owl:`
    PrefixName,
    /// `owl:Thing`
    ShortName,
    /// `_:node`
    NodeLabel,
}

/// A token: its text as it stands in the source, which is one of its kind, and the byte at which it begins.
#[derive(Clone, Copy, Debug)]
pub struct Token<'a> {
    pub kind: Kind,
    pub text: &'a str,
    pub at: usize,
    pub ghost of_kind: { ∥ IsOfKind kind text.now ∥₁ },
}

/// Why a text spells no tokens, with the byte `at` at which reading stopped. All that stands before it spells tokens, the
/// next token is to begin there, and none does: what the fault says holds of the bytes from there on.
#[derive(Clone, Copy, Debug, PartialEq, Eq, Error)]
pub enum LexFault {
    /// The character begins no token and no separator. Quotes, `<` and word characters have faults of their own.
    BadByte { at: usize },
    /// No quoted string begins at this quote.
    OpenString { at: usize },
    /// No full IRI begins at this `<`.
    OpenIri { at: usize },
    /// The run of word characters that begins here (none stands before it or behind it) is not one word.
    WordsTouch { at: usize },
    /// There was no memory for the tokens.
    Memory,
}

impl fmt::Display for LexFault {
    ghost use Rattle.std.specs.Prelude.{Some};
    ghost use Rattle.fs_lexer.specs.Messages.{fault_text};

    ghost output = { λ fault. Some (fault_text fault) };

    fn fmt<W: fmt::Write>(&self, f: &mut fmt::Formatter<W>) -> fmt::Result {
        match self {
            LexFault::BadByte { at } => write!(f, "X1 at byte {at}"),
            LexFault::OpenString { at } => write!(f, "X2 at byte {at}"),
            LexFault::OpenIri { at } => write!(f, "X3 at byte {at}"),
            LexFault::WordsTouch { at } => write!(f, "X4 at byte {at}"),
            LexFault::Memory => write!(f, "out of memory"),
        }
    }
}

impl From<AllocError> for LexFault {
    ghost from_gives = { λ _ e. e ≡ Memory };

    fn from(_e: AllocError) -> LexFault {
        LexFault::Memory
    }
}

impl<T: Drop> From<AllocFailed<T>> for LexFault {
    ghost from_gives = { λ _ e. e ≡ Memory };

    fn from(_e: AllocFailed<T>) -> LexFault {
        LexFault::Memory
    }
}
