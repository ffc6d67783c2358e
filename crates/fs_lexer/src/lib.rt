//! Reads a text in the functional-style syntax of OWL 2 as tokens, each a slice of the text.
#![tactic(auto)]

ghost use Rattle.std.specs.Prelude.{◌≡◌, List, ℕ};
ghost use Rattle.fs_lexer.specs.Spelling as spelling;
ghost use Rattle.fs_lexer.specs.Faults as faults;

mod bytes;
mod front;
mod next;
mod reading;
mod token;

pub use bytes::{is_local_name, is_prefix};
pub use next::{next_token, only_separators};
pub use reading::tokens;
pub use token::{Kind, LexFault, Token};

/// A law: a text spells at most one list of tokens. Each token is the slice of the text at its place, and none begins
/// before the one before it ends.
pub fn texts_spell_one_list()
    ensures one { (text : List ℕ) (xs ys : List spelling.Token) → spelling.Spells text xs → spelling.Spells text ys → xs ≡ ys }
    ensures slices { (text : List ℕ) (xs : List spelling.Token) → spelling.Spells text xs → spelling.AreSlicesFrom 0 text xs }
{}

/// A law: a text has at most one place at which reading fails, and one fault there. A text that spells tokens has none.
pub fn texts_have_one_fault()
    ensures one { (text : List ℕ) (e f : faults.LexFault) → faults.IsFault text e → faults.IsFault text f → e ≡ f }
    ensures none { (text : List ℕ) (e : faults.LexFault) (all : List spelling.Token) → faults.IsFault text e → spelling.Spells text all → ⊥ }
{}
