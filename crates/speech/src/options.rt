//! The words behind a question about a subject and a class.
ghost use Rattle.speech.specs.Commands.{AreOptionsOf, split_words};
ghost use Rattle.std.specs.Prelude.{◌≡◌, Some};

use crate::words::{Words, words_in};
use program::Spelling;

/// How an explanation is shown, and how names are spelled.
#[derive(Clone, Copy)]
pub(crate) struct Options {
    pub(crate) reached: bool,
    pub(crate) axioms: bool,
    pub(crate) spelling: Spelling,
}

/// Those of no words.
pub(crate) const NO_OPTIONS: Options = Options {
    reached: false,
    axioms: false,
    spelling: Spelling::Full,
};

fn chosen(reached: bool, axioms: bool, spelling: Spelling) -> Option<Options>
    ensures { result ≡ Some (record { reached = reached; axioms = axioms; spelling = spelling }) }
{
    Some(Options {
        reached,
        axioms,
        spelling,
    })
}

/// The options that the text spells, in the order in which they stand.
pub(crate) fn options_in(text: &str) -> Option<Options>
    ensures { AreOptionsOf (split_words text.now) result }
{
    match words_in(text) {
        Words::One("reached") => chosen(true, false, Spelling::Full),
        Words::One("axioms") => chosen(false, true, Spelling::Full),
        Words::One("short") => chosen(false, false, Spelling::Short),
        Words::Two("reached", "axioms") => chosen(true, true, Spelling::Full),
        Words::Two("reached", "short") => chosen(true, false, Spelling::Short),
        Words::Two("axioms", "short") => chosen(false, true, Spelling::Short),
        Words::Three("reached", "axioms", "short") => chosen(true, true, Spelling::Short),
        _ => None,
    }
}
