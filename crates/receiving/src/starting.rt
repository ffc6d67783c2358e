//! What a run of a program begins with.
ghost use Rattle.receiving.specs.Starts.{AreWordsOf, IsUnstartedTold};
ghost use Rattle.std.specs.Prelude.{◌≡◌, IfErr, IfOk, Ok, OnOk, map};

use crate::asked::Means;
use crate::words::{slices, tell_unread};
use device::Sink;
use program::Status;
use std::alloc::Global;
use std::hash::RandomState;
use std::io;
use telling::{print, tell_out_of_memory};

/// What a program is started with: the words that it was called with, or why they can not be read, and the seed of its maps, or why
/// there is none.
#[derive(Drop)]
pub struct Startup {
    pub words: io::Result<Vec<String>>,
    pub state: io::Result<RandomState>,
}

/// What a run of a program stands on, and the words that ask for it.
#[derive(Drop)]
pub struct Begun<'a> {
    pub means: Means,
    pub words: Vec<&'a str>,
}

/// Begins the run that a program is started for. Where there is no seed, or there are no words, or memory is refused for their
/// list, that is told, and the status is given.
pub fn begin<'a, E: Sink>(alloc: Global, startup: &'a Startup, err: &mut E) -> Result<Begun<'a>, u8>
    ensures seed { IfOk result (λ b. startup.now.state ≡ Ok b.means.state) }
    ensures words { IfOk result (λ b. AreWordsOf startup.now.words (map (λ w. w.now) b.words.items)) }
    ensures quiet { OnOk result (err.new ≡ err.old) }
    ensures told { IfErr result (IsUnstartedTold E.Sink startup.now.state startup.now.words err.old err.new) }
{
    let state = match &startup.state {
        Ok(state) => *state,
        Err(_) => return Err(print(err, "cannot read random seed\n", Status::File)),
    };
    let words = match &startup.words {
        Ok(words) => words,
        Err(fault) => return Err(tell_unread(fault, err)),
    };
    match slices(alloc, words) {
        Ok(words) => Ok(Begun {
            means: Means { alloc, state },
            words,
        }),
        Err(_) => Err(tell_out_of_memory(err)),
    }
}
