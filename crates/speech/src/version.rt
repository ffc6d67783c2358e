//! What is told of versions.
ghost use Rattle.speech.specs.Answers.{Tells, done, version_text};
ghost use Rattle.std.specs.Prelude.{◌≡◌};

use crate::answering::done_reply;
use crate::reply::Reply;
use device::Memory;
use program::VERSION;
use std::alloc::Global;

/// The reply with the versions of the language and of the program.
pub(crate) fn version_reply(alloc: Global) -> Result<Reply, Memory>
    ensures { Tells (λ t. t ≡ done version_text) result }
{
    match format!(in alloc; "elc session 1\nelc {VERSION}\n") {
        Ok(text) => Ok(done_reply(text.into_bytes())),
        Err(_) => Err(Memory),
    }
}
