//! What answers commands.

use crate::command::Command;
use crate::reply::Reply;
use device::Memory;

/// What answers commands, as a session does.
pub trait Service {
    ghost use Rattle.std.specs.Prelude.{◌≡◌, ◌≤◌, ℕ, List, length};
    ghost use Rattle.speech.specs.Replies.{Told, told_by};
    ghost use Rattle.speech.specs.declared.command.Command.{Command};

    /// What a command with the bytes behind it may do, and what is then told.
    ghost steps: { (old : Self) → Command → (payload : List ℕ) → Told → (new : Self) → Type 0 };

    /// How many bytes may follow a command.
    ghost room: { Self → ℕ };

    /// How many bytes may follow a command.
    fn most_payload(&self) -> u64
        ensures { result ≡ room self.now };

    /// Does what the command asks for, with the bytes that followed it.
    ///
    /// # Errors
    ///
    /// `Memory` where memory was refused for the reply.
    fn answer(&mut self, command: Command<'_>, payload: &[u8]) -> Result<Reply, Memory>
        requires { length payload.now ≤ room self.old }
        ensures { steps self.old command.entry payload.now (told_by result) self.new };
}
