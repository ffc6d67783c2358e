//! What is told of faults.
ghost use Rattle.profile.specs.Messages.{status_of};
ghost use Rattle.std.specs.Prelude.{◌≡◌, IfOk, Ok, string_bytes};
ghost use Rattle.telling.specs.Messages.{IsDocumentText, cannot_read, cannot_write};

use profile::{DocumentFault, Limits};
use program::Status;
use std::alloc::{AllocError, Global};

/// A text for standard output or standard error, and the status that goes with it.
#[derive(Debug, Drop)]
pub struct Message {
    pub text: String,
    pub status: Status,
}

/// The message of this text, unless memory was refused for it.
pub fn message_of(text: Result<String, AllocError>, status: Status) -> Result<Message, AllocError>
    ensures { IfOk result (λ m. (text ≡ Ok m.text) × (m.status ≡ status)) }
{
    match text {
        Ok(text) => Ok(Message { text, status }),
        Err(error) => Err(error),
    }
}

/// What to tell of a file that is not read.
pub fn unread_message(alloc: Global, path: &str) -> Result<Message, AllocError>
    ensures { IfOk result (λ m. (string_bytes m.text ≡ cannot_read path.now) × (m.status ≡ Status.File)) }
{
    message_of(format!(in alloc; "cannot read {path}\n"), Status::File)
}

/// What to tell of a file that is not written.
pub fn unwritten_message(alloc: Global, path: &str) -> Result<Message, AllocError>
    ensures { IfOk result (λ m. (string_bytes m.text ≡ cannot_write path.now) × (m.status ≡ Status.File)) }
{
    message_of(format!(in alloc; "cannot write {path}\n"), Status::File)
}

/// What to tell of a document that is not read.
pub fn document_message(
    alloc: Global,
    fault: &DocumentFault,
    path: &str,
    limits: &Limits,
) -> Result<Message, AllocError>
    ensures { IfOk result (λ m. IsDocumentText path.now limits.now.max_bytes fault.now (string_bytes m.text) × (m.status ≡ status_of fault.now)) }
{
    let status = fault.status();
    match fault {
        DocumentFault::TooLarge => {
            let most = limits.max_bytes;
            message_of(format!(in alloc; "limit: more than {most} bytes\n"), status)
        }
        DocumentFault::TooManyNames => message_of(
            String::from_str(alloc, "limit: more than 1000000 names\n"),
            status,
        ),
        DocumentFault::Io => unread_message(alloc, path),
        DocumentFault::NotUtf8 { .. }
        | DocumentFault::Lex(_)
        | DocumentFault::Parse(_)
        | DocumentFault::Faults(_)
        | DocumentFault::Memory => message_of(format!(in alloc; "{fault}\n"), status),
    }
}
