//! What is told of faults.
ghost use Rattle.speech.specs.Messages.{IsQuestionMessage};
ghost use Rattle.std.specs.Prelude.{IfOk};

use profile::Limits;
use program::Status;
use session::QuestionFault;
use std::alloc::{AllocError, Global};
use telling::{Message, document_message, message_of};

/// What to tell where a question about the document at the path is not answered. Faults of an expression are told as those of
/// a document.
pub fn question_message(
    alloc: Global,
    fault: &QuestionFault<'_>,
    path: &str,
    limits: &Limits,
) -> Result<Message, AllocError>
    ensures { IfOk result (IsQuestionMessage path.now limits.now fault.now) }
{
    match fault {
        QuestionFault::Document(fault) | QuestionFault::Expression(fault) => {
            document_message(alloc, fault, path, limits)
        }
        QuestionFault::Limit => {
            let most = limits.max_facts;
            message_of(
                format!(in alloc; "limit: more than {most} facts\n"),
                Status::Limit,
            )
        }
        QuestionFault::UnknownName(name) => message_of(
            format!(in alloc; "unknown name <{name}>\n"),
            Status::Usage,
        ),
        QuestionFault::Memory => message_of(
            String::from_str(alloc, "out of memory\n"),
            Status::Memory,
        ),
    }
}
