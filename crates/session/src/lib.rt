//! A session over one document: it is opened, run, and asked as often as is wanted; and questions about a document, each
//! answered by a text in memory.
#![tactic(auto)]

mod adding;
mod answering;
mod asking;
mod axiom;
mod classifying;
mod consistency;
mod edits;
mod entailing;
mod entails_fault;
mod fault;
mod inferring;
mod lacking;
mod listed;
mod opening;
mod queried;
mod query_fault;
mod querying;
mod question_fault;
mod run_fault;
mod session;
mod shown;
mod slices;
mod spelling;
mod texts;
mod writing;

pub use answering::question_text;
pub use answers::{Answer, Condition, Explanation, Lacking, Part};
pub use certificate::{Format, Line};
pub use classification::Summary;
pub use classifying::classification_of;
pub use edits::any_edits;
pub use engine::Stop;
pub use entails_fault::EntailsFault;
pub use fault::{AskFault, WritingFault};
pub use inferring::{Inferred, inference_of};
pub use interpretation_spec::Interpretation;
pub use opening::tell_opened;
pub use profile::{DocumentFault, Limits, Version};
pub use program::{Asked, Question, Related, Shown, Side, Spelling};
pub use queried::{lines_of_answers, query_text};
pub use query_fault::QueryFault;
pub use querying::Answers;
pub use question_fault::QuestionFault;
pub use run_fault::{RunFault, as_question_fault};
pub use session::Session;
pub use shown::answer_text;
pub use slices::{SLICE, tell_drawn};
pub use spelling::is_graph;
pub use telling::{Stage, tell_stage, write_pieces};
pub use writing::write_texts;
