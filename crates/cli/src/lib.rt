//! Documents in, texts and verdicts out: the calls that the program `elc` makes.
#![tactic(auto)]

ghost use Rattle.cli.specs.Filing.{FiledConversationsAreCalls, FiledConversationsAreOneDocument};
ghost use Rattle.cli.specs.SpokenSessions.{SpokenSessionsAreAnswered};
ghost use Rattle.cli.specs.Theorems.{EveryDocumentIsClassified, InferredAxiomsSayTheSame, ReadDocumentsAreNoStop, WhatIsWrittenIsAccepted, WrittenFilesAreAccepted};
ghost use Rattle.cli.specs.WordsOfRuns.{WordsOfCheckCheck, WordsOfClassifyClassify, VersionIsAWord, WordsOfInferInfer, WordsOfRestrictRestrict, WordsOfVersionTell};

mod asking;
mod classifying;
mod fault;
mod filing;
mod inferring;
mod printing;
mod run;
mod sinks;
mod slicing;
mod speaking;
mod starting;
mod tasks;

pub use axioms::Ontology;
pub use cert_check::{Reason, Verdict};
pub use certificate::Format;
pub use certificate_text::ConvertFault;
pub use classification::Summary;
pub use classifying::classify_document;
pub use command_line::{
    Command, Conversion, FormatNumber, Invocation, LineFault, Paths, Task, invocation,
};
pub use fault::{ClassifyFault, InferenceFault};
pub use inferring::infer_document;
pub use profile::{DocumentFault, Limits, Version, read_document};
pub use receiving::{
    CheckFault, Checked, ConversionFault, Startup, accepted_files_are_right,
    accepted_texts_are_right, check_document, convert_certificate,
};
pub use restricting::{Restriction, RestrictionFault, restrict_document, what_is_restricted};
pub use run::perform;
pub use session::{
    Answer, Answers, AskFault, Asked, EntailsFault, Explanation, Inferred, Interpretation, Line,
    QueryFault, Question, QuestionFault, Related, RunFault, Session, Shown, Side, Spelling, Stop,
    WritingFault, query_text, question_text,
};
pub use starting::start;
pub use system_files::Files;

/// Every document of the profile is classified: where its bytes are within the limit and read as an ontology in the version
/// of the limits, `classify_document` writes acceptable texts of that ontology, with a certificate in the format that it is
/// given, and answers its counts, unless memory is refused, a device fails, or the closure has more facts than the limit.
pub fn every_document_is_classified()
    ensures { EveryDocumentIsClassified }
{}

/// The texts that a classification of a document writes are accepted where the same document is checked: whatever
/// `classify_document` wrote, in either format, `check_document` answers `Accepted` on it, unless memory is refused, a source fails, or the
/// document has more bytes than this checker reads, or reads as no ontology in its version. That can only be where it was
/// classified in the second version and is checked in the first.
pub fn what_is_written_is_accepted()
    ensures accepted { WhatIsWrittenIsAccepted }
    ensures read { ReadDocumentsAreNoStop }
{}

/// Two runs of commands over files whose content is known: after one of `classify` that ends with status 0, one of `check` on the same
/// four paths prints `accepted`, unless it is stopped so.
pub fn written_files_are_accepted()
    ensures { WrittenFilesAreAccepted }
{}

/// A run of `perform` whose words ask for a check, for a classification, for a restriction or for what is inferred is a run of that command
/// on the same paths, within the limits of the words and behind its progress, and one whose words ask for the version prints it and writes no
/// file, unless memory is refused for reading the words.
pub fn words_ask_for_one_run()
    ensures check { WordsOfCheckCheck }
    ensures classify { WordsOfClassifyClassify }
    ensures restrict { WordsOfRestrictRestrict }
    ensures infer { WordsOfInferInfer }
    ensures version { WordsOfVersionTell }
    ensures version_word { VersionIsAWord }
{}

/// A run of `infer` over files whose content is known that ends with status 0: its first file held a document, which reads as an ontology;
/// its second holds the text of a document that reads, in each version, as an ontology with the names of the first, from whose axioms the same
/// subsumptions between classes and the same types of individuals follow, and which contradict one another where those of the first do; and
/// the counts of the first are printed.
pub fn inferred_axioms_say_the_same()
    ensures { InferredAxiomsSayTheSame }
{}

/// Whatever is asked in a conversation with a session over files, and whatever is replied: it is calls of the session, one after the
/// other, and texts that are written change nothing of it. So the session has the ontology that the document states with the texts of
/// which the replies tell that they are added, in their order, and all laws of calls hold of it (`session::any_edits`).
pub fn filed_conversations_are_edits()
    ensures calls { FiledConversationsAreCalls }
    ensures document { FiledConversationsAreOneDocument }
{}

/// A run of `session` over files of which it is known what they hold, whatever it is asked: the input spells commands, each is answered by
/// calls of a session over the document, what is written is the replies, and the session has at the end what the document states with the
/// texts of which the replies tell that they are added.
pub fn spoken_sessions_are_answered()
    ensures { SpokenSessionsAreAnswered }
{}
