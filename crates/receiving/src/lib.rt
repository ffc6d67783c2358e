//! What a receiver of a document's texts does with them: checks and conversions, of sources and of files, and the runs of the program
//! `elcheck`. Nothing of the engine stands below it.
#![tactic(auto)]

ghost use Rattle.receiving.specs.Theorems.{AcceptedFilesAreRight, AcceptedTextsAreRight, ReceivedFilesAreRight, WordsOfElcheckCheck};

mod asked;
mod checking;
mod converting;
mod fault;
mod formats;
mod lines;
mod places;
mod printing;
mod reading;
mod receiver;
mod run;
mod sources;
mod starting;
mod words;

pub use asked::{CheckRun, ConversionRun, Means, Reading};
pub use axioms::Ontology;
pub use cert_check::{Reason, Verdict};
pub use certificate::Format;
pub use certificate_text::ConvertFault;
pub use checking::{Checked, check_document};
pub use command_line::{
    Conversion, FormatNumber, LineFault, Paths, ReceiverTask, Request, receiver_task,
};
pub use converting::convert_certificate;
pub use fault::{CheckFault, ConversionFault};
pub use formats::format_of;
pub use lines::{document_bytes, lined_faults, lined_message, read_by_lines};
pub use profile::{DocumentFault, Limits, Version};
pub use receiver::{perform, start};
pub use run::{perform_check, perform_convert};
pub use sources::source_of;
pub use starting::{Begun, Startup, begin};
pub use system_files::Files;
pub use words::refuse;

/// Where `check_document` accepts texts, whoever made them, the document reads as one ontology, whatever the version, and the
/// taxonomy and the instances are those that its finite interpretations determine: each yes has a derivation from its axioms,
/// each no is refuted by the listed interpretation of them, and no other texts are acceptable for the document.
pub fn accepted_texts_are_right()
    ensures { AcceptedTextsAreRight }
{}

/// A run of a check over files whose content is known that ends with status 0 shows that the texts in them are right, whoever made
/// them: the document reads as one ontology, whatever the version, the taxonomy and the instances say what follows from its axioms, as
/// the certificate shows, and no other texts are acceptable for it. So it is of `perform_check`, by which `elc` and `elcheck` check, and
/// of each run of `elcheck` whose words ask for a check.
pub fn accepted_files_are_right()
    ensures check { AcceptedFilesAreRight }
    ensures elcheck { ReceivedFilesAreRight }
{}

/// A run of `elcheck` whose words ask for a check is a run of `perform_check` on the same paths, within the limits of the words and behind
/// its progress, unless memory is refused for reading the words.
pub fn words_ask_for_one_check()
    ensures { WordsOfElcheckCheck }
{}
