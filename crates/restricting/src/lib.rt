//! What of a document is of the profile, in a file: it is written as a document, and what is not is reported. Nothing of the engine stands
//! below it.
#![tactic(auto)]

ghost use Rattle.restricting.specs.Theorems.{WhatIsRestricted};

mod fault;
mod report;
mod restricting;
mod run;

pub use fault::RestrictionFault;
pub use profile::{DocumentFault, Limits, Version};
pub use receiving::{Means, Reading};
pub use report::reported;
pub use restricting::restrict_document;
pub use run::{RestrictRun, perform_restrict};
pub use statements_text::Restriction;
pub use system_files::Files;

/// A run of `restrict` over files whose content is known that ends with status 0: its first file held the text of a document, its second
/// holds the text of a document that reads as the ontology of what the trees of the first without faults state, and every fault of the first
/// is printed, with its line and its column where these are asked for, and with how many statements are kept and how many trees are left
/// out. Of a document without faults this is the ontology that it reads as.
pub fn what_is_restricted()
    ensures { WhatIsRestricted }
{}
