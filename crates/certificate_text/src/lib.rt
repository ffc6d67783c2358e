//! The text of certificates as it is written: whole, as it grows, and from one format to another.
#![tactic(auto)]

mod conversion;
mod digits;
mod fault;
mod line_text;
mod listed_text;
mod run;
mod writing;

pub use certificate::MOST_ELEMENTS;
pub use conversion::{ConvertFault, convert};
pub use fault::CertWriteFault;
pub use line_text::LineText;
pub use listed_text::ListedText;
pub use writing::{certificate_bytes, write_certificate};
