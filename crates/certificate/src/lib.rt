//! Certificates of answers about an ontology, what their text is, and how it is read.
#![tactic(auto)]

mod certificate;
mod fault;
mod fitting;
mod format;
mod line;
mod line_reader;
mod line_reading;
mod listed;
mod listed_reading;
mod listed_runs;
mod number;
mod reading;
mod run;
mod single_lines;
mod single_rows;

pub use certificate::Certificate;
pub use fault::{CertFault, MakeFault, TextFault};
pub use fitting::are_premises;
pub use format::{Format, FormatOne, FormatTwo, FormatType};
pub use line::{Conclusion, Line, Rule, Subject};
pub use line_reader::LineReader;
pub use listed::{Claim, ClassRow, Listed, MOST_ELEMENTS, PairRow, Targets};
pub use listed_runs::ListedRuns;
pub use reading::{one_certificate, one_text, read_certificate, texts, there_and_back};
