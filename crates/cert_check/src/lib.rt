//! The checker of certificates: whether a certificate, in either format, shows that a taxonomy and instances are right.
#![tactic(auto)]

mod checker;
mod claims;
mod compare;
mod derivation;
mod listing;
mod operands;
mod premises;
mod rules;
mod short_conclusion;
mod superclasses;
mod theory;
mod verdict;

pub use certificate::{
    CertFault, Certificate, Claim, ClassRow, Conclusion, Format, Line, Listed, MOST_ELEMENTS,
    MakeFault, PairRow, Rule, Subject, read_certificate,
};
pub use checker::{check, check_from};
pub use listing::interpretation_of;
pub use narrowing::narrow;
pub use source_lines::StreamFault;
pub use theory::{acceptable_in_both_formats, narrowed_listings, soundness, worked_certificates};
pub use verdict::{Reason, Verdict};
