//! What the checker answers.

use axioms::{ClassId, IndId};

/// Whether a certificate shows that a taxonomy text and an instances text are right.
#[derive(Clone, Copy, Debug, PartialEq, Eq)]
pub enum Verdict {
    Accepted,
    /// With the first reason that holds, in the order of the reasons below.
    Rejected(Reason),
}

/// Why a certificate is rejected.
#[derive(Clone, Copy, Debug, PartialEq, Eq)]
pub enum Reason {
    /// C1: the bytes are not the text of a certificate. The first line that cannot follow the lines before it begins at
    /// this byte, or the bytes end there and the last line is missing.
    BadText { at: usize },
    /// C2: the first derivation line, counted from 1, that does not follow by its rule from earlier lines.
    BadLine { number: usize },
    /// C3: the least number, from 1, of an axiom that the listed interpretation does not satisfy.
    AxiomFails { axiom: usize },
    /// C4: the least class that no line puts below `owl:Nothing` and for which nothing is claimed.
    ClaimMissing { class: ClassId },
    /// C5: the least class whose claimed element is not in it, or is in other classes than lines put above it.
    ClaimDisagrees { class: ClassId },
    /// C6: the least individual whose element is in other classes than lines put above it.
    IndividualDisagrees { individual: IndId },
    /// C7: no line puts `owl:Thing` or an individual below `owl:Nothing`.
    NoContradiction,
    /// C8: the first byte at which the taxonomy text differs, or the length of the shorter text.
    TaxonomyDiffers { at: usize },
    /// C9: the same of the instances text.
    InstancesDiffer { at: usize },
}
