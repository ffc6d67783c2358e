//! The lines of a derivation.

ghost use Rattle.certificate.specs.Certificate.{source_of};
ghost use Rattle.certificate.specs.Text.{rule_number};
ghost use Rattle.certificate.specs.View.{conclusion_of, subject_of};
ghost use Rattle.std.specs.Prelude.{◌≡◌};

use axioms::{ExprId, IndId, PropId};

/// What a line is about: the extension of an expression, or the one element of an individual.
#[derive(Clone, Copy, Debug, PartialEq, Eq)]
pub enum Subject {
    Expr(ExprId),
    Individual(IndId),
}

/// What a line says.
#[derive(Clone, Copy, Debug, PartialEq, Eq)]
pub enum Conclusion {
    /// The subject lies in the expression.
    Sub(Subject, ExprId),
    /// Each element of the first subject has a successor by the property in the second.
    Edge(Subject, PropId, Subject),
    /// The two individuals have one element.
    Same(IndId, IndId),
}

impl Conclusion {
    /// What it speaks of: the subject, the start of an edge, or the first of two that are one.
    pub fn source(self) -> Subject
        ensures { subject_of result ≡ source_of (conclusion_of self) }
    {
        match self {
            Conclusion::Sub(subject, _) => subject,
            Conclusion::Edge(source, _, _) => source,
            Conclusion::Same(first, _) => Subject::Individual(first),
        }
    }
}

/// The rules of certificates.
#[derive(Clone, Copy, Debug, PartialEq, Eq)]
pub enum Rule {
    K1,
    K2,
    K3,
    K4,
    K5,
    K6,
    K7,
    K8,
    K9,
    K10,
    K11,
    K12,
    K13,
    K14,
    K15,
    K16,
    K17,
    K18,
    K19,
    K20,
}

/// The rules, by their numbers from 1.
pub(crate) const RULES: [Rule; 20] = [
    Rule::K1,
    Rule::K2,
    Rule::K3,
    Rule::K4,
    Rule::K5,
    Rule::K6,
    Rule::K7,
    Rule::K8,
    Rule::K9,
    Rule::K10,
    Rule::K11,
    Rule::K12,
    Rule::K13,
    Rule::K14,
    Rule::K15,
    Rule::K16,
    Rule::K17,
    Rule::K18,
    Rule::K19,
    Rule::K20,
];

impl Rule {
    /// The number that it has in texts, from 1.
    pub fn number(self) -> u64
        ensures { result ≡ rule_number self }
    {
        self as u64 + 1
    }
}

/// A line of a derivation: a conclusion by a rule.
#[derive(Debug, PartialEq, Eq, Drop)]
pub struct Line {
    pub conclusion: Conclusion,
    pub rule: Rule,
    /// The number of the axiom that the rule takes, from 1 in document order.
    pub axiom: Option<usize>,
    /// The numbers of the lines that the rule takes, from 1, in the rule's order.
    pub premises: Vec<u64>,
}
