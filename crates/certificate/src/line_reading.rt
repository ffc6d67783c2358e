//! Derivation lines at the front of bytes.

ghost use Rattle.std.specs.Prelude.{◌≡◌, Some, option_map};
ghost use Rattle.certificate.specs.LineReading.{subject_at, conclusion_at, numbered_rule, rule_at, axiom_at, premise_at};
ghost use Rattle.certificate.specs.View.{subject_of, conclusion_of};

use crate::line::{Conclusion, RULES, Rule, Subject};
use crate::number::{after, number_at, small_at};
use axioms::{ExprId, IndId, PropId};

#[tactic(auto, unfolding(crate::specs::LineReading::subject_at))]
fn subject_at(bytes: &[u8]) -> Option<(Subject, &[u8])>
    ensures { option_map (λ x. (subject_of x.0, x.1.now)) result ≡ subject_at bytes.now }
{
    if let Some(rest) = after(b"e", bytes) {
        let (number, rest) = small_at(rest)?;
        return Some((Subject::Expr(ExprId(number)), rest));
    }
    let (number, rest) = small_at(after(b"i", bytes)?)?;
    Some((Subject::Individual(IndId(number)), rest))
}

#[tactic(auto, unfolding(crate::specs::LineReading::conclusion_at))]
pub(crate) fn conclusion_at(bytes: &[u8]) -> Option<(Conclusion, &[u8])>
    ensures { option_map (λ x. (conclusion_of x.0, x.1.now)) result ≡ conclusion_at bytes.now }
{
    if let Some(rest) = after(b"sub ", bytes) {
        let (subject, rest) = subject_at(rest)?;
        let (class, rest) = small_at(after(b" e", rest)?)?;
        return Some((Conclusion::Sub(subject, ExprId(class)), rest));
    }
    if let Some(rest) = after(b"same i", bytes) {
        let (first, rest) = small_at(rest)?;
        let (second, rest) = small_at(after(b" i", rest)?)?;
        return Some((Conclusion::Same(IndId(first), IndId(second)), rest));
    }
    let (source, rest) = subject_at(after(b"edge ", bytes)?)?;
    let (property, rest) = small_at(after(b" p", rest)?)?;
    let (target, rest) = subject_at(after(b" ", rest)?)?;
    Some((Conclusion::Edge(source, PropId(property), target), rest))
}

#[tactic(auto, unfolding(crate::specs::LineReading::numbered_rule))]
fn numbered_rule(number: u64) -> Option<Rule>
    ensures { result ≡ numbered_rule number }
{
    if number == 0 || number > 20 {
        return None;
    }
    Some(RULES[(number - 1) as usize])
}

#[tactic(auto, unfolding(crate::specs::LineReading::rule_at))]
pub(crate) fn rule_at(bytes: &[u8]) -> Option<(Rule, &[u8])>
    ensures { option_map (λ x. (x.0, x.1.now)) result ≡ rule_at bytes.now }
{
    let (number, rest) = number_at(after(b" K", bytes)?)?;
    Some((numbered_rule(number)?, rest))
}

#[tactic(auto, unfolding(crate::specs::LineReading::axiom_at))]
pub(crate) fn axiom_at(bytes: &[u8]) -> Option<(Option<usize>, &[u8])>
    ensures { option_map (λ x. (x.0, x.1.now)) result ≡ axiom_at bytes.now }
{
    if let Some(rest) = after(b" a", bytes) {
        let (number, rest) = small_at(rest)?;
        return Some((Some(number as usize), rest));
    }
    Some((None, bytes))
}

#[tactic(auto, unfolding(crate::specs::LineReading::premise_at))]
pub(crate) fn premise_at(bytes: &[u8]) -> Option<(u64, &[u8])>
    ensures { option_map (λ x. (x.0, x.1.now)) result ≡ premise_at bytes.now }
{
    number_at(after(b" ", bytes)?)
}
