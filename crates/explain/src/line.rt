//! The line of a fact.
ghost use Rattle.axioms.specs.View.{at_number};
ghost use Rattle.certificate.specs.View.{conclusion_of, subject_of};
ghost use Rattle.explain.specs.Uses.{IsAmong, Uses};
ghost use Rattle.explain.specs.LinesOfFacts.{Lengthens};
ghost use Rattle.explain.specs.Step.{ShowsLed, StaysByTwo, StaysDerivation, said_by, subject_in};
ghost use Rattle.std.specs.Prelude.{◌≡◌, ◌<◌, ◌∷◌, [], IfOk, OnOk, Some, length, map, option_map, slice_get};

use crate::derivation::Derivation;
use crate::lines_by_fact::LineNumbers;
use crate::sink::LineSink;
use axioms::Memory;
use certificate::{Conclusion, Rule, Subject};
use engine::Closed;
use facts::{Context, Fact, FactId};
use normal_forms::{Class2, PropId2};

pub(crate) fn fact_of(closed: &Closed<'_>, number: FactId) -> Fact
    requires { number.0 < length closed.now.saturation.state.facts }
    ensures { slice_get closed.now.saturation.state.facts number.0 ≡ Some result }
{
    closed.facts()[number.0 as usize].get()
}

/// The context as the subject of lines.
pub(crate) fn subject(context: Context) -> Subject
    ensures { subject_of result ≡ subject_in context }
{
    match context {
        Context::Expr(expression) => Subject::Expr(expression),
        Context::Individual(individual) => Subject::Individual(individual),
    }
}

/// What a line says of the fact, where the fact is not of a prefix.
pub(crate) fn conclusion(fact: Fact) -> Option<Conclusion>
    ensures { option_map conclusion_of result ≡ said_by fact }
{
    match fact {
        Fact::In(Class2::Expr(class), context) => Some(Conclusion::Sub(subject(context), class)),
        Fact::Edge(source, PropId2::Property(property), target) => {
            Some(Conclusion::Edge(subject(source), property, subject(target)))
        }
        _ => None,
    }
}

/// Adds the line of a fact, by the rule, with the axiom, from lines of these numbers, and gives its number; where the fact is of a
/// prefix, these lines show it.
///
/// # Errors
///
/// `Memory` where memory was refused.
#[inline(always)]
pub(crate) fn concluded<L: LineSink>(
    derivation: &mut Derivation<L>,
    fact: Fact,
    rule: Rule,
    axiom_number: Option<usize>,
    premises: LineNumbers,
) -> Result<LineNumbers, Memory>
    ensures longer { OnOk result (Lengthens derivation.old derivation.new) }
    ensures derivation { OnOk result (StaysDerivation derivation.old derivation.new rule axiom_number premises.items fact) }
    ensures shown { IfOk result (λ numbers. ShowsLed derivation.old derivation.new rule axiom_number premises.items fact numbers.items) }
    ensures used { IfOk result (λ numbers. Uses derivation.old derivation.new (IsAmong premises.items) numbers.items) }
{
    let Some(conclusion) = conclusion(fact) else {
        return Ok(premises);
    };
    let number = derivation.add(conclusion, rule, axiom_number, premises.as_slice())?;
    let mut numbers = premises;
    numbers.clear();
    numbers.push(number)?;
    Ok(numbers)
}

/// Adds a line that follows by the rule from the lines of these two numbers, and gives its number.
///
/// # Errors
///
/// `Memory` where memory was refused.
pub(crate) fn followed<L: LineSink>(
    derivation: &mut Derivation<L>,
    conclusion: Conclusion,
    rule: Rule,
    first: u64,
    second: u64,
) -> Result<u64, Memory>
    ensures longer { OnOk result (Lengthens derivation.old derivation.new) }
    ensures derivation { OnOk result (StaysByTwo derivation.old derivation.new (conclusion_of conclusion) rule first second) }
    ensures says { IfOk result (λ n. at_number (map (λ l. l.conclusion) derivation.new) n ≡ Some (conclusion_of conclusion)) }
    ensures used { IfOk result (λ n. Uses derivation.old derivation.new (IsAmong (first ∷ second ∷ [])) (n ∷ [])) }
{
    let number = derivation.add(conclusion, rule, None, &[first, second])?;
    Ok(number)
}
