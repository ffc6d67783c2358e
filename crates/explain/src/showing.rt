//! What shows a fact.
ghost use Rattle.cert_check.specs.Derivation.{IsDerivation};
ghost use Rattle.explain.specs.OlderFacts.{AreOlderShown};
ghost use Rattle.explain.specs.ContextRule.{context_rule};
ghost use Rattle.explain.specs.NextFact.{IsNext, ShowsNext};
ghost use Rattle.facts.specs.Births.{reason};
ghost use Rattle.std.specs.Prelude.{◌≡◌, ◌<◌, IfOk, None, length};

use crate::basis::Basis;
use crate::by_form::shown_by_form;
use crate::derivation::Derivation;
use crate::line::{concluded, fact_of};
use crate::lines_by_fact::{LineNumbers, LinesByFact};
use crate::next_fact::NextFact;
use crate::nothing::carried_back;
use crate::paths::PropertyPaths;
use crate::sink::LineSink;
use axioms::Memory;
use certificate::Rule;
use facts::{Fact, FactId, Older};
use normal_forms::Class2;
use smallvec::SmallVec;

// The rule for what a context lies in.
fn rule(fact: Fact) -> Rule
    ensures { result ≡ context_rule fact }
{
    match fact {
        Fact::In(Class2::Expr(class), _) if class.0 == 0 => Rule::K2,
        _ => Rule::K1,
    }
}

// What no form led to: owl:Nothing is carried from the target of an edge to its source, or a context lies in owl:Thing, or in itself.
fn shown_without_form<L: LineSink>(
    basis: &Basis<'_>,
    derivation: &mut Derivation<L>,
    next: &NextFact<'_>,
) -> Result<LineNumbers, Memory>
    requires next { IsNext basis.now.closed.now.ontology basis.now.closed.now.saturation derivation.old next.now.shown.now next.now.fact.0 (reason next.now.birth.now) }
    requires form { (reason next.now.birth.now).form ≡ None }
    ensures { IfOk result (λ numbers. ShowsNext basis.now.closed.now.ontology basis.now.closed.now.saturation next.now.shown.now next.now.fact.0 derivation.old derivation.new numbers.items) }
{
    basis.closed.well_formed();
    match next.birth.older() {
        Older::Two(edge, class) => {
            let walk = next.shown.at(basis.alloc, edge.0 as usize)?;
            let ends = next.shown.at(basis.alloc, class.0 as usize)?;
            let end = ends.as_slice()[0];
            let number = carried_back(basis.closed, derivation, walk.as_slice(), end)?;
            let mut numbers = SmallVec::new(basis.alloc);
            numbers.push(number)?;
            Ok(numbers)
        }
        _ => {
            let fact = fact_of(basis.closed, next.fact);
            let none = SmallVec::new(basis.alloc);
            let numbers = concluded(derivation, fact, rule(fact), None, none)?;
            Ok(numbers)
        }
    }
}

/// Adds the lines that a fact needs, from those that show the older facts that it rests on, and gives the numbers of the lines
/// that show it. `shown` has the numbers of lines for each fact.
///
/// # Errors
///
/// `Memory` where memory was refused.
pub(crate) fn show<L: LineSink>(
    basis: &Basis<'_>,
    paths: &mut PropertyPaths<'_>,
    derivation: &mut Derivation<L>,
    shown: &LinesByFact,
    fact: FactId,
) -> Result<LineNumbers, Memory>
    requires paths { paths.old ≡ basis.now.closed.now.saturation.state.problem.forms }
    requires there { fact.0 < length basis.now.closed.now.saturation.state.facts }
    requires derivation { IsDerivation basis.now.closed.now.ontology derivation.old }
    requires older { AreOlderShown basis.now.closed.now.saturation derivation.old shown.now fact.0 }
    ensures paths { paths.new ≡ paths.old }
    ensures shown { IfOk result (λ numbers. ShowsNext basis.now.closed.now.ontology basis.now.closed.now.saturation shown.now fact.0 derivation.old derivation.new numbers.items) }
{
    basis.closed.well_formed();
    let Some(birth) = basis.closed.born(fact) else {
        // The fact is one of the saturation, and each has a birth.
        unreachable!()
    };
    let next = NextFact { fact, birth, shown };
    match birth.form() {
        Some(form) => {
            let numbers = shown_by_form(basis, paths, derivation, &next, form)?;
            Ok(numbers)
        }
        None => {
            let numbers = shown_without_form(basis, derivation, &next)?;
            Ok(numbers)
        }
    }
}
