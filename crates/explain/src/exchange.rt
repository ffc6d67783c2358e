//! Lines of a fact with an individual in the place of another that is one with it.
ghost use Rattle.cert_check.specs.Derivation.{IsDerivation};
ghost use Rattle.certificate.specs.Certificate.{Subject as Subject2};
ghost use Rattle.certificate.specs.View.{subject_of};
ghost use Rattle.explain.specs.Exchanges.{HandsOnBy, HasEdges, IsExchange, LeadsFirstTo, WalksAlong};
ghost use Rattle.explain.specs.LinesOfFacts.{AreShowingIn, Lengthens};
ghost use Rattle.explain.specs.Search.{LinksBy};
ghost use Rattle.explain.specs.Step.{subject_in};
ghost use Rattle.explain.specs.Uses.{IsAmong, Uses};
ghost use Rattle.facts.specs.declared.contexts.Context.TheVariants.{Individual};
ghost use Rattle.facts.specs.declared.contexts.Fact.TheVariants.{Edge as EdgeFact, In};
ghost use Rattle.std.specs.Prelude.{◌≡◌, ◌<◌, ℕ, List, IfOk, OnOk, length};

use crate::basis::Basis;
use crate::derivation::Derivation;
use crate::edge::{Edge, Ends};
use crate::line::{followed, subject};
use crate::lines_by_fact::LineNumbers;
use crate::operands::{operands, steps};
use crate::same::same_line;
use crate::sink::LineSink;
use axioms::{IndId, Memory};
use certificate::{Conclusion, Rule, Subject};
use facts::{Context, Fact};
use normal_forms::Class2;
use smallvec::SmallVec;

/// An individual that stands for another, where the form of that number makes them one.
#[derive(Clone, Copy)]
pub(crate) struct Exchange {
    pub(crate) form: u32,
    pub(crate) old: IndId,
    pub(crate) new: IndId,
}

/// The fact that the form of that number takes, and the other one, as which it hands it on.
#[derive(Clone, Copy)]
pub(crate) struct Handing {
    pub(crate) form: u32,
    pub(crate) given: Fact,
    pub(crate) fact: Fact,
}

// The individual in a context, and the one in its place, where these are two.
fn exchanged(before: Context, now: Context) -> Option<(IndId, IndId)>
    ensures { IsExchange before now result }
{
    let (Context::Individual(old), Context::Individual(new)) = (before, now) else {
        return None;
    };
    if old == new {
        return None;
    }
    Some((old, new))
}

// The lines of a class in the one individual, from those of it in the other.
fn class_exchanged<L: LineSink>(
    basis: &Basis<'_>,
    derivation: &mut Derivation<L>,
    known: &[u64],
    exchange: Exchange,
    class: Class2,
) -> Result<LineNumbers, Memory>
    requires derivation { IsDerivation basis.now.closed.now.ontology derivation.old }
    requires linked { LinksBy basis.now.closed.now.saturation.state.problem.forms exchange.form exchange.new exchange.old }
    requires shown { AreShowingIn basis.now.closed.now.saturation derivation.old known.now (In class (Individual exchange.old)) }
    ensures derivation { OnOk result (IsDerivation basis.now.closed.now.ontology derivation.new) }
    ensures longer { OnOk result (Lengthens derivation.old derivation.new) }
    ensures shown { IfOk result (λ v. AreShowingIn basis.now.closed.now.saturation derivation.new v.items (In class (Individual exchange.new))) }
    ensures used { IfOk result (λ v. Uses derivation.old derivation.new (IsAmong known.now) v.items) }
{
    let Exchange { form, old, new } = exchange;
    let operands = operands(basis.alloc, basis.closed.normal(), class)?;
    let mut numbers = SmallVec::new(basis.alloc);
    for place in 0..known.len() {
        let same = same_line(basis, derivation, form, new, old)?;
        let moved = Conclusion::Sub(Subject::Individual(new), operands[place]);
        let line = known[place];
        let number = followed(derivation, moved, Rule::K19, same, line)?;
        numbers.push(number)?;
    }
    Ok(numbers)
}

// Where the first edge of a walk to that target leads.
fn first_target<L: LineSink>(derivation: &Derivation<L>, walk: &[u64], target: Context) -> Subject
    requires some { 0 < length walk.now }
    requires walks { (x : Subject2) × (rs : List ℕ) × WalksAlong derivation.now walk.now x rs (subject_in target) }
    ensures { LeadsFirstTo derivation.now walk.now (subject_in target) (subject_of result) }
{
    if walk.len() < 2 {
        return subject(target);
    }
    let Some(next) = derivation.source(walk[1]) else {
        // The next edge has a line.
        unreachable!()
    };
    next
}

// The lines of an edge from the one individual, from those of an edge from the other: all but the first are the same.
fn source_exchanged<L: LineSink>(
    basis: &Basis<'_>,
    derivation: &mut Derivation<L>,
    walk: &[u64],
    exchange: Exchange,
    edge: Edge,
) -> Result<LineNumbers, Memory>
    requires derivation { IsDerivation basis.now.closed.now.ontology derivation.old }
    requires linked { LinksBy basis.now.closed.now.saturation.state.problem.forms exchange.form exchange.new exchange.old }
    requires shown { AreShowingIn basis.now.closed.now.saturation derivation.old walk.now (EdgeFact (Individual exchange.old) edge.property edge.ends.target) }
    requires some { 0 < length walk.now }
    ensures derivation { OnOk result (IsDerivation basis.now.closed.now.ontology derivation.new) }
    ensures longer { OnOk result (Lengthens derivation.old derivation.new) }
    ensures shown { IfOk result (λ v. AreShowingIn basis.now.closed.now.saturation derivation.new v.items (EdgeFact (Individual exchange.new) edge.property edge.ends.target)) }
    ensures used { IfOk result (λ v. Uses derivation.old derivation.new (IsAmong walk.now) v.items) }
{
    let Exchange { form, old, new } = exchange;
    let steps = steps(basis.alloc, basis.closed.normal(), edge.property)?;
    let same = same_line(basis, derivation, form, new, old)?;
    let next = first_target(derivation, walk, edge.ends.target);
    let moved = Conclusion::Edge(Subject::Individual(new), steps[0], next);
    let line = walk[0];
    let number = followed(derivation, moved, Rule::K19, same, line)?;
    let mut numbers = SmallVec::new(basis.alloc);
    numbers.push(number)?;
    numbers.extend_from_slice(&walk[1..])?;
    Ok(numbers)
}

// The lines of an edge to the one individual, from those of an edge to the other: all but the last are the same.
fn target_exchanged<L: LineSink>(
    basis: &Basis<'_>,
    derivation: &mut Derivation<L>,
    walk: &[u64],
    exchange: Exchange,
    edge: Edge,
) -> Result<LineNumbers, Memory>
    requires derivation { IsDerivation basis.now.closed.now.ontology derivation.old }
    requires linked { LinksBy basis.now.closed.now.saturation.state.problem.forms exchange.form exchange.new exchange.old }
    requires shown { AreShowingIn basis.now.closed.now.saturation derivation.old walk.now (EdgeFact edge.ends.source edge.property (Individual exchange.old)) }
    requires some { 0 < length walk.now }
    ensures derivation { OnOk result (IsDerivation basis.now.closed.now.ontology derivation.new) }
    ensures longer { OnOk result (Lengthens derivation.old derivation.new) }
    ensures shown { IfOk result (λ v. AreShowingIn basis.now.closed.now.saturation derivation.new v.items (EdgeFact edge.ends.source edge.property (Individual exchange.new))) }
    ensures used { IfOk result (λ v. Uses derivation.old derivation.new (IsAmong walk.now) v.items) }
{
    let Exchange { form, old, new } = exchange;
    let last = walk.len() - 1;
    let steps = steps(basis.alloc, basis.closed.normal(), edge.property)?;
    let same = same_line(basis, derivation, form, new, old)?;
    let line = walk[last];
    let Some(before) = derivation.source(line) else {
        // The last edge has a line.
        unreachable!()
    };
    let moved = Conclusion::Edge(before, steps[last], Subject::Individual(new));
    let number = followed(derivation, moved, Rule::K19, same, line)?;
    let mut numbers = SmallVec::new(basis.alloc);
    numbers.extend_from_slice(&walk[..last])?;
    numbers.push(number)?;
    Ok(numbers)
}

/// The lines of what a form hands on, from those of the fact that it takes.
///
/// # Errors
///
/// `Memory` where memory was refused.
pub(crate) fn handed_on<L: LineSink>(
    basis: &Basis<'_>,
    derivation: &mut Derivation<L>,
    known: &[u64],
    handing: Handing,
) -> Result<LineNumbers, Memory>
    requires derivation { IsDerivation basis.now.closed.now.ontology derivation.old }
    requires hands { HandsOnBy basis.now.closed.now.saturation.state.problem.forms handing.form handing.given handing.fact }
    requires two { handing.given ≡ handing.fact → ⊥ }
    requires shown { AreShowingIn basis.now.closed.now.saturation derivation.old known.now handing.given }
    requires some { HasEdges handing.given known.now }
    ensures derivation { OnOk result (IsDerivation basis.now.closed.now.ontology derivation.new) }
    ensures longer { OnOk result (Lengthens derivation.old derivation.new) }
    ensures shown { IfOk result (λ v. AreShowingIn basis.now.closed.now.saturation derivation.new v.items handing.fact) }
    ensures used { IfOk result (λ v. Uses derivation.old derivation.new (IsAmong known.now) v.items) }
{
    let Handing { form, given, fact } = handing;
    match (given, fact) {
        (Fact::In(class, before), Fact::In(_, now)) => {
            let Some((old, new)) = exchanged(before, now) else {
                // It is another fact.
                unreachable!()
            };
            let exchange = Exchange { form, old, new };
            let numbers = class_exchanged(basis, derivation, known, exchange, class)?;
            Ok(numbers)
        }
        (Fact::Edge(source, property, target), Fact::Edge(source_now, _, target_now)) => {
            let ends = Ends { source, target };
            let edge = Edge { property, ends };
            if let Some((old, new)) = exchanged(source, source_now) {
                let exchange = Exchange { form, old, new };
                let numbers = source_exchanged(basis, derivation, known, exchange, edge)?;
                return Ok(numbers);
            }
            let Some((old, new)) = exchanged(target, target_now) else {
                // It is another fact.
                unreachable!()
            };
            let exchange = Exchange { form, old, new };
            let numbers = target_exchanged(basis, derivation, known, exchange, edge)?;
            Ok(numbers)
        }
        _ => {
            // A class is handed on as a class, and an edge as an edge.
            unreachable!()
        }
    }
}
