//! Lines that say that individuals are one.
ghost use Rattle.axioms.specs.Ontology.{Ontology};
ghost use Rattle.cert_check.specs.Derivation.{IsDerivation};
ghost use Rattle.explain.specs.LinesOfFacts.{Lengthens};
ghost use Rattle.explain.specs.Paths.{IsChain};
ghost use Rattle.explain.specs.SameLines.{SaysSame};
ghost use Rattle.explain.specs.Search.{LinksBy};
ghost use Rattle.explain.specs.Uses.{IsAmong, Uses};
ghost use Rattle.axioms.specs.declared.ids.IndId.{IndId as Ind};
ghost use Rattle.facts.specs.Closure.{Links};
ghost use Rattle.normal_forms.specs.declared.forms.Origin.TheVariants.{Axiom as ByAxiom};
ghost use Rattle.normalise.specs.Entries.{origin_in};
ghost use Rattle.std.specs.Prelude.{◌≡◌, ◌<◌, ◌∷◌, [], ℕ, IfOk, OnOk, Some, length, option_map, slice_get};

use crate::basis::Basis;
use crate::derivation::Derivation;
use crate::line::followed;
use crate::sink::LineSink;
use axioms::{IndId, Memory};
use certificate::{Conclusion, Rule};
use normal_forms::{Form, Origin};
use normalise::Normal;

// The number of the axiom that gave the form of that number, if one did.
fn axiom_of(normal: &Normal, form: u32) -> Option<usize>
    ensures { (number : ℕ) → option_map origin_in (slice_get normal.now.entries form) ≡ Some (ByAxiom number) → result ≡ Some number }
{
    match normal.origin(form as usize) {
        Some(Origin::Axiom(axiom)) => Some(axiom),
        _ => None,
    }
}

/// The number of a line that says that the two are one, which the form of that number makes one. Where none is kept, a line is added.
///
/// # Errors
///
/// `Memory` where memory was refused.
pub(crate) fn same_line<L: LineSink>(
    basis: &Basis<'_>,
    derivation: &mut Derivation<L>,
    form: u32,
    first: IndId,
    second: IndId,
) -> Result<u64, Memory>
    requires derivation { IsDerivation basis.now.closed.now.ontology derivation.old }
    requires linked { LinksBy basis.now.closed.now.saturation.state.problem.forms form first second }
    ensures derivation { OnOk result (IsDerivation basis.now.closed.now.ontology derivation.new) }
    ensures longer { OnOk result (Lengthens derivation.old derivation.new) }
    ensures says { IfOk result (λ n. SaysSame derivation.new n first second) }
    ensures used { IfOk result (λ n. Uses derivation.old derivation.new (IsAmong []) (n ∷ [])) }
{
    if let Some(number) = derivation.same(first, second) {
        return Ok(number);
    }
    basis.closed.well_formed();
    let Some(axiom) = axiom_of(basis.closed.normal(), form) else {
        // An axiom says that they are one.
        unreachable!()
    };
    let number = derivation.add(Conclusion::Same(first, second), Rule::K17, Some(axiom), &[])?;
    derivation.keep_same(first, second, number)?;
    Ok(number)
}

// The other of the two individuals that the form makes one.
fn other(form: &Form, individual: IndId) -> IndId
    ensures { (j : Ind) → Links form.now individual j → j ≡ result }
{
    match *form {
        Form::N10(first, second) if first == individual => second,
        Form::N10(first, _) => first,
        _ => individual,
    }
}

// The individual that the form of that number makes one with this one, and the number of a line that says so.
fn next_same<L: LineSink>(
    basis: &Basis<'_>,
    derivation: &mut Derivation<L>,
    individual: IndId,
    form: u32,
) -> Result<(IndId, u64), Memory>
    requires derivation { IsDerivation basis.now.closed.now.ontology derivation.old }
    requires linked { (j : Ind) × LinksBy basis.now.closed.now.saturation.state.problem.forms form individual j }
    ensures derivation { OnOk result (IsDerivation basis.now.closed.now.ontology derivation.new) }
    ensures longer { OnOk result (Lengthens derivation.old derivation.new) }
    ensures only { IfOk result (λ p. (j : Ind) → LinksBy basis.now.closed.now.saturation.state.problem.forms form individual j → j ≡ p.0) }
    ensures says { IfOk result (λ p. SaysSame derivation.new p.1 individual p.0) }
    ensures used { IfOk result (λ p. Uses derivation.old derivation.new (IsAmong []) (p.1 ∷ [])) }
{
    basis.closed.well_formed();
    let step = basis.closed.normal().forms().at(form as usize);
    let next = other(&step, individual);
    let number = same_line(basis, derivation, form, individual, next)?;
    Ok((next, number))
}

// Adds the line that the first and the last of three individuals are one, and gives its number.
fn joined<L: LineSink>(
    derivation: &mut Derivation<L>,
    first: IndId,
    last: IndId,
    before: u64,
    behind: u64,
) -> Result<u64, Memory>
    requires says { (j : Ind) × SaysSame derivation.old before first j × SaysSame derivation.old behind j last }
    ensures derivation { OnOk result ((o : Ontology) → IsDerivation o derivation.old → IsDerivation o derivation.new) }
    ensures longer { OnOk result (Lengthens derivation.old derivation.new) }
    ensures says { IfOk result (λ n. SaysSame derivation.new n first last) }
    ensures used { IfOk result (λ n. Uses derivation.old derivation.new (IsAmong (before ∷ behind ∷ [])) (n ∷ [])) }
{
    let same = Conclusion::Same(first, last);
    let number = followed(derivation, same, Rule::K18, before, behind)?;
    Ok(number)
}

/// The number of a line that says that an individual and the one that a chain of forms leads to from it are one.
///
/// # Errors
///
/// `Memory` where memory was refused.
pub(crate) fn same_along<L: LineSink>(
    basis: &Basis<'_>,
    derivation: &mut Derivation<L>,
    first: IndId,
    chain: &[u32],
) -> Result<u64, Memory>
    requires derivation { IsDerivation basis.now.closed.now.ontology derivation.old }
    requires some { 0 < length chain.now }
    requires chain { (j : Ind) × IsChain basis.now.closed.now.saturation.state.problem.forms first chain.now j }
    ensures derivation { OnOk result (IsDerivation basis.now.closed.now.ontology derivation.new) }
    ensures longer { OnOk result (Lengthens derivation.old derivation.new) }
    ensures says { IfOk result (λ n. (j : Ind) → IsChain basis.now.closed.now.saturation.state.problem.forms first chain.now j → SaysSame derivation.new n first j) }
    ensures used { IfOk result (λ n. Uses derivation.old derivation.new (IsAmong []) (n ∷ [])) }
{
    let (mut at, mut number) = next_same(basis, derivation, first, chain[0])?;
    for place in 1..chain.len() {
        let (next, line) = next_same(basis, derivation, at, chain[place])?;
        number = joined(derivation, first, next, number, line)?;
        at = next;
    }
    Ok(number)
}
