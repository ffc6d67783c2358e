//! Edges lifted to properties above their own.
ghost use Rattle.axioms.specs.declared.ids.PropId.{PropId as Prop};
ghost use Rattle.cert_check.specs.Derivation.{IsDerivation};
ghost use Rattle.explain.specs.LiftedEdges.{IsStepOf, LiftsEdgeTo, ShowsLedOn};
ghost use Rattle.explain.specs.Uses.{IsAmong, Uses};
ghost use Rattle.explain.specs.LinesOfFacts.{AreShowingIn, Lengthens};
ghost use Rattle.facts.specs.declared.contexts.Fact.TheVariants.{Edge as EdgeFact};
ghost use Rattle.normal_forms.specs.Properties.{IsAtOrBelow};
ghost use Rattle.std.specs.Prelude.{◌≡◌, IfOk, OnOk};

use crate::basis::Basis;
use crate::derivation::Derivation;
use crate::edge::{Edge, Ends};
use crate::line::concluded;
use crate::lines_by_fact::LineNumbers;
use crate::paths::PropertyPaths;
use crate::sink::LineSink;
use axioms::{Memory, PropId};
use certificate::Rule;
use facts::Fact;
use normal_forms::{Form, Origin, PropId2};
use normalise::Normal;

/// Where the plain property form of that number leads to, and the number of the axiom that gave it; `None` where there is no such
/// form.
fn step(normal: &Normal, form: usize) -> Option<(PropId, usize)>
    ensures { IsStepOf normal.now form result }
{
    let Some(Origin::Axiom(axiom)) = normal.origin(form) else {
        return None;
    };
    match normal.forms().at(form) {
        Form::N5(_, above) => Some((above, axiom)),
        _ => None,
    }
}

/// The numbers of the lines that show an edge lifted by the plain form of that number.
///
/// # Errors
///
/// `Memory` where memory was refused.
fn lifted_by<L: LineSink>(
    basis: &Basis<'_>,
    derivation: &mut Derivation<L>,
    numbers: LineNumbers,
    ends: Ends,
    form: u32,
) -> Result<LineNumbers, Memory>
    requires derivation { IsDerivation basis.now.closed.now.ontology derivation.old }
    requires leads { (r : Prop) × (s : Prop) × LiftsEdgeTo basis.now.closed.now.saturation derivation.old numbers.items ends.source ends.target form r s }
    ensures derivation { OnOk result (IsDerivation basis.now.closed.now.ontology derivation.new) }
    ensures longer { OnOk result (Lengthens derivation.old derivation.new) }
    ensures shown { IfOk result (λ v. ShowsLedOn basis.now.closed.now.saturation derivation.old derivation.new numbers.items ends.source ends.target form v.items) }
    ensures used { IfOk result (λ v. Uses derivation.old derivation.new (IsAmong numbers.items) v.items) }
{
    basis.closed.well_formed();
    let Some((above, axiom)) = step(basis.closed.normal(), form as usize) else {
        // The form puts one property below another.
        unreachable!()
    };
    let edge = Fact::Edge(ends.source, PropId2::Property(above), ends.target);
    let shown = concluded(derivation, edge, Rule::K12, Some(axiom), numbers)?;
    Ok(shown)
}

/// The numbers of the lines that show an edge lifted to a property above its own.
///
/// # Errors
///
/// `Memory` where memory was refused.
pub(crate) fn lifted<L: LineSink>(
    basis: &Basis<'_>,
    paths: &mut PropertyPaths<'_>,
    derivation: &mut Derivation<L>,
    numbers: LineNumbers,
    edge: Edge,
    above: PropId2,
) -> Result<LineNumbers, Memory>
    requires paths { paths.old ≡ basis.now.closed.now.saturation.state.problem.forms }
    requires derivation { IsDerivation basis.now.closed.now.ontology derivation.old }
    requires shown { AreShowingIn basis.now.closed.now.saturation derivation.old numbers.items (EdgeFact edge.ends.source edge.property edge.ends.target) }
    requires below { IsAtOrBelow basis.now.closed.now.saturation.state.problem.forms edge.property above }
    ensures paths { paths.new ≡ paths.old }
    ensures derivation { OnOk result (IsDerivation basis.now.closed.now.ontology derivation.new) }
    ensures longer { OnOk result (Lengthens derivation.old derivation.new) }
    ensures shown { IfOk result (λ v. AreShowingIn basis.now.closed.now.saturation derivation.new v.items (EdgeFact edge.ends.source above edge.ends.target)) }
    ensures used { IfOk result (λ v. Uses derivation.old derivation.new (IsAmong numbers.items) v.items) }
{
    let (PropId2::Property(from), PropId2::Property(to)) = (edge.property, above) else {
        return Ok(numbers);
    };
    let Some(path) = paths.path(from, to)? else {
        // The property is at the one above or below it.
        unreachable!()
    };
    let mut lines = numbers;
    for form in &path {
        lines = lifted_by(basis, derivation, lines, edge.ends, *form)?;
    }
    Ok(lines)
}
