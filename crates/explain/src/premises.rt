//! What the line of a fact takes.
ghost use Rattle.cert_check.specs.Derivation.{IsDerivation};
ghost use Rattle.explain.specs.Premises as spec;
ghost use Rattle.explain.specs.Premises.{LeadUpAt, LeadsUpAt, ShowsLedUp, ShowsTaken};
ghost use Rattle.explain.specs.Uses.{IsAmong, IsAmongThose, Uses};
ghost use Rattle.explain.specs.LinesOfFacts.{Lengthens, ShowsFact};
ghost use Rattle.facts.specs.Births.{numbers_of};
ghost use Rattle.number_sets.specs.Pieces.{list_at};
ghost use Rattle.std.specs.List.{Contains};
ghost use Rattle.std.specs.Prelude.{◌≡◌, ◌<◌, IfOk, OnOk, length, ℕ};

use crate::basis::Basis;
use crate::derivation::Derivation;
use crate::edge::{Edge, Ends};
use crate::lifting::lifted;
use crate::line::fact_of;
use crate::lines_by_fact::{LineNumbers, LinesByFact};
use crate::paths::PropertyPaths;
use crate::sink::LineSink;
use axioms::Memory;
use facts::{Fact, FactId, Older};
use normal_forms::{Form, PropId2};
use smallvec::SmallVec;

// The property that the form names for the first fact that it takes, where that is an edge.
fn first_property(form: &Form) -> Option<PropId2>
    ensures { result ≡ spec.first_property form.now }
{
    match *form {
        Form::N4(property, ..) => Some(PropId2::Property(property)),
        Form::N6(property, ..) => Some(property),
        Form::N12(_, property, _) => Some(PropId2::Property(property)),
        _ => None,
    }
}

// The property that the form names for the second fact that it takes, where that is an edge.
fn second_property(form: &Form) -> Option<PropId2>
    ensures { result ≡ spec.second_property form.now }
{
    match *form {
        Form::N6(_, property, _) => Some(property),
        _ => None,
    }
}

// The numbers of the lines that show an older fact; an edge is lifted to the property, where there is one.
fn lifted_to<L: LineSink>(
    basis: &Basis<'_>,
    paths: &mut PropertyPaths<'_>,
    derivation: &mut Derivation<L>,
    shown: &LinesByFact,
    older: FactId,
    property: Option<PropId2>,
) -> Result<LineNumbers, Memory>
    requires paths { paths.old ≡ basis.now.closed.now.saturation.state.problem.forms }
    requires derivation { IsDerivation basis.now.closed.now.ontology derivation.old }
    requires there { older.0 < length basis.now.closed.now.saturation.state.facts }
    requires shown { ShowsFact basis.now.closed.now.saturation derivation.old older.0 (list_at shown.now older.0) }
    requires below { LeadsUpAt basis.now.closed.now.saturation property older.0 }
    ensures paths { paths.new ≡ paths.old }
    ensures derivation { OnOk result (IsDerivation basis.now.closed.now.ontology derivation.new) }
    ensures longer { OnOk result (Lengthens derivation.old derivation.new) }
    ensures shown { IfOk result (λ v. ShowsLedUp basis.now.closed.now.saturation derivation.new property older.0 v.items) }
    ensures used { IfOk result (λ v. Uses derivation.old derivation.new (IsAmong (list_at shown.now older.0)) v.items) }
{
    let known = shown.at(basis.alloc, older.0 as usize)?;
    match (fact_of(basis.closed, older), property) {
        (Fact::Edge(source, below, target), Some(above)) => {
            let ends = Ends { source, target };
            let edge = Edge {
                property: below,
                ends,
            };
            let numbers = lifted(basis, paths, derivation, known, edge, above)?;
            Ok(numbers)
        }
        _ => Ok(known),
    }
}

/// The numbers of the lines that show what the line of a fact takes, one behind the other: the older facts, each edge lifted to the
/// property that the form names.
///
/// # Errors
///
/// `Memory` where memory was refused.
pub(crate) fn premises<L: LineSink>(
    basis: &Basis<'_>,
    paths: &mut PropertyPaths<'_>,
    derivation: &mut Derivation<L>,
    shown: &LinesByFact,
    older: Older,
    form: &Form,
) -> Result<LineNumbers, Memory>
    requires paths { paths.old ≡ basis.now.closed.now.saturation.state.problem.forms }
    requires derivation { IsDerivation basis.now.closed.now.ontology derivation.old }
    requires there { (m : ℕ) → Contains (numbers_of older) m → m < length basis.now.closed.now.saturation.state.facts }
    requires shown { (m : ℕ) → Contains (numbers_of older) m → ShowsFact basis.now.closed.now.saturation derivation.old m (list_at shown.now m) }
    requires below { LeadUpAt basis.now.closed.now.saturation form.now (numbers_of older) }
    ensures paths { paths.new ≡ paths.old }
    ensures derivation { OnOk result (IsDerivation basis.now.closed.now.ontology derivation.new) }
    ensures longer { OnOk result (Lengthens derivation.old derivation.new) }
    ensures shown { IfOk result (λ v. ShowsTaken basis.now.closed.now.saturation derivation.new form.now (numbers_of older) v.items) }
    ensures used { IfOk result (λ v. Uses derivation.old derivation.new (IsAmongThose shown.now (numbers_of older)) v.items) }
{
    match older {
        Older::None => Ok(SmallVec::new(basis.alloc)),
        Older::One(only) => {
            let property = first_property(form);
            let numbers = lifted_to(basis, paths, derivation, shown, only, property)?;
            Ok(numbers)
        }
        Older::Two(first, second) => {
            let property = first_property(form);
            let mut numbers = lifted_to(basis, paths, derivation, shown, first, property)?;
            let property = second_property(form);
            let more = lifted_to(basis, paths, derivation, shown, second, property)?;
            numbers.extend_from_slice(more.as_slice())?;
            Ok(numbers)
        }
    }
}
