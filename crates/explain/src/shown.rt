//! The lines of marked facts.
ghost use Rattle.axioms.specs.View.{at_number};
ghost use Rattle.axioms.specs.declared.ids.ExprId.{ExprId};
ghost use Rattle.cert_check.specs.Derivation.{IsDerivation};
ghost use Rattle.certificate.specs.Certificate.{Sub};
ghost use Rattle.closure.specs.Denotations.{context_of};
ghost use Rattle.exactness.specs.Derivability.{subject_of};
ghost use Rattle.explain.specs.Marks.{IsLastMarked, IsMarked, ShowMarked};
ghost use Rattle.explain.specs.Needs.{Derives};
ghost use Rattle.explain.specs.LineOrder.{AreReady, IsShowing};
ghost use Rattle.facts.specs.declared.contexts.Context.{Context};
ghost use Rattle.facts.specs.declared.contexts.Fact.TheVariants.{In};
ghost use Rattle.normal_forms.specs.declared.forms.Class2.TheVariants.{Expr};
ghost use Rattle.std.specs.Prelude.{◌+◌, ◌<◌, ◌≤◌, ◌≡◌, ◌^◌, [], IfOk, OnOk, Some, length};

use crate::basis::Basis;
use crate::derivation::Derivation;
use crate::lines_by_fact::{BLOCK, LinesByFact};
use crate::marking::mark_older;
use crate::marks::{goal_mark, is_blank_block};
use crate::paths::PropertyPaths;
use crate::showing::show;
use crate::sink::LineSink;
use axioms::Memory;
use engine::Closed;
use facts::FactId;
use normalise::property_forms_are_named;
use number_sets::Row;

// The paths from each property to those above it.
fn paths_of<'a>(closed: &Closed<'a>) -> Result<PropertyPaths<'a>, Memory>
    ensures { IfOk result (λ p. p ≡ closed.now.saturation.state.problem.forms) }
{
    closed.well_formed();
    let ontology = closed.ontology();
    ontology.bounded();
    property_forms_are_named();
    closed.normal().bounded();
    let properties = ontology.properties().len();
    PropertyPaths::new(closed.allocator(), properties, closed.problem())
}

// Shows the next fact, if it is marked.
fn show_next<L: LineSink>(
    basis: &Basis<'_>,
    paths: &mut PropertyPaths<'_>,
    marks: &Row,
    fact: FactId,
    derivation: &mut Derivation<L>,
    shown: &mut LinesByFact,
) -> Result<(), Memory>
    requires ready { AreReady basis.now.closed.now.saturation paths.old marks.now }
    requires there { fact.0 < length marks.now }
    requires next { fact.0 ≡ length shown.old }
    requires showing { IsShowing basis.now.closed.now.ontology basis.now.closed.now.saturation marks.now derivation.old shown.old }
    ensures paths { paths.new ≡ paths.old }
    ensures next { OnOk result (length shown.new ≡ length shown.old + 1) }
    ensures showing { OnOk result (IsShowing basis.now.closed.now.ontology basis.now.closed.now.saturation marks.now derivation.new shown.new) }
{
    basis.closed.well_formed();
    let FactId(number) = fact;
    if !marks.contains(number as usize) {
        shown.push_list(&[])?;
        return Ok(());
    }
    let numbers = show(basis, paths, derivation, shown, fact)?;
    shown.push_list(numbers.as_slice())?;
    Ok(())
}

// Goes on past a block of facts without a mark, or else shows the next fact, if it is marked.
fn show_more<L: LineSink>(
    basis: &Basis<'_>,
    paths: &mut PropertyPaths<'_>,
    marks: &Row,
    derivation: &mut Derivation<L>,
    shown: &mut LinesByFact,
) -> Result<(), Memory>
    requires ready { AreReady basis.now.closed.now.saturation paths.old marks.now }
    requires few { length marks.now < 2 ^ 32 }
    requires more { length shown.old < length marks.now }
    requires showing { IsShowing basis.now.closed.now.ontology basis.now.closed.now.saturation marks.now derivation.old shown.old }
    ensures paths { paths.new ≡ paths.old }
    ensures more { OnOk result (length shown.old < length shown.new) }
    ensures showing { OnOk result (IsShowing basis.now.closed.now.ontology basis.now.closed.now.saturation marks.now derivation.new shown.new) }
{
    let number = shown.len();
    if number % BLOCK == 0 && is_blank_block(marks, number) {
        shown.skip_block()?;
        return Ok(());
    }
    let fact = FactId(number as u32);
    show_next(basis, paths, marks, fact, derivation, shown)?;
    Ok(())
}

// Adds lines that show each marked fact to no lines.
fn show_each<L: LineSink>(
    basis: &Basis<'_>,
    paths: &mut PropertyPaths<'_>,
    marks: &Row,
    derivation: &mut Derivation<L>,
) -> Result<(), Memory>
    requires ready { AreReady basis.now.closed.now.saturation paths.old marks.now }
    requires few { length marks.now < 2 ^ 32 }
    requires none { derivation.old ≡ [] }
    ensures derivation { OnOk result (IsDerivation basis.now.closed.now.ontology derivation.new) }
    ensures shown { OnOk result (ShowMarked basis.now.closed.now.saturation marks.now (IsLastMarked basis.now.closed.now.saturation marks.now) derivation.new) }
{
    let mut shown = LinesByFact::with_room(basis.alloc, marks.len())?;
    while shown.len() < marks.len() {
        show_more(basis, paths, marks, derivation, &mut shown)?;
    }
    Ok(())
}

/// Adds lines that show each marked fact, with those of the facts that they rest on, to a sink of none, and gives it back. Of the
/// last facts there may be no marks.
///
/// # Errors
///
/// `Memory` where memory was refused.
pub(crate) fn add_lines<L: LineSink>(
    closed: &Closed<'_>,
    mut marks: Row,
    sink: L,
) -> Result<L, Memory>
    requires within { length marks ≤ length closed.now.saturation.state.facts }
    requires none { L.lines sink ≡ [] }
    ensures derivation { IfOk result (λ s. IsDerivation closed.now.ontology (L.lines s)) }
    ensures shown { IfOk result (λ s. ShowMarked closed.now.saturation marks (IsMarked marks) (L.lines s)) }
{
    closed.well_formed();
    mark_older(closed, &mut marks);
    let alloc = closed.allocator();
    let basis = Basis { alloc, closed };
    let mut paths = paths_of(closed)?;
    let mut derivation = Derivation::new(alloc, sink);
    show_each(&basis, &mut paths, &marks, &mut derivation)?;
    Ok(derivation.into_sink())
}

/// Adds to a sink of no lines a derivation that ends in the fact of that number, counted from 1, where it puts a context into a class,
/// and gives it back.
///
/// # Errors
///
/// `Memory` where memory was refused.
pub(crate) fn add_goal<L: LineSink>(closed: &Closed<'_>, goal: usize, sink: L) -> Result<L, Memory>
    requires counted { 0 < goal }
    requires there { goal ≤ length closed.now.saturation.state.facts }
    requires none { L.lines sink ≡ [] }
    ensures { IfOk result (λ s. (class : ExprId) (x : Context) → at_number closed.now.saturation.state.facts goal ≡ Some (In (Expr class) x) →
        Derives closed.now.ontology (Sub (subject_of (context_of x)) class.0) (L.lines s)) }
{
    let marks = goal_mark(closed.allocator(), goal)?;
    let sink = add_lines(closed, marks, sink)?;
    Ok(sink)
}
