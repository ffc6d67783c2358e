//! The lines of a saturation.
ghost use Rattle.cert_check.specs.Derivation.{IsDerivation};
ghost use Rattle.certificate.specs.Certificate.{Sub};
ghost use Rattle.certificate.specs.View.{lines_of};
ghost use Rattle.closure.specs.Closure.{Expression, In, IsFact, IsRoot};
ghost use Rattle.closure.specs.Denotations.{context_of};
ghost use Rattle.exactness.specs.Derivability.{subject_of};
ghost use Rattle.exactness.specs.ListedInterpretation.{IsConsistent};
ghost use Rattle.exactness.specs.Theorems.{HaveFacts};
ghost use Rattle.explain.specs.Needs.{Derives, DerivesContradiction, EachIsNeeded};
ghost use Rattle.normal_forms.specs.Forms.{Whole};
ghost use Rattle.std.specs.Prelude.{◌≡◌, [], IfOk, MatchOption};

use crate::shown::{add_goal, add_lines};
use crate::sink::LineSink;
use crate::wanted::{first_contradiction, number_of, wanted};
use axioms::{ExprId, Memory};
use certificate::{FormatType, Line};
use certificate_text::LineText;
use engine::{Closed, Indexed};
use facts::{Context, Fact};
use normal_forms::Class2;

/// Adds to a sink of no lines a derivation with a line for each named class or expression that is asked about that is a fact of a named
/// class, of an individual or of an expression that is asked about, and gives it back.
///
/// # Errors
///
/// `Memory` where memory was refused.
fn add_facts<L: LineSink>(closed: &Closed<'_>, sink: L) -> Result<L, Memory>
    requires none { L.lines sink ≡ [] }
    ensures derivation { IfOk result (λ s. IsDerivation closed.now.ontology (L.lines s)) }
    ensures facts { IfOk result (λ s. HaveFacts closed.now.ontology closed.now.saturation.normal.asked (L.lines s)) }
    ensures needed { IfOk result (λ s. EachIsNeeded closed.now.ontology closed.now.saturation.normal.asked (L.lines s)) }
{
    closed.well_formed();
    let asked = closed.normal().asked();
    let marks = wanted(closed.allocator(), closed.ontology(), asked, closed.facts())?;
    add_lines(closed, marks, sink)
}

/// Adds to a sink of no lines a derivation of a contradiction, where there is one, and gives it back.
///
/// # Errors
///
/// `Memory` where memory was refused.
fn add_contradiction<L: LineSink>(closed: &Closed<'_>, sink: L) -> Result<L, Memory>
    requires contradictory { IsConsistent closed.now.ontology closed.now.saturation.normal.asked → ⊥ }
    requires none { L.lines sink ≡ [] }
    ensures { IfOk result (λ s. DerivesContradiction closed.now.ontology (L.lines s)) }
{
    closed.well_formed();
    let Some(goal) = first_contradiction(closed.ontology(), closed.facts()) else {
        // With no such fact there is no contradiction.
        unreachable!()
    };
    add_goal(closed, goal, sink)
}

/// A derivation with a line for each named class or expression that is asked about that is a fact of a named class, of an individual
/// or of an expression that is asked about.
///
/// # Errors
///
/// `Memory` where memory was refused.
pub fn lines(closed: &Closed<'_>) -> Result<Vec<Line>, Memory>
    ensures derivation { IfOk result (λ v. IsDerivation closed.now.ontology (lines_of v.items)) }
    ensures facts { IfOk result (λ v. HaveFacts closed.now.ontology closed.now.saturation.normal.asked (lines_of v.items)) }
    ensures needed { IfOk result (λ v. EachIsNeeded closed.now.ontology closed.now.saturation.normal.asked (lines_of v.items)) }
{
    add_facts(closed, Vec::new(closed.allocator()))
}

/// A derivation that ends in a contradiction, where there is one; each other line is a premise of a later one.
///
/// # Errors
///
/// `Memory` where memory was refused.
pub fn contradiction(closed: &Closed<'_>) -> Result<Vec<Line>, Memory>
    requires contradictory { IsConsistent closed.now.ontology closed.now.saturation.normal.asked → ⊥ }
    ensures { IfOk result (λ v. DerivesContradiction closed.now.ontology (lines_of v.items)) }
{
    add_contradiction(closed, Vec::new(closed.allocator()))
}

/// A derivation that ends in that the context lies in the class, where that is a fact; each other line is a premise of a later one.
///
/// # Errors
///
/// `Memory` where memory was refused.
pub fn lines_of(
    indexed: &Indexed<'_>,
    subject: Context,
    class: ExprId,
) -> Result<Option<Vec<Line>>, Memory>
    requires subject { IsRoot indexed.now.ontology indexed.now.saturation.normal.asked (context_of subject) }
    requires class { IsRoot indexed.now.ontology indexed.now.saturation.normal.asked (Expression class.0) }
    ensures { IfOk result (λ found. MatchOption found (IsFact indexed.now.ontology indexed.now.saturation.normal.asked (In (Whole class.0) (context_of subject)) → ⊥)
        (λ v. Derives indexed.now.ontology (Sub (subject_of (context_of subject)) class.0) (lines_of v.items))) }
{
    let closed = indexed.closed();
    closed.well_formed();
    let wanted = Fact::In(Class2::Expr(class), subject);
    let Some(goal) = number_of(indexed, wanted) else {
        return Ok(None);
    };
    let lines = add_goal(closed, goal, Vec::new(closed.allocator()))?;
    Ok(Some(lines))
}

/// The lines that `lines` gives, as text of a format: no line is held in memory.
///
/// # Errors
///
/// `Memory` where memory was refused.
pub fn line_text<F: FormatType>(closed: &Closed<'_>) -> Result<LineText<F>, Memory>
    ensures derivation { IfOk result (λ t. IsDerivation closed.now.ontology t) }
    ensures facts { IfOk result (λ t. HaveFacts closed.now.ontology closed.now.saturation.normal.asked t) }
    ensures needed { IfOk result (λ t. EachIsNeeded closed.now.ontology closed.now.saturation.normal.asked t) }
{
    add_facts(closed, LineText::new(closed.allocator())?)
}

/// The lines that `contradiction` gives, as text of a format.
///
/// # Errors
///
/// `Memory` where memory was refused.
pub fn contradiction_text<F: FormatType>(closed: &Closed<'_>) -> Result<LineText<F>, Memory>
    requires contradictory { IsConsistent closed.now.ontology closed.now.saturation.normal.asked → ⊥ }
    ensures { IfOk result (λ t. DerivesContradiction closed.now.ontology t) }
{
    add_contradiction(closed, LineText::new(closed.allocator())?)
}
