//! What is left of a derivation for one of its lines.
ghost use Rattle.axioms.specs.Ontology.{Ontology as Ontology2};
ghost use Rattle.axioms.specs.View.{at_number};
ghost use Rattle.cert_check.specs.Derivation.{IsDerivation};
ghost use Rattle.certificate.specs.Certificate.{Line as Line2};
ghost use Rattle.certificate.specs.View.{lines_of};
ghost use Rattle.exactness.specs.Trimming.{EachServes, EndsWith, IsTrimmed};
ghost use Rattle.std.specs.Prelude.{◌<◌, ◌≤◌, ◌≡◌, IfOk, Some, length};

use crate::kept::kept;
use crate::resting::rests;
use axioms::Memory;
use certificate::Line;
use std::alloc::Global;

/// The lines of a derivation that one of them, the goal, rests on, and the goal last. Lines are counted from 1, and a premise
/// stands by the number that its line then has.
///
/// # Errors
///
/// `Memory` where memory was refused.
pub fn trimmed(alloc: Global, lines: &[Line], goal: usize) -> Result<Vec<Line>, Memory>
    requires derivation { (o : Ontology2) × IsDerivation o (lines_of lines.now) }
    requires counted { 0 < goal }
    requires there { goal ≤ length lines.now }
    // Those lines and no others.
    ensures trimmed { IfOk result (λ v. IsTrimmed (lines_of lines.now) goal (lines_of v.items)) }
    ensures derivation { IfOk result (λ v. (o : Ontology2) → IsDerivation o (lines_of lines.now) → IsDerivation o (lines_of v.items)) }
    ensures last { IfOk result (λ v. (line : Line2) → at_number (lines_of lines.now) goal ≡ Some line → EndsWith (lines_of v.items) line.conclusion) }
    // Each other line is a premise of a later one.
    ensures serves { IfOk result (λ v. EachServes (lines_of v.items)) }
{
    let marks = rests(alloc, lines, goal)?;
    let left = kept(alloc, lines, &marks)?;
    Ok(left)
}
