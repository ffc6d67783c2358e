//! How owl:Nothing at the end of a walk is carried to its start.
ghost use Rattle.cert_check.specs.Derivation.{IsDerivation};
ghost use Rattle.certificate.specs.Certificate.{Sub, Subject as Subject2};
ghost use Rattle.explain.specs.Walks.{LeadsToNothing, PutsIntoNothing};
ghost use Rattle.explain.specs.Uses.{IsAmong, Uses};
ghost use Rattle.explain.specs.LinesOfFacts.{Lengthens};
ghost use Rattle.std.specs.Prelude.{◌++◌, ◌∷◌, [], IfOk, OnOk, Some};

use crate::derivation::Derivation;
use crate::sink::LineSink;
use axioms::{ExprId, Memory};
use certificate::{Conclusion, Rule};
use engine::Closed;

// Adds the line that carries owl:Nothing from the target of an edge to its source, and gives its number.
fn carried_over<L: LineSink>(
    closed: &Closed<'_>,
    derivation: &mut Derivation<L>,
    edge: u64,
    end: u64,
) -> Result<u64, Memory>
    requires derivation { IsDerivation closed.now.ontology derivation.old }
    requires edge { (x : Subject2) × LeadsToNothing derivation.old (edge ∷ []) end x }
    ensures derivation { OnOk result (IsDerivation closed.now.ontology derivation.new) }
    ensures longer { OnOk result (Lengthens derivation.old derivation.new) }
    ensures shown { IfOk result (PutsIntoNothing derivation.old derivation.new (edge ∷ []) end) }
    ensures used { IfOk result (λ n. Uses derivation.old derivation.new (IsAmong (edge ∷ end ∷ [])) (n ∷ [])) }
{
    closed.well_formed();
    let Some(source) = derivation.source(edge) else {
        // The edge has a line.
        unreachable!()
    };
    let conclusion = Conclusion::Sub(source, ExprId::NOTHING);
    let number = derivation.add(conclusion, Rule::K11, None, &[edge, end])?;
    Ok(number)
}

/// Adds the lines that carry owl:Nothing from the end of a walk to its start, and gives the number of the last; `end` is the number
/// of a line that puts the end there.
///
/// # Errors
///
/// `Memory` where memory was refused.
pub(crate) fn carried_back<L: LineSink>(
    closed: &Closed<'_>,
    derivation: &mut Derivation<L>,
    walk: &[u64],
    end: u64,
) -> Result<u64, Memory>
    requires derivation { IsDerivation closed.now.ontology derivation.old }
    requires walk { (x : Subject2) × LeadsToNothing derivation.old walk.now end x }
    ensures derivation { OnOk result (IsDerivation closed.now.ontology derivation.new) }
    ensures longer { OnOk result (Lengthens derivation.old derivation.new) }
    ensures shown { IfOk result (PutsIntoNothing derivation.old derivation.new walk.now end) }
    ensures used { IfOk result (λ n. Uses derivation.old derivation.new (IsAmong (walk.now ++ end ∷ [])) (n ∷ [])) }
{
    let mut number = end;
    for k in (0..walk.len()).rev() {
        number = carried_over(closed, derivation, walk[k], number)?;
    }
    Ok(number)
}
