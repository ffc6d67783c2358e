//! The classes that lines put above each class and each individual.
ghost use Rattle.cert_check.specs.Lists.{AddsNumbers, PutsBelow, PutsInto};
ghost use Rattle.certificate.specs.View.{conclusion_of};
ghost use Rattle.std.specs.Prelude.{◌<◌, MatchOption, OnOk, ℕ};

use axioms::{ClassId, IndId, Memory, Ontology};
use certificate::{Conclusion, Subject};
use number_sets::OpenLists;

// The class that the conclusion is about, and the class that it puts above it.
fn class_pair(ontology: &Ontology, conclusion: Conclusion) -> Option<(ClassId, ClassId)>
    ensures { MatchOption result ((c d : ℕ) → PutsBelow ontology.now (conclusion_of conclusion) c d → ⊥)
        (λ p. PutsBelow ontology.now (conclusion_of conclusion) p.0.0 p.1.0) }
{
    match conclusion {
        Conclusion::Sub(Subject::Expr(expression), above) => {
            let class = ontology.class_of(expression)?;
            let above = ontology.class_of(above)?;
            Some((class, above))
        }
        _ => None,
    }
}

// The individual that the conclusion is about, and the class that it puts above it.
fn type_pair(ontology: &Ontology, conclusion: Conclusion) -> Option<(IndId, ClassId)>
    ensures { MatchOption result ((a d : ℕ) → PutsInto ontology.now (conclusion_of conclusion) a d → ⊥)
        (λ p. PutsInto ontology.now (conclusion_of conclusion) p.0.0 p.1.0) }
{
    match conclusion {
        Conclusion::Sub(Subject::Individual(individual), above) => {
            let above = ontology.class_of(above)?;
            Some((individual, above))
        }
        _ => None,
    }
}

/// Adds the class that the conclusion puts above a class.
///
/// It fails only where memory is refused.
pub(crate) fn put_below(
    ontology: &Ontology,
    lists: &mut OpenLists,
    conclusion: Conclusion,
) -> Result<(), Memory>
    ensures { OnOk result (AddsNumbers (PutsBelow ontology.now (conclusion_of conclusion)) lists.old lists.new) }
{
    if let Some((class, above)) = class_pair(ontology, conclusion) {
        lists.push(class.0 as usize, above.0)?;
    }
    Ok(())
}

/// Adds the class that the conclusion puts an individual into.
///
/// It fails only where memory is refused.
pub(crate) fn put_into(
    ontology: &Ontology,
    lists: &mut OpenLists,
    conclusion: Conclusion,
) -> Result<(), Memory>
    ensures { OnOk result (AddsNumbers (PutsInto ontology.now (conclusion_of conclusion)) lists.old lists.new) }
{
    if let Some((individual, above)) = type_pair(ontology, conclusion) {
        lists.push(individual.0 as usize, above.0)?;
    }
    Ok(())
}
