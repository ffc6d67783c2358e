//! What a fact says of named classes and of individuals.
ghost use Rattle.classification.specs.Lists.{PutsBelow, PutsInto};
ghost use Rattle.std.specs.Prelude.{◌<◌, IfSome, MatchOption, length, ℕ};

use axioms::{ClassId, IndId, Ontology};
use facts::{Context, Fact, StoredFact};
use normal_forms::Class2;

/// The named class that the fact is about, and the named class that it puts above it; `None` where it is about no two of them.
pub fn class_pair(ontology: &Ontology, fact: &StoredFact) -> Option<(ClassId, ClassId)>
    ensures pair { MatchOption result ((c d : ℕ) → PutsBelow ontology.now fact.now c d → ⊥)
        (λ p. PutsBelow ontology.now fact.now p.0.0 p.1.0) }
    ensures within { IfSome result (λ p. p.0.0 < length ontology.now.names.classes) }
{
    match fact.get() {
        Fact::In(Class2::Expr(above), Context::Expr(expression)) => {
            let class = ontology.class_of(expression)?;
            let above = ontology.class_of(above)?;
            Some((class, above))
        }
        _ => None,
    }
}

/// The individual that the fact is about, and the named class that it puts it into; `None` where it is about no individual, or puts
/// it into no named class.
pub fn type_pair(ontology: &Ontology, fact: &StoredFact) -> Option<(IndId, ClassId)>
    ensures { MatchOption result ((a d : ℕ) → PutsInto ontology.now fact.now a d → ⊥)
        (λ p. PutsInto ontology.now fact.now p.0.0 p.1.0) }
{
    match fact.get() {
        Fact::In(Class2::Expr(class), Context::Individual(individual)) => {
            let class = ontology.class_of(class)?;
            Some((individual, class))
        }
        _ => None,
    }
}
