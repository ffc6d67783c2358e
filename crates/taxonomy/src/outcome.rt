//! What a classification found, and its texts in memory.
ghost use Rattle.std.specs.Prelude.{◌≡◌, IfOk};
ghost use Rattle.taxonomy.specs.Outcome.{IsMadeFor, instances_of, taxonomy_of};

use crate::instances_text::text_of_instances;
use crate::reduction::Taxonomy;
use crate::taxonomy_text::text_of_taxonomy;
use axioms::{Memory, Ontology};
use number_sets::PackedLists;
use std::alloc::Global;

/// What a classification found.
#[derive(Drop)]
pub enum Outcome {
    /// The taxonomy of the classes, and for each individual, by number, a list of the classes that it belongs to.
    Consistent(Taxonomy, PackedLists),
    /// The axioms contradict one another.
    Inconsistent,
}

/// The taxonomy text, in memory.
///
/// It fails only where memory is refused.
pub fn taxonomy_bytes(
    alloc: Global,
    ontology: &Ontology,
    outcome: &Outcome,
) -> Result<Vec<u8>, Memory>
    requires { IsMadeFor ontology.now outcome.now }
    ensures { IfOk result (λ v. v.items ≡ taxonomy_of ontology.now outcome.now) }
{
    match outcome {
        Outcome::Consistent(taxonomy, _) => {
            Ok(text_of_taxonomy(alloc, ontology.classes(), taxonomy)?)
        }
        Outcome::Inconsistent => Ok(Vec::from_slice(alloc, b"eltax 1 inconsistent\n")?),
    }
}

/// The instances text, in memory.
///
/// It fails only where memory is refused.
pub fn instances_bytes(
    alloc: Global,
    ontology: &Ontology,
    outcome: &Outcome,
) -> Result<Vec<u8>, Memory>
    requires { IsMadeFor ontology.now outcome.now }
    ensures { IfOk result (λ v. v.items ≡ instances_of ontology.now outcome.now) }
{
    match outcome {
        Outcome::Consistent(taxonomy, types) => {
            let classes = ontology.classes();
            let individuals = ontology.individuals();
            Ok(text_of_instances(alloc, classes, individuals, taxonomy, types)?)
        }
        Outcome::Inconsistent => Ok(Vec::from_slice(alloc, b"elinst 1 inconsistent\n")?),
    }
}
