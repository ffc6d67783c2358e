//! The facts of contexts.
ghost use Rattle.countermodel.specs.Elements.{contexts_of};
ghost use Rattle.countermodel.specs.FactsOf.{AddsFacts, AreFactsOf};
ghost use Rattle.std.specs.Prelude.{◌<◌, All, IfOk, OnOk, length};

use axioms::Memory;
use engine::Indexed;
use facts::{Context, StoredFact};

/// Adds the facts of these numbers.
fn push_facts(
    facts: &mut Vec<StoredFact>,
    all: &[StoredFact],
    numbers: &[u32],
) -> Result<(), Memory>
    requires { All (λ n. n < length all.now) numbers.now }
    ensures { OnOk result (AddsFacts all.now numbers.now facts.old.items facts.new.items) }
{
    for number in numbers {
        facts.push(all[*number as usize].clone()?)?;
    }
    Ok(())
}

/// The facts that put a class into one of the contexts, and the edges from them.
pub(crate) fn facts_of(
    indexed: &Indexed<'_>,
    contexts: &[Context],
) -> Result<Vec<StoredFact>, Memory>
    ensures { IfOk result (λ facts. AreFactsOf (contexts_of contexts.now) indexed.now.saturation.state.facts facts.items) }
{
    let closed = indexed.closed();
    let alloc = closed.allocator();
    let all = closed.facts();
    let mut facts = Vec::new(alloc);
    for context in contexts {
        push_facts(&mut facts, all, indexed.classes_in(*context))?;
        push_facts(&mut facts, all, indexed.edges_from(*context))?;
    }
    Ok(facts)
}
