//! Elements that are chosen, and their places.
ghost use Rattle.generated_part.specs.Part.{AreChosen};
ghost use Rattle.std.specs.Prelude.{IfOk, length};

use axioms::Memory;
use number_sets::EpochSet;
use std::alloc::Global;

/// Elements, ascending, and for each element of the whole how many of them come before it: its place, if it is one of them.
#[derive(Drop)]
pub(crate) struct Chosen {
    pub elements: Vec<usize>,
    pub places: Vec<usize>,
}

/// The elements of the set.
///
/// # Errors
///
/// `Memory` where memory was refused.
pub(crate) fn chosen_by(alloc: Global, marks: &EpochSet) -> Result<Chosen, Memory>
    ensures { IfOk result (λ c. AreChosen marks.now (length marks.now) c.elements.items c.places.items) }
{
    let mut elements = Vec::new(alloc);
    let mut places = Vec::new(alloc);
    for element in 0..marks.len() {
        places.push(elements.len())?;
        if marks.contains(element) {
            elements.push(element)?;
        }
    }
    Ok(Chosen { elements, places })
}
