//! The way back through what a search reached.
ghost use Rattle.explain.specs.Search.{AreEarlier, HasNo, IsTrace, StandsAt};
ghost use Rattle.std.specs.Prelude.{◌<◌, IfOk, MatchOption, length};

use crate::reached::Reached;
use axioms::Memory;
use std::alloc::Global;

/// The first place of the number, if it was reached.
pub(crate) fn place_of(reached: &[Reached], number: u32) -> Option<usize>
    ensures { MatchOption result (HasNo reached.now number) (StandsAt reached.now number) }
{
    for (place, item) in reached.iter().enumerate() {
        if item.number == number {
            return Some(place);
        }
    }
    None
}

/// The numbers of the forms that led to what was reached at that place, in order.
pub(crate) fn walk(alloc: Global, reached: &[Reached], place: usize) -> Result<Vec<u32>, Memory>
    requires earlier { AreEarlier reached.now }
    requires there { place < length reached.now }
    ensures { IfOk result (λ v. IsTrace reached.now place v.items) }
{
    let mut numbers = Vec::new(alloc);
    let mut at = place;
    while let Some(way) = reached[at].way {
        numbers.push(way.form)?;
        at = way.from as usize;
    }
    numbers.reverse();
    Ok(numbers)
}
