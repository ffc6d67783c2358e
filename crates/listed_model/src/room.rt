//! What tests work with.
ghost use Rattle.listed_model.specs.PropertyTests.{AreShown};
ghost use Rattle.std.specs.Prelude.{◌≡◌, IfOk, List, length, ℕ};

use crate::shown::Shown;
use axioms::Memory;
use number_sets::EpochSet;
use std::alloc::Global;

/// Two sets of elements, and what was shown of properties.
#[derive(Drop)]
pub(crate) struct Room {
    pub seen: EpochSet,
    pub done: EpochSet,
    pub shown: Shown,
}

impl Room {
    /// Room for so many elements, with nothing shown.
    pub(crate) fn new(alloc: Global, domain: usize) -> Result<Room, Memory>
        ensures seen { IfOk result (λ room. length room.seen ≡ domain) }
        ensures shown { IfOk result (λ room. (rows : List (ℕ × ℕ × List ℕ)) → AreShown rows room.shown) }
    {
        let seen = EpochSet::new(alloc, domain)?;
        let done = EpochSet::new(alloc, domain)?;
        Ok(Room {
            seen,
            done,
            shown: Shown::new(alloc),
        })
    }
}
