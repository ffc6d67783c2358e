//! What a search along forms keeps of each number that it reaches.
ghost use Rattle.explain.specs.Search.{step_from};
ghost use Rattle.std.specs.Prelude.{◌<◌, ◌^◌, refl};

use crate::told::Told;
use number_sets::Found;

/// The last step to a number: the form of that number, from what was reached at the place `from`.
#[derive(Clone, Copy, PartialEq, Eq)]
pub(crate) struct Way {
    pub form: u32,
    pub from: u32,
}

/// The number of a property or individual that was reached, and the last step to it; none where the search began there.
#[derive(Clone, Copy, PartialEq, Eq)]
pub(crate) struct Reached {
    pub number: u32,
    pub way: Option<Way>,
}

impl Found<Told> for Reached {
    ghost number = { λ r. r.number };

    ghost target = { λ t. t.to };

    ghost by = { λ t place. step_from place t };

    ghost can_keep = { λ place. place < 2 ^ 32 };

    ghost same_number = { λ t place. refl };

    fn number(self) -> usize {
        self.number as usize
    }

    fn by(step: Told, place: usize) -> Reached {
        let way = Way {
            form: step.form,
            from: place as u32,
        };
        Reached {
            number: step.to,
            way: Some(way),
        }
    }
}
