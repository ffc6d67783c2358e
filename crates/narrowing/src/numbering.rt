//! Numberings of elements: by their places among those that are used, and by the intervals that they lie in.
ghost use Rattle.narrowing.specs.Cut.{interval_of};
ghost use Rattle.narrowing.specs.Narrowed.{place_among};
ghost use Rattle.std.specs.List.{AllPairs};
ghost use Rattle.std.specs.Prelude.{◌<◌, ◌≡◌, ◌^◌, length, nat_le, ℕ};

/// Another number for each element.
pub(crate) trait Numbering {
    ghost number: { Self → ℕ → ℕ };

    /// The number of the element.
    fn number_of(&self, element: u32) -> u32
        ensures { result ≡ number self.now element };
}

/// The elements that are used. The number of an element is its place among these, or how many these are where it is none of them.
#[derive(Drop)]
pub(crate) struct Places {
    pub used: Vec<u32>,
    ghost ascend: { AllPairs (λ x y. x < y) used.items },
    ghost few: { length used.items < 2 ^ 32 },
}

/// Where all intervals but the first begin. The number of an element is that of the interval that it lies in.
#[derive(Drop)]
pub(crate) struct Intervals {
    pub starts: Vec<u32>,
    ghost ascend: { AllPairs (λ x y. x < y) starts.items },
    ghost few: { length starts.items < 2 ^ 32 },
}

impl Numbering for Places {
    ghost number = { λ places. place_among places.used.items };

    fn number_of(&self, element: u32) -> u32 {
        match self.used.binary_search(&element) {
            Ok(place) => place as u32,
            Err(_) => self.used.len() as u32,
        }
    }
}

impl Numbering for Intervals {
    ghost number = { λ intervals. interval_of intervals.starts.items };

    fn number_of(&self, element: u32) -> u32 {
        let count = self.starts.partition_point(
            |start: &u32| -> bool
                ensures { result ≡ nat_le start.now element }
            { *start <= element },
        );
        count as u32
    }
}
