//! The search for the numbers that steps lead to, from number to number.
ghost use Rattle.number_sets.specs.Members.{has};
ghost use Rattle.number_sets.specs.Search.{AreFound, IsBounded, LeadsTo, search_of, with_number, with_starts, with_steps};
ghost use Rattle.std.specs.Prelude.{◌<◌, ◌↔◌, ◌≡◌, All, IfOk, OnOk, length, refl, true, ℕ};

use crate::epoch_set::EpochSet;
use crate::packed_lists::PackedLists;
use std::alloc::{AllocError, Global};

/// What a search keeps of a number that it found by steps `T`.
pub trait Found<T>: Copy + Drop {
    ghost number: { Self → ℕ };

    // where a step leads to
    ghost target: { T → ℕ };

    // what is kept where a step lifted from what was found at a place
    ghost by: { T → ℕ → Self };

    ghost can_keep: { ℕ → Type 0 };

    fn number(self) -> usize
        ensures { result ≡ number self };

    /// What is kept where this step lifted from what was found at that place.
    fn by(step: T, place: usize) -> Self
        requires { can_keep place }
        ensures { result ≡ by step place };

    ghost same_number: { (step : T) (place : ℕ) → number (by step place) ≡ target step };
}

/// The number alone.
impl Found<u32> for u32 {
    ghost number = { λ n. n };

    ghost target = { λ n. n };

    ghost by = { λ step place. step };

    ghost can_keep = { λ place. Unit {0} };

    ghost same_number = { λ step place. refl };

    fn number(self) -> usize {
        self as usize
    }

    fn by(step: u32, _place: usize) -> u32 {
        step
    }
}

/// The number alone, where something else stands before it in each step.
impl<L: Copy> Found<(L, usize)> for usize {
    ghost number = { λ n. n };

    ghost target = { λ step. step.1 };

    ghost by = { λ step place. step.1 };

    ghost can_keep = { λ place. Unit {0} };

    ghost same_number = { λ step place. refl };

    fn number(self) -> usize {
        self
    }

    fn by(step: (L, usize), _place: usize) -> usize {
        step.1
    }
}

/// The numbers found so far, in order, and the same as a set.
#[derive(Drop)]
pub struct NumberSearch<F> {
    pub found: Vec<F>,
    pub seen: EpochSet,
}

impl<F: Copy + Drop> NumberSearch<F> {
    /// Nothing is found yet of the numbers below `n`. Fails where memory is refused.
    pub fn new(alloc: Global, n: usize) -> Result<NumberSearch<F>, AllocError>
        ensures { IfOk result (λ s. length s.seen ≡ n) }
    {
        Ok(NumberSearch {
            found: Vec::new(alloc),
            seen: EpochSet::new(alloc, n)?,
        })
    }

    /// Adds what is kept of a number, unless the number is there.
    fn add(&mut self, number: usize, kept: F) -> Result<(), AllocError>
        ensures { OnOk result
            (search_of self.new ≡ with_number (search_of self.old) number kept) }
    {
        if !self.seen.contains(number) {
            self.found.push(kept)?;
            self.seen.put(number);
        }
        Ok(())
    }

    /// Adds each of these.
    fn start<T>(&mut self, starts: &[F]) -> Result<(), AllocError>
    where
        F: Found<T>,
        ensures { OnOk result
            (search_of self.new ≡ with_starts F.number (search_of self.old) starts.now) }
    {
        for start in starts {
            self.add(start.number(), *start)?;
        }
        Ok(())
    }

    /// Adds what these steps lead to from what was found at that place.
    fn follow<T: Copy>(&mut self, steps: &[T], place: usize) -> Result<(), AllocError>
    where
        F: Found<T>,
        requires { F.can_keep place }
        ensures { OnOk result
            (search_of self.new ≡ with_steps F.number F.by place (search_of self.old) steps.now) }
    {
        for step in steps {
            let kept = F::by(*step, place);
            self.add(kept.number(), kept)?;
        }
        Ok(())
    }

    /// Finds these numbers, those that the steps in their lists lead to, and so on: each number once. Fails where memory is refused.
    pub fn run<T: Copy>(&mut self, lists: &PackedLists<T>, starts: &[F]) -> Result<(), AllocError>
    where
        F: Found<T>,
        requires bounded { IsBounded F.target lists.now }
        requires within { All (λ x. F.number x < length lists.now) starts.now }
        requires places { (place : ℕ) → place < length lists.now → F.can_keep place }
        requires wide { length self.old.seen ≡ length lists.now }
        ensures wide { OnOk result (length self.new.seen ≡ length lists.now) }
        ensures found { OnOk result (AreFound F.number F.target F.by starts.now lists.now self.new.found.items) }
        ensures seen { OnOk result ((d : ℕ) → (has self.new.seen d ≡ true) ↔ LeadsTo F.number F.target starts.now lists.now d) }
    {
        self.found.clear();
        self.seen.clear();
        self.start::<T>(starts)?;
        for next in 0..lists.len() {
            if next >= self.found.len() {
                return Ok(());
            }
            let number = self.found[next].number();
            self.follow(lists.at(number), next)?;
        }
        Ok(())
    }
}
