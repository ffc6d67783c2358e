//! What lists of different individuals give: `owl:Nothing` in an individual that is one with another of its list.
ghost use Rattle.std.specs.Prelude.{◌≡◌, ◌<◌, ℕ, IfOk, Some, false, length, slice_get, true};
ghost use Rattle.inference.specs.Derivations.{IsDerived};
ghost use Rattle.inference.specs.Differences.{AreDrawnIn, AreLastPlaces, HasSameLater, IsDrawnAt};
ghost use Rattle.inference.specs.Draws.{Draws};
ghost use Rattle.inference.specs.Sameness.{AreDifferencesDrawn, IsDifferenceDrawn};

use crate::conclusions::NOTHING;
use crate::known_facts::{KnownFacts, Stop};
use crate::rules::Rules;
use axioms::{IndId, Memory};
use facts::{Context, Fact};
use std::alloc::Global;
use std::collections::BTreeMap;

impl Rules<'_> {
    /// Whether the numbers of the leasts of the groups ascend along the list, so that no two of its individuals are one. It takes no memory.
    fn ascends(&self, list: &[IndId]) -> bool
        ensures { result ≡ true → (place : ℕ) → HasSameLater self.now.problem.now.forms list.now place → ⊥ }
    {
        let mut end = 0;
        for place in 0..list.len() {
            let least = self.groups.least(list[place]).0 as usize;
            if least < end {
                return false;
            }
            end = least + 1;
        }
        true
    }

    /// Of each group of individuals that are one, of which the list has one, the last place with one, by the number of the least of the
    /// group. Memory goes by these groups.
    fn last_places(&self, alloc: Global, list: &[IndId]) -> Result<BTreeMap<u32, usize>, Memory>
        ensures { IfOk result (λ last. AreLastPlaces self.now.problem.now.forms list.now last) }
    {
        let mut last = BTreeMap::new(alloc);
        for place in 0..list.len() {
            let least = self.groups.least(list[place]);
            let Ok(_) = last.insert(least.0, place) else {
                return Err(Memory);
            };
        }
        Ok(last)
    }

    /// Whether an individual that is one with that at the place of the list is at a later place.
    fn has_same_later(&self, list: &[IndId], last: &BTreeMap<u32, usize>, place: usize) -> bool
        requires last { AreLastPlaces self.now.problem.now.forms list.now last.now }
        requires place { place < length list.now }
        ensures yes { result ≡ true → HasSameLater self.now.problem.now.forms list.now place }
        ensures no { result ≡ false → HasSameLater self.now.problem.now.forms list.now place → ⊥ }
    {
        match last.get(&self.groups.least(list[place]).0) {
            Some(later) => *later > place,
            None => false,
        }
    }

    /// Adds `owl:Nothing` to the individual at the place of the list of that number, where one at a later place is one with it.
    fn draw_difference(
        &self,
        facts: &mut KnownFacts,
        number: u32,
        list: &[IndId],
        last: &BTreeMap<u32, usize>,
        place: usize,
    ) -> Result<(), Stop>
        requires derived { IsDerived self.now.problem.now facts.old }
        requires list { slice_get self.now.problem.now.apart.individuals number ≡ Some list.now }
        requires last { AreLastPlaces self.now.problem.now.forms list.now last.now }
        requires place { place < length list.now }
        ensures { Draws self.now facts.old facts.new result (IsDrawnAt self.now.problem.now.forms list.now facts.new.facts place) }
    {
        if self.has_same_later(list, last, place) {
            let bottom = Fact::In(NOTHING, Context::Individual(list[place]));
            self.add(facts, bottom, 12, &[], Some(number))?;
        }
        Ok(())
    }

    /// Adds `owl:Nothing` to each individual of the list of that number, where one at a later place is one with it.
    fn draw_places(
        &self,
        facts: &mut KnownFacts,
        number: u32,
        list: &[IndId],
        last: &BTreeMap<u32, usize>,
    ) -> Result<(), Stop>
        requires derived { IsDerived self.now.problem.now facts.old }
        requires list { slice_get self.now.problem.now.apart.individuals number ≡ Some list.now }
        requires last { AreLastPlaces self.now.problem.now.forms list.now last.now }
        ensures { Draws self.now facts.old facts.new result (AreDrawnIn self.now.problem.now.forms list.now facts.new.facts) }
    {
        for place in 0..list.len() {
            self.draw_difference(facts, number, list, last, place)?;
        }
        Ok(())
    }

    /// Adds `owl:Nothing` to the first of each two individuals of the list of that number that are one. Memory goes by the groups, where their
    /// leasts do not ascend along the list.
    fn draw_list(&self, facts: &mut KnownFacts, number: u32, list: &[IndId]) -> Result<(), Stop>
        requires derived { IsDerived self.now.problem.now facts.old }
        requires list { slice_get self.now.problem.now.apart.individuals number ≡ Some list.now }
        ensures { Draws self.now facts.old facts.new result (IsDifferenceDrawn self.now.problem.now facts.new.facts number) }
    {
        if self.ascends(list) {
            return Ok(());
        }
        let last = self.last_places(facts.allocator(), list)?;
        self.draw_places(facts, number, list, &last)?;
        Ok(())
    }

    /// Adds `owl:Nothing` to the first of each two individuals of a list of different individuals that are one. For a list of n
    /// individuals it takes time by n log n.
    pub(crate) fn draw_different(&self, facts: &mut KnownFacts) -> Result<(), Stop>
        requires { IsDerived self.now.problem.now facts.old }
        ensures { Draws self.now facts.old facts.new result (AreDifferencesDrawn self.now.problem.now facts.new.facts) }
    {
        let lists = &self.problem.apart().individuals;
        for number in 0..lists.len() {
            // Not where there are fewer than 2^32 lists.
            let Ok(list) = u32::try_from(number) else {
                return Err(Stop::Memory);
            };
            self.draw_list(facts, list, lists.at(number))?;
        }
        Ok(())
    }
}
