//! Lists of what is apart, each with the number of its axiom.
ghost use Rattle.normalise.specs.Apart.{AreNumbered, joined_apartness, no_apartness, with_classes, with_individuals};
ghost use Rattle.std.specs.Prelude.{◌≡◌, ◌++◌, IfOk, OnErr, OnOk, slice_get};

use axioms::{ExprId, IndId, Memory};
use normal_forms::ApartLists;
use std::alloc::Global;
use std::marker::Model;

/// Lists of what is apart, and of each list the number of its axiom, from 1.
pub(crate) struct Apart {
    lists: ApartLists,
    // one for each list of classes, and one for each of individuals
    disjoint_axioms: Vec<u32>,
    different_axioms: Vec<u32>,
}

// A value is let go by one call, where each way out would else let each field go.
impl Drop for Apart {
    fn drop(self) {
        let Apart {
            lists: _,
            disjoint_axioms: _,
            different_axioms: _,
        } = self;
    }
}

impl Model for Apart {
    ghost use Rattle.normalise.specs.Apart.{Apartness, AreNumbered};

    ghost Value = { Apartness };

    ghost view = { λ a. record { lists = a.lists; disjoint_axioms = a.disjoint_axioms.items; different_axioms = a.different_axioms.items } };

    ghost invariant = { λ a. AreNumbered a.lists a.disjoint_axioms.items a.different_axioms.items };
}

// The number at that place.
fn number_at(numbers: &[u32], place: usize) -> Option<usize>
    ensures { result ≡ slice_get numbers.now place }
{
    let number = numbers.get(place)?;
    Some(*number as usize)
}

// The numbers of the first list, and then those of the second.
fn joined(alloc: Global, first: &[u32], second: &[u32]) -> Result<Vec<u32>, Memory>
    ensures { IfOk result (λ all. all.items ≡ first.now ++ second.now) }
{
    let count = first.len().saturating_add(second.len());
    let mut all = Vec::with_capacity(alloc, count)?;
    all.extend_from_slice(first)?;
    all.extend_from_slice(second)?;
    Ok(all)
}

impl Apart {
    // No lists.
    pub(crate) fn new(alloc: Global) -> Apart
        ensures { result ≡ no_apartness }
    {
        Apart {
            lists: ApartLists::new(alloc),
            disjoint_axioms: Vec::new(alloc),
            different_axioms: Vec::new(alloc),
        }
    }

    pub(crate) fn lists(&self) -> &ApartLists
        ensures { result.now ≡ self.now.lists }
    {
        &self.lists
    }

    // The number of the axiom that has the classes of the list of that number.
    pub(crate) fn disjoint_axiom(&self, list: usize) -> Option<usize>
        ensures { result ≡ slice_get self.now.disjoint_axioms list }
    {
        number_at(&self.disjoint_axioms, list)
    }

    // The number of the axiom that has the individuals of the list of that number.
    pub(crate) fn different_axiom(&self, list: usize) -> Option<usize>
        ensures { result ≡ slice_get self.now.different_axioms list }
    {
        number_at(&self.different_axioms, list)
    }

    // Adds a list of classes, which the axiom of that number has. Fails where that is 2^32 or more, too.
    pub(crate) fn push_classes(&mut self, classes: &[ExprId], number: usize) -> Result<(), Memory>
        ensures numbered { OnOk result (AreNumbered self.old.lists self.old.disjoint_axioms self.old.different_axioms) }
        ensures ok { OnOk result (self.new ≡ with_classes self.old classes.now number) }
        ensures err { OnErr result (self.new ≡ self.old) }
    {
        let Ok(stored) = u32::try_from(number) else {
            return Err(Memory);
        };
        self.disjoint_axioms.reserve(1)?;
        self.lists.classes.push_list(classes)?;
        self.disjoint_axioms.push_reserved(stored);
        Ok(())
    }

    // Adds a list of individuals, which the axiom of that number has. Fails where that is 2^32 or more, too.
    pub(crate) fn push_individuals(
        &mut self,
        individuals: &[IndId],
        number: usize,
    ) -> Result<(), Memory>
        ensures numbered { OnOk result (AreNumbered self.old.lists self.old.disjoint_axioms self.old.different_axioms) }
        ensures ok { OnOk result (self.new ≡ with_individuals self.old individuals.now number) }
        ensures err { OnErr result (self.new ≡ self.old) }
    {
        let Ok(stored) = u32::try_from(number) else {
            return Err(Memory);
        };
        self.different_axioms.reserve(1)?;
        self.lists.individuals.push_list(individuals)?;
        self.different_axioms.push_reserved(stored);
        Ok(())
    }

    // These lists, and the others behind them.
    pub(crate) fn joined(&self, alloc: Global, more: &Apart) -> Result<Apart, Memory>
        ensures { IfOk result (λ all. all ≡ joined_apartness self.now more.now) }
    {
        let lists = self.lists.joined(alloc, &more.lists)?;
        let disjoint_axioms = joined(alloc, &self.disjoint_axioms, &more.disjoint_axioms)?;
        let different_axioms = joined(alloc, &self.different_axioms, &more.different_axioms)?;
        Ok(Apart {
            lists,
            disjoint_axioms,
            different_axioms,
        })
    }

    // The same.
    pub(crate) fn copy(&self, alloc: Global) -> Result<Apart, Memory>
        ensures { IfOk result (λ copy. copy ≡ self.now) }
    {
        let lists = self.lists.copy(alloc)?;
        let disjoint_axioms = self.disjoint_axioms.clone()?;
        let different_axioms = self.different_axioms.clone()?;
        Ok(Apart {
            lists,
            disjoint_axioms,
            different_axioms,
        })
    }
}
