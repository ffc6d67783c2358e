//! The normal forms of an ontology.
ghost use Rattle.std.specs.Prelude.{◌≡◌, ◌<◌, ◌^◌, length, IfOk, map, option_map, slice_get, []};
ghost use Rattle.axioms.specs.View.{expr_numbers, prop_numbers};
ghost use Rattle.normal_forms.specs.Apart.{no_lists};
ghost use Rattle.normalise.specs.Entries.{form_in, origin_in};

use crate::made::Made;
use axioms::{ExprId, Memory, PropId};
use normal_forms::{ApartLists, FormList, Origin};
use number_sets::Row;
use std::alloc::Global;
use std::hash::RandomState;
use std::marker::Model;

/// The normal forms of an ontology and of expressions that are asked about, each with what gave it: as a list of forms, and as lists of what
/// is apart.
pub struct Normal {
    pub(crate) alloc: Global,
    pub(crate) made: Made,
    pub(crate) asked: Vec<ExprId>,
    // of each expression, whether it occurs right, and left
    pub(crate) right: Row,
    pub(crate) left: Row,
}

// A value is let go by one call, where each way out would else let each field go.
impl Drop for Normal {
    fn drop(self) {
        let Normal {
            alloc: _,
            made: _,
            asked: _,
            right: _,
            left: _,
        } = self;
    }
}

impl Model for Normal {
    ghost use Rattle.axioms.specs.View.{expr_numbers};
    ghost use Rattle.normalise.specs.Listing.{Listing};
    ghost use Rattle.normalise.specs.Named.{AreNamedBelow};
    ghost use Rattle.std.specs.Prelude.{length};

    ghost Value = { Listing };

    ghost view = { λ n. record {
      entries = n.made.entries;
      apart = n.made.apart.lists;
      disjoint_axioms = n.made.apart.disjoint_axioms;
      different_axioms = n.made.apart.different_axioms;
      operands = n.made.operands;
      steps = n.made.steps;
      asked = expr_numbers n.asked.items;
      right = n.right;
      left = n.left;
    } };

    ghost invariant = { λ n. AreNamedBelow (length n.right) n.made.entries n.made.apart.lists.classes };
}

impl Normal {
    // No forms.
    pub(crate) fn empty(alloc: Global, state: RandomState) -> Result<Normal, Memory>
        ensures { IfOk result (λ n. n ≡ record { entries = []; apart = no_lists; disjoint_axioms = []; different_axioms = []; operands = []; steps = []; asked = []; right = []; left = [] }) }
    {
        let right = Row::new(alloc, 0)?;
        let left = Row::new(alloc, 0)?;
        Ok(Normal {
            alloc,
            made: Made::new(alloc, state),
            asked: Vec::new(alloc),
            right,
            left,
        })
    }

    /// The forms, by number from 0.
    pub fn forms(&self) -> &FormList
        ensures { result.now ≡ map form_in self.now.entries }
    {
        self.made.entries.forms()
    }

    /// What gave the form of that number.
    pub fn origin(&self, number: usize) -> Option<Origin>
        ensures { result ≡ option_map origin_in (slice_get self.now.entries number) }
    {
        self.made.entries.origin(number)
    }

    /// The lists of what is apart. They hold the forms of each two of their members.
    pub fn apart(&self) -> &ApartLists
        ensures { result.now ≡ self.now.apart }
    {
        self.made.apart.lists()
    }

    /// The number, from 1, of the axiom that gave the list of disjoint classes of that number.
    pub fn disjoint_axiom(&self, list: usize) -> Option<usize>
        ensures { result ≡ slice_get self.now.disjoint_axioms list }
    {
        self.made.apart.disjoint_axiom(list)
    }

    /// The number, from 1, of the axiom that gave the list of different individuals of that number.
    pub fn different_axiom(&self, list: usize) -> Option<usize>
        ensures { result ≡ slice_get self.now.different_axioms list }
    {
        self.made.apart.different_axiom(list)
    }

    /// The operands that the fresh name [`Class2::Partial`](normal_forms::Class2::Partial) of that number stands for.
    pub fn operands(&self, number: usize) -> Option<&[ExprId]>
        ensures { option_map (λ s. expr_numbers s.now) result ≡ slice_get self.now.operands number }
    {
        self.made.operands.get(number)
    }

    /// The properties that the fresh name [`PropId2::Partial`](normal_forms::PropId2::Partial) of that number stands for.
    pub fn steps(&self, number: usize) -> Option<&[PropId]>
        ensures { option_map (λ s. prop_numbers s.now) result ≡ slice_get self.now.steps number }
    {
        self.made.steps.get(number)
    }

    /// How many fresh names of prefixes of intersections there are, fewer than 2^32.
    pub fn partial_intersections(&self) -> usize
        ensures count { result ≡ length self.now.operands }
        ensures small { result < 2 ^ 32 }
    {
        self.made.operands.len()
    }

    /// How many fresh names of prefixes of chains there are, fewer than 2^32.
    pub fn partial_chains(&self) -> usize
        ensures count { result ≡ length self.now.steps }
        ensures small { result < 2 ^ 32 }
    {
        self.made.steps.len()
    }

    /// There are fewer than 2^32 fresh names of each kind. This changes nothing.
    pub fn bounded(&self)
        ensures operands { length self.now.operands < 2 ^ 32 }
        ensures steps { length self.now.steps < 2 ^ 32 }
    {
        self.partial_intersections();
        self.partial_chains();
    }

    /// The expressions that [`Normal::ask`] was given, each once, in order.
    pub fn asked(&self) -> &[ExprId]
        ensures { expr_numbers result.now ≡ self.now.asked }
    {
        &self.asked
    }

    /// The same forms, with the same numbers.
    ///
    /// # Errors
    ///
    /// `Memory` where memory was refused.
    pub fn copy(&self) -> Result<Normal, Memory>
        ensures { IfOk result (λ n. n ≡ self.now) }
    {
        let asked = self.asked.clone()?;
        let right = self.right.copy(self.alloc)?;
        let left = self.left.copy(self.alloc)?;
        let made = self.made.copy(self.alloc)?;
        Ok(Normal {
            alloc: self.alloc,
            made,
            asked,
            right,
            left,
        })
    }

    /// The same, so that copies of the list of forms are in the same memory, where none is refused.
    pub fn share(self) -> Normal
        ensures { result ≡ self }
    {
        let Normal {
            alloc,
            made,
            asked,
            right,
            left,
        } = self;
        Normal {
            alloc,
            made: made.share(),
            asked,
            right,
            left,
        }
    }
}
