//! Forms that become more, by a list of them and by lists of what is apart, with the tables of their prefixes.
ghost use Rattle.std.specs.Prelude.{◌≡◌, ℕ, ◌++◌, [], IfOk, OnOk};
ghost use Rattle.axioms.specs.View.{expr_numbers, ind_numbers};
ghost use Rattle.axioms.specs.WellFormedness.{AreDistinct};
ghost use Rattle.normal_forms.specs.Forms.{Form as Formed, N11};
ghost use Rattle.normal_forms.specs.Origins.{PairGives, disjoint};
ghost use Rattle.normal_forms.specs.declared.forms.Origin.TheVariants as origins;
ghost use Rattle.normalise.specs.Apart.{joined_apartness, no_apartness};
ghost use Rattle.normalise.specs.View.{Adds, From, IsOne, Says};

use crate::apart::Apart;
use crate::entries::{Entries, Entry};
use crate::table::Prefixes;
use axioms::{ExprId, IndId, Memory, PropId};
use normal_forms::{Form, Origin};
use std::alloc::Global;
use std::hash::RandomState;

/// Forms, each with what gave it, lists of what is apart that hold the forms of each two members, and the lists that the fresh names of the
/// forms stand for.
pub(crate) struct Made {
    pub(crate) entries: Entries,
    pub(crate) apart: Apart,
    pub(crate) operands: Prefixes<ExprId>,
    pub(crate) steps: Prefixes<PropId>,
}

// A value is let go by one call, where each way out would else let each field go.
impl Drop for Made {
    fn drop(self) {
        let Made {
            entries: _,
            apart: _,
            operands: _,
            steps: _,
        } = self;
    }
}

impl Made {
    // No forms.
    pub(crate) fn new(alloc: Global, state: RandomState) -> Made
        ensures entries { result.entries ≡ [] }
        ensures apart { result.apart ≡ no_apartness }
        ensures operands { result.operands ≡ [] }
        ensures steps { result.steps ≡ [] }
    {
        Made {
            entries: Entries::new(alloc),
            apart: Apart::new(alloc),
            operands: Prefixes::new(alloc, state),
            steps: Prefixes::new(alloc, state),
        }
    }

    // The same forms.
    pub(crate) fn copy(&self, alloc: Global) -> Result<Made, Memory>
        ensures { IfOk result (λ m. m ≡ self.now) }
    {
        let entries = self.entries.copy()?;
        let apart = self.apart.copy(alloc)?;
        let operands = self.operands.copy(alloc)?;
        let steps = self.steps.copy(alloc)?;
        Ok(Made {
            entries,
            apart,
            operands,
            steps,
        })
    }

    // No forms, with the same fresh names.
    pub(crate) fn begun(&self, alloc: Global) -> Result<Made, Memory>
        ensures entries { IfOk result (λ m. m.entries ≡ []) }
        ensures apart { IfOk result (λ m. m.apart ≡ no_apartness) }
        ensures operands { IfOk result (λ m. m.operands ≡ self.now.operands) }
        ensures steps { IfOk result (λ m. m.steps ≡ self.now.steps) }
    {
        let operands = self.operands.copy(alloc)?;
        let steps = self.steps.copy(alloc)?;
        Ok(Made {
            entries: Entries::new(alloc),
            apart: Apart::new(alloc),
            operands,
            steps,
        })
    }

    // The same, so that copies of the forms are in the same memory.
    pub(crate) fn share(self) -> Made
        ensures { result ≡ self }
    {
        let Made {
            entries,
            apart,
            operands,
            steps,
        } = self;
        Made {
            entries: entries.share(),
            apart,
            operands,
            steps,
        }
    }

    // These forms, and the others behind them, with the fresh names of those.
    pub(crate) fn joined(&self, alloc: Global, more: Made) -> Result<Made, Memory>
        ensures entries { IfOk result (λ m. m.entries ≡ self.now.entries ++ more.entries) }
        ensures apart { IfOk result (λ m. m.apart ≡ joined_apartness self.now.apart more.apart) }
        ensures operands { IfOk result (λ m. m.operands ≡ more.operands) }
        ensures steps { IfOk result (λ m. m.steps ≡ more.steps) }
    {
        let Made {
            entries,
            apart,
            operands,
            steps,
        } = more;
        let entries = self.entries.joined(entries)?;
        let apart = self.apart.joined(alloc, &apart)?;
        Ok(Made {
            entries,
            apart,
            operands,
            steps,
        })
    }

    pub(crate) fn add(&mut self, form: Form, origin: Origin) -> Result<(), Memory>
        ensures forms { OnOk result ((g : Formed) → Says self.old.operands self.old.steps form g → Adds self.old self.new (IsOne origin g)) }
        ensures steps { OnOk result (self.new.steps ≡ self.old.steps) }
    {
        self.entries.push(Entry { form, origin })?;
        Ok(())
    }

    // No two of the classes have anything in common, by one list, of the axiom of that number.
    pub(crate) fn add_disjoint(&mut self, classes: &[ExprId], number: usize) -> Result<(), Memory>
        requires { AreDistinct (expr_numbers classes.now) }
        ensures { OnOk result (Adds self.old self.new (From (origins.Axiom number) (λ g. (m : ℕ) × ((n : ℕ) × PairGives disjoint (expr_numbers classes.now) m n g)))) }
    {
        self.apart.push_classes(classes, number)?;
        Ok(())
    }

    // No two of the individuals are one, by one list, of the axiom of that number.
    pub(crate) fn add_different(
        &mut self,
        individuals: &[IndId],
        number: usize,
    ) -> Result<(), Memory>
        requires { AreDistinct (ind_numbers individuals.now) }
        ensures { OnOk result (Adds self.old self.new (From (origins.Axiom number) (λ g. (m : ℕ) × ((n : ℕ) × PairGives N11 (ind_numbers individuals.now) m n g)))) }
    {
        self.apart.push_individuals(individuals, number)?;
        Ok(())
    }
}
