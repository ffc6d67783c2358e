//! Lists of what is apart.
ghost use Rattle.normal_forms.specs.Apart.{joined_lists, no_lists};
ghost use Rattle.std.specs.Prelude.{◌≡◌, ◌++◌, IfOk, OnOk};

use axioms::{ExprId, IndId};
use number_sets::PackedLists;
use std::alloc::{AllocError, Global};

/// Lists of classes of which each two have nothing in common, and of individuals of which each two differ. Memory goes by their members.
#[derive(Drop)]
pub struct ApartLists {
    pub classes: PackedLists<ExprId>,
    pub individuals: PackedLists<IndId>,
}

/// Adds the other lists behind these. Fails where memory is refused.
fn append<T: Copy>(lists: &mut PackedLists<T>, more: &PackedLists<T>) -> Result<(), AllocError>
    ensures { OnOk result (lists.new ≡ lists.old ++ more.now) }
{
    for number in 0..more.len() {
        lists.push_list(more.at(number))?;
    }
    Ok(())
}

impl ApartLists {
    /// No lists.
    pub fn new(alloc: Global) -> ApartLists
        ensures { result ≡ no_lists }
    {
        ApartLists {
            classes: PackedLists::new(alloc),
            individuals: PackedLists::new(alloc),
        }
    }

    /// These lists, and behind them the others. Fails where memory is refused.
    pub fn joined(&self, alloc: Global, more: &ApartLists) -> Result<ApartLists, AllocError>
        ensures { IfOk result (λ all. all ≡ joined_lists self.now more.now) }
    {
        let mut all = ApartLists::new(alloc);
        append(&mut all.classes, &self.classes)?;
        append(&mut all.classes, &more.classes)?;
        append(&mut all.individuals, &self.individuals)?;
        append(&mut all.individuals, &more.individuals)?;
        Ok(all)
    }

    /// The same lists. Fails where memory is refused.
    pub fn copy(&self, alloc: Global) -> Result<ApartLists, AllocError>
        ensures { IfOk result (λ copy. copy ≡ self.now) }
    {
        let mut copy = ApartLists::new(alloc);
        append(&mut copy.classes, &self.classes)?;
        append(&mut copy.individuals, &self.individuals)?;
        Ok(copy)
    }
}
