//! Lists of properties that copies share.
ghost use Rattle.number_sets.specs.Pieces.{list_at};
ghost use Rattle.property_closure.specs.Growth.{AreRaised, IsUnion};
ghost use Rattle.normal_forms.specs.declared.forms.PropId2.{PropId2};
ghost use Rattle.std.specs.Prelude.{◌<◌, ◌↔◌, ◌≡◌, ◌++◌, ◌∷◌, [], Contains, IfOk, IsTrue, List, OnOk, length, slice_set};

use axioms::Memory;
use normal_forms::PropId2;
use number_sets::sort_ascending;
use std::alloc::Global;
use std::marker::Model;
use std::rc::Rc;

/// Lists, each in a piece of memory of its own, which copies have too until they change the list.
#[derive(Drop)]
pub(crate) struct SharedLists {
    lists: Vec<Rc<Vec<PropId2>>>,
}

impl Model for SharedLists {
    ghost use Rattle.normal_forms.specs.declared.forms.PropId2.{PropId2};
    ghost use Rattle.std.specs.Prelude.{List, map};

    ghost Value = { List (List PropId2) };

    ghost view = { λ l. map (λ list. list.value.items) l.lists.items };
}

/// Whether the list has the property.
fn is_listed(list: &[PropId2], p: PropId2) -> bool
    ensures { IsTrue result ↔ Contains list.now p }
{
    list.contains(&p)
}

/// What is in one of both lists, ascending. The first stands last, where a new property most often belongs.
fn union(alloc: Global, first: &[PropId2], second: &[PropId2]) -> Result<Vec<PropId2>, Memory>
    ensures { IfOk result (λ v. IsUnion first.now second.now v.items) }
{
    let mut list = Vec::with_capacity(alloc, first.len().saturating_add(second.len()))?;
    list.extend_from_slice(second)?;
    list.extend_from_slice(first)?;
    sort_ascending(&mut list);
    Ok(list)
}

impl SharedLists {
    /// No lists.
    pub(crate) fn new(alloc: Global) -> SharedLists
        ensures { result ≡ [] }
    {
        SharedLists {
            lists: Vec::new(alloc),
        }
    }

    /// How many lists there are.
    pub(crate) fn len(&self) -> usize
        ensures { result ≡ length self.now }
    {
        self.lists.len()
    }

    /// The list of that number, or an empty one where there is none.
    pub(crate) fn at(&self, k: usize) -> &[PropId2]
        ensures { result.now ≡ list_at self.now k }
    {
        if k >= self.lists.len() {
            return &[];
        }
        self.lists[k].as_ref().as_slice()
    }

    /// Adds the list of one property behind the others.
    pub(crate) fn push(&mut self, alloc: Global, p: PropId2) -> Result<(), Memory>
        ensures { OnOk result (self.new ≡ self.old ++ (p ∷ []) ∷ []) }
    {
        let mut list = Vec::new(alloc);
        list.push(p)?;
        self.lists.push(Rc::new(alloc, list)?)?;
        Ok(())
    }

    /// Writes another list at a place.
    fn set(&mut self, alloc: Global, k: usize, list: Vec<PropId2>) -> Result<(), Memory>
        requires { k < length self.old }
        ensures { OnOk result (self.new ≡ slice_set self.old k list.items) }
    {
        self.lists[k] = Rc::new(alloc, list)?;
        Ok(())
    }

    /// Puts these properties into the list at a place too.
    pub(crate) fn widen(&mut self, alloc: Global, k: usize, above: &[PropId2]) -> Result<(), Memory>
        requires { k < length self.old }
        ensures { OnOk result ((list : List PropId2) × IsUnion (list_at self.old k) above.now list × (self.new ≡ slice_set self.old k list)) }
    {
        let list = union(alloc, self.at(k), above)?;
        self.set(alloc, k, list)
    }

    /// Puts these properties into each list that has the first property and lacks the second.
    pub(crate) fn raise(
        &mut self,
        alloc: Global,
        sub: PropId2,
        sup: PropId2,
        above: &[PropId2],
    ) -> Result<(), Memory>
        ensures { OnOk result (AreRaised sub sup above.now (length self.old) self.old self.new) }
    {
        for k in 0..self.len() {
            let list = self.at(k);
            if is_listed(list, sub) && !is_listed(list, sup) {
                self.widen(alloc, k, above)?;
            }
        }
        Ok(())
    }

    /// The same lists, in the same memory.
    pub(crate) fn copy(&self, alloc: Global) -> Result<SharedLists, Memory>
        ensures { IfOk result (λ copy. copy ≡ self.now) }
    {
        let mut lists = Vec::with_capacity(alloc, self.lists.len())?;
        for list in &self.lists {
            lists.push(list.clone()?)?;
        }
        Ok(SharedLists { lists })
    }
}
