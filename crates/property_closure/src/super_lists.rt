//! The properties above each property, in lists that grow.
ghost use Rattle.number_sets.specs.Pieces.{list_at};
ghost use Rattle.property_closure.specs.Growth.{AreSupers, BeginBehind, IsLengthened, lists_of};
ghost use Rattle.property_closure.specs.Relations.{ArePlainWithin};
ghost use Rattle.normal_forms.specs.declared.forms.Form.{Form};
ghost use Rattle.normal_forms.specs.declared.forms.Form.TheVariants.{N5};
ghost use Rattle.std.specs.Prelude.{◌++◌, ◌<◌, ◌↔◌, ◌∷◌, ◌≡◌, ◌≤◌, ◌^◌, [], IfOk, IsTrue, List, OnOk, length, ℕ};

use crate::shared_lists::SharedLists;
use crate::supers::all_supers;
use axioms::{Memory, PropId};
use normal_forms::{Form, PropId2};
use number_sets::PackedLists;
use std::alloc::Global;
use std::rc::Rc;

/// For each property itself and those above it, ascending; past the end a property is above itself alone.
#[derive(Drop)]
pub(crate) struct SuperLists {
    /// Those of the first properties, which no copy changes: no form puts one of the other properties above one of these.
    pub base: Rc<PackedLists<PropId2>>,
    /// Those of the properties behind.
    pub more: SharedLists,
}

/// The same properties, in memory of their own.
pub(crate) fn copied(alloc: Global, properties: &[PropId2]) -> Result<Vec<PropId2>, Memory>
    ensures { IfOk result (λ v. v.items ≡ properties.now) }
{
    let mut copy = Vec::with_capacity(alloc, properties.len())?;
    copy.extend_from_slice(properties)?;
    Ok(copy)
}

impl SuperLists {
    /// What the forms put above each property, where all of it is searched for.
    pub(crate) fn of(alloc: Global, properties: usize, forms: &[Form]) -> Result<SuperLists, Memory>
        requires numbers { properties ≤ 2 ^ 32 }
        requires within { ArePlainWithin properties forms.now }
        ensures length { IfOk result (λ l. length (lists_of l) ≡ properties) }
        ensures supers { IfOk result (λ l. AreSupers forms.now l.base.value l.more) }
    {
        let base = all_supers(alloc, properties, forms)?;
        Ok(SuperLists {
            base: Rc::new(alloc, base)?,
            more: SharedLists::new(alloc),
        })
    }

    /// The same lists, in the same memory.
    pub(crate) fn copy(&self, alloc: Global) -> Result<SuperLists, Memory>
        ensures base { IfOk result (λ l. l.base.value ≡ self.now.base.value) }
        ensures more { IfOk result (λ l. l.more ≡ self.now.more) }
    {
        Ok(SuperLists {
            base: self.base.clone()?,
            more: self.more.copy(alloc)?,
        })
    }

    /// The list of the property of that number, or an empty one past the end.
    #[inline(always)]
    pub(crate) fn at(&self, number: usize) -> &[PropId2]
        ensures { result.now ≡ list_at (lists_of self.now) number }
    {
        let base = self.base.as_ref();
        if number < base.len() {
            base.at(number)
        } else {
            self.more.at(number - base.len())
        }
    }

    /// Whether each plain form puts something above a property whose list can change.
    pub(crate) fn can_take(&self, forms: &[Form]) -> bool
        ensures { IsTrue result ↔ BeginBehind (length self.now.base.value) forms.now }
    {
        let base = self.base.as_ref().len();
        for form in forms {
            if let Form::N5(sub, _) = form {
                if sub.index() < base {
                    return false;
                }
            }
        }
        true
    }

    /// Adds lists of properties that are above themselves alone, until there are `n` in all.
    fn lengthen(&mut self, alloc: Global, n: usize) -> Result<(), Memory>
        requires { n ≤ 2 ^ 32 }
        ensures base { OnOk result (self.new.base.value ≡ self.old.base.value) }
        ensures longer { OnOk result (IsLengthened (lists_of self.old) (lists_of self.new) n) }
    {
        let base = self.base.as_ref().len();
        for place in self.more.len()..n.saturating_sub(base) {
            let number = (base + place) as u32;
            self.more.push(alloc, PropId2::Property(PropId(number)))?;
        }
        Ok(())
    }

    /// Puts the second property and those above it above the first and those below that. Where the first had no list, nothing is
    /// below it.
    fn add(&mut self, alloc: Global, sub: PropId, sup: PropId) -> Result<(), Memory>
        requires { length self.old.base.value ≤ sub.0 }
        ensures base { OnOk result (self.new.base.value ≡ self.old.base.value) }
        ensures most { OnOk result ((n : ℕ) → length (lists_of self.old) ≤ n → sub.0 < n → sup.0 < n → length (lists_of self.new) ≤ n) }
        ensures supers { OnOk result ((forms : List Form) → AreSupers forms self.old.base.value self.old.more → AreSupers (forms ++ N5 sub sup ∷ []) self.new.base.value self.new.more) }
    {
        let place = sub.index() - self.base.as_ref().len();
        let is_new = place >= self.more.len();
        self.lengthen(alloc, sub.index().max(sup.index()) + 1)?;
        let above = copied(alloc, self.at(sup.index()))?;
        if is_new {
            self.more.widen(alloc, place, &above)
        } else {
            self.more.raise(
                alloc,
                PropId2::Property(sub),
                PropId2::Property(sup),
                &above,
            )
        }
    }

    /// These lists, in the same memory where they stay, with what further forms say, for so many properties.
    pub(crate) fn with(
        &self,
        alloc: Global,
        properties: usize,
        forms: &[Form],
    ) -> Result<SuperLists, Memory>
        requires numbers { properties ≤ 2 ^ 32 }
        requires few { length (lists_of self.now) ≤ properties }
        requires within { ArePlainWithin properties forms.now }
        requires behind { BeginBehind (length self.now.base.value) forms.now }
        ensures length { IfOk result (λ l. length (lists_of l) ≡ properties) }
        ensures supers { IfOk result (λ l. (before : List Form) → AreSupers before self.now.base.value self.now.more → AreSupers (before ++ forms.now) l.base.value l.more) }
    {
        let mut lists = self.copy(alloc)?;
        for form in forms {
            if let Form::N5(sub, sup) = form {
                lists.add(alloc, *sub, *sup)?;
            }
        }
        lists.lengthen(alloc, properties)?;
        Ok(lists)
    }
}
