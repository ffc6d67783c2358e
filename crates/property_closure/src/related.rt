//! What forms say of properties, worked out.
ghost use Rattle.normal_forms.specs.Properties.{IsPropertyFormOf};
ghost use Rattle.normal_forms.specs.declared.forms.PropId2.{PropId2};
ghost use Rattle.property_closure.specs.Chains.{AreChains, AreChainsWithin, chains_at};
ghost use Rattle.property_closure.specs.Growth.{AreSupers, lists_of};
ghost use Rattle.property_closure.specs.PropertyClosures.{IsRelated, IsSame};
ghost use Rattle.property_closure.specs.Relations.{ArePlainWithin};
ghost use Rattle.std.specs.List.{All};
ghost use Rattle.std.specs.Prelude.{◌++◌, ◌≡◌, ◌≤◌, ◌^◌, [], IfOk, length};

use crate::chains::{Chains, all_chains, are_no_chains};
use crate::reflexive::reflexive_properties;
use crate::super_lists::SuperLists;
use axioms::Memory;
use normal_forms::Form;
use number_sets::EpochSet;
use std::alloc::Global;
use std::rc::Rc;

/// How many forms are few, such that what they change is worked out form by form.
const FEW: usize = 64;

/// Forms of properties, with what they say. Copies have it in the same memory.
#[derive(Drop)]
pub(crate) struct Related {
    pub forms: Rc<Vec<Form>>,
    /// For each property itself and those above it; past the end a property is above itself alone.
    pub supers: SuperLists,
    pub reflexive: Rc<EpochSet>,
    pub chains: Rc<Chains>,
}

/// Both lists, one behind the other.
fn joined(alloc: Global, first: &[Form], second: &[Form]) -> Result<Vec<Form>, Memory>
    ensures { IfOk result (λ v. v.items ≡ first.now ++ second.now) }
{
    let mut forms = Vec::new(alloc);
    forms.extend_from_slice(first)?;
    forms.extend_from_slice(second)?;
    Ok(forms)
}

impl Related {
    /// No forms.
    pub(crate) fn empty(alloc: Global) -> Result<Related, Memory>
        ensures related { IfOk result (λ r. IsRelated 0 0 r) }
        ensures forms { IfOk result (λ r. r.forms.value.items ≡ []) }
    {
        let supers = SuperLists::of(alloc, 0, &[])?;
        let chains = Rc::new(alloc, Chains::new(alloc))?;
        Related::of(alloc, 0, 0, Vec::new(alloc), supers, chains)
    }

    /// What these forms say, with the lists of what is above each property and of the chains that each begins.
    fn of(
        alloc: Global,
        properties: usize,
        partials: usize,
        forms: Vec<Form>,
        supers: SuperLists,
        chains: Rc<Chains>,
    ) -> Result<Related, Memory>
        requires forms { All (IsPropertyFormOf properties partials) forms.items }
        requires covered { length (lists_of supers) ≡ properties }
        requires supers { AreSupers forms.items supers.base.value supers.more }
        requires chains { (p : PropId2) → AreChains forms.items p (chains_at chains.value p) }
        ensures related { IfOk result (λ r. IsRelated properties partials r) }
        ensures forms { IfOk result (λ r. r.forms.value.items ≡ forms.items) }
    {
        let reflexive = reflexive_properties(alloc, properties, &supers, &forms)?;
        Ok(Related {
            forms: Rc::new(alloc, forms)?,
            supers,
            reflexive: Rc::new(alloc, reflexive)?,
            chains,
        })
    }

    /// What is above each property by its forms and those that are added, which `all` has too: by what is there where they are few
    /// and put nothing above the first properties, and else anew.
    fn supers_with(
        &self,
        alloc: Global,
        properties: usize,
        added: &[Form],
        all: &[Form],
    ) -> Result<SuperLists, Memory>
        requires numbers { properties ≤ 2 ^ 32 }
        requires few { length (lists_of self.now.supers) ≤ properties }
        requires supers { AreSupers self.now.forms.value.items self.now.supers.base.value self.now.supers.more }
        requires within { ArePlainWithin properties all.now }
        requires all { all.now ≡ self.now.forms.value.items ++ added.now }
        ensures length { IfOk result (λ l. length (lists_of l) ≡ properties) }
        ensures supers { IfOk result (λ l. AreSupers all.now l.base.value l.more) }
    {
        let few = added.len() <= FEW && !self.forms.as_ref().is_empty();
        if few && self.supers.can_take(added) {
            self.supers.with(alloc, properties, added)
        } else {
            SuperLists::of(alloc, properties, all)
        }
    }

    /// The chains that each property and each prefix begins by its forms and those that are added, which `all` has too: the same
    /// where none of these is a chain.
    fn chains_with(
        &self,
        alloc: Global,
        properties: usize,
        partials: usize,
        added: &[Form],
        all: &[Form],
    ) -> Result<Rc<Chains>, Memory>
        requires chains { (p : PropId2) → AreChains self.now.forms.value.items p (chains_at self.now.chains.value p) }
        requires within { AreChainsWithin properties partials all.now }
        requires all { all.now ≡ self.now.forms.value.items ++ added.now }
        ensures { IfOk result (λ chains. (p : PropId2) → AreChains all.now p (chains_at chains.value p)) }
    {
        if are_no_chains(added) {
            return Ok(self.chains.clone()?);
        }
        let chains = all_chains(alloc, properties, partials, all)?;
        Ok(Rc::new(alloc, chains)?)
    }

    /// What its forms say together with those that are added.
    pub(crate) fn with(
        &self,
        alloc: Global,
        properties: usize,
        partials: usize,
        added: &[Form],
    ) -> Result<Related, Memory>
        requires numbers { properties ≤ 2 ^ 32 }
        requires before { IsRelated properties partials self.now }
        requires added { All (IsPropertyFormOf properties partials) added.now }
        ensures related { IfOk result (λ r. IsRelated properties partials r) }
        ensures forms { IfOk result (λ r. r.forms.value.items ≡ self.now.forms.value.items ++ added.now) }
    {
        let forms = joined(alloc, self.forms.as_ref(), added)?;
        let supers = self.supers_with(alloc, properties, added, &forms)?;
        let chains = self.chains_with(alloc, properties, partials, added, &forms)?;
        Related::of(alloc, properties, partials, forms, supers, chains)
    }

    /// The same, in the same memory.
    pub(crate) fn copy(&self, alloc: Global) -> Result<Related, Memory>
        ensures { IfOk result (IsSame self.now) }
    {
        Ok(Related {
            forms: self.forms.clone()?,
            supers: self.supers.copy(alloc)?,
            reflexive: self.reflexive.clone()?,
            chains: self.chains.clone()?,
        })
    }
}
