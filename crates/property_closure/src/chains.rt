//! The chains that each property begins.
ghost use Rattle.normal_forms.specs.Properties.{ChainComesBefore, IsPropertyOf};
ghost use Rattle.property_closure.specs.Chains.{AddsChain, AreChains, AreChainsOf, AreChainsWithin, AreNoChains, ArePacked, chains_at};
ghost use Rattle.std.specs.List.{AllPairs};
ghost use Rattle.std.specs.Prelude.{◌↔◌, ◌≡◌, [], IfOk, IsTrue, OnOk, Contains, ◌<◌, length};

use axioms::Memory;
use normal_forms::{Form, PropId2};
use number_sets::{OpenLists, PackedLists, sort_ascending};
use std::alloc::Global;

/// What follows the first property of a chain, and what is above both.
pub(crate) type Chain = (PropId2, PropId2);

/// The chains of each property and of each prefix of chains, in any order.
#[derive(Drop)]
struct OpenChains {
    properties: OpenLists<Chain>,
    partials: OpenLists<Chain>,
}

impl OpenChains {
    /// Adds a chain that begins with `first`, which is there.
    fn add(&mut self, first: PropId2, chain: Chain) -> Result<(), Memory>
        requires { IsPropertyOf (length self.old.properties) (length self.old.partials) first }
        ensures { OnOk result (AddsChain self.old self.new first chain) }
    {
        match first {
            PropId2::Property(id) => self.properties.push(id.index(), chain)?,
            PropId2::Partial(number) => self.partials.push(number as usize, chain)?,
        }
        Ok(())
    }
}

/// The chains of each property and of each prefix of chains, ascending.
#[derive(Drop)]
pub(crate) struct Chains {
    pub properties: PackedLists<Chain>,
    pub partials: PackedLists<Chain>,
}

impl Chains {
    /// No chains.
    pub(crate) fn new(alloc: Global) -> Chains
        ensures { (p : PropId2) → chains_at result p ≡ [] }
    {
        Chains {
            properties: PackedLists::new(alloc),
            partials: PackedLists::new(alloc),
        }
    }

    /// The chains that begin with that property.
    pub(crate) fn from(&self, first: PropId2) -> &[Chain]
        ensures { result.now ≡ chains_at self.now first }
    {
        match first {
            PropId2::Property(id) => self.properties.at(id.index()),
            PropId2::Partial(number) => self.partials.at(number as usize),
        }
    }
}

/// The same chains, ascending, each once.
fn ascending(alloc: Global, chains: &[Chain]) -> Result<Vec<Chain>, Memory>
    ensures ascending { IfOk result (λ v. AllPairs ChainComesBefore v.items) }
    ensures same { IfOk result (λ v. (c : PropId2 × PropId2) → Contains v.items c ↔ Contains chains.now c) }
{
    let mut list = Vec::new(alloc);
    list.extend_from_slice(chains)?;
    sort_ascending(&mut list);
    Ok(list)
}

/// The same lists, each ascending.
fn packed(alloc: Global, lists: &OpenLists<Chain>) -> Result<PackedLists<Chain>, Memory>
    ensures { IfOk result (λ l. ArePacked lists.now (length lists.now) l) }
{
    let mut packed = PackedLists::new(alloc);
    for number in 0..lists.len() {
        packed.push_list(&ascending(alloc, lists.at(number))?)?;
    }
    Ok(packed)
}

/// The chains of the forms, by their first property.
fn open_chains(
    alloc: Global,
    properties: usize,
    partials: usize,
    forms: &[Form],
) -> Result<OpenChains, Memory>
    requires { AreChainsWithin properties partials forms.now }
    ensures { IfOk result (λ o. AreChainsOf forms.now o) }
{
    let mut unsorted = OpenChains {
        properties: OpenLists::new(alloc, properties)?,
        partials: OpenLists::new(alloc, partials)?,
    };
    for form in forms {
        if let Form::N6(first, second, whole) = form {
            unsorted.add(*first, (*second, *whole))?;
        }
    }
    Ok(unsorted)
}

/// Whether no form is of a chain.
pub(crate) fn are_no_chains(forms: &[Form]) -> bool
    ensures { IsTrue result ↔ AreNoChains forms.now }
{
    for form in forms {
        if let Form::N6(_, _, _) = form {
            return false;
        }
    }
    true
}

/// The chains that the forms say to begin with each property.
pub(crate) fn all_chains(
    alloc: Global,
    properties: usize,
    partials: usize,
    forms: &[Form],
) -> Result<Chains, Memory>
    requires { AreChainsWithin properties partials forms.now }
    ensures { IfOk result (λ c. (p : PropId2) → AreChains forms.now p (chains_at c p)) }
{
    let unsorted = open_chains(alloc, properties, partials, forms)?;
    Ok(Chains {
        properties: packed(alloc, &unsorted.properties)?,
        partials: packed(alloc, &unsorted.partials)?,
    })
}
