//! The closure of properties.
ghost use Rattle.normal_forms.specs.Properties.{ChainComesBefore, ComesBefore, IsAtOrBelow, IsChainFrom, IsPropertyFormOf, IsReflexive, property_forms};
ghost use Rattle.property_closure.specs.PropertyClosures.{ArePrefixes, AreProperties, Has};
ghost use Rattle.std.specs.List.{All, AllPairs};
ghost use Rattle.std.specs.Prelude.{◌++◌, ◌<◌, ◌↔◌, ◌≡◌, ◌≤◌, ◌^◌, ◌∷◌, [], Contains, IfOk, IsTrue, OnErr, OnOk, Some, false, length, slice_get, vec_capacity};

use crate::related::Related;
use crate::super_lists::copied;
use axioms::{Memory, PropId};
use normal_forms::{FormList, PropId2};
use std::alloc::Global;
use std::marker::Model;

/// Which properties lie below which, which are reflexive and which chains they begin, by normal forms. Contracts see how many
/// properties and how many prefixes of chains it has, and its forms of properties.
pub struct PropertyClosure {
    alloc: Global,
    // each property, by its number, and each prefix of chains: what is above it where no form puts anything there
    properties: Vec<PropId2>,
    partials: Vec<PropId2>,
    related: Related,
}

// A value is let go by one call, where each way out would else let each field go.
impl Drop for PropertyClosure {
    fn drop(self) {
        let PropertyClosure {
            alloc: _,
            properties: _,
            partials: _,
            related: _,
        } = self;
    }
}

impl Model for PropertyClosure {
    ghost use Rattle.property_closure.specs.PropertyClosures.{Known, IsKept, known_by};

    ghost Value = { Known };

    ghost view = { known_by };

    ghost invariant = { IsKept };
}

// The element at that place alone, or none.
fn alone(list: &[PropId2], place: usize) -> &[PropId2]
    ensures there { (p : PropId2) → slice_get list.now place ≡ Some p → result.now ≡ p ∷ [] }
    ensures past { length list.now ≤ place → result.now ≡ [] }
{
    if place < list.len() {
        &list[place..place + 1]
    } else {
        &[]
    }
}

// Room for `n` elements in all.
fn make_room(list: &mut Vec<PropId2>, n: usize) -> Result<(), Memory>
    ensures same { list.new.items ≡ list.old.items }
    ensures room { OnOk result (n ≤ vec_capacity list.new) }
{
    if n > list.len() {
        list.reserve(n - list.len())?;
    }
    Ok(())
}

// Adds properties until there are `n`, for which there is room.
fn add_properties(list: &mut Vec<PropId2>, n: usize)
    requires numbers { n ≤ 2 ^ 32 }
    requires room { n ≤ vec_capacity list.old }
    requires fewer { length list.old.items ≤ n }
    requires before { AreProperties list.old.items }
    ensures properties { AreProperties list.new.items }
    ensures length { length list.new.items ≡ n }
{
    for number in list.len()..n {
        list.push_reserved(PropId2::Property(PropId(number as u32)));
    }
}

// Adds prefixes of chains until there are `n`, for which there is room.
fn add_partials(list: &mut Vec<PropId2>, n: usize)
    requires numbers { n ≤ 2 ^ 32 }
    requires room { n ≤ vec_capacity list.old }
    requires fewer { length list.old.items ≤ n }
    requires before { ArePrefixes list.old.items }
    ensures partials { ArePrefixes list.new.items }
    ensures length { length list.new.items ≡ n }
{
    for number in list.len()..n {
        list.push_reserved(PropId2::Partial(number as u32));
    }
}

impl PropertyClosure {
    /// The closure of no properties. Fails where memory is refused.
    fn empty(alloc: Global) -> Result<PropertyClosure, Memory>
        ensures { IfOk result (λ c. c ≡ record { properties = 0; partials = 0; forms = [] }) }
    {
        Ok(PropertyClosure {
            alloc,
            properties: Vec::new(alloc),
            partials: Vec::new(alloc),
            related: Related::empty(alloc)?,
        })
    }

    /// How many properties it has: at most as many as numbers of 32 bits count.
    pub fn properties(&self) -> usize
        ensures value { result ≡ self.now.properties }
        ensures few { result ≤ 2 ^ 32 }
    {
        self.properties.len()
    }

    /// How many prefixes of chains it has: at most as many as numbers of 32 bits count.
    pub fn partials(&self) -> usize
        ensures value { result ≡ self.now.partials }
        ensures few { result ≤ 2 ^ 32 }
    {
        self.partials.len()
    }

    /// Closes again with more forms, and as many properties and prefixes of chains in all. Where no form is of properties,
    /// nothing is worked out again.
    ///
    /// # Errors
    ///
    /// `Memory` where memory was refused; then nothing changes.
    pub fn grow(
        &mut self,
        properties: usize,
        partials: usize,
        forms: &FormList,
    ) -> Result<(), Memory>
        requires properties { self.old.properties ≤ properties }
        requires partials { self.old.partials ≤ partials }
        requires property_numbers { properties ≤ 2 ^ 32 }
        requires partial_numbers { partials ≤ 2 ^ 32 }
        requires forms { All (IsPropertyFormOf properties partials) forms.now }
        ensures ok { OnOk result (self.new ≡ record { properties = properties; partials = partials; forms = self.old.forms ++ property_forms forms.now }) }
        ensures err { OnErr result (self.new ≡ self.old) }
    {
        make_room(&mut self.properties, properties)?;
        make_room(&mut self.partials, partials)?;
        let added = forms.property_forms()?;
        if !added.is_empty() {
            self.related = self.related.with(self.alloc, properties, partials, &added)?;
        }
        add_properties(&mut self.properties, properties);
        add_partials(&mut self.partials, partials);
        Ok(())
    }

    /// The same closure, with lists that do not change in the same memory.
    ///
    /// # Errors
    ///
    /// `Memory` where memory was refused.
    pub fn copy(&self) -> Result<PropertyClosure, Memory>
        ensures { IfOk result (λ c. c ≡ self.now) }
    {
        Ok(PropertyClosure {
            alloc: self.alloc,
            properties: copied(self.alloc, &self.properties)?,
            partials: copied(self.alloc, &self.partials)?,
            related: self.related.copy(self.alloc)?,
        })
    }

    /// What its forms name is there. This runs nothing.
    pub fn well_formed(&self)
        ensures { All (IsPropertyFormOf self.now.properties self.now.partials) self.now.forms }
    {
        let _ = &self.alloc;
    }

    /// The property itself and those above it, ascending; none where it is out of range.
    pub fn supers(&self, p: PropId2) -> &[PropId2]
        ensures ascending { AllPairs ComesBefore result.now }
        ensures exact { (q : PropId2) → Contains result.now q ↔ (Has self.now p × IsAtOrBelow self.now.forms p q) }
    {
        match p {
            PropId2::Property(id) => {
                let list = self.related.supers.at(id.index());
                if list.is_empty() {
                    alone(&self.properties, id.index())
                } else {
                    list
                }
            }
            PropId2::Partial(number) => alone(&self.partials, number as usize),
        }
    }

    /// Whether the property, or one below it, is declared reflexive. Where it is out of range, it is not.
    pub fn is_reflexive(&self, p: PropId2) -> bool
        ensures exact { IsTrue result ↔ IsReflexive self.now.forms p }
        ensures out { (Has self.now p → ⊥) → result ≡ false }
    {
        match p {
            PropId2::Property(id) => self.related.reflexive.as_ref().contains(id.index()),
            PropId2::Partial(_) => false,
        }
    }

    /// The chains that begin with the property: for each the next property, and the one above both; ascending, none twice.
    /// There is none where it is out of range.
    pub fn chains_from(&self, p: PropId2) -> &[(PropId2, PropId2)]
        ensures ascending { AllPairs ChainComesBefore result.now }
        ensures exact { (c : PropId2 × PropId2) → Contains result.now c ↔ IsChainFrom self.now.forms p c }
        ensures out { (Has self.now p → ⊥) → result.now ≡ [] }
    {
        self.related.chains.as_ref().from(p)
    }
}

/// The closure of so many properties and prefixes of chains by these forms.
///
/// # Errors
///
/// `Memory` where memory was refused.
pub fn close(
    alloc: Global,
    properties: usize,
    partials: usize,
    forms: &FormList,
) -> Result<PropertyClosure, Memory>
    requires property_numbers { properties ≤ 2 ^ 32 }
    requires partial_numbers { partials ≤ 2 ^ 32 }
    requires forms { All (IsPropertyFormOf properties partials) forms.now }
    ensures { IfOk result (λ c. c ≡ record { properties = properties; partials = partials; forms = property_forms forms.now }) }
{
    let mut closure = PropertyClosure::empty(alloc)?;
    closure.grow(properties, partials, forms)?;
    Ok(closure)
}
