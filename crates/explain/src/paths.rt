//! Paths from each property to those above it.
ghost use Rattle.normal_forms.specs.Properties.{IsAtOrBelow, IsPropertyFormOf};
ghost use Rattle.normal_forms.specs.declared.forms.Form.{Form};
ghost use Rattle.normal_forms.specs.declared.forms.PropId2.TheVariants.{Property};
ghost use Rattle.explain.specs.Paths.{IsPath};
ghost use Rattle.explain.specs.Search.{AreEarlier, AreKept, AreLeadsWithin, AreReached, AreTold, AreToldOrNone, HasNo, IsTrace, LeadsUp, StandsAt};
ghost use Rattle.std.specs.List.{All};
ghost use Rattle.std.specs.Prelude.{◌≡◌, ◌≤◌, ◌^◌, IfOk, List, MatchOption, OnOk, length, ℕ};

use crate::reached::Reached;
use crate::told::{Told, all_told};
use crate::walk::{place_of, walk};
use axioms::{Memory, PropId};
use indexes::IndexedProblem;
use number_sets::{NumberSearch, PackedLists};
use std::alloc::{AllocError, Global};
use std::collections::BTreeMap;
use std::marker::Model;

/// The ways from each property to those above it, by plain forms. Those from a property are searched when a path from it is first asked
/// for, and kept from then on, 16 bytes for each property that they lead to; beside that there are, once such a path was asked for, 12
/// bytes for each property and 8 for each plain form. No other form is looked at.
#[derive(Drop)]
pub struct PropertyPaths<'a> {
    alloc: Global,
    properties: usize,
    problem: &'a IndexedProblem,
    // for each property the plain forms that lead from it; no lists before the first search
    told: PackedLists<Told>,
    search: NumberSearch<Reached>,
    // of each property the number of its list, if it has one
    places: BTreeMap<u32, usize>,
    kept: PackedLists<Reached>,
}

impl<'a> Model for PropertyPaths<'a> {
    ghost use Rattle.std.specs.Prelude.{List};
    ghost use Rattle.normal_forms.specs.declared.forms.Form.{Form as Form2};
    ghost use Rattle.explain.specs.Search.{AreWaysUp};

    ghost Value = { List Form2 };

    ghost view = { λ p. p.problem.now.forms };

    ghost invariant = { λ p. AreWaysUp p.problem.now.forms p.properties p.told p.places p.kept };
}

// The numbers of the forms that led to the property, in order, if it was reached.
fn way_to(alloc: Global, reached: &[Reached], to: PropId) -> Result<Option<Vec<u32>>, Memory>
    requires { AreEarlier reached.now }
    ensures { IfOk result (λ found. MatchOption found (HasNo reached.now to.0) (λ v. (place : ℕ) × StandsAt reached.now to.0 place × IsTrace reached.now place v.items)) }
{
    match place_of(reached, to.0) {
        None => Ok(None),
        Some(place) => Ok(Some(walk(alloc, reached, place)?)),
    }
}

// Makes the lists of the plain forms that lead from each property, where there are none.
fn tell(
    alloc: Global,
    properties: usize,
    problem: &IndexedProblem,
    told: &mut PackedLists<Told>,
) -> Result<(), Memory>
    requires numbers { properties ≤ 2 ^ 32 }
    requires within { AreLeadsWithin properties (LeadsUp problem.now.forms) }
    requires before { AreToldOrNone properties (LeadsUp problem.now.forms) told.old }
    ensures told { OnOk result (AreTold properties (LeadsUp problem.now.forms) told.new) }
    ensures behind { AreToldOrNone properties (LeadsUp problem.now.forms) told.new }
{
    if told.len() == 0 {
        *told = all_told(alloc, properties, problem)?;
    }
    Ok(())
}

// Makes the search one of so many numbers, unless it is: at first, and where one was broken off.
fn widen(
    alloc: Global,
    search: &mut NumberSearch<Reached>,
    numbers: usize,
) -> Result<(), AllocError>
    ensures { OnOk result (length search.new.seen ≡ numbers) }
{
    if search.seen.len() != numbers {
        *search = NumberSearch::new(alloc, numbers)?;
    }
    Ok(())
}

// Keeps the ways from the property.
fn keep(
    places: &mut BTreeMap<u32, usize>,
    kept: &mut PackedLists<Reached>,
    property: PropId,
    ways: &[Reached],
) -> Result<(), Memory>
    ensures { (forms : List Form) → AreKept forms places.old kept.old → AreReached (LeadsUp forms) property.0 ways.now → AreKept forms places.new kept.new }
{
    let place = kept.len();
    kept.push_list(ways)?;
    match places.insert(property.0, place) {
        Ok(_) => Ok(()),
        Err(_) => Err(Memory),
    }
}

impl<'a> PropertyPaths<'a> {
    /// The paths by these forms, of which none names a property past `properties`.
    ///
    /// # Errors
    ///
    /// `Memory` where memory was refused.
    pub fn new(
        alloc: Global,
        properties: usize,
        problem: &'a IndexedProblem,
    ) -> Result<PropertyPaths<'a>, Memory>
        requires numbers { properties ≤ 2 ^ 32 }
        requires forms { All (IsPropertyFormOf properties (2 ^ 32)) problem.now.forms }
        ensures { IfOk result (λ p. p ≡ problem.now.forms) }
    {
        let search = NumberSearch::new(alloc, 0)?;
        Ok(PropertyPaths {
            alloc,
            properties,
            problem,
            told: PackedLists::new(alloc),
            search,
            places: BTreeMap::new(alloc),
            kept: PackedLists::new(alloc),
        })
    }

    /// The numbers of plain forms that lead from one property to the other, each from where the one before it ends; `None` where
    /// none lead there.
    ///
    /// # Errors
    ///
    /// `Memory` where memory was refused.
    pub fn path(&mut self, from: PropId, to: PropId) -> Result<Option<Vec<u32>>, Memory>
        ensures same { self.new ≡ self.old }
        ensures path { IfOk result (λ found. MatchOption found (IsAtOrBelow self.old (Property from) (Property to) → ⊥) (λ v. IsPath self.old from v.items to)) }
    {
        if from == to {
            return Ok(Some(Vec::new(self.alloc)));
        }
        if let Some(place) = self.places.get(&from.0).copied() {
            return way_to(self.alloc, self.kept.at(place), to);
        }
        if from.index() >= self.properties {
            return Ok(None);
        }
        let start = Reached {
            number: from.0,
            way: None,
        };
        tell(self.alloc, self.properties, self.problem, &mut self.told)?;
        widen(self.alloc, &mut self.search, self.told.len())?;
        self.search.run(&self.told, &[start])?;
        keep(&mut self.places, &mut self.kept, from, &self.search.found)?;
        way_to(self.alloc, &self.search.found, to)
    }
}
