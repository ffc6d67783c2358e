//! The groups of a taxonomy, lent to who writes what its lines say.
ghost use Rattle.std.specs.List.{filter};
ghost use Rattle.std.specs.Prelude.{◌≡◌, IfOk, OnOk, length, map};
ghost use Rattle.std.specs.String.{string_bytes};
ghost use Rattle.taxonomy.specs.Relation.{lies_below};
ghost use Rattle.taxonomy.specs.Superclasses.{is_among};
ghost use Rattle.taxonomy.specs.Texts.{group, groups, in_byte_order, is_directly_above, is_same, least_groups};

use crate::collecting::put_once;
use crate::groups::{leaders, put_as_large, put_larger, set_of};
use crate::least::{Marks, no_marks, put_least};
use crate::order::{in_byte_order, put_sorted_by_name};
use crate::reduction::Taxonomy;
use crate::superclasses::Superclasses;
use axioms::Memory;
use number_sets::EpochSet;
use std::alloc::Global;
use std::marker::Model;

/// The groups of the classes of a taxonomy, what stands for those directly above each, and the least of those that an individual
/// belongs to.
pub struct Groups<'a> {
    alloc: Global,
    names: &'a [String],
    classes: &'a Superclasses,
    /// The first class of each group, in byte order.
    leaders: Vec<usize>,
    /// The set of these.
    leading: EpochSet,
    marks: Marks,
    /// Lists that are filled anew for each class and each individual.
    numbers: Vec<u32>,
    ordered: Vec<u32>,
    found: Vec<u32>,
    named: Vec<(&'a str, usize)>,
}

// A value is let go by one call, where each way out would else let each field go.
impl Drop for Groups<'_> {
    fn drop(self) {
        let Groups {
            alloc: _,
            names: _,
            classes: _,
            leaders: _,
            leading: _,
            marks: _,
            numbers: _,
            ordered: _,
            found: _,
            named: _,
        } = self;
    }
}

impl<'a> Model for Groups<'a> {
    ghost use Rattle.std.specs.Prelude.{map};
    ghost use Rattle.std.specs.String.{string_bytes};
    ghost use Rattle.taxonomy.specs.ClassMarks.{AreGrouped};
    ghost use Rattle.taxonomy.specs.Grouped.{Grouped};
    ghost use Rattle.taxonomy.specs.Superclasses.{rows_of};

    ghost Value = { Grouped };

    ghost view = { λ g. record { names = map string_bytes g.names.now; rows = rows_of g.classes.now } };

    ghost invariant = { λ g. AreGrouped (map string_bytes g.names.now) g.classes.now g.leaders.items g.leading g.marks };
}

impl Groups<'_> {
    /// The groups of the classes that have these names.
    ///
    /// # Errors
    ///
    /// `Memory` where memory was refused.
    pub fn of<'a>(
        alloc: Global,
        names: &'a [String],
        taxonomy: &'a Taxonomy,
    ) -> Result<Groups<'a>, Memory>
        requires { length names.now ≡ length taxonomy.now }
        ensures { IfOk result (λ g. g ≡ record { names = map string_bytes names.now; rows = taxonomy.now }) }
    {
        let classes = &taxonomy.above;
        let order = in_byte_order(alloc, names)?;
        let leaders = leaders(alloc, classes, &order)?;
        drop(order);
        let leading = set_of(alloc, classes.len(), &leaders)?;
        let marks = no_marks(alloc, classes.len())?;
        Ok(Groups {
            alloc,
            names,
            classes,
            leaders,
            leading,
            marks,
            numbers: Vec::new(alloc),
            ordered: Vec::new(alloc),
            found: Vec::new(alloc),
            named: Vec::new(alloc),
        })
    }

    /// The allocator of the lists.
    pub(crate) fn allocator(&self) -> Global {
        self.alloc
    }

    /// The names of the classes.
    pub(crate) fn names(&self) -> &[String]
        ensures { map string_bytes result.now ≡ self.now.names }
    {
        self.names
    }

    /// The first class of each group, in byte order.
    ///
    /// # Errors
    ///
    /// `Memory` where memory was refused.
    pub fn firsts(&self) -> Result<Vec<usize>, Memory>
        ensures { IfOk result (λ v. v.items ≡ groups (lies_below self.now.rows) (in_byte_order self.now.names)) }
    {
        Ok(self.leaders.as_slice().to_vec(self.alloc)?)
    }

    /// The classes of a class's group, in byte order.
    ///
    /// # Errors
    ///
    /// `Memory` where memory was refused.
    pub fn members(&self, g: usize) -> Result<Vec<usize>, Memory>
        ensures { IfOk result (λ v. v.items ≡ group (lies_below self.now.rows) (in_byte_order self.now.names) g) }
    {
        let mut same = Vec::new(self.alloc);
        let mut named = Vec::new(self.alloc);
        let mut members = Vec::new(self.alloc);
        put_as_large(&mut same, self.classes, g)?;
        put_sorted_by_name(&mut members, &mut named, self.names, &same)?;
        Ok(members)
    }

    /// Puts the classes of a class's group, in byte order, in place of the numbers.
    pub(crate) fn put_members(&mut self, members: &mut Vec<usize>, g: usize) -> Result<(), Memory>
        ensures same { self.new ≡ self.old }
        ensures members { OnOk result (members.new.items ≡ group (lies_below self.old.rows) (in_byte_order self.old.names) g) }
    {
        put_as_large(&mut self.numbers, self.classes, g)?;
        put_sorted_by_name(members, &mut self.named, self.names, &self.numbers)?;
        Ok(())
    }

    /// Whether the two classes are in one group.
    pub fn is_same(&self, c: usize, d: usize) -> bool
        ensures { result ≡ is_same (lies_below self.now.rows) c d }
    {
        self.classes.is_same(c, d)
    }

    /// The classes that stand for the groups directly above a class, in byte order.
    ///
    /// # Errors
    ///
    /// `Memory` where memory was refused.
    pub fn directly_above(&mut self, g: usize) -> Result<Vec<usize>, Memory>
        ensures same { self.new ≡ self.old }
        ensures above { IfOk result
            (λ v. v.items
            ≡ filter (is_directly_above (lies_below self.old.rows) (length self.old.names) g)
            (groups (lies_below self.old.rows) (in_byte_order self.old.names))) }
    {
        let mut above = Vec::new(self.alloc);
        self.put_directly_above(&mut above, g)?;
        Ok(above)
    }

    /// Puts the classes that stand for the groups directly above a class, in byte order, in place of the numbers.
    pub(crate) fn put_directly_above(
        &mut self,
        above: &mut Vec<usize>,
        g: usize,
    ) -> Result<(), Memory>
        ensures same { self.new ≡ self.old }
        ensures above { OnOk result
            (above.new.items
            ≡ filter (is_directly_above (lies_below self.old.rows) (length self.old.names) g)
            (groups (lies_below self.old.rows) (in_byte_order self.old.names))) }
    {
        put_larger(&mut self.numbers, self.classes, g)?;
        put_least(
            &mut self.found,
            &mut self.ordered,
            &mut self.marks,
            self.classes,
            &self.leading,
            &self.numbers,
        )?;
        put_sorted_by_name(above, &mut self.named, self.names, &self.found)?;
        Ok(())
    }

    /// The classes that stand for the least groups of these classes, in byte order.
    ///
    /// # Errors
    ///
    /// `Memory` where memory was refused.
    pub fn least(&mut self, types: &[u32]) -> Result<Vec<usize>, Memory>
        ensures same { self.new ≡ self.old }
        ensures least { IfOk result (λ v. v.items ≡ least_groups self.old.names (lies_below self.old.rows) (is_among types.now)) }
    {
        let mut least = Vec::new(self.alloc);
        self.put_least(&mut least, types)?;
        Ok(least)
    }

    /// Puts the classes that stand for the least groups of these classes, in byte order, in place of the numbers.
    pub(crate) fn put_least(&mut self, least: &mut Vec<usize>, types: &[u32]) -> Result<(), Memory>
        ensures same { self.new ≡ self.old }
        ensures least { OnOk result (least.new.items ≡ least_groups self.old.names (lies_below self.old.rows) (is_among types.now)) }
    {
        put_least(
            &mut self.found,
            &mut self.ordered,
            &mut self.marks,
            self.classes,
            &self.leading,
            types,
        )?;
        put_once(&mut self.numbers, &mut self.marks.above, &self.found)?;
        put_sorted_by_name(least, &mut self.named, self.names, &self.numbers)?;
        Ok(())
    }
}
