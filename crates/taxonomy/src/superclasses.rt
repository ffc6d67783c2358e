//! The superclasses of each class, as lists.
ghost use Rattle.number_sets.specs.Pieces.{list_at};
ghost use Rattle.std.specs.Prelude.{◌≡◌, IfOk, length, map};
ghost use Rattle.taxonomy.specs.Relation.{is_listed};
ghost use Rattle.taxonomy.specs.Superclasses.{filled};
ghost use Rattle.taxonomy.specs.Texts.{is_same, is_strictly_above};

use axioms::Memory;
use interpretation_spec::Row;
use number_sets::PackedLists;
use std::alloc::Global;
use std::marker::Model;

/// The superclasses of each class, by number. Classes below all classes may be kept apart: those have one list in common.
#[derive(Drop)]
pub(crate) struct Superclasses {
    pub(crate) lists: PackedLists,
    /// Those of which all classes are superclasses, whatever their lists are.
    pub(crate) apart: Row,
    /// All classes, ascending.
    pub(crate) all: Vec<u32>,
    /// How many superclasses each class has.
    pub(crate) sizes: Vec<usize>,
}

impl Model for Superclasses {
    ghost use Rattle.std.specs.Prelude.{List, length, ℕ};
    ghost use Rattle.taxonomy.specs.Superclasses.{AreWhole, filled};

    ghost Value = { List (List ℕ) };

    ghost view = { λ s. filled (length s.lists) s.apart s.lists };

    ghost invariant = { λ s. AreWhole s.lists s.apart s.all.items s.sizes.items };
}

/// How many superclasses the class of that number has, by these lists and by those that are kept apart.
fn size_at(lists: &PackedLists, apart: &Row, c: usize) -> usize
    requires { length apart.now ≡ length lists.now }
    ensures { result ≡ length (list_at (filled (length lists.now) apart.now lists.now) c) }
{
    if apart.contains(c) {
        lists.len()
    } else {
        lists.len_at(c)
    }
}

/// How many superclasses each class has, by these lists and by those that are kept apart.
pub(crate) fn sizes_of(
    alloc: Global,
    lists: &PackedLists,
    apart: &Row,
) -> Result<Vec<usize>, Memory>
    requires { length apart.now ≡ length lists.now }
    ensures { IfOk result (λ v. v.items ≡ map length (filled (length lists.now) apart.now lists.now)) }
{
    let mut sizes = Vec::with_capacity(alloc, lists.len())?;
    for c in 0..lists.len() {
        sizes.push(size_at(lists, apart, c))?;
    }
    Ok(sizes)
}

/// The same lists.
fn copy_of(alloc: Global, lists: &PackedLists) -> Result<PackedLists, Memory>
    ensures { IfOk result (λ l. l ≡ lists.now) }
{
    let mut copies = PackedLists::new(alloc);
    for k in 0..lists.len() {
        copies.push_list(lists.at(k))?;
    }
    Ok(copies)
}

impl Superclasses {
    /// How many classes there are.
    pub(crate) fn len(&self) -> usize
        ensures { result ≡ length self.now }
    {
        self.lists.len()
    }

    /// The superclasses of the class of that number, or none where there is no such class.
    pub(crate) fn at(&self, c: usize) -> &[u32]
        ensures { result.now ≡ list_at self.now c }
    {
        if self.apart.contains(c) {
            &self.all
        } else {
            self.lists.at(c)
        }
    }

    /// How many superclasses the class has.
    pub(crate) fn len_at(&self, c: usize) -> usize
        ensures { result ≡ length (list_at self.now c) }
    {
        match self.sizes.get(c) {
            Some(size) => *size,
            None => 0,
        }
    }

    /// The same superclasses.
    pub(crate) fn copy(&self, alloc: Global) -> Result<Superclasses, Memory>
        ensures { IfOk result (λ s. s ≡ self.now) }
    {
        Ok(Superclasses {
            lists: copy_of(alloc, &self.lists)?,
            apart: self.apart.copy(alloc)?,
            all: self.all.as_slice().to_vec(alloc)?,
            sizes: self.sizes.as_slice().to_vec(alloc)?,
        })
    }

    /// Whether `d` is one of the superclasses of `c`.
    pub(crate) fn has(&self, c: usize, d: usize) -> bool
        ensures { result ≡ is_listed self.now c d }
    {
        self.at(c).iter().any(|e| *e as usize == d)
    }

    /// Whether each of the two classes is a superclass of the other.
    pub(crate) fn is_same(&self, c: usize, d: usize) -> bool
        ensures { result ≡ is_same (is_listed self.now) c d }
    {
        self.has(c, d) && self.has(d, c)
    }

    /// Whether `h` is one of the superclasses of `g`, and not the other way round.
    pub(crate) fn is_strictly_above(&self, g: usize, h: usize) -> bool
        ensures { result ≡ is_strictly_above (is_listed self.now) g h }
    {
        self.has(g, h) && !self.has(h, g)
    }
}
