//! A preorder on classes, and what lies strictly above each class by it.
ghost use Rattle.std.specs.Prelude.{◌≡◌, IfOk, length};
ghost use Rattle.taxonomy.specs.HeldRelations.{IsHeld, held_rows};
ghost use Rattle.taxonomy.specs.Relation.{IsPreorder, lies_below};
ghost use Rattle.taxonomy.specs.Superclasses.{AreSets, rows_of};
ghost use Rattle.taxonomy.specs.Texts.{is_same, is_strictly_above};

use crate::collecting::of_rows;
use crate::relation::{Held, Relation};
use crate::superclasses::Superclasses;
use axioms::Memory;
use std::alloc::Global;
use std::marker::Model;

/// A relation in which each class lies below itself and below all that is above what it lies below.
#[derive(Drop)]
pub struct Taxonomy {
    pub(crate) above: Superclasses,
}

impl Model for Taxonomy {
    ghost use Rattle.std.specs.Prelude.{Bool, List};
    ghost use Rattle.taxonomy.specs.Superclasses.{AreSuperclasses, rows_of};

    ghost Value = { List (List Bool) };

    ghost view = { λ t. rows_of t.above };

    ghost invariant = { λ t. AreSuperclasses t.above };
}

impl Taxonomy {
    /// How many classes there are.
    pub fn len(&self) -> usize
        ensures { result ≡ length self.now }
    {
        self.above.len()
    }

    /// Whether the two classes are in one group.
    pub fn is_same(&self, c: usize, d: usize) -> bool
        ensures { result ≡ is_same (lies_below self.now) c d }
    {
        self.above.is_same(c, d)
    }

    /// Whether `h` is above `g`, and is not in its group.
    pub fn is_strictly_above(&self, g: usize, h: usize) -> bool
        ensures { result ≡ is_strictly_above (lies_below self.now) g h }
    {
        self.above.is_strictly_above(g, h)
    }
}

/// The superclasses of each class by what a relation holds.
fn lists_of(alloc: Global, held: &Held) -> Result<Superclasses, Memory>
    requires { IsHeld held.now }
    ensures sets { IfOk result (λ s. AreSets s) }
    ensures rows { IfOk result (λ s. rows_of s ≡ held_rows held.now) }
{
    match held {
        Held::Rows(rows) => of_rows(alloc, rows),
        Held::Lists(lists) => lists.copy(alloc),
    }
}

/// The taxonomy of a relation, by which its texts leave out what lies above a class between.
///
/// It fails only where memory is refused.
pub fn reduce(alloc: Global, relation: &Relation) -> Result<Taxonomy, Memory>
    requires { IsPreorder relation.now }
    ensures { IfOk result (λ t. t ≡ relation.now) }
{
    let above = lists_of(alloc, &relation.held)?;
    Ok(Taxonomy { above })
}
