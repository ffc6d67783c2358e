//! A relation on classes.
ghost use Rattle.std.specs.Prelude.{◌<◌, ◌≡◌, IfOk, length, ℕ};
ghost use Rattle.taxonomy.specs.Relation.{IsSquare, is_below, lies_below};

use crate::collecting::of_lists;
use crate::superclasses::Superclasses;
use axioms::Memory;
use interpretation_spec::Row;
use number_sets::PackedLists;
use std::alloc::Global;
use std::marker::Model;

/// A relation, as it was given.
#[derive(Drop)]
pub(crate) enum Held {
    /// For each class, by number, the row of the classes that it lies below.
    Rows(Vec<Row>),
    /// For each class, by number, the list of the classes that it lies below.
    Lists(Superclasses),
}

/// Which classes lie below which.
#[derive(Drop)]
pub struct Relation {
    pub(crate) held: Held,
}

impl Model for Relation {
    ghost use Rattle.std.specs.Prelude.{Bool, List};
    ghost use Rattle.taxonomy.specs.HeldRelations.{IsHeld, held_rows};

    ghost Value = { List (List Bool) };

    ghost view = { λ r. held_rows r.held };

    ghost invariant = { λ r. IsHeld r.held };
}

impl Relation {
    /// The relation of these rows: of each class the classes that it lies below. Each is over as many numbers as there are rows.
    pub fn new(rows: Vec<Row>) -> Relation
        requires { IsSquare rows.items }
        ensures { result ≡ rows.items }
    {
        Relation {
            held: Held::Rows(rows),
        }
    }

    /// The relation in which each class lies below those of its list, and one whose list has `owl:Nothing` below all classes.
    ///
    /// A number that stands twice in a list, or is not below the number of lists, adds nothing. It fails only where memory is
    /// refused, or where there are more lists than classes can have numbers.
    pub fn of_superclasses(alloc: Global, lists: &PackedLists) -> Result<Relation, Memory>
        ensures size { IfOk result (λ r. length r ≡ length lists.now) }
        ensures each { IfOk result (λ r. (c d : ℕ) → c < length r → d < length r → lies_below r c d ≡ is_below lists.now c d) }
    {
        Ok(Relation {
            held: Held::Lists(of_lists(alloc, lists)?),
        })
    }

    /// How many classes there are.
    pub fn len(&self) -> usize
        ensures { result ≡ length self.now }
    {
        match &self.held {
            Held::Rows(rows) => rows.len(),
            Held::Lists(lists) => lists.len(),
        }
    }

    /// Whether the class `c` lies below the class `d`.
    pub fn lies_below(&self, c: usize, d: usize) -> bool
        ensures { result ≡ lies_below self.now c d }
    {
        match &self.held {
            Held::Rows(rows) => c < rows.len() && rows[c].contains(d),
            Held::Lists(lists) => lists.has(c, d),
        }
    }
}
