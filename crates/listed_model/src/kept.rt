//! What is found once and kept while axioms are tested.
ghost use Rattle.certificate.specs.declared.listed.ClassRow.{ClassRow as ClassRow2};
ghost use Rattle.listed_model.specs.Keeping.{AreKeptOf};
ghost use Rattle.std.specs.Prelude.{◌<◌, ◌∷◌, ◌++◌, ◌≡◌, ◌^◌, IfSome, OnOk, Some, [], length, slice_get};

use axioms::{ExprId, Memory};
use certificate::{ClassRow, Listed};
use number_sets::PackedLists;

/// Where the elements of an expression stand.
#[derive(Clone, Copy)]
pub(crate) enum Place {
    Nowhere,
    /// In the row of that number, of a class.
    Row(u32),
    /// In the list of that number, which was made.
    List(u32),
}

/// For each element the places of the rows that have it among their targets, and for each of the first expressions where its elements
/// stand: rows are lent, so a list is made of what is no class.
#[derive(Drop)]
pub(crate) struct Kept {
    pub holders: PackedLists,
    pub lists: PackedLists,
    pub places: Vec<Place>,
}

impl Kept {
    /// The elements of the expression, if they are kept.
    pub(crate) fn at<'a>(&'a self, listed: &'a Listed, expression: ExprId) -> Option<&'a [u32]>
        ensures { IfSome result (λ elements. AreKeptOf listed.now.classes.items self.now expression.0 elements.now) }
    {
        let place = expression.index();
        if place >= self.places.len() {
            return None;
        }
        match self.places[place] {
            Place::Nowhere => None,
            Place::Row(number) => row_at(&listed.classes, number),
            Place::List(number) => self.list_at(number),
        }
    }

    /// Puts where the next expression's elements stand behind what is told of the others.
    pub(crate) fn put(&mut self, place: Place) -> Result<(), Memory>
        ensures { OnOk result ((self.new.holders ≡ self.old.holders) × (self.new.lists ≡ self.old.lists) × (self.new.places.items ≡ self.old.places.items ++ place ∷ [])) }
    {
        self.places.push(place)?;
        Ok(())
    }

    /// Puts the next expression's list behind the others.
    pub(crate) fn put_list(&mut self, list: &[u32]) -> Result<(), Memory>
        requires { length self.old.lists < 2 ^ 32 }
        ensures { OnOk result ((self.new.holders ≡ self.old.holders) × (self.new.lists ≡ self.old.lists ++ list.now ∷ [])
            × (self.new.places.items ≡ self.old.places.items ++ Place.List (length self.old.lists) ∷ [])) }
    {
        let number = self.lists.len() as u32;
        self.lists.push_list(list)?;
        self.put(Place::List(number))
    }

    // The list of that number, if there is one.
    fn list_at(&self, number: u32) -> Option<&[u32]>
        ensures { IfSome result (λ list. slice_get self.now.lists number ≡ Some list.now) }
    {
        let number = number as usize;
        if number < self.lists.len() {
            return Some(self.lists.at(number));
        }
        None
    }
}

// The elements of the row of that number, if there is one.
fn row_at(rows: &[ClassRow], number: u32) -> Option<&[u32]>
    ensures { IfSome result (λ elements. (row : ClassRow2) × (slice_get rows.now number ≡ Some row) × (row.elements.items ≡ elements.now)) }
{
    let number = number as usize;
    if number < rows.len() {
        return Some(&rows[number].elements);
    }
    None
}
