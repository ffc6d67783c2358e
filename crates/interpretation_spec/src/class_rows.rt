//! The elements of classes, with a row for each class that has any.
ghost use Rattle.interpretation_spec.specs.Members.{has_some};
ghost use Rattle.std.specs.List.{filter, range_with_len};
ghost use Rattle.std.specs.Prelude.{◌≡◌, ◌<◌, ◌-◌, ◌∷◌, [], IfOk, OnErr, OnOk, false, length, option_map, replicate, slice_get, slice_index_or, slice_set, true};

use axioms::Memory;
use number_sets::Row;
use std::alloc::Global;
use std::marker::Model;

/// A row of elements for each class. Those of the classes without elements are one, so that a class takes 8 bytes until it has some.
#[derive(Drop)]
pub(crate) struct ClassRows {
    /// First the one without elements, and then that of `owl:Thing`.
    rows: Vec<Row>,
    /// Where the row of each class stands.
    places: Vec<usize>,
}

impl Model for ClassRows {
    ghost use Rattle.std.specs.Prelude.{Bool, List};
    ghost use Rattle.interpretation_spec.specs.ClassRows.{ArePlaced, rows_at};

    ghost Value = { List (List Bool) };

    ghost view = { λ r. rows_at r.rows.items r.places.items };

    ghost invariant = { λ r. ArePlaced r.rows.items r.places.items };
}

/// The rows of so many elements that no class has, and that `owl:Thing` has.
fn first_rows(alloc: Global, size: usize) -> Result<Vec<Row>, Memory>
    ensures { IfOk result (λ rows. rows.items ≡ replicate size false ∷ replicate size true ∷ []) }
{
    let mut rows = Vec::with_capacity(alloc, 2)?;
    rows.push(Row::new(alloc, size)?)?;
    rows.push(Row::full(alloc, size)?)?;
    Ok(rows)
}

/// The row of so many elements with that one alone.
fn row_with(alloc: Global, size: usize, element: usize) -> Result<Row, Memory>
    ensures { IfOk result (λ row. row ≡ slice_set (replicate size false) element true) }
{
    let mut row = Row::new(alloc, size)?;
    row.put(element);
    Ok(row)
}

impl ClassRows {
    /// The rows of `count` classes, of which the first is `owl:Thing`.
    pub(crate) fn new(alloc: Global, count: usize, size: usize) -> Result<ClassRows, Memory>
        requires { 0 < count }
        ensures { IfOk result (λ r. r ≡ replicate size true ∷ replicate (count - 1) (replicate size false)) }
    {
        let rows = first_rows(alloc, size)?;
        let mut places = vec![in alloc; 0usize; count]?;
        places[0] = 1;
        Ok(ClassRows { rows, places })
    }

    /// How many classes there are.
    pub(crate) fn len(&self) -> usize
        ensures { result ≡ length self.now }
    {
        self.places.len()
    }

    /// The row of the class of that number.
    pub(crate) fn at(&self, class: usize) -> &Row
        requires { class < length self.now }
        ensures { result.now ≡ slice_index_or self.now class [] }
    {
        &self.rows[self.places[class]]
    }

    /// The row of the class of that number, if there is one.
    pub(crate) fn get(&self, class: usize) -> Option<&Row>
        ensures { option_map (λ row. row.now) result ≡ slice_get self.now class }
    {
        if class >= self.len() {
            return None;
        }
        Some(self.at(class))
    }

    /// Makes a row of the class of that number, which has no element, with this one. Fails where memory is refused; then nothing changes.
    fn begin(&mut self, alloc: Global, class: usize, element: usize) -> Result<(), Memory>
        requires class { (0 < class) × (class < length self.old) }
        requires none { has_some (slice_index_or self.old class []) ≡ false }
        requires element { element < length (slice_index_or self.old class []) }
        ensures ok { OnOk result (self.new ≡ slice_set self.old class (slice_set (slice_index_or self.old class []) element true)) }
        ensures err { OnErr result (self.new ≡ self.old) }
    {
        let row = row_with(alloc, self.at(class).len(), element)?;
        let place = self.rows.len();
        self.rows.push(row)?;
        self.places[class] = place;
        Ok(())
    }

    /// Puts the element into the class of that number, which is not `owl:Thing`. Fails where memory is refused, which is asked for where the
    /// class has no element; then nothing changes.
    pub(crate) fn put(&mut self, alloc: Global, class: usize, element: usize) -> Result<(), Memory>
        requires class { (0 < class) × (class < length self.old) }
        requires element { element < length (slice_index_or self.old class []) }
        ensures ok { OnOk result (self.new ≡ slice_set self.old class (slice_set (slice_index_or self.old class []) element true)) }
        ensures err { OnErr result (self.new ≡ self.old) }
        ensures asked { OnErr result (has_some (slice_index_or self.old class []) ≡ false) }
    {
        let place = self.places[class];
        if place == 0 {
            return self.begin(alloc, class, element);
        }
        self.rows[place].put(element);
        Ok(())
    }

    /// The numbers of the classes but `owl:Thing` that have elements, ascending.
    pub(crate) fn with_elements(&self, alloc: Global) -> Result<Vec<usize>, Memory>
        ensures { IfOk result
            (λ v. v.items ≡ filter (λ c. has_some (slice_index_or self.now c [])) (range_with_len 1 (length self.now - 1))) }
    {
        let mut classes = Vec::new(alloc);
        for class in 1..self.places.len() {
            if self.places[class] != 0 {
                classes.push(class)?;
            }
        }
        Ok(classes)
    }
}
