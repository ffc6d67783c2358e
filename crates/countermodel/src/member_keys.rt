//! Rows of classes where few facts put elements into them: by numbers for a class with an element, which are sorted.
ghost use Rattle.certificate.specs.View.{class_row_of};
ghost use Rattle.countermodel.specs.Members.{AddsMember, AreRowsBy, HasKey, SayMembers};
ghost use Rattle.exactness.specs.ListedInterpretation.{IsBefore};
ghost use Rattle.std.specs.Prelude.{◌≡◌, ◌++◌, ◌∷◌, ◌/◌, ◌%◌, ◌^◌, ◌<◌, [], AllPairs, IfOk, List, OnOk, map, ℕ};

use crate::class_rows::member;
use crate::elements::Elements;
use crate::keys::keys_in_order;
use axioms::{ExprId, Memory, Ontology};
use certificate::ClassRow;
use facts::StoredFact;
use std::alloc::Global;

/// The number of the class with the element: by these numbers they are in order, by the class and then by the element.
fn key_of(class: ExprId, element: u32) -> u64
    ensures class { result / 2 ^ 32 ≡ class.0 }
    ensures element { result % 2 ^ 32 ≡ element }
{
    class.0 as u64 * 0x1_0000_0000 + element as u64
}

/// The class with the element that has that number.
fn member_with(key: u64) -> (ExprId, u32)
    ensures class { result.0.0 ≡ key / 2 ^ 32 }
    ensures element { result.1 ≡ key % 2 ^ 32 }
{
    let class = ExprId((key / 0x1_0000_0000) as u32);
    (class, (key % 0x1_0000_0000) as u32)
}

/// The numbers of the classes with the elements that the facts put into them, in any order.
fn keys_of(
    alloc: Global,
    ontology: &Ontology,
    elements: &Elements,
    facts: &[StoredFact],
) -> Result<Vec<u64>, Memory>
    requires { AllPairs IsBefore elements.now }
    ensures { IfOk result (λ v. SayMembers ontology.now elements.now facts.now (HasKey v.items)) }
{
    let mut keys = Vec::new(alloc);
    for fact in facts {
        if let Some((class, element)) = member(ontology, elements, fact) {
            keys.push(key_of(class, element))?;
        }
    }
    Ok(keys)
}

/// Adds a row of the class with the element alone.
fn add_row(
    alloc: Global,
    rows: &mut Vec<ClassRow>,
    class: ExprId,
    element: u32,
) -> Result<(), Memory>
    ensures { OnOk result (map class_row_of rows.new.items ≡ map class_row_of rows.old.items ++ (class.0, element ∷ []) ∷ []) }
{
    let mut elements = Vec::new(alloc);
    elements.push(element)?;
    rows.push(ClassRow { class, elements })?;
    Ok(())
}

/// Adds the element to the last row, where that is of the class, and else a row of the class with it alone.
fn add_member(
    alloc: Global,
    rows: &mut Vec<ClassRow>,
    class: ExprId,
    element: u32,
) -> Result<(), Memory>
    ensures { OnOk result (AddsMember class.0 element (map class_row_of rows.old.items) (map class_row_of rows.new.items)) }
{
    let Some(mut row) = rows.pop() else {
        return add_row(alloc, rows, class, element);
    };
    if row.class == class {
        row.elements.push(element)?;
        rows.push(row)?;
        return Ok(());
    }
    rows.push(row)?;
    add_row(alloc, rows, class, element)
}

/// A row for each class of the numbers, which ascend.
fn rows_of(alloc: Global, keys: &[u64]) -> Result<Vec<ClassRow>, Memory>
    requires { AllPairs (λ x y. x < y) keys.now }
    ensures { IfOk result (λ v. AreRowsBy (HasKey keys.now) (map class_row_of v.items)) }
{
    let mut rows = Vec::new(alloc);
    for key in keys {
        let (class, element) = member_with(*key);
        add_member(alloc, &mut rows, class, element)?;
    }
    Ok(rows)
}

/// A row for each class that the facts put elements into, but for `owl:Thing` and `owl:Nothing`, in order.
pub(crate) fn rows_by_keys(
    alloc: Global,
    ontology: &Ontology,
    elements: &Elements,
    facts: &[StoredFact],
) -> Result<Vec<ClassRow>, Memory>
    requires { AllPairs IsBefore elements.now }
    ensures { IfOk result (λ v. (keys : List ℕ) × SayMembers ontology.now elements.now facts.now (HasKey keys) × AreRowsBy (HasKey keys) (map class_row_of v.items)) }
{
    let members = keys_of(alloc, ontology, elements, facts)?;
    let keys = keys_in_order(alloc, &members)?;
    rows_of(alloc, &keys)
}
