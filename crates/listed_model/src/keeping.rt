//! Of which expressions the elements are kept: of each class, whose row is lent, and of those whose lists few steps make from what is kept.
//! How many these are goes by the listed interpretation, so of what takes more no list is made here.
ghost use Rattle.certificate.specs.Writability.{IsListedOf};
ghost use Rattle.certificate.specs.View.{listed_of};
ghost use Rattle.certificate.specs.declared.listed.ClassRow.{ClassRow as ClassRow2};
ghost use Rattle.listed_model.specs.Extensions.{IsExtension};
ghost use Rattle.listed_model.specs.Keeping.{AreKept};
ghost use Rattle.listed_model.specs.Testers.{IsReady};
ghost use Rattle.std.specs.Prelude.{◌<◌, ◌≡◌, ◌≤◌, ◌+◌, Contains, IfOk, IfSome, IsTrue, OnOk, Some, length, slice_get};

use crate::extension::class_elements;
use crate::kept::{Kept, Place};
use crate::restriction::{Pairs, holders_of, pair_count, take_steps};
use crate::tester::Tester;
use axioms::{Expr, ExprId, Memory, Ontology};
use certificate::{ClassRow, Listed};
use number_sets::PackedLists;
use std::alloc::Global;

fn member_count(rows: &[ClassRow]) -> usize {
    let mut count: usize = 0;
    for row in rows {
        count = count.saturating_add(row.elements.len());
    }
    count
}

// Whether the row of that number is of the class.
fn is_of(rows: &[ClassRow], number: usize, class: ExprId) -> bool
    ensures { IsTrue result → (row : ClassRow2) × (slice_get rows.now number ≡ Some row) × (row.class.0 ≡ class.0) }
{
    number < rows.len() && rows[number].class == class
}

// How many steps all lists that are made may take together: four for each element, each pair and each member of a class.
fn steps_for(listed: &Listed) -> usize {
    let pairs = pair_count(&listed.pairs);
    let members = member_count(&listed.classes);
    let size = pairs
        .saturating_add(members)
        .saturating_add(listed.domain as usize);
    size.saturating_mul(4)
}

// The operand with the fewest elements, if those of each are kept.
fn fewest(kept: &Kept, listed: &Listed, operands: &[ExprId]) -> Option<ExprId>
    ensures { IfSome result (λ least. Contains operands.now least) }
{
    let mut least = *operands.first()?;
    let mut bound = usize::MAX;
    for operand in operands {
        let elements = kept.at(listed, *operand)?;
        if elements.len() < bound {
            least = *operand;
            bound = elements.len();
        }
    }
    Some(least)
}

impl Tester<'_> {
    // The elements of the expression, if those of its parts are kept and the steps that are left make its list. Of these go the steps that
    // it takes, at least two for each element that is kept.
    fn few_elements(&self, expression: ExprId, left: &mut usize) -> Result<Option<Vec<u32>>, Memory>
        requires ready { IsReady self.now }
        requires there { expression.0 < length self.now.ontology.now.nodes }
        ensures { IfOk result (λ made. IfSome made (λ elements. IsExtension self.now.ontology.now (listed_of self.now.listed.now) expression.0 elements.items)) }
    {
        match self.ontology.expr(expression) {
            Some(Expr::Class(_)) => {
                let elements = class_elements(self.alloc, self.listed, expression)?;
                Ok(Some(elements))
            }
            Some(Expr::And(operands)) => {
                let Some(least) = fewest(self.kept, self.listed, operands) else {
                    return Ok(None);
                };
                let Some(elements) = self.kept.at(self.listed, least) else {
                    return Ok(None);
                };
                if !take_steps(left, elements.len().saturating_mul(operands.len())) {
                    return Ok(None);
                }
                let those = self.those_in(expression, elements)?;
                Ok(Some(those))
            }
            Some(Expr::Some(property, filler)) => {
                let Some(fillers) = self.kept.at(self.listed, *filler) else {
                    return Ok(None);
                };
                let pairs = Pairs {
                    alloc: self.alloc,
                    rows: &self.listed.pairs,
                    holders: &self.kept.holders,
                };
                pairs.few_sources(*property, fillers, left)
            }
            // The expression is one of the ontology.
            None => unreachable!(),
        }
    }
}

// Puts the place of the expression's elements behind the others: that of the list that is made of them, if one is.
fn keep_list(
    alloc: Global,
    ontology: &Ontology,
    listed: &Listed,
    kept: &mut Kept,
    expression: ExprId,
    left: &mut usize,
) -> Result<(), Memory>
    requires listed { IsListedOf ontology.now (listed_of listed.now) }
    requires kept { AreKept ontology.now listed.now kept.old }
    requires next { length kept.old.places.items ≡ expression.0 }
    requires few { length kept.old.lists ≤ expression.0 }
    requires there { expression.0 < length ontology.now.nodes }
    ensures kept { OnOk result (AreKept ontology.now listed.now kept.new) }
    ensures places { OnOk result (length kept.new.places.items ≡ expression.0 + 1) }
    ensures lists { OnOk result (length kept.new.lists ≤ expression.0 + 1) }
{
    let tester = Tester {
        alloc,
        ontology,
        listed,
        kept: &*kept,
    };
    let made = tester.few_elements(expression, left)?;
    match made {
        Some(elements) => kept.put_list(&elements),
        None => kept.put(Place::Nowhere),
    }
}

/// What is kept of the listed interpretation, in memory that goes by it. It fails where memory is refused, or where there are 2^32
/// rows of pairs.
pub(crate) fn kept_of(alloc: Global, ontology: &Ontology, listed: &Listed) -> Result<Kept, Memory>
    requires { IsListedOf ontology.now (listed_of listed.now) }
    ensures { IfOk result (λ kept. AreKept ontology.now listed.now kept) }
{
    ontology.bounded();
    ontology.well_formed();
    let holders = holders_of(alloc, &listed.pairs, listed.domain)?;
    let mut kept = Kept {
        holders,
        lists: PackedLists::new(alloc),
        places: Vec::with_capacity(alloc, ontology.expression_count())?,
    };
    let mut left = steps_for(listed);
    let mut next = 0;
    for number in 0..ontology.expression_count() {
        let expression = ExprId(number as u32);
        if is_of(&listed.classes, next, expression) {
            kept.put(Place::Row(next as u32))?;
            next += 1;
        } else {
            keep_list(alloc, ontology, listed, &mut kept, expression, &mut left)?;
        }
    }
    Ok(kept)
}
