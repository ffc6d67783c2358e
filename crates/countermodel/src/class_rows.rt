//! Rows of classes.
ghost use Rattle.axioms.specs.Ontology.{Ontology as Ontology2};
ghost use Rattle.certificate.specs.View.{class_row_of};
ghost use Rattle.exactness.specs.ListedInterpretation.{IsBefore};
ghost use Rattle.countermodel.specs.FactsOf.{AreFactsOf};
ghost use Rattle.countermodel.specs.Sinks.{Adds};
ghost use Rattle.countermodel.specs.Members.{AreMembers, AreOwnClasses, AreRowsOf, HasNoMember, IsMember};
ghost use Rattle.countermodel.specs.MemberRows.{AreClassRows};
ghost use Rattle.std.specs.Prelude.{◌≡◌, ◌≤◌, ◌+◌, ◌-◌, ◌^◌, [], AllPairs, IfOk, MatchOption, OnOk, length, map, min, replicate, slice_index, slice_set};

use crate::ascending::ascending;
use crate::elements::Elements;
use crate::own_classes::{is_own_class, own_classes};
use crate::sink::RowSink;
use axioms::{ExprId, Memory, Ontology};
use certificate::ClassRow;
use engine::Closed;
use facts::{Fact, StoredFact};
use normal_forms::Class2;
use number_sets::{OpenLists, Row};
use std::alloc::Global;

/// The class, and the element that the fact puts into it, where it puts one into a named class but `owl:Thing` and `owl:Nothing`.
pub(crate) fn member(
    ontology: &Ontology,
    elements: &Elements,
    fact: &StoredFact,
) -> Option<(ExprId, u32)>
    ensures { MatchOption result (HasNoMember ontology.now elements.now fact.now) (λ p. IsMember ontology.now elements.now fact.now p.0.0 p.1) }
{
    match fact.get() {
        Fact::In(Class2::Expr(class), context) if is_own_class(ontology, class) => {
            match elements.element(context) {
                Some(element) => Some((class, element)),
                None => None,
            }
        }
        _ => None,
    }
}

/// The same, where a bit for each expression tells whether it is such a class.
fn member_by(own: &Row, elements: &Elements, fact: &StoredFact) -> Option<(ExprId, u32)>
    ensures { (o : Ontology2) → AreOwnClasses o own.now → MatchOption result (HasNoMember o elements.now fact.now) (λ p. IsMember o elements.now fact.now p.0.0 p.1) }
{
    match fact.get() {
        Fact::In(Class2::Expr(class), context) if own.contains(class.index()) => {
            match elements.element(context) {
                Some(element) => Some((class, element)),
                None => None,
            }
        }
        _ => None,
    }
}

/// Counts one more at that number, if there is one; but never more than 2^32 - 1.
fn count(counts: &mut [u32], number: usize)
    ensures { counts.new ≡ slice_set counts.old number (min (slice_index counts.old number + 1) (2 ^ 32 - 1)) }
{
    if number < counts.len() {
        counts[number] = counts[number].saturating_add(1);
    }
}

/// For each expression that is such a class how many facts put something into it. The numbers decide nothing but how much memory is
/// asked for at once.
fn member_counts(
    alloc: Global,
    ontology: &Ontology,
    own: &Row,
    facts: &[StoredFact],
) -> Result<Vec<u32>, Memory>
    ensures { IfOk result (λ counts. length counts.items ≡ length ontology.now.nodes) }
{
    let mut counts = vec![in alloc; 0u32; ontology.expression_count()]?;
    for fact in facts {
        match fact.get() {
            Fact::In(Class2::Expr(class), _) if own.contains(class.index()) => {
                count(&mut counts, class.index());
            }
            _ => {}
        }
    }
    Ok(counts)
}

/// An empty list for each expression, with room for the elements that the facts put into it where it is such a class.
fn empty_lists(
    alloc: Global,
    ontology: &Ontology,
    own: &Row,
    facts: &[StoredFact],
) -> Result<OpenLists, Memory>
    ensures { IfOk result (λ lists. lists ≡ replicate (length ontology.now.nodes) []) }
{
    let room = member_counts(alloc, ontology, own, facts)?;
    Ok(OpenLists::with_room(alloc, &room)?)
}

/// For each expression that is such a class the elements that the facts put into it.
fn members(
    alloc: Global,
    ontology: &Ontology,
    elements: &Elements,
    facts: &[StoredFact],
) -> Result<OpenLists, Memory>
    requires { AllPairs IsBefore elements.now }
    ensures members { IfOk result (λ lists. AreMembers ontology.now elements.now facts.now lists) }
    ensures length { IfOk result (λ lists. length lists ≡ length ontology.now.nodes) }
{
    let own = own_classes(alloc, ontology)?;
    let mut lists = empty_lists(alloc, ontology, &own, facts)?;
    for fact in facts {
        if let Some((class, element)) = member_by(&own, elements, fact) {
            lists.push(class.index(), element)?;
        }
    }
    Ok(lists)
}

/// Adds a row for each list that has numbers, which it has in ascending order.
fn add_rows_of<S: RowSink<ClassRow>>(
    alloc: Global,
    lists: &OpenLists,
    rows: &mut S,
) -> Result<(), Memory>
    requires { length lists.now ≤ 2 ^ 32 }
    ensures { OnOk result (Adds (λ rs. AreRowsOf lists.now (map class_row_of rs)) (S.adds rows.old rows.new)) }
{
    for number in 0..lists.len() {
        let list = lists.at(number);
        if !list.is_empty() {
            let class = ExprId(number as u32);
            let elements = ascending(alloc, list)?;
            rows.add(ClassRow { class, elements })?;
        }
    }
    Ok(())
}

/// Adds a row for each class that has elements, but for `owl:Thing` and `owl:Nothing`, in order. The facts are all of the saturation,
/// or those of the elements' contexts.
///
/// # Errors
///
/// `Memory` where memory was refused; then some of them may be there.
pub(crate) fn add_class_rows<S: RowSink<ClassRow>>(
    closed: &Closed<'_>,
    elements: &Elements,
    facts: &[StoredFact],
    rows: &mut S,
) -> Result<(), Memory>
    requires ascend { AllPairs IsBefore elements.now }
    requires facts { AreFactsOf elements.now closed.now.saturation.state.facts facts.now }
    ensures { OnOk result (Adds (λ rs. AreClassRows closed.now.ontology closed.now.saturation.normal.asked elements.now (map class_row_of rs)) (S.adds rows.old rows.new)) }
{
    let ontology = closed.ontology();
    let alloc = closed.allocator();
    closed.well_formed();
    ontology.bounded();
    let lists = members(alloc, ontology, elements, facts)?;
    add_rows_of(alloc, &lists, rows)
}
