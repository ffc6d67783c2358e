//! Whether the classes that hold claimed elements, and the elements of individuals, are those that lines put above.
ghost use Rattle.cert_check.specs.Additions.{ListsMember, thing_class};
ghost use Rattle.cert_check.specs.Lists.{AddsNumbers, AreClaimed, AreElementClasses, ClaimAgrees, ElementAgrees, IsClaimed, IsInExactly, has_number};
ghost use Rattle.taxonomy.specs.Relation.{is_listed};
ghost use Rattle.cert_check.specs.Verdict.{IsFirstClassWithout, IsFirstIndividualWithout};
ghost use Rattle.certificate.specs.Writability.{Ascends};
ghost use Rattle.certificate.specs.View.{claim_of, class_row_of};
ghost use Rattle.number_sets.specs.Members.{has};
ghost use Rattle.std.specs.Prelude.{◌↔◌, ◌<◌, ◌≤◌, ◌^◌, ◌≡◌, ◌⊎◌, IfOk, IsTrue, OnOk, Some, length, map, true, ℕ};
ghost use Rattle.taxonomy.specs.Texts.{nothing_class};

use axioms::{ClassId, IndId, Memory, Ontology};
use certificate::{Claim, ClassRow};
use number_sets::{EpochSet, OpenLists, PackedLists};
use std::alloc::Global;

/// The claimed element for each class, by number, where there is a claim.
pub(crate) fn claimed_elements(
    alloc: Global,
    ontology: &Ontology,
    claims: &[Claim],
) -> Result<Vec<Option<u32>>, Memory>
    requires { Ascends (map (λ c. c.0) (map claim_of claims.now)) }
    ensures { IfOk result (λ claimed. AreClaimed ontology.now (map claim_of claims.now) claimed.items) }
{
    // A class is one expression.
    ontology.well_formed();
    let mut elements = vec![in alloc; None; ontology.classes().len()]?;
    for claim in claims {
        if let Some(class) = ontology.class_of(claim.class) {
            elements[class.0 as usize] = Some(claim.element);
        }
    }
    Ok(elements)
}

// A list for each of so many elements, with only owl:Thing.
fn thing_lists(alloc: Global, count: usize) -> Result<OpenLists, Memory>
    ensures long { IfOk result (λ lists. length lists ≡ count) }
    ensures each { IfOk result (λ lists. (x c : ℕ) → x < length lists → (is_listed lists x c ≡ true) ↔ (c ≡ thing_class)) }
{
    let mut lists = OpenLists::new(alloc, count)?;
    for element in 0..count {
        lists.push(element, ClassId::THING.0)?;
    }
    Ok(lists)
}

// Adds the class to the lists of its elements.
fn put_holders(ontology: &Ontology, lists: &mut OpenLists, listed: &ClassRow) -> Result<(), Memory>
    ensures { OnOk result (AddsNumbers (λ x c. ListsMember ontology.now (class_row_of listed.now) c x) lists.old lists.new) }
{
    if let Some(class) = ontology.class_of(listed.class) {
        for element in &listed.elements {
            lists.push(*element as usize, class.0)?;
        }
    }
    Ok(())
}

/// For each element the list of the classes that it is in: owl:Thing, and those that are listed with it.
pub(crate) fn element_classes(
    alloc: Global,
    ontology: &Ontology,
    domain: u32,
    classes: &[ClassRow],
) -> Result<PackedLists, Memory>
    ensures { IfOk result (λ lists. AreElementClasses ontology.now domain (map class_row_of classes.now) lists) }
{
    let mut lists = thing_lists(alloc, domain as usize)?;
    for listed in classes {
        put_holders(ontology, &mut lists, listed)?;
    }
    Ok(lists.packed(alloc)?)
}

// Whether the class with this list and this claim is below owl:Nothing or has a claimed element.
fn is_claimed(above: &[u32], claim: Option<u32>) -> bool
    ensures { IsTrue result ↔ ((has_number above.now nothing_class ≡ true) ⊎ ((x : ℕ) × (claim ≡ Some x))) }
{
    claim.is_some() || above.contains(&ClassId::NOTHING.0)
}

/// The least class that has no owl:Nothing in its list and for which nothing is claimed.
pub(crate) fn first_unclaimed(above: &PackedLists, claimed: &[Option<u32>]) -> Option<ClassId>
    requires claimed { length claimed.now ≡ length above.now }
    requires few { length above.now ≤ 2 ^ 32 }
    ensures { IsFirstClassWithout (IsClaimed above.now claimed.now) result }
{
    for class in 0..above.len() {
        if !is_claimed(above.at(class), claimed[class]) {
            return Some(ClassId(class as u32));
        }
    }
    None
}

// Makes the set that of these numbers.
fn fill(set: &mut EpochSet, numbers: &[u32])
    ensures long { length set.new ≡ length set.old }
    ensures each { (n : ℕ) → n < length set.old → has set.new n ≡ has_number numbers.now n }
{
    set.clear();
    for number in numbers {
        set.put(*number as usize);
    }
}

fn has_each(set: &EpochSet, numbers: &[u32]) -> bool
    ensures { IsTrue result ↔ ((n : ℕ) → has_number numbers.now n ≡ true → has set.now n ≡ true) }
{
    for number in numbers {
        if !set.contains(*number as usize) {
            return false;
        }
    }
    true
}

// Whether each of these numbers is one of the others. The set is to work in.
fn are_among(set: &mut EpochSet, numbers: &[u32], others: &[u32]) -> bool
    requires { (n : ℕ) → has_number others.now n ≡ true → n < length set.old }
    ensures long { length set.new ≡ length set.old }
    ensures each { IsTrue result ↔ ((n : ℕ) → has_number numbers.now n ≡ true → has_number others.now n ≡ true) }
{
    fill(set, others);
    has_each(set, numbers)
}

// Whether these are the same numbers, however often each stands. The set is to work in. Of numbers of which none stands twice no
// more are looked at than there are others, since the first that is not among these ends it: a forged claim costs no more.
fn are_same(set: &mut EpochSet, numbers: &[u32], others: &[u32]) -> bool
    requires numbers { (n : ℕ) → has_number numbers.now n ≡ true → n < length set.old }
    requires others { (n : ℕ) → has_number others.now n ≡ true → n < length set.old }
    ensures long { length set.new ≡ length set.old }
    ensures each { IsTrue result ↔ ((n : ℕ) → has_number numbers.now n ≡ has_number others.now n) }
{
    are_among(set, numbers, others) && are_among(set, others, numbers)
}

// Whether the claimed element is in the class, and in exactly the classes above it. The set is to work in.
fn agrees(
    set: &mut EpochSet,
    holding: &PackedLists,
    class: u32,
    claim: Option<u32>,
    above: &[u32],
) -> bool
    requires holding { (x n : ℕ) → is_listed holding.now x n ≡ true → n < length set.old }
    requires above { (n : ℕ) → has_number above.now n ≡ true → n < length set.old }
    ensures long { length set.new ≡ length set.old }
    ensures each { IsTrue result ↔ ((x : ℕ) → claim ≡ Some x → (is_listed holding.now x class ≡ true) × IsInExactly holding.now x above.now) }
{
    match claim {
        Some(element) => {
            let held = holding.at(element as usize);
            held.contains(&class) && are_same(set, held, above)
        }
        None => true,
    }
}

/// The least class whose claimed element is not in it, or is in other classes than those of its list. The set is to work in.
pub(crate) fn first_disagreeing_class(
    set: &mut EpochSet,
    above: &PackedLists,
    claimed: &[Option<u32>],
    holding: &PackedLists,
) -> Option<ClassId>
    requires claimed { length claimed.now ≡ length above.now }
    requires few { length above.now ≤ 2 ^ 32 }
    requires above { (c n : ℕ) → is_listed above.now c n ≡ true → n < length set.old }
    requires holding { (x n : ℕ) → is_listed holding.now x n ≡ true → n < length set.old }
    ensures long { length set.new ≡ length set.old }
    ensures each { IsFirstClassWithout (ClaimAgrees above.now claimed.now holding.now) result }
{
    for class in 0..above.len() {
        if !agrees(set, holding, class as u32, claimed[class], above.at(class)) {
            return Some(ClassId(class as u32));
        }
    }
    None
}

/// The least individual whose element is in other classes than those of its list. The set is to work in.
pub(crate) fn first_disagreeing_individual(
    set: &mut EpochSet,
    types: &PackedLists,
    elements: &[u32],
    holding: &PackedLists,
) -> Option<IndId>
    requires elements { length elements.now ≡ length types.now }
    requires few { length types.now ≤ 2 ^ 32 }
    requires types { (a n : ℕ) → is_listed types.now a n ≡ true → n < length set.old }
    requires holding { (x n : ℕ) → is_listed holding.now x n ≡ true → n < length set.old }
    ensures { IsFirstIndividualWithout (ElementAgrees types.now elements.now holding.now) result }
{
    for individual in 0..types.len() {
        let held = holding.at(elements[individual] as usize);
        if !are_same(set, held, types.at(individual)) {
            return Some(IndId(individual as u32));
        }
    }
    None
}
