//! Classes in groups of those that are the same.
ghost use Rattle.answers.specs.Names.{AreInByteOrder, AreThose, groups_in};
ghost use Rattle.answers.specs.Neighbours.{AreGroups, AreSame, IsClosed, TellsGroup, first_of};
ghost use Rattle.axioms.specs.WellFormedness.{AreDistinct};
ghost use Rattle.std.specs.Prelude.{◌<◌, ◌↔◌, ◌≡◌, All, Contains, IfOk, IsTrue, length, map, true, ℕ};
ghost use Rattle.taxonomy.specs.Relation.{is_listed};

use crate::lists_above::has;
use crate::names::names_of;
use axioms::{Kind, Memory, Ontology};
use number_sets::{PackedLists, sort_ascending};
use std::alloc::Global;

/// The classes of a class's list that have it in theirs, too.
fn mutual(alloc: Global, lists: &PackedLists, class: usize) -> Result<Vec<u32>, Memory>
    ensures { IfOk result (λ v. (d : ℕ) → Contains v.items d ↔ ((is_listed lists.now class d ≡ true) × (is_listed lists.now d class ≡ true))) }
{
    let mut found = Vec::new(alloc);
    for other in lists.at(class) {
        if has(lists, *other as usize, class) {
            found.push(*other)?;
        }
    }
    Ok(found)
}

/// The same, each once.
fn mutual_once(alloc: Global, lists: &PackedLists, class: usize) -> Result<Vec<u32>, Memory>
    ensures once { IfOk result (λ v. AreDistinct v.items) }
    ensures exact { IfOk result (λ v. (d : ℕ) → Contains v.items d ↔ ((is_listed lists.now class d ≡ true) × (is_listed lists.now d class ≡ true))) }
{
    let mut found = mutual(alloc, lists, class)?;
    sort_ascending(&mut found);
    Ok(found)
}

/// The classes that are the same as the class of that name, in byte order.
fn group_of<'a>(
    alloc: Global,
    ontology: &'a Ontology,
    lists: &PackedLists,
    name: &str,
) -> Result<Vec<&'a str>, Memory>
    requires known { Contains ontology.now.names.classes name.now }
    requires long { length lists.now ≡ length ontology.now.names.classes }
    requires within { (c d : ℕ) → is_listed lists.now c d ≡ true → d < length lists.now }
    requires tells { TellsGroup ontology.now lists.now name.now }
    ensures { IfOk result (λ v. AreThose ontology.now.names.classes (AreSame ontology.now name.now) (map (λ s. s.now) v.items)) }
{
    ontology.well_formed();
    let Some(class) = ontology.number_of(Kind::Class, name) else {
        unreachable!()
    };
    let same = mutual_once(alloc, lists, class as usize)?;
    names_of(alloc, ontology.classes(), &same)
}

/// Whether the name is the first of its group.
fn leads(group: &[&str], name: &str) -> bool
    requires { 0 < length group.now }
    ensures { IsTrue result ↔ (first_of (map (λ s. s.now) group.now) ≡ name.now) }
{
    group[0] == name
}

/// The groups of the classes of these names, in the order of their first names.
pub(crate) fn groups_of<'a>(
    alloc: Global,
    ontology: &'a Ontology,
    lists: &PackedLists,
    names: &[&'a str],
) -> Result<Vec<Vec<&'a str>>, Memory>
    requires ordered { AreInByteOrder (map (λ s. s.now) names.now) }
    requires known { All (Contains ontology.now.names.classes) (map (λ s. s.now) names.now) }
    requires closed { IsClosed ontology.now (map (λ s. s.now) names.now) }
    requires long { length lists.now ≡ length ontology.now.names.classes }
    requires within { (c d : ℕ) → is_listed lists.now c d ≡ true → d < length lists.now }
    requires tells { All (TellsGroup ontology.now lists.now) (map (λ s. s.now) names.now) }
    ensures { IfOk result (λ v. AreGroups ontology.now (Contains (map (λ s. s.now) names.now)) (groups_in v.items)) }
{
    let mut groups = Vec::new(alloc);
    for name in names {
        let group = group_of(alloc, ontology, lists, name)?;
        if leads(&group, name) {
            groups.push(group)?;
        }
    }
    Ok(groups)
}
