//! Individuals that forms make one.
ghost use Rattle.std.specs.Prelude.{◌≡◌, ◌<◌, ◌≤◌, ◌^◌, ◌↔◌, IfOk, IsTrue, List, length};
ghost use Rattle.std.specs.List.{All};
ghost use Rattle.normal_forms.specs.declared.forms.Form.{Form as Form2};
ghost use Rattle.axioms.specs.declared.ids.IndId.{IndId as IndId2};
ghost use Rattle.facts.specs.Closure.{AreSame};
ghost use Rattle.indexes.specs.Groups.{AreLeast, IsBelow, is_link, least_in, links};
ghost use Rattle.indexes.specs.Roots.{IsAlone, JoinsBy, LeadDown};

use crate::roots::{flatten, join};
use axioms::{IndId, Memory};
use normal_forms::{Form, FormList};
use std::alloc::{AllocError, Global};
use std::marker::Model;

/// Which individuals are one by the forms that say so of two: of each the least that is one with it, in 4 bytes for each individual up to
/// the last that a form makes one with another. It is seen as those forms. Where there is none it takes no memory.
#[derive(Drop)]
pub struct Groups {
    links: FormList,
    least: Vec<u32>,
}

impl Model for Groups {
    ghost use Rattle.normal_forms.specs.declared.forms.Form.{Form};
    ghost use Rattle.std.specs.Prelude.{List};
    ghost use Rattle.indexes.specs.Groups.{AreLeast};

    ghost Value = { List Form };

    ghost view = { λ g. g.links };

    ghost invariant = { λ g. AreLeast g.links g.least.items };
}

/// Whether the form makes two individuals one.
fn makes_one(form: &Form) -> bool
    ensures { result ≡ is_link form.now }
{
    matches!(form, Form::N10(..))
}

/// Those of the forms that make two individuals one. Fails where memory is refused.
fn links_of(alloc: Global, forms: &FormList) -> Result<FormList, AllocError>
    ensures { IfOk result (λ list. list ≡ links forms.now) }
{
    let mut kept = FormList::new(alloc);
    for number in 0..forms.len() {
        let form = forms.at(number);
        if makes_one(&form) {
            kept.push(form)?;
        }
    }
    Ok(kept)
}

/// A number above those of the individuals that the form makes one.
fn end_of(form: &Form) -> usize
    ensures below { IsBelow result form.now }
    ensures few { result ≤ 2 ^ 32 }
{
    match *form {
        Form::N10(a, b) => a.0.max(b.0) as usize + 1,
        _ => 0,
    }
}

/// A number above those of the individuals that the forms make one.
fn end_of_all(forms: &FormList) -> usize
    ensures below { All (IsBelow result) forms.now }
    ensures few { result ≤ 2 ^ 32 }
{
    let mut end = 0;
    for number in 0..forms.len() {
        end = end.max(end_of(&forms.at(number)));
    }
    end
}

/// Each number below the count at its own place. Fails where memory is refused.
fn alone(alloc: Global, count: usize) -> Result<Vec<u32>, AllocError>
    requires { count ≤ 2 ^ 32 }
    ensures long { IfOk result (λ table. length table.items ≡ count) }
    ensures each { IfOk result (λ table. IsAlone table.items) }
{
    let mut table = Vec::with_capacity(alloc, count)?;
    for number in 0..count {
        table.push(number as u32)?;
    }
    Ok(table)
}

/// Makes the two individuals lead to one that the form makes one.
fn join_by(table: &mut [u32], form: Form)
    requires table { LeadDown table.old }
    requires below { IsBelow (length table.old) form }
    ensures { JoinsBy table.old table.new form }
{
    if let Form::N10(a, b) = form {
        join(table, a.0, b.0);
    }
}

/// Puts in the place of each individual the least that is one with it.
fn settle(table: &mut [u32], forms: &FormList)
    requires alone { IsAlone table.old }
    requires below { All (IsBelow (length table.old)) forms.now }
    ensures { AreLeast forms.now table.new }
{
    for number in 0..forms.len() {
        join_by(table, forms.at(number));
    }
    flatten(table);
}

/// The individual that the table has for that one: past its end the same.
fn entry(table: &[u32], individual: IndId) -> IndId
    ensures { result ≡ least_in table.now individual }
{
    match table.get(individual.index()) {
        Some(least) => IndId(*least),
        None => individual,
    }
}

impl Groups {
    /// Which individuals are one by these forms.
    ///
    /// # Errors
    ///
    /// `Memory` where memory was refused.
    pub fn of(alloc: Global, forms: &FormList) -> Result<Groups, Memory>
        ensures { IfOk result (λ g. g ≡ links forms.now) }
    {
        let links = links_of(alloc, forms)?;
        let mut least = alone(alloc, end_of_all(&links))?;
        settle(&mut least, &links);
        Ok(Groups { links, least })
    }

    /// The least individual that is one with this one.
    pub fn least(&self, individual: IndId) -> IndId
        ensures same { (forms : List Form2) → self.now ≡ links forms → AreSame forms individual result }
        ensures low { (forms : List Form2) (other : IndId2) → self.now ≡ links forms → AreSame forms individual other → result.0 ≤ other.0 }
    {
        entry(&self.least, individual)
    }

    /// Whether two individuals are one.
    pub fn are_same(&self, first: IndId, second: IndId) -> bool
        ensures { (forms : List Form2) → self.now ≡ links forms → IsTrue result ↔ AreSame forms first second }
    {
        self.least(first) == self.least(second)
    }
}
