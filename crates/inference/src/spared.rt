//! Which chains give edges that no chain needs as its second premise.
ghost use Rattle.std.specs.Prelude.{◌≡◌, ℕ, Contains, IfOk, List, slice_get, Some, true};
ghost use Rattle.normal_forms.specs.declared.forms.Form.{Form as Form2};
ghost use Rattle.normal_forms.specs.declared.forms.Form.TheVariants as the_forms;
ghost use Rattle.normal_forms.specs.declared.forms.PropId2.{PropId2 as PropId3};
ghost use Rattle.normal_forms.specs.Properties.{IsAtOrBelow};
ghost use Rattle.inference.specs.Completeness.{IsJoined, IsSparedBy};
ghost use Rattle.property_closure.specs.PropertyClosures.{Has};
ghost use Rattle.inference.specs.PropertyClosures.{IsClosureOf};
ghost use Rattle.inference.specs.Visits.{AreSpared, NoneNeedsWhole};

use crate::properties::is_below;
use axioms::{Memory, PropId};
use indexes::IndexedProblem;
use normal_forms::{Form, PropId2};
use number_sets::Row;
use property_closure::PropertyClosure;
use std::alloc::Global;

/// How many properties and chains may be looked at yet, so that the search ends soon.
#[derive(Drop)]
pub(crate) struct Looks {
    left: usize,
}

impl Looks {
    /// Whether one of so many properties may be looked at. It decides nothing.
    fn spend(&mut self, properties: &[PropId2]) -> bool {
        let many = properties.len() + 1;
        if many > self.left {
            return false;
        }
        self.left -= many;
        true
    }
}

/// Whether one of the chains, of which the second properties and the wholes are listed, goes over the property to the whole.
fn has_link(
    closure: &PropertyClosure,
    looks: &mut Looks,
    chains: &[(PropId2, PropId2)],
    second: PropId2,
    whole: PropId2,
) -> bool
    ensures { result ≡ true → (forms : List Form2) → IsClosureOf forms closure.now → (s : PropId3) × Contains chains.now (s, whole) × IsAtOrBelow forms second s }
{
    for (next, end) in chains {
        if !looks.spend(closure.supers(second)) {
            return false;
        }
        if *end == whole && is_below(closure, second, *next) {
            return true;
        }
    }
    false
}

/// Whether a chain joins an edge by the first property and one by the second behind it to one by the whole. It may be that it is not found.
fn is_joined(
    closure: &PropertyClosure,
    looks: &mut Looks,
    first: PropId2,
    second: PropId2,
    whole: PropId2,
) -> bool
    ensures { result ≡ true → (forms : List Form2) → IsClosureOf forms closure.now → IsJoined forms first second whole }
{
    for above in closure.supers(first) {
        if has_link(closure, looks, closure.chains_from(*above), second, whole) {
            return true;
        }
    }
    false
}

/// Whether what the form of that number gives from an edge and, behind it, the whole of edges by those two properties comes from those
/// three edges in the other order too, if the form is a chain: the chain is one of the two that join them.
fn is_spared_by(
    problem: &IndexedProblem,
    closure: &PropertyClosure,
    looks: &mut Looks,
    number: u32,
    older: (PropId2, PropId2),
) -> bool
    requires { IsClosureOf problem.now.forms closure.now }
    ensures { result ≡ true → (form : Form2) → slice_get problem.now.forms number ≡ Some form → IsSparedBy problem.now.forms older.0 older.1 form }
{
    let (first, second) = older;
    match problem.form(number) {
        Some(Form::N6(begin, end, whole)) => {
            (is_below(closure, first, end) && is_joined(closure, looks, whole, second, whole))
                || (is_below(closure, second, end)
                    && is_joined(closure, looks, begin, first, begin))
        }
        _ => false,
    }
}

/// Whether that is so of each of the forms that are chains.
fn are_spared_by(
    problem: &IndexedProblem,
    closure: &PropertyClosure,
    looks: &mut Looks,
    numbers: &[u32],
    older: (PropId2, PropId2),
) -> bool
    requires { IsClosureOf problem.now.forms closure.now }
    ensures { result ≡ true → (n : ℕ) → Contains numbers.now n → (form : Form2) → slice_get problem.now.forms n ≡ Some form → IsSparedBy problem.now.forms older.0 older.1 form }
{
    for number in numbers {
        if !looks.spend(closure.supers(older.0)) {
            return false;
        }
        if !is_spared_by(problem, closure, looks, *number, older) {
            return false;
        }
    }
    true
}

/// Whether no chain needs an edge by the whole as its second premise that another chain gave from edges by those two properties.
fn is_whole_spared(
    problem: &IndexedProblem,
    closure: &PropertyClosure,
    looks: &mut Looks,
    older: (PropId2, PropId2),
    whole: PropId2,
) -> bool
    requires closed { IsClosureOf problem.now.forms closure.now }
    requires has { Has closure.now whole }
    ensures { result ≡ true → NoneNeedsWhole problem.now.forms older.0 older.1 whole }
{
    for above in closure.supers(whole) {
        if !are_spared_by(problem, closure, looks, problem.chains_to(*above), older) {
            return false;
        }
    }
    true
}

/// Whether no chain needs what the form of that number gives as its second premise, where the form is a chain.
fn is_spared(
    problem: &IndexedProblem,
    closure: &PropertyClosure,
    looks: &mut Looks,
    number: u32,
) -> bool
    requires { IsClosureOf problem.now.forms closure.now }
    ensures { result ≡ true → (a b c : PropId3) → slice_get problem.now.forms number ≡ Some (the_forms.N6 a b c) → NoneNeedsWhole problem.now.forms a b c }
{
    match problem.form(number) {
        Some(Form::N6(first, second, whole)) => {
            is_whole_spared(problem, closure, looks, (first, second), whole)
        }
        _ => false,
    }
}

/// Puts those of the forms into the row that are chains of which no chain needs what they give as its second premise.
fn put_spared(
    row: &mut Row,
    problem: &IndexedProblem,
    closure: &PropertyClosure,
    looks: &mut Looks,
    numbers: &[u32],
)
    requires closed { IsClosureOf problem.now.forms closure.now }
    requires before { AreSpared problem.now.forms row.old }
    ensures { AreSpared problem.now.forms row.new }
{
    for number in numbers {
        if is_spared(problem, closure, looks, *number) {
            row.put(*number as usize);
        }
    }
}

/// So much is looked at in all.
const MOST: usize = 1 << 20;

/// The chains of which no chain needs what they give as its second premise, where that is found soon, by the numbers of their forms.
pub(crate) fn all_spared(
    alloc: Global,
    problem: &IndexedProblem,
    closure: &PropertyClosure,
) -> Result<Row, Memory>
    requires { IsClosureOf problem.now.forms closure.now }
    ensures { IfOk result (AreSpared problem.now.forms) }
{
    let mut looks = Looks { left: MOST };
    let mut row = Row::new(alloc, problem.forms().len())?;
    for number in 0..closure.properties().min(u16::MAX as usize) {
        let property = PropId2::Property(PropId(number as u32));
        put_spared(
            &mut row,
            problem,
            closure,
            &mut looks,
            problem.chains_to(property),
        );
    }
    Ok(row)
}
