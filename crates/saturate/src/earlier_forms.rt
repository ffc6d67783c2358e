//! The forms that were there before, to ask for one of them.
ghost use Rattle.saturate.specs.FormKeys.{AreKeysOf};
ghost use Rattle.std.specs.Prelude.{◌≡◌, ◌↔◌, Contains, IfOk, IfSome, IsTrue};

use crate::form_keys::{FormKey, has_key, keys_in_order};
use axioms::Memory;
use indexes::IndexedProblem;
use normal_forms::Form;
use std::alloc::Global;
use std::marker::Model;

/// Up to how many forms are sought in the lists of the problem, each of which may hold all its forms. For more the keys of the forms are
/// brought in order once. It decides nothing.
const FEW_FORMS: usize = 64;

/// .. and of how many forms of the problem for each that is sought: to bring all in order takes longer than to look into short lists. It
/// decides nothing.
const FORMS_FOR_EACH: usize = 256;

/// Up to how many forms are sought in the lists of a problem of so many.
fn most_in_lists(forms: usize) -> usize {
    FEW_FORMS.max(forms / FORMS_FOR_EACH)
}

/// The forms of a problem, to ask whether a form is one of them.
#[derive(Drop)]
pub(crate) struct EarlierForms<'a> {
    problem: &'a IndexedProblem,
    /// The keys of the forms in order, where many are asked for.
    keys: Option<Vec<FormKey>>,
}

impl<'a> Model for EarlierForms<'a> {
    ghost use Rattle.normal_forms.specs.declared.forms.Form.{Form as Form2};
    ghost use Rattle.saturate.specs.FormKeys.{AreKeysOf};
    ghost use Rattle.std.specs.Prelude.{IfSome, List};

    ghost Value = { List Form2 };

    ghost view = { λ e. e.problem.now.forms };

    ghost invariant = { λ e. IfSome e.keys (λ keys. AreKeysOf e.problem.now.forms keys.items) };
}

/// The keys of the problem's forms in order, where so many forms are asked for that it is worth it.
fn keys_for(
    alloc: Global,
    problem: &IndexedProblem,
    asked: usize,
) -> Result<Option<Vec<FormKey>>, Memory>
    ensures { IfOk result (λ keys. IfSome keys (λ keys. AreKeysOf problem.now.forms keys.items)) }
{
    if asked <= most_in_lists(problem.forms().len()) {
        return Ok(None);
    }
    Ok(Some(keys_in_order(alloc, problem.forms())?))
}

impl<'a> EarlierForms<'a> {
    /// The forms of the problem, of which so many will be asked for. Fails where memory is refused.
    pub(crate) fn of(
        alloc: Global,
        problem: &'a IndexedProblem,
        asked: usize,
    ) -> Result<EarlierForms<'a>, Memory>
        ensures { IfOk result (λ earlier. earlier ≡ problem.now.forms) }
    {
        let keys = keys_for(alloc, problem, asked)?;
        Ok(EarlierForms { problem, keys })
    }

    /// Whether one of the forms is equal to this one.
    pub(crate) fn has(&self, form: Form) -> bool
        ensures { IsTrue result ↔ Contains self.now form }
    {
        match &self.keys {
            Some(keys) => has_key(keys, form),
            None => self.problem.has(form),
        }
    }
}
