//! Which forms that are added are new.
ghost use Rattle.facts.specs.declared.contexts.Fact.{Fact as Fact2};
ghost use Rattle.saturate.specs.Requests.{AsksNothing, HasNewBelow, IsAskedByForm, NewFormAsks};
ghost use Rattle.std.specs.Prelude.{◌≡◌, ◌↔◌, Contains, IfOk, false, take, true};

use crate::earlier_forms::EarlierForms;
use axioms::Memory;
use indexes::IndexedProblem;
use normal_forms::{Form, FormList};
use std::alloc::Global;

/// Whether a form of this kind may ask for facts.
fn may_ask(form: Form) -> bool
    ensures { result ≡ false → AsksNothing form }
{
    !matches!(form, Form::N8(..) | Form::N9(..))
}

/// Whether the form may ask for facts, and no earlier form is equal to it.
fn may_ask_anew(earlier: &EarlierForms<'_>, form: Form) -> bool
    ensures yes { result ≡ true → ¬ Contains earlier.now form }
    ensures no { result ≡ false → ¬ Contains earlier.now form → AsksNothing form }
{
    may_ask(form) && !earlier.has(form)
}

/// Of the forms from that number on those that may ask for facts, and to which no earlier form is equal.
pub(crate) fn new_forms(
    alloc: Global,
    earlier: &IndexedProblem,
    forms: &FormList,
    from: usize,
) -> Result<FormList, Memory>
    requires { take from forms.now ≡ earlier.now.forms }
    ensures asked { IfOk result (λ new. (f : Fact2) → IsAskedByForm forms.now new f ↔ NewFormAsks earlier.now.forms forms.now f) }
    ensures below { IfOk result (HasNewBelow earlier.now.forms forms.now) }
{
    let earlier_forms = EarlierForms::of(alloc, earlier, forms.len().saturating_sub(from))?;
    let mut new = FormList::new(alloc);
    for number in from..forms.len() {
        let form = forms.at(number);
        if may_ask_anew(&earlier_forms, form) {
            new.push(form)?;
        }
    }
    Ok(new)
}
