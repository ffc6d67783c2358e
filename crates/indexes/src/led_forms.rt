//! What the forms of lists lead to, of which copies share what does not change.
ghost use Rattle.std.specs.Prelude.{◌≡◌, [], IfOk, length};
ghost use Rattle.indexes.specs.ListedForms.{led_at, AreChangedForms, AreListedForms};

use crate::changed_lists::{ChangedList, place_of};
use crate::form_lists::FormLists;
use crate::keys::Key;
use crate::listed_forms::{ListedForm, ListedForms, put_forms};
use normal_forms::FormList;
use number_sets::PackedLists;
use std::alloc::{AllocError, Global};
use std::rc::Rc;

/// For each number of lists its form: beside the lists that copies share those of the first so many forms, and beside those that have
/// changed, in the order of these, those of all.
#[derive(Drop)]
pub(crate) struct LedForms {
    pub shared: Rc<ListedForms>,
    /// How many forms are listed there.
    pub end: usize,
    pub changed: PackedLists<ListedForm>,
}

/// The forms of the numbers of lists that have changed. Fails where memory is refused.
fn forms_of(
    alloc: Global,
    forms: &FormList,
    lists: &[ChangedList],
) -> Result<PackedLists<ListedForm>, AllocError>
    ensures { IfOk result (λ changed. AreChangedForms forms.now lists.now changed) }
{
    let mut changed = PackedLists::new(alloc);
    let mut listed = Vec::new(alloc);
    for list in lists {
        put_forms(forms, list.numbers(), &mut listed)?;
        changed.push_list(&listed)?;
    }
    Ok(changed)
}

impl LedForms {
    /// The forms of all numbers of lists of which none has changed. Fails where memory is refused.
    pub(crate) fn of(alloc: Global, forms: &FormList, lists: &FormLists) -> Result<Self, AllocError>
        ensures shared { IfOk result (λ led. AreListedForms forms.now lists.now.shared.value led.shared.value) }
        ensures end { IfOk result (λ led. led.end ≡ length forms.now) }
        ensures changed { IfOk result (λ led. led.changed ≡ []) }
    {
        let listed = ListedForms::of(alloc, forms, lists.shared.as_ref())?;
        let Ok(shared) = Rc::new(alloc, listed) else {
            return Err(AllocError);
        };
        Ok(LedForms {
            shared,
            end: forms.len(),
            changed: PackedLists::new(alloc),
        })
    }

    /// The forms of all numbers of these lists, with those that are shared in the same memory. Fails where memory is refused.
    pub(crate) fn again(
        &self,
        alloc: Global,
        forms: &FormList,
        lists: &FormLists,
    ) -> Result<Self, AllocError>
        ensures shared { IfOk result (λ led. led.shared.value ≡ self.now.shared.value) }
        ensures end { IfOk result (λ led. led.end ≡ self.now.end) }
        ensures changed { IfOk result (λ led. AreChangedForms forms.now lists.now.changed.items led.changed) }
    {
        let changed = forms_of(alloc, forms, &lists.changed)?;
        Ok(LedForms {
            shared: self.shared.clone()?,
            end: self.end,
            changed,
        })
    }

    /// The forms of the list of the key, where for each number of the lists that are shared there is one, and for each list that has
    /// changed a list.
    #[inline(always)]
    pub(crate) fn at(&self, lists: &FormLists, key: Key) -> &[ListedForm]
        requires wholes { length self.now.shared.value.wholes.items ≡ length lists.now.shared.value.wholes.numbers.items }
        requires partials { length self.now.shared.value.partials.items ≡ length lists.now.shared.value.partials.numbers.items }
        requires changed { length self.now.changed ≡ length lists.now.changed.items }
        ensures { result.now ≡ led_at lists.now self.now key }
    {
        match place_of(&lists.changed, key) {
            Some(place) => self.changed.at(place),
            None => self.shared.as_ref().at(lists.shared.as_ref(), key),
        }
    }
}
