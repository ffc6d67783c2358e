//! A list of forms.
ghost use Rattle.normal_forms.specs.Properties.{property_forms};
ghost use Rattle.std.specs.Prelude.{◌≡◌, ◌<◌, ◌++◌, ◌∷◌, [], IfOk, OnErr, OnOk, Some, length, slice_get};

use crate::forms::Form;
use crate::shared_list::SharedList;
use crate::stored::StoredForm;
use std::alloc::{AllocError, Global};
use std::marker::Model;

/// Normal forms in order, 16 bytes for each. Once they are shared, copies of the list have the same piece of memory, and lists that begin
/// with these forms have it too, while few stand behind them.
pub struct FormList {
    alloc: Global,
    forms: SharedList<StoredForm>,
}

// A value is let go by one call, where each way out would else let each field go.
impl Drop for FormList {
    fn drop(self) {
        let FormList { alloc: _, forms: _ } = self;
    }
}

impl Model for FormList {
    ghost use Rattle.normal_forms.specs.StoredForms.{form_of};
    ghost use Rattle.normal_forms.specs.declared.forms.Form.{Form};
    ghost use Rattle.std.specs.Prelude.{List, map};

    ghost Value = { List Form };

    ghost view = { λ l. map form_of l.forms.items };
}

impl FormList {
    /// No forms.
    pub fn new(alloc: Global) -> FormList
        ensures { result ≡ [] }
    {
        FormList {
            alloc,
            forms: SharedList::new(alloc),
        }
    }

    /// These forms. Fails where memory is refused.
    pub fn of(alloc: Global, forms: &[Form]) -> Result<FormList, AllocError>
        ensures { IfOk result (λ list. list ≡ forms.now) }
    {
        let mut list = FormList::new(alloc);
        for form in forms {
            list.push(*form)?;
        }
        Ok(list)
    }

    /// How many forms there are.
    pub fn len(&self) -> usize
        ensures { result ≡ length self.now }
    {
        self.forms.len()
    }

    /// The form of that number, counted from 0, if there is one.
    pub fn get(&self, number: usize) -> Option<Form>
        ensures { result ≡ slice_get self.now number }
    {
        let form = self.forms.get(number)?;
        Some(form.get())
    }

    /// The form of that number.
    #[inline(always)]
    pub fn at(&self, number: usize) -> Form
        requires { number < length self.now }
        ensures { slice_get self.now number ≡ Some result }
    {
        self.forms.at(number).get()
    }

    /// Those of the forms that are of properties alone. Fails where memory is refused.
    pub fn property_forms(&self) -> Result<Vec<Form>, AllocError>
        ensures { IfOk result (λ v. v.items ≡ property_forms self.now) }
    {
        let mut kept = Vec::new(self.alloc);
        for number in 0..self.forms.len() {
            let form = self.forms.at(number);
            if form.is_of_properties() {
                kept.push(form.get())?;
            }
        }
        Ok(kept)
    }

    /// Adds a form at the end. Fails where memory is refused, or there would be 2^64 forms; then nothing changes.
    pub fn push(&mut self, form: Form) -> Result<(), AllocError>
        ensures ok { OnOk result (self.new ≡ self.old ++ form ∷ []) }
        ensures err { OnErr result (self.new ≡ self.old) }
    {
        self.forms.push(StoredForm::new(form))
    }

    /// These forms, and behind them those of the other list. Where one of the two has none, the result has the memory of the other, this
    /// one's only where it is shared already; else what is shared already is in the same memory, while few forms stand behind it. Fails
    /// where memory is refused, or there would be 2^64 forms.
    pub fn joined(&self, more: FormList) -> Result<FormList, AllocError>
        ensures { IfOk result (λ all. all ≡ self.now ++ more) }
    {
        let FormList { alloc: _, forms } = more;
        let forms = self.forms.joined(forms)?;
        Ok(FormList {
            alloc: self.alloc,
            forms,
        })
    }

    /// The same forms, in the same memory where they are shared already. Fails where memory is refused.
    pub fn copy(&self) -> Result<FormList, AllocError>
        ensures { IfOk result (λ copy. copy ≡ self.now) }
    {
        let forms = self.forms.copy()?;
        Ok(FormList {
            alloc: self.alloc,
            forms,
        })
    }

    /// The same forms, so that copies of the list are in the same memory, or, where memory is refused, as they were.
    pub fn share(self) -> FormList
        ensures { result ≡ self }
    {
        let FormList { alloc, forms } = self;
        FormList {
            alloc,
            forms: forms.share(),
        }
    }
}
