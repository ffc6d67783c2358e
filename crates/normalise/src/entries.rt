//! Forms in a row, each with what gave it.
ghost use Rattle.normal_forms.specs.StoredForms.{origin_of};
ghost use Rattle.std.specs.Prelude.{◌≡◌, [], ◌∷◌, ◌++◌, IfOk, OnErr, OnOk, length, map, option_map, slice_get};
ghost use Rattle.normalise.specs.Entries.{form_in, origin_in};

use axioms::Memory;
use normal_forms::{Form, FormList, Origin, SharedList, StoredOrigin};
use std::alloc::Global;
use std::marker::Model;

/// A form with what gave it.
#[derive(Clone, Copy)]
pub struct Entry {
    pub form: Form,
    pub origin: Origin,
}

/// Forms, each with what gave it. The forms alone are a list too.
pub(crate) struct Entries {
    forms: FormList,
    // as many
    origins: SharedList<StoredOrigin>,
}

// A value is let go by one call, where each way out would else let each field go.
impl Drop for Entries {
    fn drop(self) {
        let Entries {
            forms: _,
            origins: _,
        } = self;
    }
}

impl Model for Entries {
    ghost use Rattle.normal_forms.specs.StoredForms.{origin_of};
    ghost use Rattle.std.specs.Prelude.{◌≡◌, List, length, map};
    ghost use Rattle.normalise.specs.declared.entries.Entry.{Entry};
    ghost use Rattle.normalise.specs.Entries.{paired};

    ghost Value = { List Entry };

    ghost view = { λ e. paired e.forms (map origin_of e.origins.items) };

    ghost invariant = { λ e. length e.origins.items ≡ length e.forms };
}

fn origin_at(origins: &SharedList<StoredOrigin>, place: usize) -> Option<Origin>
    ensures { result ≡ slice_get (map origin_of origins.now.items) place }
{
    let origin = origins.get(place)?;
    Some(origin.get())
}

impl Entries {
    // None.
    pub(crate) fn new(alloc: Global) -> Entries
        ensures { result ≡ [] }
    {
        Entries {
            forms: FormList::new(alloc),
            origins: SharedList::new(alloc),
        }
    }

    pub(crate) fn forms(&self) -> &FormList
        ensures { result.now ≡ map form_in self.now }
    {
        &self.forms
    }

    // What gave the form at that place.
    pub(crate) fn origin(&self, place: usize) -> Option<Origin>
        ensures { result ≡ option_map origin_in (slice_get self.now place) }
    {
        origin_at(&self.origins, place)
    }

    // Adds a form.
    pub(crate) fn push(&mut self, entry: Entry) -> Result<(), Memory>
        ensures ok { OnOk result (self.new ≡ self.old ++ entry ∷ []) }
        ensures err { OnErr result (self.new ≡ self.old) }
    {
        let Some(origin) = StoredOrigin::new(entry.origin) else {
            return Err(Memory);
        };
        self.origins.reserve()?;
        self.forms.push(entry.form)?;
        self.origins.push_reserved(origin);
        Ok(())
    }

    // These forms, and the others behind them. What is shared is in the same memory, while few stand behind it.
    pub(crate) fn joined(&self, more: Entries) -> Result<Entries, Memory>
        ensures { IfOk result (λ e. e ≡ self.now ++ more) }
    {
        let Entries { forms, origins } = more;
        let forms = self.forms.joined(forms)?;
        let origins = self.origins.joined(origins)?;
        Ok(Entries { forms, origins })
    }

    // The same.
    pub(crate) fn copy(&self) -> Result<Entries, Memory>
        ensures { IfOk result (λ e. e ≡ self.now) }
    {
        let forms = self.forms.copy()?;
        let origins = self.origins.copy()?;
        Ok(Entries { forms, origins })
    }

    // The same, so that copies are in the same memory.
    pub(crate) fn share(self) -> Entries
        ensures { result ≡ self }
    {
        let Entries { forms, origins } = self;
        Entries {
            forms: forms.share(),
            origins: origins.share(),
        }
    }
}
