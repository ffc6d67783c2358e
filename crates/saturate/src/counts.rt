//! How many properties and prefixes of chains forms name.
ghost use Rattle.saturate.specs.Counts.{HasNames, HasProperty, IsMore, IsSmall};
ghost use Rattle.normal_forms.specs.declared.forms.Form.{Form as Form2};
ghost use Rattle.std.specs.Prelude.{◌≡◌, Contains};

use normal_forms::{Form, FormList, PropId2};
use property_closure::PropertyClosure;

/// A number of properties and one of prefixes of chains.
#[derive(Clone, Copy)]
pub(crate) struct Counts {
    pub properties: usize,
    pub partials: usize,
}

impl Counts {
    /// None.
    pub(crate) fn none() -> Counts
        ensures small { IsSmall result }
    {
        Counts {
            properties: 0,
            partials: 0,
        }
    }

    /// Those that the closure has.
    pub(crate) fn of(closure: &PropertyClosure) -> Counts
        ensures small { IsSmall result }
        ensures properties { result.properties ≡ closure.now.properties }
        ensures partials { result.partials ≡ closure.now.partials }
    {
        Counts {
            properties: closure.properties(),
            partials: closure.partials(),
        }
    }

    /// So many that the property is among them.
    fn with_property(self, property: PropId2) -> Counts
        requires { IsSmall self }
        ensures small { IsSmall result }
        ensures more { IsMore self result }
        ensures has { HasProperty result property }
    {
        match property {
            PropId2::Property(id) => Counts {
                properties: self.properties.max(id.index() + 1),
                partials: self.partials,
            },
            PropId2::Partial(number) => Counts {
                properties: self.properties,
                partials: self.partials.max(number as usize + 1),
            },
        }
    }

    /// So many that what the form names is among them.
    fn with_form(self, form: &Form) -> Counts
        requires { IsSmall self }
        ensures small { IsSmall result }
        ensures more { IsMore self result }
        ensures has { HasNames result form.now }
    {
        match *form {
            Form::N3(_, r, _) | Form::N7(r) | Form::N9(_, r, _) => {
                self.with_property(PropId2::Property(r))
            }
            Form::N5(r, s) => self
                .with_property(PropId2::Property(r))
                .with_property(PropId2::Property(s)),
            Form::N6(r, s, t) => self.with_property(r).with_property(s).with_property(t),
            _ => self,
        }
    }
}

/// So many more that what the forms name is among them.
pub(crate) fn counted(before: Counts, forms: &FormList) -> Counts
    requires { IsSmall before }
    ensures small { IsSmall result }
    ensures more { IsMore before result }
    ensures has { (form : Form2) → Contains forms.now form → HasNames result form }
{
    let mut counts = before;
    for number in 0..forms.len() {
        counts = counts.with_form(&forms.at(number));
    }
    counts
}
