//! How many forms have each key.
ghost use Rattle.std.specs.Prelude.{List, OnOk, IfOk, length};
ghost use Rattle.normal_forms.specs.declared.forms.Form.{Form as Form2};
ghost use Rattle.indexes.specs.Counts.{AreFormCounts, CountsForm};

use crate::key_counts::KeyCounts;
use crate::keys::Key;
use crate::named::{key_of_class, key_of_property};
use crate::roles::ByRole;
use normal_forms::{Form, FormList};
use std::alloc::{AllocError, Global};

/// Counts nothing.
fn nothing_counted(alloc: Global) -> ByRole<KeyCounts>
    ensures { (forms : List Form2) → AreFormCounts forms 0 result }
{
    ByRole {
        kinds: KeyCounts::new(alloc),
        alone: KeyCounts::new(alloc),
        first: KeyCounts::new(alloc),
        second: KeyCounts::new(alloc),
        fillers: KeyCounts::new(alloc),
        chains: KeyCounts::new(alloc),
        ends: KeyCounts::new(alloc),
        plain: KeyCounts::new(alloc),
        linked_first: KeyCounts::new(alloc),
        linked_second: KeyCounts::new(alloc),
        denied: KeyCounts::new(alloc),
    }
}

/// Counts one form more, by each key that it has. Fails where memory is refused, and where a key has 2^32 - 1.
#[inline(always)]
fn count(counts: &mut ByRole<KeyCounts>, form: Form) -> Result<(), AllocError>
    ensures { OnOk result (CountsForm counts.old counts.new form) }
{
    match form {
        Form::N1(a, _) | Form::N3(a, _, _) => counts.alone.add(key_of_class(a)),
        Form::N2(a, b, _) => {
            counts.first.add(key_of_class(a))?;
            counts.second.add(key_of_class(b))
        }
        Form::N4(_, a, _) => counts.fillers.add(key_of_class(a)),
        Form::N5(r, _) => counts.plain.add(Key::Whole(r.0)),
        Form::N6(r, s, _) => {
            counts.chains.add(key_of_property(r))?;
            counts.ends.add(key_of_property(s))
        }
        Form::N7(_) => counts.kinds.add(Key::Whole(1)),
        Form::N8(..) | Form::N9(..) => counts.kinds.add(Key::Whole(0)),
        Form::N10(a, b) => {
            counts.linked_first.add(Key::Whole(a.0))?;
            counts.linked_second.add(Key::Whole(b.0))
        }
        Form::N12(a, _, _) => counts.denied.add(Key::Whole(a.0)),
    }
}

/// How many of the forms have each key. Fails where memory is refused, and where 2^32 forms have one key.
pub(crate) fn counted(alloc: Global, forms: &FormList) -> Result<ByRole<KeyCounts>, AllocError>
    ensures { IfOk result (λ counts. AreFormCounts forms.now (length forms.now) counts) }
{
    let mut counts = nothing_counted(alloc);
    for number in 0..forms.len() {
        count(&mut counts, forms.at(number))?;
    }
    Ok(counts)
}
