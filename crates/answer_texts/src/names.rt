//! Names and numbers in texts.
ghost use Rattle.answer_texts.specs.Names.{name_text};
ghost use Rattle.axioms.specs.Ontology.{name_at};
ghost use Rattle.std.specs.Fmt.{decimal};
ghost use Rattle.std.specs.Prelude.{◌++◌, ◌≡◌, OnOk, map};
ghost use Rattle.std.specs.String.{string_bytes};

use itoa::Buffer;
use std::alloc::AllocError;

/// Adds the text and then the number.
pub(crate) fn push_number(out: &mut Vec<u8>, lead: &[u8], number: u64) -> Result<(), AllocError>
    ensures { OnOk result (out.new.items ≡ out.old.items ++ (lead.now ++ decimal number)) }
{
    let mut buffer = Buffer::new();
    out.extend_from_slice(lead)?;
    out.extend_from_slice(buffer.format(number).as_bytes())
}

/// The name of that number, or nothing where there is none.
pub(crate) fn name_of(names: &[String], n: usize) -> &str
    ensures { result.now ≡ name_at (map string_bytes names.now) n }
{
    match names.get(n) {
        Some(name) => name.as_str(),
        None => "",
    }
}

/// Adds the name of that number in angle brackets.
pub(crate) fn push_name(out: &mut Vec<u8>, names: &[String], n: usize) -> Result<(), AllocError>
    ensures { OnOk result (out.new.items ≡ out.old.items ++ name_text (name_at (map string_bytes names.now) n)) }
{
    out.extend_from_slice(b"<")?;
    out.extend_from_slice(name_of(names, n).as_bytes())?;
    out.extend_from_slice(b">")
}
